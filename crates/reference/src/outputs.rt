// What a decode writes, and the frozen check and the number of undecided bits that it answers.
use test_tools::buffers::{Bytes, draw_bytes, draw_words};

#[derive(Clone, Copy, PartialEq)]
pub struct Outputs {
    pub soft: [i32; 2056],
    pub hard: Bytes,
    pub payload: Bytes,
    pub check: u8,
    pub undecided: usize,
}

// Buffers with n drawn elements each, check 0 and no undecided bit.
pub fn draw_outputs(n: usize, seed: u32) -> Outputs {
    let mut soft = [0i32; 2056];
    draw_words(&mut soft, n, seed);
    Outputs {
        soft,
        hard: draw_bytes(n, seed),
        payload: draw_bytes(n, seed),
        check: 0,
        undecided: 0,
    }
}
