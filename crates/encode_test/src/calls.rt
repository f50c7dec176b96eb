// The calls under test, on the first bytes of buffers.
use test_tools::buffers::{Bytes, bytes, lent_bytes};
use test_tools::numbers::number_of;

// The number that a call answered, and the buffer that it was lent.
#[derive(Drop)]
pub struct Answer {
    pub number: u32,
    pub word: Bytes,
}

pub fn encode_front(
    mask: Bytes,
    n: usize,
    payload: Bytes,
    k: usize,
    before: Bytes,
    room: usize,
) -> Answer {
    let mut word = before;
    let answer = encode::encode(
        bytes(&mask, n),
        bytes(&payload, k),
        lent_bytes(&mut word, room),
    );
    Answer {
        number: number_of(&answer),
        word,
    }
}

pub fn transform_front(before: Bytes, n: usize) -> Answer {
    let mut word = before;
    let answer = transform::transform(lent_bytes(&mut word, n));
    Answer {
        number: number_of(&answer),
        word,
    }
}
