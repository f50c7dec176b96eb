// The call under test, on the first elements of buffers.
use samples::Channel;
use test_tools::buffers::{Bytes, bytes, floats, lent_shorts};
use test_tools::numbers::number_of;

// What an output buffer holds before a call; no LLR is this low.
pub const FILLER: i16 = -32768;

// The number that a call answered, and the buffer that it was lent.
#[derive(Drop)]
pub struct Answer {
    pub number: u32,
    pub llrs: [i16; 2056],
}

// A call on the first n samples and m marks, with room for so many LLRs.
pub fn convert(
    samples: [f32; 2056],
    n: usize,
    marks: Bytes,
    m: usize,
    channel: Channel,
    room: usize,
) -> Answer {
    let mut llrs = [FILLER; 2056];
    let answer = samples::samples_to_llrs(
        floats(&samples, n),
        bytes(&marks, m),
        channel,
        lent_shorts(&mut llrs, room),
    );
    Answer {
        number: number_of(&answer),
        llrs,
    }
}
