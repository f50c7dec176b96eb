// A call of flip attempts on the first elements of buffers, and what it answered and left.
use attempts::Attempted;
use inputs::Refusal;
use test_tools::buffers::{Bytes, bytes, draw_words, lent_bytes, lent_words, shorts, words_stay};
use test_tools::numbers::least;

// What a payload buffer holds before a call; no payload has this byte.
pub const FILLER: u8 = b'#';

// The longest workspace, with words behind it.
const MOST_WORDS: usize = 13344;

// The words behind a lent workspace that are looked at.
const GUARD: usize = 16;

// The inputs of a call. The mask and the LLRs stand at the front of their buffers.
#[derive(Drop)]
pub struct Inputs {
    pub mask: Bytes,
    pub size: usize,
    pub sweeps: usize,
    pub attempts: usize,
    pub llrs: [i16; 1056],
    pub llr_count: usize,
}

// The lengths of the buffers that are lent to a call, how many words are to be zero after it, and the seed of the words before it.
#[derive(Clone, Copy)]
pub struct Lent {
    pub room: usize,
    pub words: usize,
    pub cleared: usize,
    pub seed: u32,
}

// The kind of an answer is the first letter of matched, unmatched or refused.
#[derive(Clone, Copy)]
pub struct Answer {
    pub kind: u8,
    pub number: u32,
}

// What a call answered and left. `work` says that its workspace is zero as far as it is to be, and unchanged elsewhere.
#[derive(Drop)]
pub struct Got {
    pub answer: Answer,
    pub payload: Bytes,
    pub work: bool,
}

// The library's answer as one of these.
fn answer_of(decoded: Result<Attempted, Refusal>) -> Answer {
    match decoded {
        Ok(Attempted::Matched(t)) => Answer {
            kind: b'm',
            number: t,
        },
        Ok(Attempted::Unmatched(made)) => Answer {
            kind: b'u',
            number: made,
        },
        Err(refusal) => Answer {
            kind: b'r',
            number: refusal.number(),
        },
    }
}

// The call with such buffers: the payload's holds fillers, the workspace drawn words.
pub fn called(inputs: Inputs, lent: Lent) -> Got {
    let mask = inputs.mask;
    let llrs = inputs.llrs;
    let drawn = least(lent.words, MOST_WORDS - GUARD) + GUARD;
    let mut payload = [FILLER; 4112];
    let mut work = [0i32; MOST_WORDS];
    draw_words(&mut work, drawn, lent.seed);
    let decoded = scan_flip::decode_flips(
        bytes(&mask, inputs.size),
        inputs.sweeps,
        inputs.attempts,
        shorts(&llrs, inputs.llr_count),
        lent_bytes(&mut payload, lent.room),
        lent_words(&mut work, lent.words),
    );
    Got {
        answer: answer_of(decoded),
        payload,
        work: words_stay(&work, lent.cleared, drawn, lent.seed),
    }
}
