// The calls under test, on the first elements of buffers.
use decode::Decoded;
use inputs::Refusal;
use planner::Planned;
use reference::outputs::Outputs;
use test_tools::buffers::{Bytes, bytes, draw_words, lent_bytes, lent_words, shorts, words_stay};
use test_tools::numbers::{choose, number_of};

// The lengths that a decode is called with, and its sweeps.
#[derive(Clone, Copy)]
pub struct Lengths {
    pub mask: usize,
    pub plan: usize,
    pub sweeps: usize,
    pub llrs: usize,
    pub soft: usize,
    pub hard: usize,
    pub payload: usize,
    pub work: usize,
}

// What a decode answered and left. `work` says that its workspace, which had drawn words, is zero as far as it was used and unchanged
// elsewhere.
#[derive(Drop)]
pub struct Got {
    pub number: u32,
    pub cycles: u32,
    pub work: bool,
    pub out: Outputs,
}

fn decode_lent(
    lengths: Lengths,
    mask: &[u8],
    plan: &[u8],
    llrs: &[i16],
    soft: &mut [i32],
    hard: &mut [u8],
    payload: &mut [u8],
    work: &mut [i32],
) -> Result<Decoded, Refusal> {
    decode::decode(
        bytes(mask, lengths.mask),
        bytes(plan, lengths.plan),
        lengths.sweeps,
        shorts(llrs, lengths.llrs),
        lent_words(soft, lengths.soft),
        lent_bytes(hard, lengths.hard),
        lent_bytes(payload, lengths.payload),
        lent_words(work, lengths.work),
    )
}

// A decode that uses the first `used` words of its workspace, if it is accepted.
pub fn decode_front(
    lengths: Lengths,
    mask: Bytes,
    plan: Bytes,
    llrs: [i16; 2056],
    before: Outputs,
    used: usize,
    seed: u32,
) -> Got {
    let mut soft = before.soft;
    let mut hard = before.hard;
    let mut payload = before.payload;
    let mut work = [0i32; 13320];
    draw_words(&mut work, lengths.work, seed);
    let answer = decode_lent(
        lengths,
        &mask,
        &plan,
        &llrs,
        &mut soft,
        &mut hard,
        &mut payload,
        &mut work,
    );
    let cleared = choose(answer.is_ok(), used, 0);
    let decoded = answer.unwrap_or(Decoded {
        cycles: 0,
        check: 0,
        undecided: 0,
    });
    Got {
        number: number_of(&answer),
        cycles: decoded.cycles,
        work: words_stay(&work, cleared, lengths.work, seed),
        out: Outputs {
            soft,
            hard,
            payload,
            check: decoded.check,
            undecided: decoded.undecided as usize,
        },
    }
}

// What a planner's call answered and left; the counts of a refused call are 0.
#[derive(Drop)]
pub struct Plan {
    pub number: u32,
    pub counts: [u32; 8],
    pub plan: Bytes,
}

pub fn plan_front(mask: Bytes, n: usize, before: Bytes, room: usize) -> Plan {
    let mut plan = before;
    let answer = planner::plan_mask(bytes(&mask, n), lent_bytes(&mut plan, room));
    let none = [0u32; 8];
    let planned = answer.unwrap_or(Planned {
        counts: none,
        cycles: 0,
    });
    let counts = planned.counts;
    Plan {
        number: number_of(&answer),
        counts,
        plan,
    }
}

pub fn check_front(mask: Bytes, n: usize, plan: Bytes, size: usize) -> Result<u32, Refusal> {
    plans::check_plan(bytes(&mask, n), bytes(&plan, size))
}

// The payload's word to the front of a buffer, and whether it was written.
#[derive(Drop)]
pub struct Word {
    pub done: bool,
    pub word: Bytes,
}

pub fn encode_front(mask: Bytes, n: usize, payload: Bytes, k: usize, before: Bytes) -> Word {
    let mut word = before;
    let answer = encode::encode(
        bytes(&mask, n),
        bytes(&payload, k),
        lent_bytes(&mut word, n),
    );
    Word {
        done: answer.is_ok(),
        word,
    }
}
