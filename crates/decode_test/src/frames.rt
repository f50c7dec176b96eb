// Document 01's frames to the eighth, and frames with positions frozen to 1: the numbers there, from the library and from the reference.
use crate::accepted::try_case;
use reference::cases::{Case, mask_number};
use reference::outputs::Outputs;
use test_tools::buffers::{extended, same_front, same_words};
use test_tools::numbers::length_of;

const INF: i32 = 2147483647;

const MINUS_INF: i32 = -2147483647;

// A decode with the planner's plan.
#[derive(Clone, Copy)]
struct Frame {
    stage: usize,
    // The mask's bytes as decimal digits.
    mask: usize,
    // Twice the size of each, and one more if it is negative.
    llrs: [u8; 8],
    sweeps: usize,
    soft: [i32; 8],
    cycles: u32,
}

// A frame of 8 positions; the LLRs are those of the first frame.
fn eight(mask: usize, sweeps: usize, soft: [i32; 8], cycles: u32) -> Frame {
    Frame {
        stage: 3,
        mask,
        llrs: [6, 5, 10, 2, 8, 13, 4, 3],
        sweeps,
        soft,
        cycles,
    }
}

fn four(mask: usize, llrs: [u8; 4], sweeps: usize, soft: [i32; 4], cycles: u32) -> Frame {
    Frame {
        stage: 2,
        mask,
        llrs: [llrs[0], llrs[1], llrs[2], llrs[3], 0, 0, 0, 0],
        sweeps,
        soft: [soft[0], soft[1], soft[2], soft[3], 0, 0, 0, 0],
        cycles,
    }
}

// A frame of 2 positions and one sweep, with the LLRs 7 and -4.
fn two(mask: usize, soft: [i32; 2], cycles: u32) -> Frame {
    Frame {
        stage: 1,
        mask,
        llrs: [14, 9, 0, 0, 0, 0, 0, 0],
        sweeps: 1,
        soft: [soft[0], soft[1], 0, 0, 0, 0, 0, 0],
        cycles,
    }
}

// The frames, numbered from 0; those from 8 on have positions frozen to 1.
fn frame_at(i: usize) -> Frame {
    match i {
        0 => eight(11101000, 1, [3, -4, 2, -7, 3, -2, 4, -5], 10),
        1 => eight(11101000, 2, [3, -4, 2, -7, 3, -2, 4, -5], 20),
        2 => four(1011, [10, 7, 4, 2], 1, [-1, 2, INF, INF], 6),
        3 => four(1011, [10, 7, 4, 2], 2, [-3, 5, INF, INF], 12),
        4 => two(10, [-4, 7], 2),
        5 => four(1100, [2, 4, 6, 8], 1, [3, 4, 1, 2], 2),
        6 => two(11, [INF, INF], 0),
        7 => two(0, [0, 0], 0),
        8 => eight(21201000, 1, [-1, 0, -2, 1, -1, 0, -4, 3], 10),
        9 => eight(21200000, 1, [-1, 0, -2, -1, -1, 0, -4, 1], 4),
        10 => eight(12112000, 1, [-4, 6, 2, 0, -3, 2, 5, 2], 4),
        11 => eight(21121100, 1, [1, 8, -9, 5, 0, 0, 2, -5], 2),
        12 => four(1200, [2, 4, 6, 8], 1, [-3, -4, -1, -2], 2),
        13 => four(2110, [10, 7, 4, 2], 1, [0, -2, -7, -6], 2),
        14 => four(2000, [10, 7, 4, 2], 1, [1, -1, 1, 2], 2),
        15 => four(1012, [10, 7, 4, 2], 1, [1, -2, MINUS_INF, MINUS_INF], 6),
        16 => four(1012, [10, 7, 4, 2], 2, [-3, 5, MINUS_INF, MINUS_INF], 12),
        _ => two(21, [MINUS_INF, INF], 0),
    }
}

// Whether the first n soft values are those that are stated.
fn soft_right(out: Outputs, want: [i32; 8], n: usize) -> bool {
    let soft = out.soft;
    same_words(&soft, &want, n)
}

// The first two frames decode to the word 01010101 and its payload 0011, with no undecided bit.
fn line_right(out: Outputs) -> bool {
    let hard = out.hard;
    let payload = out.payload;
    let word = extended([0, 1, 0, 1, 0, 1, 0, 1]);
    let sent = extended([0, 0, 1, 1, 0, 0, 0, 0]);
    out.check == 1
        && out.undecided == 0
        && same_front(hard, word, 8)
        && same_front(payload, sent, 4)
}

// The case of a frame's mask and sweeps; it is given the LLRs.
fn case_of(f: Frame) -> Case {
    Case {
        stage: f.stage,
        mask: 18,
        detail: mask_number(length_of(f.stage), f.mask),
        ones: 0,
        plan: 0,
        llrs: 9,
        sweeps: f.sweeps,
        seed: 1,
    }
}

fn decode_frame(i: usize, f: Frame) -> bool {
    let llrs = f.llrs;
    let want = f.soft;
    let tried = try_case(case_of(f), extended(llrs));
    let out = tried.out;
    if !(tried.right && tried.cycles == f.cycles) {
        return false;
    }
    if !soft_right(out, want, length_of(f.stage)) {
        return false;
    }
    if i < 2 { line_right(out) } else { true }
}

// Whether a frame comes out as it is stated.
pub fn frame_case(i: usize) -> bool {
    decode_frame(i, frame_at(i))
}
