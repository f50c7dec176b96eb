// Drawn captures, whose text is to be that of their frames decoded one by one.
ghost use Rattle.std.specs.Prelude.{◌≤◌};

use crate::cases::right_by_frames;
use std::io;
use test_tools::buffers::bytes;
use test_tools::numbers::{case_seed, length_of, next, one_if, seed_of};
use test_tools::tally::Count;
use test_tools::texts::{put, put_all};

// The captures of each N.
const DRAWN: usize = 32;

// ---- masks

// Styles: drawn positions with chance 1/2 and 1/8, a frozen front, and the ones of the index and the index below a threshold.
fn frozen(style: usize, n: usize, k: usize, threshold: usize, x: u32) -> bool
    requires { (1 ≤ n) × (n ≤ 1024) × (k ≤ 1024) }
{
    let ones = (usize::count_ones(k) % 16) as usize;
    match style {
        0 => x / 256 % 2 == 0,
        1 => x / 256 % 8 == 0,
        2 => k < threshold % (n + 1),
        _ => 128 * ones + k < threshold % 2048,
    }
}

// The byte of a position. Styles 4 to 7 freeze the positions of styles 0 to 3, to 1 with chance 1/2.
fn mask_byte(style: usize, n: usize, k: usize, threshold: usize, x: u32) -> u8
    requires { (1 ≤ n) × (n ≤ 1024) × (k ≤ 1024) }
{
    if !frozen(style % 4, n, k, threshold, x) {
        return 0;
    }
    if style < 4 {
        return 1;
    }
    if x / 65536 % 2 == 0 { 1 } else { 2 }
}

fn put_mask(out: &mut [u8], from: usize, stage: usize, style: usize, seed: u32) -> usize {
    let n = length_of(stage);
    let threshold = (seed / 16) as usize;
    let mut x = seed;
    let mut at = from;
    for k in 0..n {
        x = next(x);
        at = put(out, at, mask_byte(style, n, k, threshold, x));
    }
    at
}

// ---- frames

// The low 16 bits of a number, the low byte first.
fn put_word(out: &mut [u8], at: usize, n: u32) -> usize {
    let e = put(out, at, (n % 256) as u8);
    put(out, e, (n / 256 % 256) as u8)
}

// Styles: the whole range, from -3 to 3, zero and both ends, and the zero word with noise.
fn llr_size(style: u32, x: u32) -> u32
    ensures { result ≤ 32767 }
{
    let y = x / 256;
    match style {
        0 => y % 32768,
        1 => y % 4,
        2 => y % 3 / 2 * 32767,
        _ => 1 + y % 200,
    }
}

fn llr_negative(style: u32, x: u32) -> bool {
    if style == 3 { x % 8 == 0 } else { x % 2 == 0 }
}

// An LLR's 16 bits.
fn llr(style: u32, x: u32) -> u32 {
    let size = llr_size(style, x);
    if llr_negative(style, x) {
        65536 - size
    } else {
        size
    }
}

// One of eight drains, so that a drain has several frames.
fn put_frame(out: &mut [u8], from: usize, stage: usize, seed: u32) -> usize {
    let n = length_of(stage);
    let style = seed / 256 % 4;
    let e = put_word(out, from, seed / 4096 % 8 * 9);
    let mut at = put_word(out, e, 1 + seed / 262144 % 8);
    let mut x = seed;
    for _ in 0..n {
        x = next(x);
        at = put_word(out, at, llr(style, x));
    }
    at
}

// Each frame is drawn from a seed of its own.
fn put_frames(out: &mut [u8], stage: usize, count: u32, seed: u32) -> usize {
    let mut at = 0;
    for k in 0..count {
        at = put_frame(out, at, stage, seed_of(seed, k));
    }
    at
}

// ---- captures

// A number of the trailer; it has no more than 16 bits here.
fn put_long(out: &mut [u8], at: usize, n: u32) -> usize {
    let e = put_word(out, at, n);
    put_word(out, e, 0)
}

fn put_trailer(out: &mut [u8], at: usize, mask_at: usize, count: u32) -> usize {
    let a = put_all(out, at, b"DRN1");
    let b = put_long(out, a, (mask_at % 65536) as u32);
    let c = put_long(out, b, 0);
    put_long(out, c, count)
}

// Capture i of a stage, with up to 16 frames; answers its length.
fn put_capture(out: &mut [u8], stage: usize, i: usize) -> usize {
    let seed = case_seed(0, stage, i);
    let count = seed / 256 % 17;
    let mask_at = put_frames(out, stage, count, seed);
    let e = put_mask(out, mask_at, stage, i % 8, seed);
    put_trailer(out, e, mask_at, count)
}

fn run_drawn(rt: &impl Print, stage: usize, i: usize) -> io::Result<bool> {
    let mut capture = [0u8; 65600];
    let n = put_capture(&mut capture, stage, i);
    right_by_frames(rt, i, b"drawn", bytes(&capture, n))
}

// All drawn captures of a stage.
pub fn run_stage(rt: &impl Print, stage: usize) -> io::Result<Count> {
    let mut right = 0;
    for i in 0..DRAWN {
        right += one_if(run_drawn(rt, stage, i)?);
    }
    Ok(Count {
        cases: DRAWN,
        right,
        calls: DRAWN,
    })
}
