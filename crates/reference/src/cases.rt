// Cases: their numbers, and the mask and LLRs drawn from them.
ghost use Rattle.std.specs.Prelude.{◌≤◌};

use crate::nodes::{least_stage, pattern};
use crate::values::{short, with_sign};
use test_tools::buffers::Bytes;
use test_tools::numbers::{length_of, next};

// A case. The numbers determine it whole.
#[derive(Clone, Copy)]
pub struct Case {
    // N is 2 ^ stage.
    pub stage: usize,
    // Style of the mask, 0 to 18, and its argument: the stage of a structured node (10 to 17), or the mask as a number (18), whose lowest
    // digit in base three is the first position.
    pub mask: usize,
    pub detail: usize,
    // Style of what frozen positions are frozen to, 0 to 3; a mask as a number says it itself.
    pub ones: usize,
    // Style of the plan, 0 to 3 (see nodes.rt).
    pub plan: usize,
    // Style of the LLRs, 0 to 9.
    pub llrs: usize,
    pub sweeps: usize,
    pub seed: u32,
}

// ---- masks

// Styles 0 to 4: no position frozen, all, and drawn ones with chance 1/2, 1/8 and 7/8.
fn drawn_frozen(style: usize, x: u32) -> bool {
    match style {
        0 => false,
        1 => true,
        2 => x / 256 % 2 == 0,
        3 => x / 256 % 8 == 0,
        _ => x / 256 % 8 != 0,
    }
}

// Styles 5 to 9, by a rule with a threshold: the number of ones in the index and then the index, a mix of both, a frozen front,
// a frozen end, and stripes.
fn ruled_frozen(style: usize, stage: usize, i: usize, threshold: usize) -> bool
    requires { i ≤ 1024 }
{
    let n = length_of(stage);
    let most = stage % 16;
    let ones = (usize::count_ones(i) % 16) as usize;
    match style {
        5 => ones * 1024 + i < threshold % (most * 1024 + n),
        6 => ones * 128 + i < threshold % (most * 128 + n),
        7 => i < threshold % (n + 1),
        8 => threshold % (n + 1) <= i,
        _ => (i >> (threshold % 10)) % 2 == 1,
    }
}

// Styles 10 to 17: the node of 2 ^ detail positions around the threshold has the pattern of a kind, and the others are drawn.
fn node_frozen(kind: u8, size: usize, i: usize, threshold: usize, x: u32) -> bool {
    if size == 0 {
        return false;
    }
    if i / size == threshold / size {
        pattern(kind, size, i % size)
    } else {
        drawn_frozen(2, x)
    }
}

fn kind_of_style(style: usize) -> u8 {
    match style {
        10 => 0,
        11 => 1,
        12 => 2,
        13 => 3,
        14 => 4,
        15 => 5,
        16 => 6,
        _ => 7,
    }
}

fn node_size(kind: u8, detail: usize, stage: usize) -> usize {
    let low = least_stage(kind);
    if detail < low {
        return length_of(low);
    }
    if stage < detail {
        return length_of(stage);
    }
    length_of(detail)
}

// Whether a position of a mask of styles 0 to 17 is frozen.
fn frozen(c: Case, i: usize, x: u32) -> bool
    requires { i ≤ 1024 }
{
    let n = length_of(c.stage);
    let threshold = next(c.seed) as usize;
    if c.mask < 5 {
        return drawn_frozen(c.mask, x);
    }
    if c.mask < 10 {
        return ruled_frozen(c.mask, c.stage, i, threshold);
    }
    let kind = kind_of_style(c.mask);
    node_frozen(
        kind,
        node_size(kind, c.detail, c.stage),
        i,
        threshold % n,
        x,
    )
}

// The byte of a frozen position. Styles: frozen to 0, to 1 with chance 1/2 and 1/8, and to 1.
fn frozen_byte(ones: usize, x: u32) -> u8 {
    let y = x / 65536;
    let one = match ones {
        0 => false,
        1 => y % 2 == 0,
        2 => y % 8 == 0,
        _ => true,
    };
    if one { 2 } else { 1 }
}

// The byte of position i, of a number's mask from the number with the digits before it cut off.
fn mask_byte(c: Case, i: usize, number: usize, x: u32) -> u8
    requires { i ≤ 1024 }
{
    if c.mask == 18 {
        return (number % 3) as u8;
    }
    if frozen(c, i, x) {
        frozen_byte(c.ones, x)
    } else {
        0
    }
}

pub fn draw_mask(c: Case) -> Bytes {
    let n = length_of(c.stage);
    let mut mask = [0u8; 4112];
    let mut number = c.detail;
    let mut x = c.seed;
    for (i, byte) in mask[..n].iter_mut().enumerate() {
        x = next(x);
        *byte = mask_byte(c, i, number, x);
        number /= 3;
    }
    mask
}

// The number of a mask of n positions, to 8, whose bytes are decimal digits, the first position's first.
pub fn mask_number(n: usize, digits: usize) -> usize {
    let mut number = 0;
    let mut rest = digits;
    for _ in 0..n.min(8) {
        number = number % 2187 * 3 + rest % 10 % 3;
        rest /= 10;
    }
    number
}

// ---- LLRs

// Styles: 0 all zero, 1 all at the upper end, 2 all at the lower end, 3 the whole range, 4 from -3 to 3, 5 zero and both ends,
// 6 the zero word with noise, 7 powers of two, 8 sizes from 1 with the signs of a word, 9 the given ones: a byte is twice the size, and
// one more for a negative LLR.
fn llr_size(style: usize, given: u8, x: u32) -> u32 {
    let y = x / 256;
    match style {
        0 => 0,
        1 | 2 => 32767,
        3 => y % 32768,
        4 => y % 4,
        5 => y % 3 / 2 * 32767,
        6 => 1 + y % 200,
        7 => 1 << (y % 15),
        8 => 1 + y % 32767,
        _ => (given / 2) as u32,
    }
}

fn llr_negative(style: usize, given: u8, x: u32) -> bool {
    match style {
        1 => false,
        2 => true,
        6 => x % 8 == 0,
        8 | 9 => given % 2 == 1,
        _ => x % 2 == 0,
    }
}

fn llr(style: usize, given: u8, x: u32) -> u64 {
    with_sign(
        llr_negative(style, given, x),
        llr_size(style, given, x) as u64,
    )
}

// The N LLRs of a style, as values of the reference.
pub fn draw_llrs(style: usize, stage: usize, given: Bytes, seed: u32) -> [u64; 1024] {
    let n = length_of(stage);
    let mut llrs = [0u64; 1024];
    let mut x = seed;
    for (value, byte) in llrs[..n].iter_mut().zip(&given) {
        x = next(x);
        *value = llr(style, *byte, x);
    }
    llrs
}

// The 16-bit numbers of LLRs.
pub fn shorts(llrs: [u64; 1024]) -> [i16; 2056] {
    let mut s = [0i16; 2056];
    for (number, value) in s.iter_mut().zip(&llrs) {
        *number = short(*value);
    }
    s
}
