// Small functions of numbers, and pseudo-random numbers.
ghost use Rattle.std.specs.Prelude.{◌≡◌, ◌≤◌, max};
ghost use Rattle.inputs.specs.Numbers.{number_of};

use inputs::Refusal;

// The number of a call's answer, by which expected values name a refusal: 0 where the call was accepted.
pub fn number_of<T>(answer: &Result<T, Refusal>) -> u32
    ensures { result ≡ number_of answer.now }
{
    match answer {
        Ok(_) => 0,
        Err(refusal) => refusal.number(),
    }
}

// 2 ^ stage, for a stage to 10.
pub fn length_of(stage: usize) -> usize
    ensures { (1 ≤ result) × (result ≤ 1024) }
{
    match stage {
        0 => 1,
        1 => 2,
        2 => 4,
        3 => 8,
        4 => 16,
        5 => 32,
        6 => 64,
        7 => 128,
        8 => 256,
        9 => 512,
        _ => 1024,
    }
}

// Whether n is an allowed N.
pub fn is_length(n: usize) -> bool {
    matches!(n, 2 | 4 | 8 | 16 | 32 | 64 | 128 | 256 | 512 | 1024)
}

// a - b, or 0 below it.
pub fn minus(a: usize, b: usize) -> usize
    ensures { result ≤ a }
{
    a.saturating_sub(b)
}

pub fn least(a: usize, b: usize) -> usize
    ensures { (result ≤ a) × (result ≤ b) }
{
    a.min(b)
}

pub fn choose(first: bool, a: usize, b: usize) -> usize
    ensures { result ≤ max a b }
{
    if first { a } else { b }
}

pub fn choose_byte(first: bool, a: u8, b: u8) -> u8 {
    if first { a } else { b }
}

pub fn bit_if(b: bool) -> u8 {
    u8::from(b)
}

pub fn one_if(b: bool) -> usize
    ensures { result ≤ 1 }
{
    usize::from(b)
}

// A 16-bit number as a signed one: from 32768 on it is negative. A larger number counts as 65535.
pub fn signed(n: usize) -> i16 {
    (n.min(65535) as u16).cast_signed()
}

// The next pseudo-random number (xorshift).
pub fn next(x: u32) -> u32 {
    let a = x ^ (x << 13);
    let b = a ^ (a >> 17);
    b ^ (b << 5)
}

// A seed of its own for each pair of small numbers.
pub fn seed_of(a: u32, b: u32) -> u32 {
    next(next(next(next(2463534242 ^ (a << 20)) ^ b)))
}

// The seed of case i of a group at a stage.
pub fn case_seed(group: usize, stage: usize, i: usize) -> u32 {
    seed_of((group % 16 * 16 + stage % 16) as u32, (i % 1048576) as u32)
}
