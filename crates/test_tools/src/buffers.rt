// Buffers of a fixed length, handed on by value: a caller has nothing to lend and no index to prove.
ghost use Rattle.std.specs.Prelude.{◌≤◌};

use crate::numbers::next;

// Twice 2056 bytes: a plan for a mask of any length that is tried.
pub type Bytes = [u8; 4112];

// A drawn byte below a limit, which is at most 256.
fn drawn(limit: u32, x: u32) -> u8
    requires { 1 ≤ limit }
{
    (x / 256 % limit % 256) as u8
}

// The first n bytes drawn below a limit; the others zero.
fn draw(limit: u32, n: usize, seed: u32) -> Bytes
    requires { 1 ≤ limit }
{
    let mut s = [0u8; 4112];
    let mut x = seed;
    for b in s.iter_mut().take(n) {
        x = next(x);
        *b = drawn(limit, x);
    }
    s
}

pub fn draw_bytes(n: usize, seed: u32) -> Bytes {
    draw(256, n, seed)
}

pub fn draw_bits(n: usize, seed: u32) -> Bytes {
    draw(2, n, seed)
}

// Bytes of a mask: unfrozen, frozen to 0 and frozen to 1.
pub fn draw_mask_bytes(n: usize, seed: u32) -> Bytes {
    draw(3, n, seed)
}

pub fn same_bytes(a: Bytes, b: Bytes) -> bool {
    a == b
}

// Whether the first n bytes are the same.
pub fn same_front(a: Bytes, b: Bytes, n: usize) -> bool {
    bytes(&a, n) == bytes(&b, n)
}

// ---- the first n elements

pub fn bytes(s: &[u8], n: usize) -> &[u8] {
    if n <= s.len() { &s[..n] } else { s }
}

pub fn shorts(s: &[i16], n: usize) -> &[i16] {
    if n <= s.len() { &s[..n] } else { s }
}

pub fn floats(s: &[f32], n: usize) -> &[f32] {
    if n <= s.len() { &s[..n] } else { s }
}

pub fn lent_bytes(s: &mut [u8], n: usize) -> &mut [u8] {
    if n <= s.len() { &mut s[..n] } else { s }
}

pub fn lent_shorts(s: &mut [i16], n: usize) -> &mut [i16] {
    if n <= s.len() { &mut s[..n] } else { s }
}

pub fn lent_words(s: &mut [i32], n: usize) -> &mut [i32] {
    if n <= s.len() { &mut s[..n] } else { s }
}

// ---- words

fn drawn_word(x: u32) -> i32 {
    (x % 2147483648) as i32
}

fn word_at(s: &[i32], i: usize) -> i32 {
    s.get(i).copied().unwrap_or(0)
}

// The first n words drawn; the others stay.
pub fn draw_words(s: &mut [i32], n: usize, seed: u32) {
    let mut x = seed;
    for word in s.iter_mut().take(n) {
        x = next(x);
        *word = drawn_word(x);
    }
}

fn left_word(cleared: bool, x: u32) -> i32 {
    if cleared { 0 } else { drawn_word(x) }
}

// Whether a call that was lent drawn words left the first `cleared` zero and those after them to n as they were.
pub fn words_stay(s: &[i32], cleared: usize, n: usize, seed: u32) -> bool {
    let mut x = seed;
    for i in 0..n {
        x = next(x);
        if word_at(s, i) != left_word(i < cleared, x) {
            return false;
        }
    }
    true
}

// Whether the first n words are there and the same.
pub fn same_words(a: &[i32], b: &[i32], n: usize) -> bool {
    n <= a.len() && n <= b.len() && a[..n] == b[..n]
}

// ---- reads and stores that do nothing outside a buffer

pub fn byte_at(s: &[u8], i: usize) -> u8 {
    s.get(i).copied().unwrap_or(0)
}

// The buffer with one byte changed.
pub fn with_byte(s: Bytes, i: usize, b: u8) -> Bytes {
    let mut t = s;
    if i < 4112 {
        t[i] = b;
    }
    t
}

// Eight bytes, and zeros behind them.
pub fn extended(front: [u8; 8]) -> Bytes {
    let mut s = [0u8; 4112];
    s[..8].copy_from_slice(&front);
    s
}

// ---- masks

// The first n bytes one value, and fillers behind them.
pub fn filled(n: usize, byte: u8, filler: u8) -> Bytes {
    let mut s = [filler; 4112];
    lent_bytes(&mut s, n).fill(byte);
    s
}

// How many of the first n positions are unfrozen.
pub fn unfrozen(mask: Bytes, n: usize) -> usize
    ensures { result ≤ n }
{
    mask.iter().take(n).filter(|b| **b == 0).count()
}
