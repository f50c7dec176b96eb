// Parts of texts, fields of a line, the numbers in them, and texts put one behind another. A place outside a text gives an empty part, and what has no room
// is left out, so that no caller has an index to prove.
ghost use Rattle.std.specs.Prelude.{◌≤◌, max, length};

use crate::buffers::Bytes;
use crate::numbers::minus;

// The bytes from a to e.
pub fn part(s: &[u8], a: usize, e: usize) -> &[u8] {
    s.get(a..e).unwrap_or(&[])
}

// Where the first b stands, from a position on; the end if there is none. The library `fields` has one like it: a test does not use what it
// tests.
pub fn find(s: &[u8], from: usize, b: u8) -> usize
    ensures { (from ≤ result) × (result ≤ max from (length s.now)) }
{
    match s.get(from..) {
        Some(rest) => from + rest.iter().position(|x| *x == b).unwrap_or(rest.len()),
        None => from,
    }
}

// The value of a hexadecimal digit.
fn digit(b: u8) -> u8
    ensures { result ≤ 15 }
{
    match b {
        b'0'..=b'9' => b - b'0',
        b'a'..=b'f' => b - b'a' + 10,
        _ => 0,
    }
}

// The number of hexadecimal digits, below 2 ^ 32.
pub fn number(s: &[u8]) -> u32 {
    let mut n: u32 = 0;
    for b in s {
        n = n % 268435456 * 16 + u32::from(digit(*b));
    }
    n
}

// Hexadecimal digits as bytes, and fillers behind them.
pub fn digits_of(digits: &[u8], filler: u8) -> Bytes {
    let mut s = [filler; 4112];
    for (b, d) in s.iter_mut().zip(digits) {
        *b = digit(*d);
    }
    s
}

// ---- fields of a line

// Field k of a line, from 0 on; a space stands between two.
pub fn field(line: &[u8], k: usize) -> &[u8] {
    line.split(|b| *b == b' ').nth(k).unwrap_or(&[])
}

// The number of some digits: those before the last eight are its high half.
pub fn value(digits: &[u8]) -> usize {
    let high = number(part(digits, 0, minus(digits.len(), 8))) as usize;
    high * 4294967296 + number(digits) as usize
}

// The number in field k.
pub fn value_at(line: &[u8], k: usize) -> usize {
    value(field(line, k))
}

// ---- texts put one behind another

// Stores a byte, if there is room, and answers the place behind it.
pub fn put(s: &mut [u8], at: usize, b: u8) -> usize {
    if at < s.len() {
        s[at] = b;
        return at + 1;
    }
    at
}

// Stores a text.
pub fn put_all(s: &mut [u8], from: usize, text: &[u8]) -> usize {
    let mut at = from;
    for b in text {
        at = put(s, at, *b);
    }
    at
}
