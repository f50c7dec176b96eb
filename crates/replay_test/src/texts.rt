// Texts by value, and the file's two ways to write: a comma for a line feed, and bytes in hexadecimal digits, in which (COUNT)DIGITS;
// stands for the digits so many times.
ghost use Rattle.std.specs.Prelude.{◌<◌, ◌≤◌, length};

use test_tools::texts::{find, number, part, put};

// What a buffer for a text holds before; no text has this byte.
pub const FILLER: u8 = b'#';

// More than the longest text.
#[derive(Clone, Copy, PartialEq)]
pub struct Text {
    pub bytes: [u8; 8192],
    pub length: usize,
}

fn line_byte(b: u8) -> u8 {
    if b == b',' { b'\n' } else { b }
}

// The text whose line feeds are commas in the file.
pub fn lines_of(s: &[u8]) -> Text {
    let mut bytes = [FILLER; 8192];
    let mut n = 0;
    for b in s {
        n = put(&mut bytes, n, line_byte(*b));
    }
    Text { bytes, length: n }
}

// ---- bytes in hexadecimal digits

// Two digits are a byte. A last digit that has no second one gives the byte 0, since `part` is empty there.
fn put_digits(out: &mut [u8], from: usize, digits: &[u8]) -> usize {
    let mut at = from;
    for pair in digits.chunks(2) {
        at = put(out, at, (number(part(pair, 0, 2)) % 256) as u8);
    }
    at
}

// The digits from `from` to `end`, so many times; and the place behind them in the file.
#[derive(Clone, Copy)]
struct Piece {
    from: usize,
    end: usize,
    count: u32,
    rest: usize,
}

// (COUNT)DIGITS; from its count on.
fn repeated_piece(s: &[u8], at: usize) -> Piece
    requires { at ≤ length s.now }
    ensures { at < result.rest }
{
    let a = find(s, at, b')');
    let e = find(s, a + 1, b';');
    Piece {
        from: a + 1,
        end: e,
        count: number(part(s, at, a)),
        rest: e + 1,
    }
}

// What stands at a place: digits up to the next repeated ones, or these.
fn piece_at(s: &[u8], at: usize) -> Piece
    requires { at < length s.now }
    ensures { at < result.rest }
{
    if s[at] == b'(' {
        return repeated_piece(s, at + 1);
    }
    let e = find(s, at + 1, b'(');
    Piece {
        from: at,
        end: e,
        count: 1,
        rest: e,
    }
}

fn put_piece(out: &mut [u8], from: usize, s: &[u8], p: Piece) -> usize {
    let digits = part(s, p.from, p.end);
    let mut at = from;
    for _ in 0..p.count {
        at = put_digits(out, at, digits);
    }
    at
}

// The bytes that a text of the file stands for; answers how many. `unescape` in line_test is the same over tokens: one loop for both would
// be handed what reads a piece and what stores it, which is no shorter than the loop.
pub fn unpack(s: &[u8], out: &mut [u8]) -> usize {
    let mut n = 0;
    let mut at = 0;
    // No `for`: a piece says itself where the next one begins.
    while at < s.len() {
        let p = piece_at(s, at);
        n = put_piece(out, n, s, p);
        at = p.rest;
    }
    n
}
