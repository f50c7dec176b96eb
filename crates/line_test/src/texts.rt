// The texts of the file of cases, in which \n is a line feed, \xHH a byte, and \(COUNT)TEXT; the text so many times, with a hexadecimal
// count.
ghost use Rattle.std.specs.Prelude.{◌+◌, ◌<◌, ◌≤◌, length};

use test_tools::buffers::byte_at;
use test_tools::texts::{find, number, part, put, put_all};

// Stores a text so many times.
fn put_times(s: &mut [u8], from: usize, text: &[u8], count: u32) -> usize {
    let mut at = from;
    for _ in 0..count {
        at = put_all(s, at, text);
    }
    at
}

// What stands at a place of a text in the file: `count` times the part from `from` to `end`, or one byte if the count is 0; and the place
// behind it.
#[derive(Clone, Copy)]
struct Token {
    byte: u8,
    from: usize,
    end: usize,
    count: u32,
    rest: usize,
}

fn byte_token(byte: u8, rest: usize) -> Token
    ensures { rest ≤ result.rest }
{
    Token {
        byte,
        from: 0,
        end: 0,
        count: 0,
        rest,
    }
}

// \(COUNT)TEXT; from its count on.
fn repeated_token(s: &[u8], at: usize) -> Token
    requires { at ≤ length s.now + 1 }
    ensures { at < result.rest }
{
    let a = find(s, at, b')');
    let e = find(s, a + 1, b';');
    Token {
        byte: 0,
        from: a + 1,
        end: e,
        count: number(part(s, at, a)),
        rest: e + 1,
    }
}

// What a backslash and the byte at a place stand for.
fn escaped_token(s: &[u8], at: usize) -> Token
    requires { at ≤ length s.now }
    ensures { at < result.rest }
{
    match byte_at(s, at) {
        b'n' => byte_token(b'\n', at + 1),
        b'x' => byte_token((number(part(s, at + 1, at + 3)) % 256) as u8, at + 3),
        _ => repeated_token(s, at + 1),
    }
}

fn token_at(s: &[u8], at: usize) -> Token
    requires { at < length s.now }
    ensures { at < result.rest }
{
    let b = s[at];
    if b == b'\\' {
        escaped_token(s, at + 1)
    } else {
        byte_token(b, at + 1)
    }
}

// Stores what a token stands for, and answers the place behind it.
fn put_token(out: &mut [u8], n: usize, s: &[u8], t: Token) -> usize {
    if t.count == 0 {
        put(out, n, t.byte)
    } else {
        put_times(out, n, part(s, t.from, t.end), t.count)
    }
}

// The bytes that a text of the file stands for; answers how many. `unpack` in replay_test is the same over pieces: one loop for both would
// be handed what reads a token and what stores it, which is no shorter than the loop.
fn unescape(s: &[u8], out: &mut [u8]) -> usize {
    let mut n = 0;
    let mut at = 0;
    // No `for`: a token says itself where the next one begins.
    while at < s.len() {
        let t = token_at(s, at);
        n = put_token(out, n, s, t);
        at = t.rest;
    }
    n
}

// ---- texts by value

#[derive(Clone, Copy, PartialEq)]
pub struct Text {
    pub bytes: [u8; 20480],
    pub length: usize,
}

pub fn text_of(s: &[u8]) -> Text {
    let mut bytes = [0u8; 20480];
    let length = unescape(s, &mut bytes);
    Text { bytes, length }
}
