// Prints into a buffer that the caller lends: the line program's answer, and refusals, bytes and numbers, which `replay` and `drains` print too. Text that has no room is left out.
#![tactic(auto)]

ghost use Rattle.std.specs.Prelude.{◌≡◌, [], ◌∷◌, map, ◌+◌, ◌*◌, ◌<◌, ◌≤◌, nat_abs, length};
ghost use Rattle.printer.specs.Text.{nat_text, size_text, soft_text, bit_text, bits_text, payload_text, spaced, ok_text, no_text, decoded};
ghost use Rattle.printer.specs.Put.{Put, Printed};
ghost use Rattle.model.specs.Soft.{soft_of};

use words::MARK_SIZE;

// One byte, if there is room. Each function answers where its text ends: a buffer of fixed size has no length of its own.
pub fn put_byte(b: u8, out: &mut [u8], at: usize) -> usize
    ensures { Put (b ∷ []) out.old at out.new result }
{
    if at < out.len() {
        out[at] = b;
        return at + 1;
    }
    at
}

// Bytes, as far as there is room.
fn put_text(text: &[u8], out: &mut [u8], at: usize) -> usize
    ensures { Put text.now out.old at out.new result }
{
    let mut end = at;
    for b in text {
        end = put_byte(*b, out, end);
    }
    end
}

// The digit of a number below 10.
fn glyph(d: u64) -> u8
    requires { d < 10 }
    ensures { result ≡ 48 + d }
{
    b'0' + (d as u8)
}

// A number in decimal.
pub fn put_digits(n: u64, out: &mut [u8], at: usize) -> usize
    ensures { Put (nat_text n) out.old at out.new result }
{
    if n < 10 {
        return put_byte(glyph(n), out, at);
    }
    let e = put_digits(n / 10, out, at);
    put_byte(glyph(n % 10), out, e)
}

// The size of a soft value by that of its word.
fn put_size(n: u32, out: &mut [u8], at: usize) -> usize
    ensures { Put (size_text n) out.old at out.new result }
{
    if n == MARK_SIZE {
        return put_text(b"inf", out, at);
    }
    put_digits(n as u64, out, at)
}

// A soft value by its word, behind a space; it has at most 11 bytes.
fn put_soft(z: i32, out: &mut [u8], at: usize) -> usize
    ensures put { Put (32 ∷ soft_text (soft_of z)) out.old at out.new result }
    ensures few { length (soft_text (soft_of z)) ≤ 11 }
{
    let n = z.unsigned_abs();
    let e = put_byte(b' ', out, at);
    if z < 0 {
        let f = put_byte(b'-', out, e);
        return put_size(n, out, f);
    }
    put_size(n, out, e)
}

// Soft values by their words, each behind a space.
fn put_softs(soft: &[i32], out: &mut [u8], at: usize) -> usize
    ensures put { Put (spaced (map soft_text (map soft_of soft.now))) out.old at out.new result }
    ensures soft_len_bound { length (spaced (map soft_text (map soft_of soft.now))) ≤ 12 * length soft.now }
{
    let mut end = at;
    for z in soft {
        end = put_soft(*z, out, end);
    }
    end
}

fn bit_glyph(b: u8) -> u8
    ensures { result ≡ bit_text b }
{
    match b {
        0 => b'0',
        2 => b'2',
        _ => b'1',
    }
}

// Bits behind a space.
fn put_bits(bits: &[u8], out: &mut [u8], at: usize) -> usize
    ensures { Put (32 ∷ bits_text bits.now) out.old at out.new result }
{
    let mut end = put_byte(b' ', out, at);
    for b in bits {
        end = put_byte(bit_glyph(*b), out, end);
    }
    end
}

// The payload behind a space.
fn put_payload(bits: &[u8], out: &mut [u8], at: usize) -> usize
    ensures { Put (32 ∷ payload_text bits.now) out.old at out.new result }
{
    if bits.is_empty() {
        return put_text(b" -", out, at);
    }
    put_bits(bits, out, at)
}

// The line of an accepted decode, by the words of its soft values, from the buffer's start on; answers its length.
pub fn print_decoded(
    cycles: u32,
    soft: &[i32],
    hard: &[u8],
    payload: &[u8],
    check: u8,
    undecided: u16,
    out: &mut [u8],
) -> usize
    ensures { Printed (ok_text cycles (decoded (map soft_of soft.now) hard.now payload.now check undecided)) (12 * length soft.now + length hard.now + length payload.now + 25) out.old out.new result }
{
    let a = put_text(b"ok ", out, 0);
    let b = put_digits(cycles as u64, out, a);
    let c = put_softs(soft, out, b);
    let d = put_bits(hard, out, c);
    let e = put_payload(payload, out, d);
    let f = put_text(&[b' ', bit_glyph(check), b' '], out, e);
    let g = put_digits(undecided as u64, out, f);
    put_byte(b'\n', out, g)
}

// The line of a refusal, from the buffer's start on; answers its length.
pub fn print_refusal(number: u32, out: &mut [u8]) -> usize
    ensures { Printed (no_text number) 14 out.old out.new result }
{
    let a = put_text(b"no ", out, 0);
    let b = put_digits(number as u64, out, a);
    put_byte(b'\n', out, b)
}
