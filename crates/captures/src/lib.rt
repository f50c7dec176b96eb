// Captures, which a replay reads: their 16-bit numbers, their trailer, and the LLRs of a frame.
#![tactic(auto)]

ghost use Rattle.std.specs.Prelude.{◌≡◌, ◌+◌, ◌*◌, ◌≤◌, length};
ghost use Rattle.model.specs.Lists.{tabulate, same, part, over};
ghost use Rattle.model.specs.Captures.{number_of as number_of_bytes, number16_at, signed16, signature};
ghost use Rattle.inputs.specs.Numbers.{number_of, of_accepted};
ghost use Rattle.captures.specs.Layouts.{LaidOut, Placed, fits};

use inputs::Refusal;

// The bytes of the trailer, and the most bytes of a capture.
const TRAILER_SIZE: usize = 16;

const MAX_CAPTURE: usize = 65536;

// A 16-bit number of a capture, the low byte first. The compiled code loads both bytes at once.
pub fn number16_at(bytes: &[u8], at: usize) -> usize
    requires { at + 2 ≤ length bytes.now }
    ensures { result ≡ number16_at bytes.now at }
{
    u16::from_le_bytes([bytes[at], bytes[at + 1]]) as usize
}

// A 32-bit number, the low byte first.
fn number32_at(bytes: &[u8], at: usize) -> u32
    requires { at + 4 ≤ length bytes.now }
    ensures { result ≡ number_of_bytes (part bytes.now at 4) }
{
    u32::from_le_bytes([bytes[at], bytes[at + 1], bytes[at + 2], bytes[at + 3]])
}

// Whether the four bytes 44 52 4E 31, hexadecimal, stand at `at`.
fn has_signature(bytes: &[u8], at: usize) -> bool
    requires { at + 4 ≤ length bytes.now }
    ensures { result ≡ same (part bytes.now at 4) signature }
{
    bytes[at..].starts_with(b"DRN1")
}

// What the trailer says: the mask's offset and size, and the number of frames.
#[derive(Clone, Copy)]
pub struct Layout {
    pub mask_at: usize,
    pub size: usize,
    pub count: usize,
}

// The layout by the trailer's numbers, where `end` bytes stand before the trailer.
fn layout_of(
    trailer: bool,
    end: usize,
    mask: usize,
    first: u32,
    count: u32,
) -> Result<Layout, Refusal>
    requires { end ≤ 65536 }
    ensures { Placed (fits trailer end mask first count) end mask count (number_of result) (of_accepted (λ l. l.mask_at) result) (of_accepted (λ l. l.size) result) (of_accepted (λ l. l.count) result) }
{
    let count = count as usize;
    if !trailer || first != 0 || end < mask || count * (4 + 2 * (end - mask)) != mask {
        return Err(Refusal::Capture);
    }
    Ok(Layout {
        mask_at: mask,
        size: end - mask,
        count,
    })
}

// The layout of a capture.
pub fn read_layout(bytes: &[u8]) -> Result<Layout, Refusal>
    ensures { LaidOut bytes.now (number_of result) (of_accepted (λ l. l.mask_at) result) (of_accepted (λ l. l.size) result) (of_accepted (λ l. l.count) result) }
{
    if bytes.len() < TRAILER_SIZE || MAX_CAPTURE < bytes.len() {
        return Err(Refusal::Capture);
    }
    let end = bytes.len() - TRAILER_SIZE;
    let trailer = has_signature(bytes, end);
    let mask = number32_at(bytes, end + 4) as usize;
    let first = number32_at(bytes, end + 8);
    let count = number32_at(bytes, end + 12);
    layout_of(trailer, end, mask, first, count)
}

// An LLR of a capture: a 16-bit number with its sign, which from 32768 on is negative.
fn llr_at(bytes: &[u8], at: usize) -> i16
    requires { at + 2 ≤ length bytes.now }
    ensures { result ≡ signed16 (number16_at bytes.now at) }
{
    u16::from_le_bytes([bytes[at], bytes[at + 1]]).cast_signed()
}

// The LLRs of a frame: `size` 16-bit numbers from `at` on, into the front of llrs. It compiles to a copy of 32 bytes at a time.
pub fn read_llrs(bytes: &[u8], at: usize, size: usize, llrs: &mut [i16])
    requires { (at + 2 * size ≤ length bytes.now) × (size ≤ length llrs.old) }
    ensures { llrs.new ≡ over (tabulate size (λ k. signed16 (number16_at bytes.now (at + 2 * k)))) llrs.old }
{
    for k in 0..size {
        llrs[k] = llr_at(bytes, at + 2 * k);
    }
}
