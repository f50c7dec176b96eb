// Reads the program's line: the mask's digits, the sweeps, the LLRs.
#![tactic(auto)]

ghost use Rattle.std.specs.Prelude.{◌≡◌, true, map, ◌≤◌, length, drop, set, IfOk, IfSome};
ghost use Rattle.model.specs.Lists.{over};
ghost use Rattle.model.specs.Refusals.{is_llr};
ghost use Rattle.inputs.specs.Numbers.{number_of, of_accepted};
ghost use Rattle.fields.specs.Grammar.{fields, digit, read_line, read_fields};
ghost use Rattle.reader.specs.Answers.{count, line_number, line_size, line_sweeps, line_mask, line_llrs};
ghost use Rattle.reader.specs.Steps.{FirstFields, ReadLlrs, fields_number, parts_of, Fronts, Answered};

use fields::{digit_of, digits_only, read_number};
use inputs::{Refusal, at_most, exponent_of, is_llr, sweeps_fit};

// A line has at most this many bytes with its line feed.
const MAX_LINE: usize = 16384;

// Stores an LLR at k, if it is in range and there is room; answers whether it is in range.
fn store_llr(z: i32, llrs: &mut [i16], k: usize) -> bool
    ensures value { result ≡ is_llr z }
    ensures llrs_after { is_llr z ≡ true → llrs.new ≡ set llrs.old k z }
{
    if !is_llr(z) {
        return false;
    }
    if k < llrs.len() {
        llrs[k] = z as i16;
    }
    true
}

// The LLRs of a line: how many, and whether all are within ±32767.
#[derive(Clone, Copy)]
struct Llrs {
    count: usize,
    in_range: bool,
}

// Reads the fields behind the first two as LLRs, and stores them at the front of an array as far as there is room; nothing if one is no number.
fn read_llrs(line: &[u8], llrs: &mut [i16]) -> Option<Llrs>
    ensures { ReadLlrs (drop 2 (fields line.now)) llrs.old llrs.new result }
{
    let mut count = 0;
    let mut in_range = true;
    for field in line.split(|b| *b == b' ').skip(2) {
        let z = read_number(field)?;
        in_range &= store_llr(z, llrs, count);
        count += 1;
    }
    Some(Llrs { count, in_range })
}

// The first two fields of a line, if it has two.
fn first_fields(line: &[u8]) -> Option<(&[u8], &[u8])>
    ensures { FirstFields (fields line.now) result }
{
    let mut fields = line.split(|b| *b == b' ');
    Some((fields.next()?, fields.next()?))
}

// Sweeps as a count: 0 if they are negative.
fn sweep_count(sweeps: i32) -> usize
    ensures { result ≡ count sweeps }
{
    usize::try_from(sweeps).unwrap_or(0)
}

// What a well-formed line has: how many mask digits, whether they are mask bytes, the sweeps, how many LLRs, whether those are in range.
#[derive(Clone, Copy)]
struct Parts {
    digits: usize,
    bytes: bool,
    sweeps: usize,
    llrs: usize,
    in_range: bool,
}

// Reads a line without its line feed; nothing if it is malformed. The mask's digits are the line's first bytes, and LLRs that are in range go to the front of the array.
fn read_parts(line: &[u8], llrs: &mut [i16]) -> Option<Parts>
    ensures parts { result ≡ parts_of (read_fields (fields line.now)) }
    ensures fronts { IfSome result (λ p. Fronts line.now llrs.old llrs.new p.digits p.in_range) }
{
    let (mask, sweeps) = first_fields(line)?;
    if !digits_only(mask) {
        return None;
    }
    let sweeps = read_number(sweeps)?;
    let read = read_llrs(line, llrs)?;
    Some(Parts {
        digits: mask.len(),
        bytes: at_most(mask, b'2'),
        sweeps: sweep_count(sweeps),
        llrs: read.count,
        in_range: read.in_range,
    })
}

// What an accepted line has: N and the sweeps.
#[derive(Clone, Copy)]
pub struct Line {
    pub size: usize,
    pub sweeps: usize,
}

// Tests a well-formed line by its parts.
#[tactic(auto, unfolding(crate::specs::Steps::fields_number, model::specs::Refusals::refusal))]
fn test_parts(parts: Parts) -> Result<Line, Refusal>
    ensures number { number_of result ≡ fields_number parts.digits parts.bytes parts.sweeps parts.llrs parts.in_range }
    ensures line { IfOk result (λ r. (r.size ≡ parts.digits) × (r.sweeps ≡ parts.sweeps) × (r.size ≤ 1024)) }
{
    if exponent_of(parts.digits) == 0 {
        return Err(Refusal::Length);
    }
    if !parts.bytes {
        return Err(Refusal::MaskByte);
    }
    if parts.llrs != parts.digits {
        return Err(Refusal::Count);
    }
    if !sweeps_fit(parts.sweeps) {
        return Err(Refusal::Sweeps);
    }
    if !parts.in_range {
        return Err(Refusal::Llr);
    }
    Ok(Line {
        size: parts.digits,
        sweeps: parts.sweeps,
    })
}

// Stores the digits of the mask field at the front of a buffer.
fn store_digits(field: &[u8], mask: &mut [u8])
    requires { length field.now ≤ length mask.old }
    ensures { mask.new ≡ over (map digit field.now) mask.old }
{
    for (i, b) in field.iter().enumerate() {
        mask[i] = digit_of(*b);
    }
}

// Reads a line without its line feed, its LLRs into an array of its own: the lent buffers are touched only if the line is accepted.
fn read_fields(line: &[u8], mask: &mut [u8], llrs: &mut [i16]) -> Result<Line, Refusal>
    requires mask_room { 1024 ≤ length mask.old }
    requires llrs_room { 1024 ≤ length llrs.old }
    ensures answered { Answered (read_fields (fields line.now)) (number_of result) (of_accepted (λ r. r.size) result) (of_accepted (λ r. r.sweeps) result) }
    ensures mask_after { mask.new ≡ line_mask (read_fields (fields line.now)) mask.old }
    ensures llrs_after { llrs.new ≡ line_llrs (read_fields (fields line.now)) llrs.old }
{
    let mut read = [0i16; 1024];
    let parts = read_parts(line, &mut read).ok_or(Refusal::Line)?;
    let accepted = test_parts(parts)?;
    let size = accepted.size;
    store_digits(&line[..size], mask);
    llrs[..size].copy_from_slice(&read[..size]);
    Ok(accepted)
}

// Reads the line at the start of the bytes, and its mask and LLRs into the buffers' fronts. A refused line leaves the buffers as they were.
pub fn read_line(
    bytes: &[u8],
    mask: &mut [u8; 1024],
    llrs: &mut [i16; 1024],
) -> Result<Line, Refusal>
    ensures number { number_of result ≡ line_number (read_line bytes.now) }
    ensures size { of_accepted (λ r. r.size) result ≡ line_size (read_line bytes.now) }
    ensures sweeps { of_accepted (λ r. r.sweeps) result ≡ line_sweeps (read_line bytes.now) }
    ensures mask_after { mask.new ≡ line_mask (read_line bytes.now) mask.old }
    ensures llrs_after { llrs.new ≡ line_llrs (read_line bytes.now) llrs.old }
{
    let end = bytes
        .iter()
        .take(MAX_LINE)
        .position(|b| *b == b'\n')
        .ok_or(Refusal::Line)?;
    read_fields(&bytes[..end], mask, llrs)
}
