// The call for a wanted distance, on the first bytes of a buffer that holds fillers.
ghost use Rattle.std.specs.Prelude.{◌≤◌};

use crate::calls::{FILLER, first_difference, mask_of, print_difference};
use inputs::Refusal;
use std::io;
use test_tools::buffers::{Bytes, lent_bytes};
use test_tools::numbers::minus;
use test_tools::report::print_values;

// An answer as one number: a refusal's own, 0 where there is no mask, 256 where one was written.
fn answer_of(outcome: Result<bool, Refusal>) -> u32 {
    match outcome {
        Ok(written) => 256 * u32::from(written),
        Err(refusal) => refusal.number(),
    }
}

// The numbers of a call, and what it answered and left.
#[derive(Drop)]
struct Answer {
    n: usize,
    k: usize,
    d: usize,
    room: usize,
    answer: u32,
    mask: Bytes,
}

fn called(n: usize, k: usize, d: usize, room: usize) -> Answer {
    let mut mask = [FILLER; 4112];
    let outcome = masks::mask_for_distance(n, k, d, lent_bytes(&mut mask, room));
    let answer = answer_of(outcome);
    Answer {
        n,
        k,
        d,
        room,
        answer,
        mask,
    }
}

// The call, both answers and the difference.
fn print_mismatch(
    rt: &impl Print,
    got: Answer,
    answer: u32,
    mask: Bytes,
    place: usize,
) -> io::Result<()> {
    let left = got.mask;
    let given = got.answer as usize;
    let wanted = answer as usize;
    print_values(
        rt,
        b"mismatch: N |, K |, distance |, buffer of | bytes: answer |, expected ",
        [got.n, got.k, got.d, got.room, given, wanted, 0, 0],
    )?;
    print_difference(rt, left, mask, place)
}

// Whether a call gives the answer and leaves the mask. Prints the call if not.
pub fn right_answer(
    rt: &impl Print,
    n: usize,
    k: usize,
    d: usize,
    room: usize,
    answer: u32,
    mask: Bytes,
) -> io::Result<bool> {
    let got = called(n, k, d, room);
    let left = got.mask;
    let place = first_difference(left, mask);
    if got.answer == answer && place == 4112 {
        return Ok(true);
    }
    print_mismatch(rt, got, answer, mask, place)?;
    Ok(false)
}

// N bytes, or up to seven more.
fn room_of(n: usize, k: usize) -> usize
    requires { n ≤ 1024 }
{
    n + minus(k, 1) % 8
}

// Whether the mask by row weight is written for a distance, and no byte behind it. Prints the call if not.
pub fn right_mask(rt: &impl Print, n: usize, k: usize, d: usize) -> io::Result<bool>
    requires { n ≤ 1024 }
{
    right_answer(rt, n, k, d, room_of(n, k), 256, mask_of(n, k))
}

// Whether there is no mask for a distance, and the buffer stays. Prints the call if not.
pub fn right_none(rt: &impl Print, n: usize, k: usize, d: usize) -> io::Result<bool>
    requires { n ≤ 1024 }
{
    right_answer(rt, n, k, d, room_of(n, k), 0, [FILLER; 4112])
}
