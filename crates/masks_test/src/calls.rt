// The call for a mask by row weight, on the first bytes of a buffer that holds fillers.
use std::io;
use test_tools::buffers::{Bytes, byte_at, lent_bytes};
use test_tools::numbers::number_of;
use test_tools::report::{end_line, print_values};

// What a mask buffer holds before a call; no mask has this byte.
pub const FILLER: u8 = b'#';

// The numbers of a call, and what it answered and left.
#[derive(Drop)]
struct Answer {
    n: usize,
    k: usize,
    room: usize,
    number: u32,
    mask: Bytes,
}

fn called(n: usize, k: usize, room: usize) -> Answer {
    let mut mask = [FILLER; 4112];
    let answer = masks::mask_by_weight(n, k, lent_bytes(&mut mask, room));
    Answer {
        n,
        k,
        room,
        number: number_of(&answer),
        mask,
    }
}

// The buffer after a call with its first N bytes.
pub fn mask_of(n: usize, k: usize) -> Bytes {
    let got = called(n, k, n);
    got.mask
}

// The first place with different bytes; 4112 where there is none.
pub fn first_difference(a: Bytes, b: Bytes) -> usize {
    a.iter().zip(&b).position(|(x, y)| *x != *y).unwrap_or(4112)
}

// The place with different bytes, if there is one, and the end of the line.
pub fn print_difference(rt: &impl Print, left: Bytes, mask: Bytes, place: usize) -> io::Result<()> {
    if place < 4112 {
        let a = byte_at(&left, place) as usize;
        let b = byte_at(&mask, place) as usize;
        print_values(
            rt,
            b"; byte | is |, expected ",
            [place, a, b, 0, 0, 0, 0, 0],
        )?;
    }
    end_line(rt)
}

// The call, both numbers and the difference.
fn print_mismatch(
    rt: &impl Print,
    got: Answer,
    number: u32,
    mask: Bytes,
    place: usize,
) -> io::Result<()> {
    let left = got.mask;
    let answer = got.number as usize;
    let wanted = number as usize;
    print_values(
        rt,
        b"mismatch: N |, K |, buffer of | bytes: number |, expected ",
        [got.n, got.k, got.room, answer, wanted, 0, 0, 0],
    )?;
    print_difference(rt, left, mask, place)
}

// Whether a call answers the number and leaves the mask. Prints the call if not.
pub fn right(
    rt: &impl Print,
    n: usize,
    k: usize,
    room: usize,
    number: u32,
    mask: Bytes,
) -> io::Result<bool> {
    let got = called(n, k, room);
    let left = got.mask;
    let place = first_difference(left, mask);
    if got.number == number && place == 4112 {
        return Ok(true);
    }
    print_mismatch(rt, got, number, mask, place)?;
    Ok(false)
}
