// The call for a mask from an erasure rate, on the first bytes of a buffer that holds fillers.
ghost use Rattle.std.specs.Prelude.{◌≤◌};

use crate::rates::float;
use std::io;
use test_tools::buffers::{Bytes, filled, lent_bytes, same_bytes};
use test_tools::numbers::{least, number_of, one_if};
use test_tools::report::{end_line, print_values};
use test_tools::tally::{Count, sum};
use test_tools::texts::{field, number, part, value_at};

// What a mask buffer holds before a call; no mask has this byte.
const FILLER: u8 = b'#';

// Whether a call with the rate of a bit pattern answers the number and leaves the mask. Prints the call if not.
fn right(
    rt: &impl Print,
    n: usize,
    k: usize,
    bits: usize,
    room: usize,
    number: u32,
    mask: Bytes,
) -> io::Result<bool> {
    let mut left = [FILLER; 4112];
    let answer = erasure::mask_by_erasure(n, k, float(bits as u64), lent_bytes(&mut left, room));
    let given = number_of(&answer);
    let same = given == number && same_bytes(left, mask);
    if !same {
        print_values(
            rt,
            b"mismatch: N |, K |, rate of bits |, buffer of | bytes: number |, expected ",
            [n, k, bits, room, given as usize, number as usize, 0, 0],
        )?;
        end_line(rt)?;
    }
    Ok(same)
}

// Calls with a buffer of N bytes and with one of up to eight more, whose tail stays.
fn run_mask(rt: &impl Print, n: usize, k: usize, bits: usize, mask: Bytes) -> io::Result<Count>
    requires { n ≤ 1024 }
{
    let exact = right(rt, n, k, bits, n, 0, mask)?;
    let longer = right(rt, n, k, bits, n + 1 + k % 8, 0, mask)?;
    Ok(Count {
        cases: 1,
        right: one_if(exact) + one_if(longer),
        calls: 2,
    })
}

// A line is order N Z POSITIONS. The mask of K is the one of K + 1 with one position more frozen.
pub fn run_order(rt: &impl Print, line: &[u8]) -> io::Result<Count> {
    let n = least(value_at(line, 1), 1024);
    let bits = value_at(line, 2);
    let positions = field(line, 3);
    // All positions unfrozen.
    let mut mask = filled(n, 0, FILLER);
    let mut count = run_mask(rt, n, n, bits, mask)?;
    for rank in 0..n {
        let p = number(part(positions, 3 * rank, 3 * rank + 3)) as usize;
        if p < 4112 {
            mask[p] = 1;
        }
        count = sum(count, run_mask(rt, n, n - rank - 1, bits, mask)?);
    }
    Ok(count)
}

// A line is call N K Z ROOM NUMBER. The buffer stays as it was.
pub fn run_call(rt: &impl Print, line: &[u8]) -> io::Result<Count> {
    let n = value_at(line, 1);
    let k = value_at(line, 2);
    let bits = value_at(line, 3);
    let room = value_at(line, 4);
    let number = (value_at(line, 5) % 256) as u32;
    Ok(Count {
        cases: 1,
        right: one_if(right(rt, n, k, bits, room, number, [FILLER; 4112])?),
        calls: 1,
    })
}
