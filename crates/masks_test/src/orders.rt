// Masks of every K of an N, compared with those made from the order of its positions.
ghost use Rattle.std.specs.Prelude.{◌≤◌};

use crate::calls::{FILLER, right};
use crate::fields::position_at;
use std::io;
use test_tools::buffers::{Bytes, filled};
use test_tools::numbers::{least, one_if};
use test_tools::tally::{Count, sum};
use test_tools::texts::value_at;

// Calls with a buffer of N bytes and with one of up to eight more, whose tail stays.
fn run_mask(rt: &impl Print, n: usize, k: usize, mask: Bytes) -> io::Result<Count>
    requires { n ≤ 1024 }
{
    let exact = right(rt, n, k, n, 0, mask)?;
    let longer = right(rt, n, k, n + 1 + k % 8, 0, mask)?;
    Ok(Count {
        cases: 1,
        right: one_if(exact) + one_if(longer),
        calls: 2,
    })
}

// A line is order N POSITIONS. The mask of K is the one of K - 1 with one position more unfrozen.
pub fn run_order(rt: &impl Print, line: &[u8]) -> io::Result<Count> {
    let n = least(value_at(line, 1), 1024);
    // All positions frozen.
    let mut mask = filled(n, 1, FILLER);
    let mut count = run_mask(rt, n, 0, mask)?;
    for rank in 0..n {
        let p = position_at(line, rank);
        if p < 4112 {
            mask[p] = 0;
        }
        count = sum(count, run_mask(rt, n, rank + 1, mask)?);
    }
    Ok(count)
}
