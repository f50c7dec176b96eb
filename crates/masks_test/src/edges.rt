// Every K of an N, at the largest distance that has a mask and far from it.
ghost use Rattle.std.specs.Prelude.{◌≤◌};

use crate::distances::{right_mask, right_none};
use crate::fields::exponent_at;
use std::io;
use test_tools::numbers::{least, length_of, one_if};
use test_tools::tally::{Count, sum, zero};
use test_tools::texts::value_at;

// A mask is there for d and for 1, and none for d + 1, for 2 ^ 32 and for 2 ^ 64 - 1.
fn run_edge(rt: &impl Print, n: usize, k: usize, d: usize) -> io::Result<Count>
    requires { (n ≤ 1024) × (d ≤ 1024) }
{
    let near = one_if(right_mask(rt, n, k, d)?) + one_if(right_none(rt, n, k, d + 1)?);
    let low = one_if(right_mask(rt, n, k, 1)?);
    let high = one_if(right_none(rt, n, k, 4294967296)?)
        + one_if(right_none(rt, n, k, 18446744073709551615)?);
    Ok(Count {
        cases: 1,
        right: near + low + high,
        calls: 5,
    })
}

// A line is edges N EXPONENTS.
pub fn run_edges(rt: &impl Print, line: &[u8]) -> io::Result<Count> {
    let n = least(value_at(line, 1), 1024);
    let mut count = zero();
    for k in 1..=n {
        count = sum(count, run_edge(rt, n, k, length_of(exponent_at(line, k)))?);
    }
    Ok(count)
}
