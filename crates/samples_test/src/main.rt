// Compares the front end with LLRs that tools/samples_vectors.py worked out with whole-number fractions and wrote to standard input,
// and tries its refusals.
// Each line of the output has a group of cases, how many came out right, and how many there are. A case that does not come out right
// is printed with its numbers: `right(file, group, index)` runs it alone.
#![tactic(auto)]

mod calls;
mod cases;
mod vectors;

ghost use Rattle.std.specs.Prelude.{◌≤◌};

use std::io;
use test_tools::input::read_full;
use test_tools::numbers::one_if;
use test_tools::report::{report, shown};
use vectors::vector_at;

// Whether a case comes out right. Groups to 9 have the calls on 2, 4 and so on to 1024 vectors.
fn right(file: &[u8], group: usize, i: usize) -> bool
    requires { i ≤ 2049 }
{
    match group {
        10 => cases::llr_case(vector_at(file, i)),
        11 => cases::rounding_case(vector_at(file, 1792 + i)),
        12 => cases::refusal_case(file, i),
        13 => cases::length_case(i),
        _ => cases::call_case(file, group % 16 + 1, i),
    }
}

// The number of cases. Calls on up to 64 vectors use all 2048, and the first 1024, which share one variance, serve the others.
fn count_of(group: usize) -> usize
    ensures { result ≤ 2049 }
{
    match group {
        0 => 1024,
        1 => 512,
        2 => 256,
        3 => 128,
        4 => 64,
        5 => 32,
        6 => 8,
        7 => 4,
        8 => 2,
        9 => 1,
        10 => 2048,
        11 => 259,
        12 => 248,
        _ => 2049,
    }
}

fn report_group(rt: &impl Print, file: &[u8], group: usize) -> io::Result<()> {
    let count = count_of(group);
    let mut sum = 0;
    for i in 0..count {
        sum += one_if(shown(rt, right(file, group, i), group, i)?);
    }
    report(
        rt,
        b"N 2: |N 4: |N 8: |N 16: |N 32: |N 64: |N 128: |N 256: |N 512: |N 1024: |llr_of: |to_llr: |refusals: |lengths: ",
        group,
        sum,
        count,
    )
}

fn report_all(rt: &impl Print, file: &[u8]) -> io::Result<()> {
    for group in 0..14 {
        report_group(rt, file, group)?;
    }
    Ok(())
}

fn main(rt: HostRuntime) -> io::Result<()> {
    let mut file = [0u8; 66560];
    read_full(&mut rt.stdin(), &mut file)?;
    report_all(&rt, &file)
}
