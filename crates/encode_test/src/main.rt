// Compares the encoder and the transform with a plain matrix product over drawn inputs, and tries their refusals.
// Each line of the output has a group of cases, how many came out right, and how many there are. A case that does not come out right
// is printed with its numbers: `right(group, index)` runs it alone.
#![tactic(auto)]

mod calls;
mod cases;

use std::io;
use test_tools::numbers::{case_seed, length_of, one_if};
use test_tools::report::{report, shown};

// Whether a case comes out right. The cases of all N take turns.
fn right(group: usize, i: usize) -> bool {
    let seed = case_seed(group, 0, i);
    match group {
        0 => cases::frame_case(i),
        1 => cases::word_case(length_of(1 + i % 10), i / 10, seed),
        2 => cases::transform_case(length_of(1 + i % 10), seed),
        3 => cases::length_case(false, i, seed),
        4 => cases::length_case(true, i, seed),
        5 => cases::small_case(1 + i % 2, i / 2, i / 162, seed),
        _ => cases::refusal_case(length_of(2 + i % 9), i / 9, seed),
    }
}

fn report_group(rt: &impl Print, group: usize, count: usize) -> io::Result<()> {
    let mut sum = 0;
    for i in 0..count {
        sum += one_if(shown(rt, right(group, i), group, i)?);
    }
    report(
        rt,
        b"frames: |encode: |transform: |transform lengths: |mask lengths: |every mask and payload to N 4: |refusals: ",
        group,
        sum,
        count,
    )
}

fn main(rt: HostRuntime) -> io::Result<()> {
    report_group(&rt, 0, 2)?;
    report_group(&rt, 1, 2000)?;
    report_group(&rt, 2, 1000)?;
    report_group(&rt, 3, 2056)?;
    report_group(&rt, 4, 2056)?;
    report_group(&rt, 5, 2592)?;
    report_group(&rt, 6, 288)
}
