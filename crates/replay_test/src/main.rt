// Runs the replay program's function on the captures of tools/capture_vectors.py, which come on standard input with the texts that the
// model there gives, and on drawn captures. The text of an accepted capture is compared with that of its frames decoded one by one.
// Each line of the output has a group of cases, how many there are, and how many of their calls came out right; a call that does not is
// printed with its case.
#![tactic(auto)]

mod cases;
mod drawn;
mod single;
mod texts;

use cases::run_case;
use drawn::run_stage;
use std::io;
use test_tools::buffers::bytes;
use test_tools::input::read_full;
use test_tools::tally::{Tally, end_group, report_count, run_cases, with_count};

// The drawn captures of all N, as one group more.
fn run_drawn(rt: &impl Print, before: Tally) -> io::Result<Tally> {
    let mut t = before;
    for stage in 1..=10 {
        t = with_count(t, run_stage(rt, stage)?);
    }
    end_group(rt, t, b"drawn, N 2 to 1024")
}

fn main(rt: HostRuntime) -> io::Result<()> {
    let mut file = [0u8; 262144];
    let n = read_full(&mut rt.stdin(), &mut file)?;
    let given = run_cases(
        &rt,
        bytes(&file, n),
        |number, record| run_case(&rt, number, record),
    )?;
    let all = run_drawn(&rt, given)?;
    report_count(&rt, b"all", all.total)
}
