// Runs flip attempts on the calls of tools/flip_vectors.py, which come on standard input with the answers that the model there gives.
// A case is the call with exact and with longer buffers, each with two fillings of the workspace. Each line of the output has a group of
// cases, how many there are, and how many of their calls came out right; a call that does not is printed with its case.
#![tactic(auto)]

mod calls;
mod cases;

use cases::run_case;
use std::io;
use test_tools::buffers::bytes;
use test_tools::input::read_full;
use test_tools::tally::{report_count, run_cases};

fn main(rt: HostRuntime) -> io::Result<()> {
    let mut file = [0u8; 131072];
    let n = read_full(&mut rt.stdin(), &mut file)?;
    let t = run_cases(
        &rt,
        bytes(&file, n),
        |number, line| run_case(&rt, number, line),
    )?;
    report_count(&rt, b"all", t.total)
}
