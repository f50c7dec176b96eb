// Compares erasure rates with the exact fractions of tools/erasure_vectors.py, and the masks by them with those made from the orders there,
// which come on standard input with calls that are refused.
// Each line of the output has a group of cases, how many there are, and how many of their calls came out right; a call that does not is
// printed with its numbers.
#![tactic(auto)]

mod calls;
mod rates;

use calls::{run_call, run_order};
use rates::{run_floats, run_rates};
use std::io;
use test_tools::buffers::bytes;
use test_tools::input::read_full;
use test_tools::tally::{Count, report_count, run_cases};

// A case: rates near or equal to those of the line, an order for masks, or a refused call.
fn run_case(rt: &impl Print, line: &[u8]) -> io::Result<Count> {
    match line.first() {
        Some(b'r') => run_rates(rt, line),
        Some(b'f') => run_floats(rt, line),
        Some(b'o') => run_order(rt, line),
        _ => run_call(rt, line),
    }
}

fn main(rt: HostRuntime) -> io::Result<()> {
    let mut file = [0u8; 131072];
    let n = read_full(&mut rt.stdin(), &mut file)?;
    let t = run_cases(&rt, bytes(&file, n), |_, line| run_case(&rt, line))?;
    report_count(&rt, b"all", t.total)
}
