// Compares words in the bit-reversed order with those of GNU Radio's polar encoder, which come on standard input (tools/gnuradio_vectors.py),
// and decodes LLRs with their signs in that order.
// Each line of the output has a group of cases, how many there are, and how many of their calls came out right; a call that does not is
// printed with its numbers.
#![tactic(auto)]

mod sent_words;

use sent_words::run_word;
use std::io;
use test_tools::buffers::bytes;
use test_tools::input::read_full;
use test_tools::tally::{report_count, run_cases};

fn main(rt: HostRuntime) -> io::Result<()> {
    let mut file = [0u8; 65536];
    let n = read_full(&mut rt.stdin(), &mut file)?;
    let t = run_cases(
        &rt,
        bytes(&file, n),
        |number, line| run_word(&rt, number, line),
    )?;
    report_count(&rt, b"all", t.total)
}
