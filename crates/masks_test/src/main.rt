// Compares the masks by row weight with those made from the orders of tools/mask_vectors.py, which come on standard input with calls
// that are refused, and the row weights with the ones of transformed unit vectors.
// Compares the answers of the call for a wanted distance, at every N and K, with the largest distance that has a mask by the same orders
// and, for N to 16, by all words of all masks; there also each mask's least weight with the least row weight of its positions.
// Each line of the output has a group of cases, how many there are, and how many of their calls came out right; a call that does not is
// printed with its numbers.
#![tactic(auto)]

mod all_masks;
mod calls;
mod distances;
mod edges;
mod fields;
mod orders;
mod refusals;
mod weights;

use all_masks::run_all;
use edges::run_edges;
use orders::run_order;
use refusals::{run_call, run_distance};
use std::io;
use test_tools::buffers::bytes;
use test_tools::input::read_full;
use test_tools::tally::{Count, end_group, report_count, run_cases, with_count};
use weights::{run_along, run_weights};

// A case: an order for masks or for weights, exponents for distances, an N whose masks are all tried, or a refused call.
fn run_case(rt: &impl Print, line: &[u8]) -> io::Result<Count> {
    match line.first() {
        Some(b'o') => run_order(rt, line),
        Some(b'w') => run_along(rt, line),
        Some(b'e') => run_edges(rt, line),
        Some(b'a') => run_all(rt, line),
        Some(b'd') => run_distance(rt, line),
        _ => run_call(rt, line),
    }
}

fn main(rt: HostRuntime) -> io::Result<()> {
    let mut file = [0u8; 65536];
    let n = read_full(&mut rt.stdin(), &mut file)?;
    let t = run_cases(&rt, bytes(&file, n), |_, line| run_case(&rt, line))?;
    let all = end_group(
        &rt,
        with_count(t, run_weights(&rt)?),
        b"weights of the rows",
    )?;
    report_count(&rt, b"all", all.total)
}
