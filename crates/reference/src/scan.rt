// SCAN walked to the last leaf, without recursion: the walk goes from leaf to leaf over the factor graph, as in the iterative
// formulation of the SCAN papers.
// A table has a column for each position and two rows for each stage, of nodes of 2 ^ stage positions: row `stage` has what was
// handed to the nodes, row `MESSAGES + stage` the messages that they keep.
ghost use Rattle.std.specs.Prelude.{◌*◌, ◌<◌, ◌≤◌};

use crate::outputs::Outputs;
use crate::values::{CERTAIN, box_of, hard_bit, soft_word, sum, with_sign};
use crate::words::read_word;
use test_tools::buffers::Bytes;
use test_tools::numbers::{least, length_of, minus};

type Table = [u64; 22528];

const MESSAGES: usize = 11;

fn place(row: usize, i: usize) -> usize
    ensures { result < 22528 }
{
    row % 22 * 1024 + i % 1024
}

fn at(table: &[u64; 22528], row: usize, i: usize) -> u64 {
    table[row % 22 * 1024 + i % 1024]
}

// ---- a node of size 2h, whose children are of size h and stage `child`

// A left place of the node has box(own, a + b), and a right one own + box(a, b). Here a was handed to the node and b is the message of
// its child, both at the other child's place k. What a child is handed has for `own` what was handed to the node, and the node's message the
// child's message.
fn combined(table: &[u64; 22528], own: usize, child: usize, i: usize) -> u64
    requires { child ≤ 10 }
{
    let h = length_of(child);
    let other = i ^ h;
    let own = at(table, own, i);
    let a = at(table, child + 1, other);
    let b = at(table, MESSAGES + child, other);
    if i & h == 0 {
        box_of(own, sum(a, b))
    } else {
        sum(own, box_of(a, b))
    }
}

// Row `to` at the positions from first to end, with `own` in row `from`.
fn fill(table: &mut [u64; 22528], from: usize, to: usize, child: usize, first: usize, end: usize)
    requires { (child ≤ 10) × (first ≤ end) × (end ≤ 2048) }
{
    for i in first..end {
        let p = place(to, i);
        table[p] = combined(table, from, child, i);
    }
}

// To the child whose first leaf is `leaf`, if there is one of this stage.
fn down(table: &mut [u64; 22528], child: usize, leaf: usize)
    requires { (child ≤ 10) × (leaf ≤ 1024) }
{
    let h = length_of(child);
    if leaf % h == 0 {
        fill(table, child + 1, child, child, leaf, leaf + h);
    }
}

// The message of the node that ends before position `end`, if there is one whose children are of this stage.
fn up(table: &mut [u64; 22528], child: usize, end: usize)
    requires { (child ≤ 10) × (end ≤ 1024) }
{
    let size = 2 * length_of(child);
    if end % size == 0 {
        fill(
            table,
            MESSAGES + child,
            MESSAGES + child + 1,
            child,
            minus(end, size),
            end,
        );
    }
}

// ---- from leaf to leaf

// Step k of the way to a leaf and on from it: down through the nodes that start there, then up through those that end there.
fn step(table: &mut [u64; 22528], stage: usize, leaf: usize, k: usize)
    requires { (stage ≤ 10) × (leaf < 1024) × (k < 2 * stage) }
{
    if k < stage {
        down(table, stage - 1 - k, leaf);
    } else {
        up(table, k - stage, leaf + 1);
    }
}

fn visit(table: &mut [u64; 22528], stage: usize, leaf: usize)
    requires { (stage ≤ 10) × (leaf < 1024) }
{
    for k in 0..2 * stage {
        step(table, stage, leaf, k);
    }
}

// All sweeps, leaf by leaf.
fn sweep(table: &mut [u64; 22528], stage: usize, sweeps: usize)
    requires { stage ≤ 10 }
{
    let n = length_of(stage);
    let leaves = sweeps << stage;
    for k in 0..leaves {
        visit(table, stage, k % n % 1024);
    }
}

// ---- a decode

// By the leaf's mask byte: 0 unfrozen, 1 frozen to 0, 2 frozen to 1.
fn leaf_message(byte: u8) -> u64 {
    if byte == 0 {
        0
    } else {
        with_sign(byte == 2, CERTAIN)
    }
}

// The LLRs to the root's row, and the leaves' messages. All other places are zero.
fn start(table: &mut [u64; 22528], mask: Bytes, values: [u64; 1024], stage: usize)
    requires { stage ≤ 10 }
{
    let n = length_of(stage);
    for i in 0..n {
        let p = place(stage, i);
        table[p] = values[i];
        let q = place(MESSAGES, i);
        table[q] = leaf_message(mask[i]);
    }
}

// Soft values and hard bits from the root's rows, to the front of the outputs.
fn read_root(table: &[u64; 22528], stage: usize, before: Outputs) -> Outputs
    requires { stage ≤ 10 }
{
    let n = length_of(stage);
    let mut soft = before.soft;
    let mut hard = before.hard;
    for i in 0..n {
        let message = at(table, MESSAGES + stage, i);
        let total = sum(at(table, stage, i), message);
        soft[i] = soft_word(message);
        hard[i] = hard_bit(total);
    }
    let payload = before.payload;
    Outputs {
        soft,
        hard,
        payload,
        check: before.check,
        undecided: before.undecided,
    }
}

// What a decode is to write to the front of the outputs, its frozen check and the number of undecided bits.
pub fn decode(
    mask: Bytes,
    values: [u64; 1024],
    stage: usize,
    sweeps: usize,
    before: Outputs,
) -> Outputs {
    let top = least(stage, 10);
    let mut table = [0u64; 22528];
    start(&mut table, mask, values, top);
    sweep(&mut table, top, sweeps);
    read_word(mask, length_of(top), read_root(&table, top, before))
}
