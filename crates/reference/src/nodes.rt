// Kinds of nodes, plans and cycles: a kind is found by trying the table's patterns position by position, and a plan is judged path
// by path and node by node.
// Kinds are numbered from 0 in the order of `pattern`, and 8 is none. Node p of a plan has the children 2p and 2p + 1.
ghost use Rattle.std.specs.Prelude.{◌≤◌};

use test_tools::buffers::Bytes;
use test_tools::numbers::{bit_if, length_of, minus, next};

const NO_KIND: u8 = 8;

// ---- kinds

// Whether position k of a node of the kind is frozen.
pub fn pattern(kind: u8, size: usize, k: usize) -> bool {
    match kind {
        0 => true,
        1 => false,
        2 => k < 1,
        3 => k < minus(size, 1),
        4 => k < 2,
        5 => k < minus(size, 2),
        6 => k < minus(size, 3),
        _ => k < 3,
    }
}

// The stage of a kind's least node.
pub fn least_stage(kind: u8) -> usize {
    match kind {
        0 | 1 => 0,
        2 | 3 => 1,
        4 | 5 => 2,
        _ => 3,
    }
}

// Whether the mask's positions from first on are those of a node of the kind. What a position is frozen to does not matter.
fn fits(mask: &[u8; 4112], first: usize, size: usize, kind: u8) -> bool
    requires { (first ≤ 1024) × (size ≤ 1024) }
{
    if size < length_of(least_stage(kind)) {
        return false;
    }
    mask[first..first + size]
        .iter()
        .enumerate()
        .all(|(k, byte)| (*byte != 0) == pattern(kind, size, k))
}

// The first kind that fits.
fn kind_of(mask: &[u8; 4112], first: usize, size: usize) -> u8
    requires { (first ≤ 1024) × (size ≤ 1024) }
{
    (0..NO_KIND)
        .find(|kind| fits(mask, first, size, *kind))
        .unwrap_or(NO_KIND)
}

// The kind of node p in a tree of the given stage.
fn kind_at(mask: &[u8; 4112], stage: usize, p: usize) -> u8 {
    let depth = 63 - (usize::leading_zeros(p) % 64) as usize;
    let t = minus(stage, depth) % 16;
    let first = minus(p << t, length_of(stage));
    kind_of(mask, first % 1024, length_of(t))
}

// The kinds of all nodes, at the places of their numbers.
pub fn find_kinds(mask: Bytes, stage: usize) -> Bytes {
    let mut kinds = [0u8; 4112];
    for p in 1..2 * length_of(stage) {
        kinds[p] = kind_at(&mask, stage, p);
    }
    kinds
}

// ---- plans

// The number of cuts on the path to a node, with 2 for two and more, from that on the path to its parent.
fn cuts_to(above: u8, cut: bool) -> u8 {
    if !cut {
        return above;
    }
    if above == 0 { 1 } else { 2 }
}

// Whether a plan of style 0 (planner's), 1 (leaf-only), 2 (each cut with chance 1/2) or 3 (1/8) cuts a node that no cut is above.
fn cuts(style: usize, leaf: bool, kind: u8, x: u32) -> bool {
    if leaf {
        return true;
    }
    if kind == NO_KIND {
        return false;
    }
    match style {
        0 => true,
        1 => false,
        2 => x / 256 % 2 == 0,
        _ => x / 256 % 8 == 0,
    }
}

// A plan of the style, to the front of `over`.
pub fn draw_plan(kinds: Bytes, stage: usize, style: usize, seed: u32, over: Bytes) -> Bytes {
    let n = length_of(stage);
    let mut plan = over;
    let mut paths = [0u8; 4112];
    let mut x = seed;
    plan[0] = 0;
    for p in 1..2 * n {
        x = next(x);
        let above = paths[p / 2];
        let cut = above == 0 && cuts(style, n <= p, kinds[p], x);
        paths[p] = cuts_to(above, cut);
        plan[p] = bit_if(cut);
    }
    plan
}

// What is found of a plan of 2N bytes of 0 and 1: whether it is allowed, and if it is, the cycles of one sweep and the numbers of cut
// nodes by kind.
#[derive(Drop)]
pub struct Judged {
    pub allowed: bool,
    pub cycles: u32,
    pub counts: [u32; 8],
}

// Whether a node is cut and of no kind, or a leaf whose path has not exactly one cut.
fn fails(kind: u8, cut: bool, leaf: bool, cuts: u8) -> bool {
    (cut && kind == NO_KIND) || (leaf && cuts != 1)
}

// The cycles that an allowed plan has for a node and for the edge from its parent.
fn node_cycles(kind: u8, cut: bool, root: bool, above: u8) -> u32 {
    if above != 0 {
        return 0;
    }
    if cut && kind < 2 {
        return 0;
    }
    if cut && 5 < kind {
        return if root { 4 } else { 6 };
    }
    if root { 2 } else { 4 }
}

// The counts with one more of a kind, if the node is cut.
fn counted(counts: [u32; 8], kind: u8, cut: bool) -> [u32; 8] {
    let mut next = counts;
    if cut && kind < 8 {
        let i = (kind % 8) as usize;
        next[i] = counts[i].wrapping_add(1);
    }
    next
}

// The findings with those of node p.
fn with_node(j: Judged, n: usize, p: usize, kind: u8, cut: bool, above: u8) -> Judged {
    let counts = j.counts;
    Judged {
        allowed: j.allowed && !fails(kind, cut, n <= p, cuts_to(above, cut)),
        cycles: j.cycles.wrapping_add(node_cycles(kind, cut, p == 1, above)),
        counts: counted(counts, kind, cut),
    }
}

pub fn judge(kinds: Bytes, stage: usize, plan: Bytes) -> Judged {
    let n = length_of(stage);
    let mut found = Judged {
        allowed: true,
        cycles: 0,
        counts: [0; 8],
    };
    let mut paths = [0u8; 4112];
    for p in 1..2 * n {
        let above = paths[p / 2];
        let cut = plan[p] == 1;
        paths[p] = cuts_to(above, cut);
        found = with_node(found, n, p, kinds[p], cut, above);
    }
    found
}
