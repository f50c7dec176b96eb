// A pass: SCAN walked down to the unfrozen leaves over the lent workspace, which leaves their incoming values in row 0.
#![tactic(auto)]

ghost use Rattle.std.specs.Prelude.{◌≡◌, true, false, cond, ◌+◌, ◌*◌, ◌≤◌, ◌<◌, length};
ghost use Rattle.words.specs.Words.{Word, Words, Finite, Added, box_word, add_word, word, write};
ghost use Rattle.halves.specs.Halves.{box_at, box_plus, plus_box, Sums, FiniteBoxSums};
ghost use Rattle.scan.specs.Space.{FrozenWord};
ghost use Rattle.leaves.specs.Pass.{Room, Visited, Ready, Swept, Passable, Passed, all_frozen, leaf_word, two, TwoAt};

use by_list::message_by_list;
use combine::{leaves_high, leaves_low};
use halves::{left_list, right_list};
use inputs::UNFROZEN;
use scan::{is_frozen, load};
use words::{MARK, add_finite, add_words, fill, max_word, min_word};

// `box_words` of two words by themselves: the larger of the smaller one and the larger one negated. It takes fewer steps one after the other, where
// `box_words` takes fewer in all.
fn box_pair(a: i32, b: i32) -> i32
    requires { Word a × Word b }
    ensures { result ≡ box_word a b }
{
    let low = min_word(a, b);
    let high = max_word(a, b);
    max_word(low, -high)
}

// The incoming value of the left of two leaves, from the words of their node's list: box(first, second + the right leaf's message).
fn left_input(right: bool, first: i32, second: i32) -> i32
    requires { Word first × Word second }
    ensures { result ≡ box_word first (add_word second (leaf_word right)) }
{
    if right {
        first
    } else {
        box_pair(first, second)
    }
}

// The incoming value of the right one: box(first, the left leaf's message) + second.
fn right_input(left: bool, first: i32, second: i32) -> i32
    requires { Word first × Finite (box_word first (leaf_word left)) second }
    ensures { result ≡ add_word (box_word first (leaf_word left)) second }
{
    if left {
        add_finite(first, second)
    } else {
        second
    }
}

// w[d], w[d + 1] = p, q
fn store_two(w: &mut [i32], d: usize, p: i32, q: i32)
    requires { d + 2 ≤ length w.old }
    ensures { w.new ≡ write w.old d 2 (two p q) }
{
    w[d] = p;
    w[d + 1] = q;
}

// Two words side by side.
#[derive(Clone, Copy)]
struct Two {
    low: i32,
    high: i32,
}

// Visits the node of the leaves `from` and `from + 1`, whose incoming list has the words a and b: the leaves' incoming values, and its message, which it answers.
fn pair(
    work: &mut [i32],
    mask: &[u8],
    len: usize,
    from: usize,
    list: usize,
    first: bool,
    a: i32,
    b: i32,
) -> Two
    requires { Room mask.now len 1 2 from list first work.old × (a ≡ word work.old list) × (b ≡ word work.old (list + 1)) }
    ensures { Visited mask.now len 1 from list first work.old work.new × TwoAt work.new (len + from) result.low result.high }
{
    let left = is_frozen(mask[from]);
    let right = is_frozen(mask[from + 1]);
    store_two(work, from, left_input(right, a, b), right_input(left, a, b));
    let low = leaves_low(left, right, b);
    let high = leaves_high(left, right, a);
    store_two(work, len + from, low, high);
    Two { low, high }
}

// A word of the left child's incoming list: in the first sweep its sibling's message, which is 0 then, is not looked at.
fn left_value(first: bool, low: i32, high: i32, message: i32) -> i32
    requires { Word low × Word high × (first ≡ false → Added high message) }
    ensures { result ≡ cond first (box_word low high) (box_word low (add_word high message)) }
{
    if first {
        box_pair(low, high)
    } else {
        box_pair(low, add_words(high, message))
    }
}

// `halves::left_list` for two places; answers what it stores.
fn left_two(work: &mut [i32], first: bool, c: usize, x: usize, r: usize) -> Two
    requires r_bound { (r + 2 ≤ x) × (x + 4 ≤ c) × (c + 2 ≤ length work.old) }
    requires words { Words work.old x 2 × Words work.old (x + 2) 2 × (first ≡ false → Sums work.old (x + 2) r 2) }
    ensures work_after { work.new ≡ write work.old c 2 (cond first (box_at work.old x (x + 2)) (box_plus work.old x (x + 2) r)) }
    ensures two_at { TwoAt work.new c result.low result.high }
{
    let low = left_value(first, work[x], work[x + 2], work[r]);
    let high = left_value(first, work[x + 1], work[x + 3], work[r + 1]);
    store_two(work, c, low, high);
    Two { low, high }
}

// `halves::right_list` for two places, where the left child's message is p and q; answers what it stores.
fn right_two(work: &mut [i32], c: usize, x: usize, l: usize, p: i32, q: i32) -> Two
    requires l_bound { (l + 2 ≤ x) × (x + 4 ≤ c) × (c + 2 ≤ length work.old) × TwoAt work.old l p q }
    requires words { Words work.old x 2 × Words work.old l 2 × FiniteBoxSums work.old x l (x + 2) 2 }
    ensures work_after { work.new ≡ write work.old c 2 (plus_box work.old x l (x + 2)) }
    ensures two_at { TwoAt work.new c result.low result.high }
{
    let low = add_finite(box_pair(work[x], p), work[x + 2]);
    let high = add_finite(box_pair(work[x + 1], q), work[x + 3]);
    store_two(work, c, low, high);
    Two { low, high }
}

// Whether the `size` positions from `from` on are frozen. Of most nodes with an unfrozen position the last one is unfrozen, so it looks there first.
fn all_frozen(mask: &[u8], from: usize, size: usize) -> bool
    requires { from + size ≤ length mask.now }
    ensures { result ≡ all_frozen mask.now from size }
{
    mask[from..from + size]
        .iter()
        .rev()
        .all(|byte| *byte != UNFROZEN)
}

// Visits the node of the four leaves from `from` on, of which some are unfrozen. What one step stores is handed to the next one too, which then need not wait for it
// to be read back.
fn quad(work: &mut [i32], mask: &[u8], len: usize, from: usize, list: usize, first: bool)
    requires { Room mask.now len 2 4 from list first work.old × (all_frozen mask.now from 4 ≡ false) }
    ensures { Visited mask.now len 2 from list first work.old work.new }
{
    let m = 2 * len + from;
    let l = len + from;
    let r = l + 2;
    let c = list + 4;
    let a = left_two(work, first, c, list, r);
    let p = pair(work, mask, len, from, c, first, a.low, a.high);
    let b = right_two(work, c, list, l, p.low, p.high);
    pair(work, mask, len, from + 2, c, first, b.low, b.high);
    message_by_list(work, m, list, l, c, 2);
}

// Visits the node of stage `stage`, 2 or above, whose `size` positions are those from `from` on and whose incoming list is at `list`. The mask has `len`
// positions, and the message of stage u at position i is at u * len + i. In the first sweep no stored message is read before it is written. The message of a
// node whose positions are all frozen is ∞, and its leaves' incoming values are not asked for. Messages of the node and of its children are at m, l and r;
// a child's incoming list is made at c.
fn visit(
    work: &mut [i32],
    mask: &[u8],
    len: usize,
    stage: usize,
    size: usize,
    from: usize,
    list: usize,
    first: bool,
)
    requires { Room mask.now len stage size from list first work.old × (2 ≤ stage) }
    ensures { Visited mask.now len stage from list first work.old work.new }
{
    let m = stage * len + from;
    if all_frozen(mask, from, size) {
        fill(work, m, size, MARK);
        return;
    }
    if size == 4 {
        quad(work, mask, len, from, list, first);
        return;
    }
    let h = size / 2;
    let below = stage - 1;
    let l = below * len + from;
    let r = l + h;
    let c = list + size;
    let middle = from + h;
    left_list(work, first, c, list, r, h);
    visit(work, mask, len, below, h, from, c, first);
    right_list(work, false, c, list, l, h);
    visit(work, mask, len, below, h, middle, c, first);
    message_by_list(work, m, list, l, c, h);
}

// As many sweeps as `count` says, from the first on: visits of the root, whose incoming list stands past the rows.
fn sweeps(work: &mut [i32], mask: &[u8], len: usize, stage: usize, count: usize)
    requires { Ready mask.now len stage true work.old × (0 < count) }
    ensures { Swept mask.now len stage count work.old work.new }
{
    let list = len * (stage + 1);
    for k in 0..count {
        visit(work, mask, len, stage, len, 0, list, k == 0);
    }
}

// A pass: a fresh decode, which leaves the incoming values of the unfrozen leaves of its last sweep in row 0. Where some position is frozen to 1, `known` is the
// word of the frozen values, and the LLRs go in negated where it has a 1; without `ones` it is not read.
pub fn leaf_values(
    mask: &[u8],
    llrs: &[i16],
    known: &[u8],
    ones: bool,
    count: usize,
    len: usize,
    stage: usize,
    work: &mut [i32],
)
    requires passable { Passable mask.now llrs.now count len stage (length work.old) }
    requires frozen_word { FrozenWord mask.now stage ones known.now }
    ensures { Passed mask.now llrs.now count len stage work.old work.new }
{
    load(work, len * (stage + 1), llrs, known, ones);
    sweeps(work, mask, len, stage, count);
}
