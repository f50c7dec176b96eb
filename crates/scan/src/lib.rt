// The planned walk over one lent workspace. It reads every mask byte 2 as 1, so no message is -∞. Where the word of the frozen values has a 1, LLRs are
// negated before it and soft values after it.
#![tactic(auto)]

ghost use Rattle.std.specs.Prelude.{◌≡◌, ◌+◌, ◌*◌, ◌^◌, ◌≤◌, ◌<◌, T, length, pos, neg_ℤ, map, true, false, cond, not, ◌||◌, Some};
ghost use Rattle.model.specs.Soft.{finite, mark};
ghost use Rattle.model.specs.Lists.{part, at_most, on_ones};
ghost use Rattle.model.specs.Scan.{scan};
ghost use Rattle.model.specs.Encoding.{is_unfrozen, known_word};
ghost use Rattle.model.specs.Kinds.{kind_of};
ghost use Rattle.model.specs.Plans.{is_cut};
ghost use Rattle.kinds.specs.Known.{is_certain, is_zero};
ghost use Rattle.messages.specs.Cut.{cut_words};
ghost use Rattle.words.specs.Words.{word, stored, write, Holds, Words};
ghost use Rattle.halves.specs.Halves.{Places, Combinable, RightListAt, node_words};
ghost use Rattle.scan.specs.Pairs.{pair_words};
ghost use Rattle.scan.specs.Space.{CutNode, Room, Visited, Ready, Swept, llrs_loaded, Decodable, FrozenWord, flipped_if};

use by_list::message_by_list;
use combine::{message_left_certain, message_of_leaves, message_right_zero, node_message};
use flips::{copy_flipped, known_word, load_flipped};
use halves::{left_list, right_list};
use inputs::UNFROZEN;
use kinds::{FixedMessage, cut_kind, fixed_message};
use messages::{cut_message, rate_one_message, rate_zero_message};
use words::{MARK, copy_words, fill, load_llrs};

// The message of a child whose message is fixed, at m: ∞ or 0 everywhere.
fn fixed_child(w: &mut [i32], message: FixedMessage, m: usize, s: usize)
    requires { m + s ≤ length w.old }
    ensures { w.new ≡ write w.old m s (λ k. cond (is_certain (Some message)) (pos mark) (pos 0)) }
{
    match message {
        FixedMessage::Certain => rate_zero_message(w, m, s),
        FixedMessage::Zero => rate_one_message(w, m, s),
    }
}

// Whether a child's message is ∞ everywhere whatever it is handed.
fn is_certain(child: Option<FixedMessage>) -> bool
    ensures { result ≡ is_certain child }
{
    matches!(child, Some(FixedMessage::Certain))
}

// The node's message, at m: its incoming list is at x, its children's messages at l and l + h. The right child's incoming list is still at c, unless
// that child's message is fixed.
fn own_message(
    w: &mut [i32],
    left: Option<FixedMessage>,
    right: Option<FixedMessage>,
    m: usize,
    x: usize,
    l: usize,
    c: usize,
    h: usize,
)
    requires places { Places m x l h c × (c + h ≤ length w.old) }
    requires combinable { Combinable w.old x l h }
    requires holds { is_certain left ≡ true → Holds w.old l h (λ k. pos mark) }
    requires holds_2 { is_zero right ≡ true → Holds w.old (l + h) h (λ k. pos 0) }
    requires right_list_at { (is_certain right || is_zero right) ≡ false → RightListAt w.old x l c h }
    ensures { w.new ≡ node_words w.old m x l h }
{
    match (left, right) {
        (Some(FixedMessage::Certain), _) => message_left_certain(w, m, x, l, h),
        (_, Some(FixedMessage::Zero)) => message_right_zero(w, m, x, l, h),
        (_, Some(FixedMessage::Certain)) => node_message(w, m, x, l, h),
        (_, None) => message_by_list(w, m, x, l, c, h),
    }
}

// What a walk goes by: the plan, the mask, and its length (N in the specs).
#[derive(Clone, Copy)]
struct Walk<'a> {
    plan: &'a [u8],
    mask: &'a [u8],
    len: usize,
}

// The message of a cut node, at m: its `size` positions are those from `from` on, and its incoming list is at x.
fn cut_node(work: &mut [i32], walk: &Walk<'_>, m: usize, x: usize, from: usize, size: usize)
    requires { CutNode walk.now.mask.now m x from size work.old }
    ensures { work.new ≡ cut_words (kind_of size (part walk.now.mask.now from size)) work.old m x size }
{
    let end = from + size;
    let k = cut_kind(&walk.mask[from..end]);
    cut_message(work, Some(k), m, x, size);
}

// Whether a position is frozen, whatever to.
pub fn is_frozen(byte: u8) -> bool
    ensures { result ≡ not (is_unfrozen byte) }
{
    byte != UNFROZEN
}

// A leaf's word.
fn leaf_word(frozen: bool) -> i32
    ensures { result ≡ cond frozen (pos mark) (pos 0) }
{
    if frozen { MARK } else { 0 }
}

// The messages of an uncut node of two positions, at m, and of its leaves, each at its own position: the first one is `from`, and the node's incoming list
// is at x.
fn leaf_pair(work: &mut [i32], walk: &Walk<'_>, m: usize, x: usize, from: usize)
    requires places { Places m x from 1 (length work.old) × (from + 2 ≤ length walk.now.mask.now) }
    requires words { Words work.old x 2 }
    ensures { work.new ≡ pair_words walk.now.mask.now work.old m x from }
{
    let left = is_frozen(walk.mask[from]);
    let right = is_frozen(walk.mask[from + 1]);
    fill(work, from, 1, leaf_word(left));
    fill(work, from + 1, 1, leaf_word(right));
    message_of_leaves(work, left, right, m, x, from);
}

// Visits an uncut node: its number is `node`, its stage `stage`, its `size` positions are those from `from` on, and its incoming list is at `list`. The
// mask has N positions, and the message of stage u at position i is at u * N + i. In the first sweep no stored message is read before
// it is written. Messages of the node and of its children are at m, l and r; a child's incoming list is made at c. A cut child takes no visit.
fn visit(
    work: &mut [i32],
    walk: &Walk<'_>,
    stage: usize,
    size: usize,
    node: usize,
    from: usize,
    list: usize,
    first: bool,
)
    requires { Room walk.now.plan.now walk.now.mask.now walk.now.len stage size node from list first work.old × (is_cut walk.now.plan.now node ≡ false) }
    ensures { Visited walk.now.plan.now walk.now.mask.now walk.now.len stage node from list first work.old work.new }
{
    let m = stage * walk.len + from;
    let h = size / 2;
    let below = stage - 1;
    let l = below * walk.len + from;
    let r = l + h;
    let c = list + size;
    let child = 2 * node;
    let middle = from + h;
    let left = fixed_message(walk.plan, walk.mask, child, from, h);
    match left {
        Some(message) => fixed_child(work, message, l, h),
        None => {
            left_list(work, first, c, list, r, h);
            if walk.plan[child] == 1 {
                cut_node(work, walk, l, c, from, h);
            } else if h == 2 {
                leaf_pair(work, walk, l, c, from);
            } else {
                visit(work, walk, below, h, child, from, c, first);
            }
        }
    }
    let right = fixed_message(walk.plan, walk.mask, child + 1, middle, h);
    match right {
        Some(message) => fixed_child(work, message, r, h),
        None => {
            right_list(work, is_certain(left), c, list, l, h);
            if walk.plan[child + 1] == 1 {
                cut_node(work, walk, r, c, middle, h);
            } else if h == 2 {
                leaf_pair(work, walk, r, c, middle);
            } else {
                visit(work, walk, below, h, child + 1, middle, c, first);
            }
        }
    }
    own_message(work, left, right, m, list, l, c, h);
}

// One sweep along the plan: a visit of the root, which is of this stage, or its message where it is cut. Its incoming list stands past the rows of
// messages. The first sweep takes the messages before it as they are by definition, whatever is stored.
pub fn sweep(work: &mut [i32], plan: &[u8], mask: &[u8], len: usize, stage: usize, first: bool)
    requires { Ready plan.now mask.now len stage first work.old }
    ensures { Swept plan.now mask.now len stage first 1 work.old work.new }
{
    let list = len * (stage + 1);
    let walk = Walk { plan, mask, len };
    if plan[1] == 1 {
        cut_node(work, &walk, stage * len, list, 0, len);
    } else {
        visit(work, &walk, stage, len, 1, 0, list, first);
    }
}

// As many sweeps as `count` says, with the same plan.
pub fn sweeps(work: &mut [i32], plan: &[u8], mask: &[u8], len: usize, stage: usize, count: usize)
    requires ready { Ready plan.now mask.now len stage true work.old }
    requires count_nonzero { 0 < count }
    ensures { Swept plan.now mask.now len stage true count work.old work.new }
{
    for k in 0..count {
        let first = k == 0;
        sweep(work, plan, mask, len, stage, first);
    }
}

// The LLRs as the root's incoming list, at `list`, negated where the word of the frozen values has a 1. Without `ones` it has none, and is not read.
pub fn load(work: &mut [i32], list: usize, llrs: &[i16], known: &[u8], ones: bool)
    requires { (list + length llrs.now ≤ length work.old) × (length known.now ≡ length llrs.now) }
    ensures { work.new ≡ write work.old list (length llrs.now) (word (flipped_if ones known.now llrs.now)) }
{
    if ones {
        load_flipped(work, list, llrs, known);
    } else {
        load_llrs(work, list, llrs);
    }
}

// The words from x on as soft values at the front of `out`, negated back where that word has a 1.
fn unload(work: &[i32], x: usize, out: &mut [i32], known: &[u8], ones: bool)
    requires known_in_bounds { (x + length known.now ≤ length work.now) × (length known.now ≤ length out.old) }
    requires words { Words work.now x (length known.now) }
    ensures { out.new ≡ write out.old 0 (length known.now) (word (flipped_if ones known.now (part work.now x (length known.now)))) }
{
    if ones {
        copy_flipped(work, x, out, known);
    } else {
        copy_words(work, x, out, 0, known.len());
    }
}

// The word of the frozen values, where some position is frozen to 1.
pub fn frozen_word(mask: &[u8], known: &mut [u8], stage: usize, ones: bool)
    requires { (length known.old ≡ length mask.now) × (length mask.now ≡ 2 ^ stage) }
    ensures { known.new ≡ cond ones (known_word stage mask.now) known.old }
{
    if ones {
        known_word(mask, known, stage);
    }
}

// The soft values of SCAN after `count` sweeps, each position being frozen as the mask says, by a plan that is allowed for the mask. Where some position is
// frozen to 1, `known` is the word of the frozen values: the LLRs go in negated where it has a 1, and the soft values are negated back there. So the workspace
// holds what the sweeps along the plan left of the negated LLRs, its messages being those of the mask with 1 for 2.
fn values_of(
    mask: &[u8],
    plan: &[u8],
    llrs: &[i16],
    known: &[u8],
    ones: bool,
    count: usize,
    len: usize,
    stage: usize,
    out: &mut [i32],
    work: &mut [i32],
)
    requires decodable { Decodable plan.now mask.now llrs.now count len stage (length out.old) (length work.old) }
    requires frozen_word { FrozenWord mask.now stage ones known.now }
    ensures out_after { out.new ≡ stored out.old 0 len (scan stage mask.now (map finite llrs.now) count) }
    ensures swept { Swept plan.now mask.now len stage true count (llrs_loaded len stage (on_ones neg_ℤ (known_word stage mask.now) llrs.now) work.old) work.new }
{
    load(work, len * (stage + 1), llrs, known, ones);
    sweeps(work, plan, mask, len, stage, count);
    unload(&work[..], stage * len, out, known, ones);
}

// The same with room for that word, N bytes, which hold it afterwards. `ones` is false only where no position is frozen to 1.
pub fn soft_values(
    mask: &[u8],
    plan: &[u8],
    llrs: &[i16],
    known: &mut [u8],
    ones: bool,
    count: usize,
    len: usize,
    stage: usize,
    out: &mut [i32],
    work: &mut [i32],
)
    requires decodable { Decodable plan.now mask.now llrs.now count len stage (length out.old) (length work.old) }
    requires known_len { (length known.old ≡ len) × (ones ≡ false → T (at_most 1 mask.now)) }
    ensures out_after { out.new ≡ stored out.old 0 len (scan stage mask.now (map finite llrs.now) count) }
    ensures swept { Swept plan.now mask.now len stage true count (llrs_loaded len stage (on_ones neg_ℤ (known_word stage mask.now) llrs.now) work.old) work.new }
    ensures known_after { known.new ≡ cond ones (known_word stage mask.now) known.old }
{
    frozen_word(mask, known, stage, ones);
    values_of(mask, plan, llrs, known, ones, count, len, stage, out, work);
}
