// The messages of the kinds, from a node's incoming list of words.
#![tactic(auto)]

ghost use Rattle.std.specs.Prelude.{◌≡◌, false, List, ◌+◌, ◌-◌, ◌%◌, ◌<◌, ◌≤◌, length};
ghost use Rattle.model.specs.Soft.{Soft, certain, box};
ghost use Rattle.model.specs.Kinds.{least_size, others, type_iv, shortcut, rate_0, rate_1, REP, SPC, type_I, type_III, type_II, type_IV};
ghost use Rattle.model.specs.Plans.{is_rate01};
ghost use Rattle.words.specs.Words.{soft, stored, word, write, Incoming};
ghost use Rattle.kinds.specs.Runs.{kind_found};
ghost use Rattle.classes.specs.Sums.{Period};
ghost use Rattle.messages.specs.Cut.{cut_words, sum_by, box_by, message_words, Sized, least_of};

use classes::{class_totals, fold, gather_all, gather_all_folded};
use extrinsic::{spread, subtract};
use joined::{gather_joined, totals_by};
use kinds::Kind;
use words::{MARK, fill};

// The message of a rate-0 node: ∞ everywhere, a mask byte 2 being read as 1, whatever its incoming list L is.
pub fn rate_zero_message(w: &mut [i32], m: usize, s: usize)
    requires { m + s ≤ length w.old }
    ensures { (L : List Soft) → w.new ≡ stored w.old m s (shortcut rate_0 s L) }
{
    fill(w, m, s, MARK);
}

// The message of a rate-1 node: 0 everywhere, whatever its incoming list L is.
pub fn rate_one_message(w: &mut [i32], m: usize, s: usize)
    requires { m + s ≤ length w.old }
    ensures { (L : List Soft) → w.new ≡ stored w.old m s (shortcut rate_1 s L) }
{
    fill(w, m, s, 0);
}

// The two incoming values in each other's place: the message of a REP and of an SPC node of size 2.
fn swapped(w: &mut [i32], m: usize, x: usize)
    requires { (m + 2 ≤ x) × (x + 2 ≤ length w.old) }
    ensures { w.new ≡ write w.old m 2 (λ k. word w.old (x + (1 - k))) }
{
    let a = w[x];
    let b = w[x + 1];
    w[m] = b;
    w[m + 1] = a;
}

// The sum of the other incoming values of each place's class, by the period p; of four classes with the box of the other classes' sums.
fn sum_message(w: &mut [i32], m: usize, x: usize, s: usize, p: usize)
    requires s_bound { (m + s ≤ x) × (x + s ≤ length w.old) × (s % 4 ≡ 0) }
    requires period { Period p }
    requires incoming { Incoming w.old x s }
    ensures { w.new ≡ message_words (sum_by p) w.old m x s }
{
    let e = x + s;
    let sums = class_totals(&w[x..e], p);
    let t = totals_by(sums, p);
    subtract(w, m, x, s, t);
}

// box over the other incoming values of each place's class, gathered place by place.
fn box_small(w: &mut [i32], m: usize, x: usize, s: usize, p: usize)
    requires s_bound { (m + s ≤ x) × (x + s ≤ length w.old) × (0 < p) × (p ≤ 2) × (s % 4 ≡ 0) }
    requires incoming { Incoming w.old x s }
    ensures { w.new ≡ message_words (others box certain p) w.old m x s }
{
    let e = x + s;
    let g = gather_all(&w[x..e], p);
    spread(w, m, x, s, g);
}

// The same for a long list, gathered from the folded list. That is in the message's own place, and the message is stored over it.
fn box_large(w: &mut [i32], m: usize, x: usize, s: usize, p: usize)
    requires s_bound { (m + s ≤ x) × (x + s ≤ length w.old) × (0 < p) × (p ≤ 2) × (s % 8 ≡ 0) }
    requires incoming { Incoming w.old x s }
    ensures { w.new ≡ message_words (others box certain p) w.old m x s }
{
    let q = s / 4;
    fold(w, m, x, q);
    let g = gather_all_folded(&w[..], m, q, p);
    spread(w, m, x, s, g);
}

// box over the other incoming values of each class of four, boxed with the sum of the other classes' boxes.
fn four_boxes(w: &mut [i32], m: usize, x: usize, s: usize)
    requires s_bound { (m + s ≤ x) × (x + s ≤ length w.old) }
    requires sized { Sized 4 s }
    requires incoming { Incoming w.old x s }
    ensures { w.new ≡ message_words type_iv w.old m x s }
{
    let e = x + s;
    let g = gather_joined(&w[x..e]);
    spread(w, m, x, s, g);
}

// box over the other incoming values of each place's class, by the period p; of four classes with the sum of the other classes' boxes.
fn box_message(w: &mut [i32], m: usize, x: usize, s: usize, p: usize)
    requires s_bound { (m + s ≤ x) × (x + s ≤ length w.old) }
    requires period { Period p }
    requires sized { Sized 4 s }
    requires incoming { Incoming w.old x s }
    ensures { w.new ≡ message_words (box_by p) w.old m x s }
{
    if p == 4 {
        four_boxes(w, m, x, s);
        return;
    }
    if s < 32 {
        box_small(w, m, x, s, p);
    } else {
        box_large(w, m, x, s, p);
    }
}

// The message of a REP node: the sum of the other incoming values.
pub fn rep_message(w: &mut [i32], m: usize, x: usize, s: usize)
    requires s_bound { (m + s ≤ x) × (x + s ≤ length w.old) }
    requires sized { Sized (least_size REP) s }
    requires incoming { Incoming w.old x s }
    ensures { w.new ≡ stored w.old m s (shortcut REP s (soft w.old x s)) }
{
    if s == 2 {
        swapped(w, m, x);
    } else {
        sum_message(w, m, x, s, 1);
    }
}

// The message of an SPC node: box over the other incoming values.
pub fn spc_message(w: &mut [i32], m: usize, x: usize, s: usize)
    requires s_bound { (m + s ≤ x) × (x + s ≤ length w.old) }
    requires sized { Sized (least_size SPC) s }
    requires incoming { Incoming w.old x s }
    ensures { w.new ≡ stored w.old m s (shortcut SPC s (soft w.old x s)) }
{
    if s == 2 {
        swapped(w, m, x);
    } else {
        box_message(w, m, x, s, 1);
    }
}

// The message of a type I node: REP over even and over odd places.
pub fn type_one_message(w: &mut [i32], m: usize, x: usize, s: usize)
    requires s_bound { (m + s ≤ x) × (x + s ≤ length w.old) }
    requires sized { Sized (least_size type_I) s }
    requires incoming { Incoming w.old x s }
    ensures { w.new ≡ stored w.old m s (shortcut type_I s (soft w.old x s)) }
{
    sum_message(w, m, x, s, 2);
}

// The message of a type III node: SPC over even and over odd places.
pub fn type_three_message(w: &mut [i32], m: usize, x: usize, s: usize)
    requires s_bound { (m + s ≤ x) × (x + s ≤ length w.old) }
    requires sized { Sized (least_size type_III) s }
    requires incoming { Incoming w.old x s }
    ensures { w.new ≡ stored w.old m s (shortcut type_III s (soft w.old x s)) }
{
    box_message(w, m, x, s, 2);
}

// The message of a type II node: the sum of the other incoming values that are equal by index modulo 4, plus the box of the three other classes' sums.
pub fn type_two_message(w: &mut [i32], m: usize, x: usize, s: usize)
    requires s_bound { (m + s ≤ x) × (x + s ≤ length w.old) }
    requires sized { Sized (least_size type_II) s }
    requires incoming { Incoming w.old x s }
    ensures { w.new ≡ stored w.old m s (shortcut type_II s (soft w.old x s)) }
{
    sum_message(w, m, x, s, 4);
}

// The message of a type IV node: box over the other incoming values that are equal by index modulo 4, boxed with the sum of the three other classes' boxes.
pub fn type_four_message(w: &mut [i32], m: usize, x: usize, s: usize)
    requires s_bound { (m + s ≤ x) × (x + s ≤ length w.old) }
    requires sized { Sized (least_size type_IV) s }
    requires incoming { Incoming w.old x s }
    ensures { w.new ≡ stored w.old m s (shortcut type_IV s (soft w.old x s)) }
{
    box_message(w, m, x, s, 4);
}

// The message of a cut node, by its kind. A rate-0 or rate-1 node does not look at what it is handed.
pub fn cut_message(w: &mut [i32], kind: Option<Kind>, m: usize, x: usize, s: usize)
    requires s_bound { (m + s ≤ x) × (x + s ≤ length w.old) }
    requires sized { Sized (least_of (kind_found kind)) s }
    requires incoming { is_rate01 (kind_found kind) ≡ false → Incoming w.old x s }
    ensures { w.new ≡ cut_words (kind_found kind) w.old m x s }
{
    match kind {
        Some(Kind::Rate0) => rate_zero_message(w, m, s),
        Some(Kind::Rate1) => rate_one_message(w, m, s),
        Some(Kind::Spc) => spc_message(w, m, x, s),
        Some(Kind::Rep) => rep_message(w, m, x, s),
        Some(Kind::TypeIII) => type_three_message(w, m, x, s),
        Some(Kind::TypeI) => type_one_message(w, m, x, s),
        Some(Kind::TypeII) => type_two_message(w, m, x, s),
        Some(Kind::TypeIV) => type_four_message(w, m, x, s),
        None => {}
    }
}
