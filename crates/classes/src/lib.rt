// What is gathered over a class of places of a node's incoming list: sums, the two least sizes, the product of the signs. A class is the places that are
// equal modulo a period p.
#![tactic(auto)]

ghost use Rattle.std.specs.Prelude.{◌≡◌, false, List, ℕ, ◌+◌, ◌*◌, ◌%◌, ◌<◌, ◌≤◌, min, max, ℤ, pos, length, drop};
ghost use Rattle.std.specs.Int.Signed.{mag};
ghost use Rattle.model.specs.Soft.{mark, negative};
ghost use Rattle.words.specs.Words.{Word, word, write, Words, Holds};
ghost use Rattle.classes.specs.Sums.{Period, strided, sizes, sum_of, totals_of};
ghost use Rattle.classes.specs.LeastSizes.{least, next, parity, with_value, gather_class, gather_all, by_turns};
ghost use Rattle.classes.specs.Folds.{four_list, low_at, high_at};

use words::{MARK_SIZE, abs_word, flipped, max_word, min_word, size_word};

// The sum over the places c, c + p, .. A `for` with `step_by` has two tests a turn, and was measured a sixth slower for p = 4.
fn class_sum(l: &[i32], p: usize, c: usize) -> i32
    requires p_nonzero { (0 < p) × (p ≤ 4) }
    requires l_bound { sizes (strided p c l.now) ≤ mark }
    ensures { result ≡ sum_of p l.now c }
{
    let mut t = 0i32;
    let mut i = c;
    while i < l.len() {
        t += l[i];
        i += p;
    }
    t
}

// What the places 0, 1, 2 and 3 modulo 4 subtract their values from: the sum over the place's class, or more.
#[derive(Clone, Copy)]
pub struct Totals {
    pub at0: i32,
    pub at1: i32,
    pub at2: i32,
    pub at3: i32,
}

// The sums over all classes of period p.
pub fn class_totals(l: &[i32], p: usize) -> Totals
    requires period { Period p }
    requires l_bound { sizes l.now ≤ mark }
    ensures { result ≡ totals_of p l.now }
{
    if p == 1 {
        let t = class_sum(l, 1, 0);
        return Totals {
            at0: t,
            at1: t,
            at2: t,
            at3: t,
        };
    }
    if p == 2 {
        let a = class_sum(l, 2, 0);
        let b = class_sum(l, 2, 1);
        return Totals {
            at0: a,
            at1: b,
            at2: a,
            at3: b,
        };
    }
    let a = class_sum(l, 4, 0);
    let b = class_sum(l, 4, 1);
    let c = class_sum(l, 4, 2);
    let d = class_sum(l, 4, 3);
    Totals {
        at0: a,
        at1: b,
        at2: c,
        at3: d,
    }
}

// What is gathered of a class: the least size, the one next to it, and whether the product of the signs is negative.
#[derive(Clone, Copy)]
pub struct Gathered {
    pub least: u32,
    pub next: u32,
    pub neg: bool,
}

// What is gathered of a class and one word more.
pub fn with_value(g: Gathered, z: i32) -> Gathered
    requires { Word z }
    ensures { result ≡ with_value g z }
{
    let s = size_word(z);
    let neg = g.neg;
    Gathered {
        least: s.min(g.least),
        next: g.next.min(s.max(g.least)),
        neg: (z < 0) != neg,
    }
}

// The two least sizes and the parity of the signs, over the places c, c + p, .. A `for` with `step_by` was measured a fifth slower for p = 2.
fn gather(l: &[i32], p: usize, c: usize) -> Gathered
    requires p_nonzero { (0 < p) × (p ≤ 4) }
    requires by_index { (k : ℕ) → Word (word l.now k) }
    ensures { result ≡ gather_class p l.now c }
{
    let mut g = Gathered {
        least: MARK_SIZE,
        next: MARK_SIZE,
        neg: false,
    };
    let mut i = c;
    while i < l.len() {
        g = with_value(g, l[i]);
        i += p;
    }
    g
}

// What the places 0, 1, 2 and 3 modulo 4 leave their values out of: what is gathered of the place's class, or of more.
#[derive(Clone, Copy)]
pub struct ByPlace {
    pub at0: Gathered,
    pub at1: Gathered,
    pub at2: Gathered,
    pub at3: Gathered,
}

// One thing at even places, another at odd ones.
fn by_turns(a: Gathered, b: Gathered) -> ByPlace
    ensures { result ≡ by_turns a b }
{
    ByPlace {
        at0: a,
        at1: b,
        at2: a,
        at3: b,
    }
}

// What is gathered of all classes of period 1 or 2.
pub fn gather_all(l: &[i32], p: usize) -> ByPlace
    requires p_nonzero { (0 < p) × (p ≤ 2) }
    requires by_index { (k : ℕ) → Word (word l.now k) }
    ensures { result ≡ gather_all p l.now }
{
    if p == 1 {
        let g = gather(l, 1, 0);
        return by_turns(g, g);
    }
    by_turns(gather(l, 2, 0), gather(l, 2, 1))
}

// The least size of four words.
fn least_of(a: i32, b: i32, c: i32, d: i32) -> i32
    requires { Word a × Word b × Word c × Word d }
    ensures { result ≡ pos (least (four_list a b c d)) }
{
    let low = min_word(abs_word(a), abs_word(b));
    let low2 = min_word(abs_word(c), abs_word(d));
    min_word(low, low2)
}

// The size next to the least one of four words.
fn next_of(a: i32, b: i32, c: i32, d: i32) -> i32
    requires { Word a × Word b × Word c × Word d }
    ensures { result ≡ pos (next (four_list a b c d)) }
{
    let sa = abs_word(a);
    let sb = abs_word(b);
    let sc = abs_word(c);
    let sd = abs_word(d);
    let lows = max_word(min_word(sa, sb), min_word(sc, sd));
    let highs = min_word(max_word(sa, sb), max_word(sc, sd));
    min_word(lows, highs)
}

// Whether the product of the signs of four words is negative.
fn parity_of(a: i32, b: i32, c: i32, d: i32) -> bool
    ensures { result ≡ parity (four_list a b c d) }
{
    ((a < 0) != (b < 0)) != ((c < 0) != (d < 0))
}

// The size that was kept with a sign.
fn kept_size(x: i32) -> u32
    ensures { result ≡ mag x }
{
    flipped(x < 0, x) as u32
}

// Folds the four quarters of the list at x, each of q words: w[m + k] is the least size at place k of the quarters, and w[m + q + k] the next one with the product of the signs.
pub fn fold(w: &mut [i32], m: usize, x: usize, q: usize)
    requires q_bound { (m + 4 * q ≤ x) × (x + 4 * q ≤ length w.old) }
    requires words { Words w.old x (4 * q) }
    ensures { w.new ≡ write (write w.old m q (low_at (drop x w.old) q)) (m + q) q (high_at (drop x w.old) q) }
{
    let next = m + q;
    let x1 = x + q;
    let x2 = x1 + q;
    let x3 = x2 + q;
    for k in 0..q {
        let a = w[x + k];
        let b = w[x1 + k];
        let c = w[x2 + k];
        let d = w[x3 + k];
        let low = least_of(a, b, c, d);
        let high = flipped(parity_of(a, b, c, d), next_of(a, b, c, d));
        w[m + k] = low;
        w[next + k] = high;
    }
}

// What `gather` gives of a list, from what folding its quarters left at m. A `for` with `step_by` was measured a twelfth slower for p = 2.
fn gather_folded(w: &[i32], m: usize, q: usize, p: usize, c: usize) -> Gathered
    requires p_nonzero { (0 < p) × (p ≤ 4) × (c < p) × (q % p ≡ 0) × (m + q + q ≤ length w.now) }
    requires by_index { (k : ℕ) → k < q → negative (word w.now (m + k)) ≡ false }
    ensures { (l : List ℤ) → length l ≡ 4 * q → Holds w.now m q (low_at l q) → Holds w.now (m + q) q (high_at l q) → result ≡ gather_class p l c }
{
    let next = m + q;
    let mut m1 = MARK_SIZE;
    let mut m2 = MARK_SIZE;
    let mut neg = false;
    let mut i = c;
    while i < q {
        let low = w[m + i] as u32;
        let x = w[next + i];
        let high = kept_size(x);
        m2 = m2.min(high).min(low.max(m1));
        m1 = low.min(m1);
        neg = (x < 0) != neg;
        i += p;
    }
    Gathered {
        least: m1,
        next: m2,
        neg,
    }
}

// What `gather_all` gives of a list, from what folding its quarters left at m.
pub fn gather_all_folded(w: &[i32], m: usize, q: usize, p: usize) -> ByPlace
    requires p_nonzero { (0 < p) × (p ≤ 2) × (q % 2 ≡ 0) × (m + q + q ≤ length w.now) }
    requires by_index { (k : ℕ) → k < q → negative (word w.now (m + k)) ≡ false }
    ensures { (l : List ℤ) → length l ≡ 4 * q → Holds w.now m q (low_at l q) → Holds w.now (m + q) q (high_at l q) → result ≡ gather_all p l }
{
    if p == 1 {
        let g = gather_folded(w, m, q, 1, 0);
        return by_turns(g, g);
    }
    by_turns(gather_folded(w, m, q, 2, 0), gather_folded(w, m, q, 2, 1))
}
