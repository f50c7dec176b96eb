// The children's incoming lists, made from the halves of a node's incoming list and the other child's message, on words.
#![tactic(auto)]

ghost use Rattle.std.specs.Prelude.{◌≡◌, true, false, cond, ℕ, ◌+◌, ◌%◌, ◌<◌, ◌≤◌, pos, length};
ghost use Rattle.model.specs.Soft.{mark};
ghost use Rattle.words.specs.Words.{word, write, Holds, Words, Finite};
ghost use Rattle.halves.specs.Halves.{Apart, Inside, Sources, box_at, plus_at, box_plus, plus_box, plus_front, left_at, right_at, FiniteSums, Sums, FiniteBoxSums, LeftPlace, RightPlace, LeftAt, RightAt};

use words::{add_finite, add_words, box_words, store_four};

// w[d + k] = box(w[a + k], w[b + k] + w[c + k])
fn box_plus(w: &mut [i32], d: usize, a: usize, b: usize, c: usize, h: usize)
    requires sources { Sources w.old d a b c h }
    requires words { Words w.old a h × Sums w.old b c h }
    ensures { w.new ≡ write w.old d h (box_plus w.old a b c) }
{
    for k in 0..h {
        w[d + k] = box_words(w[a + k], add_words(w[b + k], w[c + k]));
    }
}

// w[d + k] = box(w[a + k], w[b + k])
fn box_at(w: &mut [i32], d: usize, a: usize, b: usize, h: usize)
    requires h_in_bounds { (d + h ≤ length w.old) × (a + h ≤ length w.old) × (b + h ≤ length w.old) }
    requires apart { Apart h d a × Apart h d b }
    requires words { Words w.old a h × Words w.old b h }
    ensures { w.new ≡ write w.old d h (box_at w.old a b) }
{
    for k in 0..h {
        w[d + k] = box_words(w[a + k], w[b + k]);
    }
}

// w[d + k] = w[a + k] + w[b + k]
fn plus_at(w: &mut [i32], d: usize, a: usize, b: usize, h: usize)
    requires h_in_bounds { (d + h ≤ length w.old) × (a + h ≤ length w.old) × (b + h ≤ length w.old) }
    requires apart { Apart h d a × Apart h d b }
    requires finite_sums { FiniteSums w.old a b h }
    ensures { w.new ≡ write w.old d h (plus_at w.old a b) }
{
    for k in 0..h {
        w[d + k] = add_finite(w[a + k], w[b + k]);
    }
}

// part[d + k] = part[d + k] + part[k]
fn add_front(part: &mut [i32], d: usize, h: usize)
    requires h_le_d { (h ≤ d) × (d + h ≤ length part.old) }
    requires by_index { (k : ℕ) → k < h → Finite (word part.old (d + k)) (word part.old k) }
    ensures { part.new ≡ write part.old d h (plus_front part.old d) }
{
    for k in 0..h {
        part[d + k] = add_finite(part[d + k], part[k]);
    }
}

// w[d + k] = box(w[a + k], w[b + k]) + w[c + k]. What is added last is handed on as the part that starts at c.
fn plus_box(w: &mut [i32], d: usize, a: usize, b: usize, c: usize, h: usize)
    requires h_in_bounds { (d + h ≤ length w.old) × (a + h ≤ length w.old) × (b + h ≤ length w.old) × (c + h ≤ d) }
    requires apart { Apart h d a × Apart h d b }
    requires words { Words w.old a h × Words w.old b h × FiniteBoxSums w.old a b c h }
    ensures { w.new ≡ write w.old d h (plus_box w.old a b c) }
{
    box_at(w, d, a, b, h);
    let far = d - c;
    add_front(&mut w[c..], far, h);
}

// The word at k of the left child's incoming list: box(w[a + k], second[k] + w[c + k]). The second half of the node's list is handed on as a part.
fn left_word(w: &[i32], second: &[i32], a: usize, c: usize, k: usize) -> i32
    requires { LeftAt w.now second.now a c k }
    ensures { result ≡ left_at w.now second.now a c k }
{
    let first = w[a + k];
    let message = w[c + k];
    let high = second[k];
    box_words(first, add_words(high, message))
}

// The word at k of the right child's incoming list: box(w[a + k], w[c + k]) + second[k]
fn right_word(w: &[i32], second: &[i32], a: usize, c: usize, k: usize) -> i32
    requires { RightAt w.now second.now a c k }
    ensures { result ≡ right_at w.now second.now a c k }
{
    let first = w[a + k];
    let message = w[c + k];
    let high = second[k];
    add_finite(box_words(first, message), high)
}

// `box_plus` for the four places from k on, all read before any is stored.
fn left_four(w: &mut [i32], d: usize, a: usize, b: usize, c: usize, k: usize)
    requires inside { Inside w.old d a b c (k + 4) }
    requires by_index { (i : ℕ) → k ≤ i → i < k + 4 → LeftPlace w.old a b c i }
    ensures { w.new ≡ write w.old (d + k) 4 (λ j. box_plus w.old a b c (k + j)) }
{
    let all = &w[..];
    let second = &all[b..];
    let p = left_word(all, second, a, c, k);
    let q = left_word(all, second, a, c, k + 1);
    let r = left_word(all, second, a, c, k + 2);
    let s = left_word(all, second, a, c, k + 3);
    store_four(w, d + k, p, q, r, s);
}

// `plus_box` for the four places from k on, all read before any is stored.
fn right_four(w: &mut [i32], d: usize, a: usize, b: usize, c: usize, k: usize)
    requires inside { Inside w.old d a b c (k + 4) }
    requires by_index { (i : ℕ) → k ≤ i → i < k + 4 → RightPlace w.old a b c i }
    ensures { w.new ≡ write w.old (d + k) 4 (λ j. plus_box w.old a b c (k + j)) }
{
    let all = &w[..];
    let second = &all[c..];
    let p = right_word(all, second, a, b, k);
    let q = right_word(all, second, a, b, k + 1);
    let r = right_word(all, second, a, b, k + 2);
    let s = right_word(all, second, a, b, k + 3);
    store_four(w, d + k, p, q, r, s);
}

// `box_plus` by eight places in a turn.
fn left_eights(w: &mut [i32], d: usize, a: usize, b: usize, c: usize, h: usize)
    requires sources { Sources w.old d a b c h × (h % 8 ≡ 0) }
    requires words { Words w.old a h × Sums w.old b c h }
    ensures { w.new ≡ write w.old d h (box_plus w.old a b c) }
{
    for q in 0..h / 8 {
        let k = 8 * q;
        left_four(w, d, a, b, c, k);
        left_four(w, d, a, b, c, k + 4);
    }
}

// `plus_box` by eight places in a turn.
fn right_eights(w: &mut [i32], d: usize, a: usize, b: usize, c: usize, h: usize)
    requires sources { Sources w.old d a b c h × (h % 8 ≡ 0) }
    requires words { Words w.old a h × Words w.old b h × FiniteBoxSums w.old a b c h }
    ensures { w.new ≡ write w.old d h (plus_box w.old a b c) }
{
    for q in 0..h / 8 {
        let k = 8 * q;
        right_four(w, d, a, b, c, k);
        right_four(w, d, a, b, c, k + 4);
    }
}

// The incoming list of the left child, at c: the node's is at x, the right child's message at r. In the first sweep nothing stored is read: before it the
// message of a right child of two positions or more is 0 by definition. A right leaf's may be certain then, but where the children are leaves both are
// cut, and a cut leaf's incoming list is not made.
pub fn left_list(w: &mut [i32], first: bool, c: usize, x: usize, r: usize, h: usize)
    requires h_bound { (r + h ≤ x) × (x + (h + h) ≤ c) × (c + h ≤ length w.old) }
    requires words { Words w.old x h × Words w.old (x + h) h × (first ≡ false → Sums w.old (x + h) r h) }
    ensures { w.new ≡ write w.old c h (cond first (box_at w.old x (x + h)) (box_plus w.old x (x + h) r)) }
{
    let y = x + h;
    if first {
        box_at(w, c, x, y, h);
    } else if h % 8 == 0 {
        left_eights(w, c, x, y, r, h);
    } else if h == 4 {
        left_four(w, c, x, y, r, 0);
    } else {
        box_plus(w, c, x, y, r, h);
    }
}

// The incoming list of the right child, at c: the node's is at x, the left child's message at l, which may be known to be certain everywhere.
pub fn right_list(w: &mut [i32], certain: bool, c: usize, x: usize, l: usize, h: usize)
    requires h_bound { (l + h ≤ x) × (x + (h + h) ≤ c) × (c + h ≤ length w.old) }
    requires words { Words w.old x h × Words w.old l h × FiniteBoxSums w.old x l (x + h) h }
    requires holds { certain ≡ true → Holds w.old l h (λ k. pos mark) }
    ensures { w.new ≡ write w.old c h (plus_box w.old x l (x + h)) }
{
    let y = x + h;
    if certain {
        plus_at(w, c, x, y, h);
    } else if h % 8 == 0 {
        right_eights(w, c, x, l, y, h);
    } else if h == 4 {
        right_four(w, c, x, l, y, 0);
    } else {
        plus_box(w, c, x, l, y, h);
    }
}
