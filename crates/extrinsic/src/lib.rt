// The value stored for each place of a cut node: what was gathered over the place's class, without the place's own value.
#![tactic(auto)]

ghost use Rattle.std.specs.Prelude.{◌≡◌, cond, ℕ, ◌+◌, ◌%◌, ◌<◌, ◌≤◌, ◌-ℤ◌, length};
ghost use Rattle.words.specs.Words.{Word, word, write, Words};
ghost use Rattle.extrinsic.specs.Values.{Sizes, leave_out, total_at, gathered_at};

use classes::{ByPlace, Gathered, Totals};
use words::{size_word, store_four, sub_words, with_sign};

fn pick_size(b: bool, x: u32, y: u32) -> u32
    ensures { result ≡ cond b x y }
{
    if b { x } else { y }
}

// The value at a place that holds x, by the box over all that was gathered but x: that of SPC, and of types III and IV.
fn leave_out(x: i32, g: Gathered) -> i32
    requires word { Word x }
    requires sizes { Sizes g }
    ensures { result ≡ leave_out g x }
{
    let least = g.least;
    let neg = g.neg;
    let s = size_word(x);
    let m = pick_size(s == least, g.next, least);
    with_sign(neg != (x < 0), m as i32)
}

// w[m + k] = the total of place k - w[x + k], four places at a time: the four words are read before any value is stored.
// A `for` over s / 4 turns was measured: the compiler unrolls it, and the messages of small nodes took a tenth to a third longer.
pub fn subtract(w: &mut [i32], m: usize, x: usize, s: usize, t: Totals)
    requires s_bound { (m + s ≤ x) × (x + s ≤ length w.old) × (s % 4 ≡ 0) }
    requires by_index { (k : ℕ) → k < s → Word (total_at t (k % 4) -ℤ word w.old (x + k)) }
    ensures { w.new ≡ write w.old m s (λ k. total_at t (k % 4) -ℤ word w.old (x + k)) }
{
    let mut k = 0;
    while k < s {
        let i = x + k;
        let a = w[i];
        let b = w[i + 1];
        let c = w[i + 2];
        let d = w[i + 3];
        let a = sub_words(t.at0, a);
        let b = sub_words(t.at1, b);
        let c = sub_words(t.at2, c);
        let d = sub_words(t.at3, d);
        store_four(w, m + k, a, b, c, d);
        k += 4;
    }
}

// w[m + k] = box over what was gathered for place k without w[x + k]; four places at a time. A `for` over s / 4 turns was measured, with the same result.
pub fn spread(w: &mut [i32], m: usize, x: usize, s: usize, g: ByPlace)
    requires s_bound { (m + s ≤ x) × (x + s ≤ length w.old) × (s % 4 ≡ 0) }
    requires words { Words w.old x s }
    requires by_index { (k : ℕ) → Sizes (gathered_at g k) }
    ensures { w.new ≡ write w.old m s (λ k. leave_out (gathered_at g (k % 4)) (word w.old (x + k))) }
{
    let mut k = 0;
    while k < s {
        let i = x + k;
        let a = leave_out(w[i], g.at0);
        let b = leave_out(w[i + 1], g.at1);
        let c = leave_out(w[i + 2], g.at2);
        let d = leave_out(w[i + 3], g.at3);
        store_four(w, m + k, a, b, c, d);
        k += 4;
    }
}
