// 32-bit words that hold soft values: their size, sum, difference and box, and the loops that load, fill and copy them.
#![tactic(auto)]

ghost use Rattle.std.specs.Prelude.{◌≡◌, cond, ◌+◌, ◌<◌, ◌≤◌, pos, nat_abs, neg_ℤ, ◌-ℤ◌, length};
ghost use Rattle.std.specs.Int.Signed.{lt_z};
ghost use Rattle.words.specs.Words.{box_word, add_word, flip, Word, Added, word, write, four, Finite};

// The word that stands for certain, and its size.
pub const MARK: i32 = 2147483647;

pub const MARK_SIZE: u32 = MARK as u32;

// The smaller of two words.
pub fn min_word(a: i32, b: i32) -> i32
    ensures { result ≡ cond (lt_z a b) a b }
{
    a.min(b)
}

// The larger of two words.
pub fn max_word(a: i32, b: i32) -> i32
    ensures { result ≡ cond (lt_z a b) b a }
{
    a.max(b)
}

// The size of a word.
pub fn abs_word(a: i32) -> i32
    requires { Word a }
    ensures { result ≡ pos (nat_abs a) }
{
    a.abs()
}

// The size of a word as an unsigned number.
pub fn size_word(a: i32) -> u32
    requires { Word a }
    ensures { result ≡ nat_abs a }
{
    a.unsigned_abs()
}

// -m if neg, else m
pub fn with_sign(neg: bool, m: i32) -> i32
    requires { Word m }
    ensures { result ≡ cond neg (neg_ℤ m) m }
{
    if neg { -m } else { m }
}

// -1 - x if neg, else x. Every x has such a number, and of two the smaller one's is the larger.
pub fn flipped(neg: bool, x: i32) -> i32
    ensures { result ≡ cond neg (flip x) x }
{
    if neg { -1 - x } else { x }
}

// box of two words: the smaller of the two, both negated if their sum is negative. A negation is -1 less the number, plus 1, and the 1 is added once, after
// the smaller is found. The mark is larger than every finite size, so box(a, ∞) = a and box(a, -∞) = -a need no test.
pub fn box_words(a: i32, b: i32) -> i32
    requires word { Word a }
    requires word_2 { Word b }
    ensures { result ≡ box_word a b }
{
    let neg = a < -b;
    let m = min_word(flipped(neg, a), flipped(neg, b));
    if neg { m + 1 } else { m }
}

// x if b, else y
fn pick_word(b: bool, x: i32, y: i32) -> i32
    ensures { result ≡ cond b x y }
{
    if b { x } else { y }
}

// The sum of a finite word and any word but minus the mark: the mark stays the mark.
pub fn add_words(a: i32, b: i32) -> i32
    requires { Added a b }
    ensures { result ≡ add_word a b }
{
    b + pick_word(b == MARK, 0, a)
}

// The sum of two finite words.
pub fn add_finite(a: i32, b: i32) -> i32
    requires { Finite a b }
    ensures { result ≡ add_word a b }
{
    a + b
}

// The difference of two words, which must be a word.
pub fn sub_words(a: i32, b: i32) -> i32
    requires { Word (a -ℤ b) }
    ensures { result ≡ a -ℤ b }
{
    a - b
}

// w[m + k] = value. A single word, as a leaf's message is, needs no loop. The library's `fill` stores the last word by itself, so that not all words of a
// power of two go into wide stores.
pub fn fill(w: &mut [i32], m: usize, s: usize, value: i32)
    requires { m + s ≤ length w.old }
    ensures { w.new ≡ write w.old m s (λ k. value) }
{
    if s == 1 {
        w[m] = value;
        return;
    }
    for k in 0..s {
        w[m + k] = value;
    }
}

// w[d], w[d + 1], w[d + 2], w[d + 3] = p, q, r, s. Stores side by side, after all four words are known, compile to one.
pub fn store_four(w: &mut [i32], d: usize, p: i32, q: i32, r: i32, s: i32)
    requires { d + 4 ≤ length w.old }
    ensures { w.new ≡ write w.old d 4 (four p q r s) }
{
    w[d] = p;
    w[d + 1] = q;
    w[d + 2] = r;
    w[d + 3] = s;
}

// An LLR as a word.
pub fn widened(llr: i16) -> i32
    ensures { result ≡ llr }
{
    i32::from(llr)
}

// w[m + k] = llrs[k]
pub fn load_llrs(w: &mut [i32], m: usize, llrs: &[i16])
    requires { m + length llrs.now ≤ length w.old }
    ensures { w.new ≡ write w.old m (length llrs.now) (word llrs.now) }
{
    for (k, &llr) in llrs.iter().enumerate() {
        w[m + k] = widened(llr);
    }
}

// out[m + k] = w[x + k]. With `copy_from_slice` here the archive for C asks for memmove, which it needs nowhere else.
pub fn copy_words(w: &[i32], x: usize, out: &mut [i32], m: usize, count: usize)
    requires { (x + count ≤ length w.now) × (m + count ≤ length out.old) }
    ensures { out.new ≡ write out.old m count (λ k. word w.now (x + k)) }
{
    for k in 0..count {
        let v = w[x + k];
        out[m + k] = v;
    }
}
