// Positions that are frozen to 1: the word of the frozen values, and the numbers that are negated where that word has a 1.
#![tactic(auto)]

ghost use Rattle.std.specs.Prelude.{◌≡◌, ◌+◌, ◌%◌, ◌^◌, ◌≤◌, neg_ℤ, length, get_or};
ghost use Rattle.model.specs.Lists.{bit, on_ones, part};
ghost use Rattle.model.specs.Encoding.{is_known_one, known_bits, known_word};
ghost use Rattle.words.specs.Words.{Words, word, write};

use inputs::known_bit;
use transform::strides;
use words::{widened, with_sign};

// The frozen values, zeros elsewhere.
fn known_bits(mask: &[u8], bits: &mut [u8])
    requires { length bits.old ≡ length mask.now }
    ensures { bits.new ≡ known_bits mask.now }
{
    for (i, &byte) in mask.iter().enumerate() {
        bits[i] = known_bit(byte);
    }
}

// Those of the eight positions from k on. Stores side by side, after all eight bits are known, compile to one.
fn known_eight(mask: &[u8], bits: &mut [u8], k: usize)
    requires { (k + 8 ≤ length mask.now) × (k + 8 ≤ length bits.old) }
    ensures { bits.new ≡ write bits.old k 8 (λ j. bit (is_known_one (get_or mask.now (k + j) 0))) }
{
    let a = known_bit(mask[k]);
    let b = known_bit(mask[k + 1]);
    let c = known_bit(mask[k + 2]);
    let d = known_bit(mask[k + 3]);
    let e = known_bit(mask[k + 4]);
    let f = known_bit(mask[k + 5]);
    let g = known_bit(mask[k + 6]);
    let h = known_bit(mask[k + 7]);
    bits[k] = a;
    bits[k + 1] = b;
    bits[k + 2] = c;
    bits[k + 3] = d;
    bits[k + 4] = e;
    bits[k + 5] = f;
    bits[k + 6] = g;
    bits[k + 7] = h;
}

// The same for a multiple of eight positions. The transform reads words of eight bytes, and a word that was stored as
// one can be read right after; bytes that were stored one by one could not.
fn known_eights(mask: &[u8], bits: &mut [u8])
    requires { (length mask.now % 8 ≡ 0) × (length bits.old ≡ length mask.now) }
    ensures { bits.new ≡ known_bits mask.now }
{
    for q in 0..mask.len() / 8 {
        known_eight(mask, bits, 8 * q);
    }
}

// The frozen values of N = 2 ^ n positions.
fn frozen_values(mask: &[u8], bits: &mut [u8], n: usize)
    requires { (length bits.old ≡ length mask.now) × (length mask.now ≡ 2 ^ n) }
    ensures { bits.new ≡ known_bits mask.now }
{
    if n < 3 {
        known_bits(mask, bits);
    } else {
        known_eights(mask, bits);
    }
}

// The word of the frozen values, zeros elsewhere, for N = 2 ^ n positions.
pub fn known_word(mask: &[u8], word: &mut [u8], n: usize)
    requires { (length word.old ≡ length mask.now) × (length mask.now ≡ 2 ^ n) }
    ensures { word.new ≡ known_word n mask.now }
{
    frozen_values(mask, word, n);
    strides(word, n);
}

// w[m + k] = llrs[k], negated where the word has a 1
pub fn load_flipped(w: &mut [i32], m: usize, llrs: &[i16], known: &[u8])
    requires { (m + length llrs.now ≤ length w.old) × (length known.now ≡ length llrs.now) }
    ensures { w.new ≡ write w.old m (length llrs.now) (word (on_ones neg_ℤ known.now llrs.now)) }
{
    for (k, &llr) in llrs.iter().enumerate() {
        w[m + k] = with_sign(known[k] == 1, widened(llr));
    }
}

// out[k] = w[x + k], for each bit of the word, negated where it is 1
pub fn copy_flipped(w: &[i32], x: usize, out: &mut [i32], known: &[u8])
    requires known_in_bounds { (x + length known.now ≤ length w.now) × (length known.now ≤ length out.old) }
    requires words { Words w.now x (length known.now) }
    ensures { out.new ≡ write out.old 0 (length known.now) (word (on_ones neg_ℤ known.now (part w.now x (length known.now)))) }
{
    for (k, &bit) in known.iter().enumerate() {
        out[k] = with_sign(bit == 1, w[x + k]);
    }
}
