// A pass with its leaf bits, and an attempt: a pass with some leaves frozen to the bits of pass one.
#![tactic(auto)]

ghost use Rattle.std.specs.Prelude.{◌≡◌, false, cond, map, ◌+◌, ◌*◌, ◌-◌, ◌≤◌, T, eqb, ltb, length};
ghost use Rattle.model.specs.Lists.{at_most, bit};
ghost use Rattle.model.specs.Soft.{finite, negative};
ghost use Rattle.model.specs.Encoding.{is_unfrozen, is_known_one};
ghost use Rattle.model.specs.Attempts.{leaf_bits, pass_bits, frozen_to, attempt_mask};
ghost use Rattle.words.specs.Words.{soft};
ghost use Rattle.leaves.specs.Pass.{Passable, Passed};
ghost use Rattle.passes.specs.Trials.{Attemptable, SamePast};

use inputs::{UNFROZEN, known_bit};
use leaves::leaf_values;
use scan::frozen_word;

// A leaf's bit: 1 where its incoming value is negative, else 0, and of a frozen leaf the known one.
fn leaf_bit(byte: u8, value: i32) -> u8
    ensures { result ≡ cond (is_unfrozen byte) (bit (negative value)) (bit (is_known_one byte)) }
{
    if byte == UNFROZEN {
        (value < 0) as u8
    } else {
        known_bit(byte)
    }
}

// The leaf bits of a mask, in its place, from the leaves' incoming values.
fn decide_leaves(bits: &mut [u8], values: &[i32])
    requires { length bits.old ≤ length values.now }
    ensures { bits.new ≡ leaf_bits bits.old (soft values.now 0 (length bits.old)) }
{
    for (i, bit) in bits.iter_mut().enumerate() {
        *bit = leaf_bit(*bit, values[i]);
    }
}

// A pass: `bits` holds the mask, and afterwards the leaf bits; the incoming values of the unfrozen leaves are in row 0. `known` is room for the word of the frozen
// values; `ones` is false only where no position is frozen to 1.
fn pass(
    llrs: &[i16],
    ones: bool,
    sweeps: usize,
    size: usize,
    stage: usize,
    known: &mut [u8],
    bits: &mut [u8],
    work: &mut [i32],
)
    requires passable { Passable bits.old llrs.now sweeps size stage (length work.old) }
    requires known_len { (length known.old ≡ size) × (ones ≡ false → T (at_most 1 bits.old)) }
    ensures bits_after { bits.new ≡ pass_bits stage bits.old (map finite llrs.now) sweeps }
    ensures passed { Passed bits.old llrs.now sweeps size stage work.old work.new }
{
    frozen_word(bits, known, stage, ones);
    leaf_values(bits, llrs, known, ones, sweeps, size, stage, work);
    decide_leaves(bits, work);
}

// Pass one, with the mask itself. `bits` has its leaf bits afterwards.
pub fn first_pass(
    mask: &[u8],
    ones: bool,
    llrs: &[i16],
    sweeps: usize,
    size: usize,
    stage: usize,
    known: &mut [u8],
    bits: &mut [u8],
    work: &mut [i32],
)
    requires passable { Passable mask.now llrs.now sweeps size stage (length work.old) }
    requires known_len { (length known.old ≡ size) × (length bits.old ≡ size) × (ones ≡ false → T (at_most 1 mask.now)) }
    ensures bits_after { bits.new ≡ pass_bits stage mask.now (map finite llrs.now) sweeps }
    ensures passed { Passed mask.now llrs.now sweeps size stage work.old work.new }
{
    bits.copy_from_slice(mask);
    pass(llrs, ones, sweeps, size, stage, known, bits, work);
}

// The byte at i of an attempt's mask: frozen to pass one's bit before the flipped leaf, to the opposite bit at it, and the mask's after it.
fn attempt_byte(i: usize, flipped: usize, byte: u8, bit: u8) -> u8
    requires { bit ≤ 1 }
    ensures { result ≡ cond (ltb i flipped) (frozen_to bit) (cond (eqb i flipped) (frozen_to (1 - bit)) byte) }
{
    if i < flipped {
        return 1 + bit;
    }
    if i == flipped { 2 - bit } else { byte }
}

// An attempt's mask.
fn attempt_mask(mask: &[u8], bits: &[u8], flipped: usize, trial: &mut [u8])
    requires { (length bits.now ≡ length mask.now) × (length trial.old ≡ length mask.now) × T (at_most 1 bits.now) }
    ensures { trial.new ≡ attempt_mask mask.now bits.now flipped }
{
    for i in 0..mask.len() {
        trial[i] = attempt_byte(i, flipped, mask[i], bits[i]);
    }
}

// An attempt with one leaf flipped; `bits` holds those of pass one. `trial` has the attempt's leaf bits afterwards.
pub fn attempt(
    mask: &[u8],
    bits: &[u8],
    flipped: usize,
    llrs: &[i16],
    sweeps: usize,
    size: usize,
    stage: usize,
    known: &mut [u8],
    trial: &mut [u8],
    work: &mut [i32],
)
    requires { Attemptable mask.now bits.now llrs.now sweeps size stage (length known.old) (length trial.old) (length work.old) }
    ensures trial_after { trial.new ≡ pass_bits stage (attempt_mask mask.now bits.now flipped) (map finite llrs.now) sweeps }
    ensures same_past { SamePast (size * (stage + 3)) work.old work.new }
{
    attempt_mask(mask, bits, flipped, trial);
    pass(llrs, true, sweeps, size, stage, known, trial, work);
}
