// Masks from a measured erasure rate.
#![tactic(auto)]

ghost use Rattle.std.specs.Prelude.{◌≡◌, true, ◌*◌, ◌^◌, ◌≤◌, length};
ghost use Rattle.model.specs.Lists.{tabulate, bit, over};
ghost use Rattle.model.specs.Erasure.{square, worse, rate, Probability, comes_before, erasure_mask, is_rate, erasure_number, erasure_mask_after};
ghost use Rattle.inputs.specs.Numbers.{number_of};
ghost use Rattle.selection.specs.Places.{Each, value_at};
ghost use Rattle.erasure.specs.Positions.{Split, FirstUnfrozen};

use inputs::{Refusal, exponent_of};
use selection::{count_beyond, position_of, select};

// A position's erasure rate and the position, held together.
#[derive(Clone, Copy)]
pub struct Rate {
    pub value: f64,
    pub index: usize,
}

// Whether a comes before b: the larger rate first, the lower index first among equals.
pub fn comes_before(a: Rate, b: Rate) -> bool
    ensures { result ≡ comes_before a.value a.index b.value b.index }
{
    b.value < a.value || a.value == b.value && a.index < b.index
}

// ---- the rates

// The rate at a bit 1.
#[tactic(auto, unfolding(model::specs::Erasure::square))]
fn squared(z: f64) -> f64
    ensures { result ≡ square z }
{
    z * z
}

// The rate at a bit 0.
fn worsened(z: f64) -> f64
    ensures { result ≡ worse z }
{
    2.0 * z - z * z
}

// One more bit for each of the first `count` positions: position j becomes the positions 2j and 2j + 1. The last goes first, so
// that no rate is overwritten before it is read.
fn split(values: &mut [f64], count: usize)
    requires { 2 * count ≤ length values.old }
    ensures { Split count values.old values.new }
{
    for j in (0..count).rev() {
        let z = values[j];
        let low = worsened(z);
        let high = squared(z);
        values[2 * j] = low;
        values[2 * j + 1] = high;
    }
}

// The rates of the 2 to the power n positions, from the index's top bit down.
pub fn rates(z: f64, n: usize, values: &mut [f64])
    requires { (n ≤ 10) × (2 ^ n ≤ length values.old) }
    ensures { values.new ≡ over (tabulate (2 ^ n) (rate n z)) values.old }
{
    values[0] = z;
    for k in 0..n {
        split(values, 1 << k);
    }
}

// ---- the first unfrozen position

// The position that has exactly m others before it in the order. Where m is the number of positions there is none: one past the
// last, at the rate 0, has all before it.
fn first_unfrozen(values: &[f64], m: usize) -> Rate
    requires { (m ≤ length values.now) × (length values.now ≤ 1024) × Each Probability values.now }
    ensures { FirstUnfrozen values.now m result.value result.index }
{
    let size = values.len();
    if m == size {
        return Rate {
            value: 0.0,
            index: size,
        };
    }
    let mut work = [0.0; 1024];
    work[..size].copy_from_slice(values);
    let threshold = select(&mut work, size, m);
    let above = count_beyond(values, size, threshold, true);
    let index = position_of(values, size, threshold, m - above);
    Rate {
        value: values[index],
        index,
    }
}

// ---- the mask

// A mask byte for each position: those that come before `first` are frozen.
fn freeze(values: &[f64], first: Rate, mask: &mut [u8])
    requires { length values.now ≤ length mask.old }
    ensures { mask.new ≡ over (tabulate (length values.now) (λ i. bit (comes_before (value_at values.now i) i first.value first.index))) mask.old }
{
    for (index, value) in values.iter().enumerate() {
        let p = Rate {
            value: *value,
            index,
        };
        mask[index] = comes_before(p, first) as u8;
    }
}

// The mask of an accepted call: the positions before the first unfrozen one are frozen.
fn choose(z: f64, n: usize, size: usize, k: usize, mask: &mut [u8])
    requires { (n ≤ 10) × (size ≡ 2 ^ n) × (k ≤ size) × (is_rate z ≡ true) × (size ≤ length mask.old) }
    ensures { mask.new ≡ over (erasure_mask n k z) mask.old }
{
    let mut values = [0.0; 1024];
    rates(z, n, &mut values);
    let values = &values[..size];
    let first = first_unfrozen(values, size - k);
    freeze(values, first, mask);
}

// Whether z lies strictly between 0 and 1; a NaN does not.
fn is_rate(z: f64) -> bool
    ensures { result ≡ is_rate z }
{
    0.0 < z && z < 1.0
}

// Tests 1, 16, 20 and 11.
#[tactic(auto, unfolding(model::specs::Erasure::erasure_number, model::specs::Refusals::refusal))]
fn erasure_tests(size: usize, k: usize, z: f64, room: usize) -> Result<(), Refusal>
    ensures { number_of result ≡ erasure_number size k z room }
{
    if exponent_of(size) == 0 {
        return Err(Refusal::Length);
    }
    if size < k {
        return Err(Refusal::UnfrozenCount);
    }
    if !is_rate(z) {
        return Err(Refusal::ErasureRate);
    }
    if room < size {
        return Err(Refusal::ShortOutput);
    }
    Ok(())
}

// The mask of N and K from the measured erasure rate z, into the first N bytes of `mask`: the N - K positions of the largest rates
// are frozen.
pub fn mask_by_erasure(size: usize, k: usize, z: f64, mask: &mut [u8]) -> Result<(), Refusal>
    ensures value { number_of result ≡ erasure_number size k z (length mask.old) }
    ensures mask_after { mask.new ≡ erasure_mask_after size k z mask.old }
{
    erasure_tests(size, k, z, mask.len())?;
    choose(z, exponent_of(size), size, k, mask);
    Ok(())
}
