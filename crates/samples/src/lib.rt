// The front end: samples, position marks and the noise variance to LLRs.
#![tactic(auto)]

ghost use Rattle.std.specs.Prelude.{◌≡◌, cond, ◌+◌, ◌<◌, ◌≤◌, length};
ghost use Rattle.model.specs.Lists.{over};
ghost use Rattle.model.specs.Soft.{signed};
ghost use Rattle.model.specs.Samples.{to_llr, llr_of, llrs_of, position_of, is_finite, is_variance, is_readable, all_readable};
ghost use Rattle.model.specs.Refusals.{samples_number, samples_llrs};
ghost use Rattle.inputs.specs.Numbers.{number_of};
ghost use Rattle.samples.specs.Cases.{position_named, above_zero, under_top, size_of, whole_of, sample_of, known_llr, selected, sent_llrs, marked_llrs, all_finite, sent_finite};

use inputs::{Refusal, at_most, exponent_of};

// A received position.
#[derive(Clone, Copy)]
pub enum Position {
    Sent(f32),
    Punctured,
    Shortened,
}

// A channel setting: the noise variance.
#[derive(Clone, Copy)]
pub struct Channel {
    pub variance: f32,
}

// x where it is above zero, and 0 where it is not or is a NaN. The contracts of std's `max` and `min` leave open which of two equal floats they give.
fn clamp_low(x: f32) -> f32
    ensures { result ≡ above_zero x }
{
    if x > 0.0 { x } else { 0.0 }
}

// x where it is below 32767, and 32767 where it is not or is a NaN.
fn clamp_high(x: f32) -> f32
    ensures { result ≡ under_top x }
{
    if x < 32767.0 { x } else { 32767.0 }
}

// d without its sign; a zero keeps its own. `d.abs()`, tried, compiles to a branch in the loop over the samples.
fn size(d: f32) -> f32
    ensures { result ≡ size_of d }
{
    if d < 0.0 { -d } else { d }
}

// n, or one more where what n was rounded from is not below n + 1 / 2.
fn half_up(n: u32, below: bool) -> u32
    requires { n < 32768 }
    ensures { result ≡ cond below n (n + 1) }
{
    if below { n } else { n + 1 }
}

// The whole number nearest to x, a half going up, and at most 32767; 0 where x is not above zero.
// From 8388608 to its double an f32 is a whole number, so the sum with 8388608 rounds c to a whole number t, the nearest one.
// At a half it can be the lower one: t is one less than asked where c is not below t + 1 / 2.
fn whole(x: f32) -> u32
    ensures { result ≡ whole_of x }
{
    let c = clamp_high(clamp_low(x));
    let t = (c + 8388608.0) - 8388608.0;
    half_up(t as i32 as u32, c < t + 0.5)
}

// n, or -n where minus. It has the 32 bits of the float that n and its sign come from, so that a loop narrows its values once.
fn with_sign(n: u32, minus: bool) -> i32
    requires { n < 32768 }
    ensures { result ≡ signed minus n }
{
    if minus { -(n as i32) } else { n as i32 }
}

// The LLR of a doubled quotient d: the nearest whole number, halves away from zero, clamped to ±32767.
pub fn to_llr(d: f32) -> i16
    ensures { result ≡ to_llr d }
{
    with_sign(whole(size(d)), d < 0.0) as i16
}

// The sample of a sent position, and 0 for another, whose LLR it is not used for.
#[tactic(auto, unfolding(crate::specs::Cases::position_named, crate::specs::Cases::sample_of))]
fn sample_of(p: Position) -> f32
    ensures { result ≡ sample_of (position_named p) }
{
    match p {
        Position::Sent(y) => y,
        Position::Punctured | Position::Shortened => 0.0,
    }
}

// The LLR of a position that is not sent.
#[tactic(auto, unfolding(crate::specs::Cases::position_named, crate::specs::Cases::known_llr))]
fn known_llr(p: Position) -> i16
    ensures { result ≡ known_llr (position_named p) }
{
    match p {
        Position::Sent(_) | Position::Punctured => 0,
        Position::Shortened => 32767,
    }
}

// The LLR of a position whose sample gives l: l where it was sent, and else the known one. A choice of two values, so that a
// loop over the positions compiles to no branch, and to several positions at a time.
#[tactic(auto, unfolding(crate::specs::Cases::position_named, crate::specs::Cases::known_llr, crate::specs::Cases::selected))]
fn select(p: Position, l: i16) -> i16
    ensures { result ≡ selected (position_named p) l }
{
    match p {
        Position::Sent(_) => l,
        Position::Punctured | Position::Shortened => known_llr(p),
    }
}

// The LLR of one position.
pub fn llr_of(p: Position, channel: Channel) -> i16
    ensures { result ≡ llr_of channel.variance (position_named p) }
{
    let q = sample_of(p) / channel.variance;
    select(p, to_llr(q + q))
}

// Whether x is neither a NaN nor an infinity: it lies strictly between the two infinities. With std's `is_finite`, tried, a
// call takes 2 percent longer.
fn finite(x: f32) -> bool
    ensures { result ≡ is_finite x }
{
    x < f32::INFINITY && f32::NEG_INFINITY < x
}

// Whether v is finite and above zero.
fn variance(v: f32) -> bool
    ensures { result ≡ is_variance v }
{
    finite(v) && v > 0.0
}

// The position with the mark m and the sample y, which is dropped where it was not sent: nothing depends on it there.
#[tactic(auto, unfolding(crate::specs::Cases::position_named, model::specs::Samples::position_of))]
fn position_of(m: u8, y: f32) -> Position
    ensures { position_named result ≡ position_of m y }
{
    match m {
        1 => Position::Punctured,
        2 => Position::Shortened,
        _ => Position::Sent(y),
    }
}

// Whether a sent sample is finite; the other positions have none to test.
#[tactic(auto, unfolding(crate::specs::Cases::position_named, model::specs::Samples::is_readable))]
fn readable(p: Position) -> bool
    ensures { result ≡ is_readable (position_named p) }
{
    match p {
        Position::Sent(y) => finite(y),
        Position::Punctured | Position::Shortened => true,
    }
}

// Whether every sample is finite, sent or not.
fn all_finite(samples: &[f32]) -> bool
    ensures { result ≡ all_finite samples.now }
{
    let mut ok = true;
    for y in samples {
        ok &= finite(*y);
    }
    ok
}

// Whether each sent sample is finite.
fn sent_finite(marks: &[u8], samples: &[f32]) -> bool
    requires { length marks.now ≡ length samples.now }
    ensures { result ≡ sent_finite marks.now samples.now }
{
    let mut ok = true;
    for (m, y) in marks.iter().zip(samples) {
        ok &= readable(position_of(*m, *y));
    }
    ok
}

// Whether each mark is at most 2 and each sent sample is finite. Where all samples are finite, which the shorter loop tells, it
// does not matter which of them were sent.
#[tactic(auto, using(crate::proofs::Inputs::by_parts, crate::proofs::Inputs::finite_readable))]
fn all_readable(marks: &[u8], samples: &[f32]) -> bool
    requires { length marks.now ≡ length samples.now }
    ensures { result ≡ all_readable marks.now samples.now }
{
    at_most(marks, 2) && (all_finite(samples) || sent_finite(marks, samples))
}

// One LLR for each sample, as if all positions were sent, into the front of llrs.
fn fill_sent(samples: &[f32], channel: Channel, llrs: &mut [i16])
    requires { length samples.now ≤ length llrs.old }
    ensures { llrs.new ≡ over (sent_llrs channel.variance samples.now) llrs.old }
{
    for (i, y) in samples.iter().enumerate() {
        llrs[i] = llr_of(Position::Sent(*y), channel);
    }
}

// Puts the known LLR in the place of each position that was not sent. The others stay, so no sample is asked for.
fn set_known(marks: &[u8], llrs: &mut [i16])
    requires { length marks.now ≤ length llrs.old }
    ensures { llrs.new ≡ over (marked_llrs marks.now llrs.old) llrs.old }
{
    for (i, m) in marks.iter().enumerate() {
        llrs[i] = select(position_of(*m, 0.0), llrs[i]);
    }
}

// One LLR for each position, into the front of llrs. Where all positions were sent, no LLR is to be replaced.
fn fill(samples: &[f32], marks: &[u8], channel: Channel, llrs: &mut [i16])
    requires { (length marks.now ≡ length samples.now) × (length samples.now ≤ length llrs.old) }
    ensures { llrs.new ≡ over (llrs_of channel.variance marks.now samples.now) llrs.old }
{
    fill_sent(samples, channel, llrs);
    if !at_most(marks, 0) {
        set_known(marks, llrs);
    }
}

// Samples to LLRs. The number of samples is N; marks are 0 sent, 1 punctured, 2 shortened.
#[tactic(auto, unfolding(model::specs::Refusals::samples_number, model::specs::Refusals::refusal, model::specs::Refusals::samples_llrs))]
pub fn samples_to_llrs(
    samples: &[f32],
    marks: &[u8],
    channel: Channel,
    llrs: &mut [i16],
) -> Result<(), Refusal>
    ensures value { number_of result ≡ samples_number samples.now marks.now channel.variance (length llrs.old) }
    ensures llrs_after { llrs.new ≡ samples_llrs samples.now marks.now channel.variance llrs.old }
{
    if exponent_of(samples.len()) == 0 {
        return Err(Refusal::Length);
    }
    if marks.len() != samples.len() {
        return Err(Refusal::Count);
    }
    if !variance(channel.variance) {
        return Err(Refusal::Variance);
    }
    if !all_readable(marks, samples) {
        return Err(Refusal::Sample);
    }
    if llrs.len() < samples.len() {
        return Err(Refusal::ShortOutput);
    }
    fill(samples, marks, channel, llrs);
    Ok(())
}
