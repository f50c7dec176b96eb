// The library for a C host: numbers, and slices of bytes, words and samples. Each answer is one number. `ruznavo_c` exports these calls.
#![tactic(auto)]

ghost use Rattle.std.specs.Prelude.{◌≡◌, length, ◌+◌, ◌*◌, ◌^◌};
ghost use Rattle.model.specs.Refusals.{samples_number, samples_llrs, encode_number, encode_word, plan_bytes};
ghost use Rattle.model.specs.Masks.{weight_number, weight_mask_after};
ghost use Rattle.model.specs.Distance.{distance_mask_after};
ghost use Rattle.model.specs.Erasure.{erasure_number, erasure_mask_after};
ghost use Rattle.inputs.specs.Numbers.{number_of, of_accepted};
ghost use Rattle.model.specs.Lists.{bit};
ghost use Rattle.transform.specs.Calls.{transform_number, transform_bytes};
ghost use Rattle.decode.specs.Calls.{lent, given};
ghost use Rattle.scan_flip.specs.Answers as flips;
ghost use Rattle.scan_flip.specs.Calls.{flip_call};
ghost use Rattle.ruznavo.specs.Answers.{CheckAnswer, PlanAnswer, host_counts, DecodeAnswer, DistanceAnswer, FlipAnswer, ReplayAnswer};

use attempts::Attempted;
use decode::decode;
use encode::encode;
use erasure::mask_by_erasure;
use inputs::Refusal;
use kinds::KINDS;
use masks::{mask_by_weight, mask_for_distance};
use planner::plan_mask;
use plans::check_plan;
use replay::replay_totals;
use samples::{Channel, samples_to_llrs};
use scan_flip::decode_flips;
use transform::transform;

// The number of an answer: 0 where the call is accepted.
fn number(answer: Result<(), Refusal>) -> u64
    ensures { result ≡ number_of answer }
{
    match answer {
        Ok(()) => 0,
        Err(refusal) => refusal.number() as u64,
    }
}

// Samples to LLRs, at the noise variance. The answer is the number.
pub fn ruznavo_samples(samples: &[f32], marks: &[u8], variance: f32, llrs: &mut [i16]) -> u64
    ensures value { result ≡ samples_number samples.now marks.now variance (length llrs.old) }
    ensures llrs_after { llrs.new ≡ samples_llrs samples.now marks.now variance llrs.old }
{
    let channel = Channel { variance };
    number(samples_to_llrs(samples, marks, channel, llrs))
}

// The word of a payload. The answer is the number.
pub fn ruznavo_encode(mask: &[u8], payload: &[u8], word: &mut [u8]) -> u64
    ensures value { result ≡ encode_number mask.now payload.now (length word.old) }
    ensures word_after { word.new ≡ encode_word mask.now payload.now word.old }
{
    number(encode(mask, payload, word))
}

// The transform in place. The answer is the number.
pub fn ruznavo_transform(bits: &mut [u8]) -> u64
    ensures value { result ≡ transform_number bits.old }
    ensures bits_after { bits.new ≡ transform_bytes bits.old }
{
    number(transform(bits))
}

// A check of a plan. The answer is number + 256 × cycles of one sweep.
pub fn ruznavo_check_plan(mask: &[u8], plan: &[u8]) -> u64
    ensures { CheckAnswer mask.now plan.now result }
{
    match check_plan(mask, plan) {
        Ok(cycles) => 256 * cycles as u64,
        Err(fault) => fault.number() as u64,
    }
}

// The planner's plan, and the counts of its cut nodes by kind. The answer is number + 256 × cycles of one sweep.
pub fn ruznavo_plan(mask: &[u8], plan: &mut [u8], counts: &mut [u32; KINDS]) -> u64
    ensures plan_answer { PlanAnswer mask.now (length plan.old) result }
    ensures plan_after { plan.new ≡ plan_bytes mask.now plan.old }
    ensures counts_after { counts.new ≡ host_counts mask.now (length plan.old) counts.old }
{
    match plan_mask(mask, plan) {
        Ok(p) => {
            let by_kind = p.counts;
            *counts = by_kind;
            256 * p.cycles as u64
        }
        Err(refusal) => refusal.number() as u64,
    }
}

// A decode. The answer is number + 256 × cycles + 2 ^ 40 × frozen check + 2 ^ 41 × number of undecided bits.
pub fn ruznavo_decode(
    mask: &[u8],
    plan: &[u8],
    sweeps: usize,
    llrs: &[i16],
    soft: &mut [i32],
    hard: &mut [u8],
    payload: &mut [u8],
    work: &mut [i32],
) -> u64
    ensures { DecodeAnswer
        (given mask.now plan.now sweeps llrs.now
        (lent soft.old hard.old payload.old work.old))
        (lent soft.new hard.new payload.new work.new)
        result }
{
    match decode(mask, plan, sweeps, llrs, soft, hard, payload, work) {
        Ok(d) => {
            let check = 1099511627776 * d.check as u64;
            let undecided = 2199023255552 * d.undecided as u64;
            256 * d.cycles as u64 + check + undecided
        }
        Err(refusal) => refusal.number() as u64,
    }
}

// The mask of N and K by row weight. The answer is the number.
pub fn ruznavo_mask_by_weight(n: usize, k: usize, mask: &mut [u8]) -> u64
    ensures value { result ≡ weight_number n k (length mask.old) }
    ensures mask_after { mask.new ≡ weight_mask_after n k mask.old }
{
    number(mask_by_weight(n, k, mask))
}

// The number of an answer, and 256 more where a mask was written.
fn distance_answer(answer: Result<bool, Refusal>) -> u64
    ensures { result ≡ number_of answer + 256 * of_accepted bit answer }
{
    match answer {
        Ok(written) => 256 * written as u64,
        Err(refusal) => refusal.number() as u64,
    }
}

// The mask of N and K by row weight, where its every non-zero word has d ones or more. The answer is number + 256 × (1 where a mask was written).
pub fn ruznavo_mask_for_distance(n: usize, k: usize, d: usize, mask: &mut [u8]) -> u64
    ensures distance_answer { DistanceAnswer n k d (length mask.old) result }
    ensures mask_after { mask.new ≡ distance_mask_after n k d mask.old }
{
    distance_answer(mask_for_distance(n, k, d, mask))
}

// The number of an answer + 256 × (its t or the number of attempts made) + 2 ^ 40 × (1 for a match).
fn flip_answer(answer: Result<Attempted, Refusal>) -> u64
    ensures { result ≡ number_of answer + 256 * flips.answer_attempts answer + 2 ^ 40 * flips.answer_matched answer }
{
    match answer {
        Ok(Attempted::Matched(t)) => 256 * t as u64 + 1099511627776,
        Ok(Attempted::Unmatched(made)) => 256 * made as u64,
        Err(refused) => refused.number() as u64,
    }
}

// A decode with up to `attempts` flip attempts. The answer is number + 256 × (t of the match, or the number of attempts made) + 2 ^ 40 × (1 for a match).
pub fn ruznavo_flip(
    mask: &[u8],
    sweeps: usize,
    attempts: usize,
    llrs: &[i16],
    payload: &mut [u8],
    work: &mut [i32],
) -> u64
    ensures { FlipAnswer (flip_call mask.now sweeps attempts llrs.now (length payload.old) (length work.old))
        payload.old payload.new work.old work.new result }
{
    flip_answer(decode_flips(mask, sweeps, attempts, llrs, payload, work))
}

// The mask of N and K from the measured erasure rate z. The answer is the number.
pub fn ruznavo_mask_by_erasure(n: usize, k: usize, z: f64, mask: &mut [u8]) -> u64
    ensures value { result ≡ erasure_number n k z (length mask.old) }
    ensures mask_after { mask.new ≡ erasure_mask_after n k z mask.old }
{
    number(mask_by_erasure(n, k, z, mask))
}

// A capture replayed: the text of its totals goes to the front of out. The answer is the number + 256 × the length of the text.
pub fn ruznavo_replay(capture: &[u8], out: &mut [u8]) -> u64
    ensures { ReplayAnswer capture.now out.old out.new result }
{
    match replay_totals(capture, out) {
        Ok(length) => 256 * length as u64,
        Err(reason) => reason.number() as u64,
    }
}
