// The names that a C host links against: each call is that of the library `ruznavo`, with its clauses.
#![tactic(auto)]

ghost use Rattle.std.specs.Prelude.{◌≡◌, length, ◌+◌, ◌*◌, ◌^◌};
ghost use Rattle.model.specs.Refusals.{samples_number, samples_llrs, encode_number, encode_word, plan_bytes};
ghost use Rattle.model.specs.Masks.{weight_number, weight_mask_after};
ghost use Rattle.model.specs.Distance.{distance_mask_after};
ghost use Rattle.model.specs.Erasure.{erasure_number, erasure_mask_after};
ghost use Rattle.transform.specs.Calls.{transform_number, transform_bytes};
ghost use Rattle.decode.specs.Calls.{lent, given};
ghost use Rattle.scan_flip.specs.Calls.{flip_call};
ghost use Rattle.ruznavo.specs.Answers.{CheckAnswer, PlanAnswer, host_counts, DecodeAnswer, DistanceAnswer, FlipAnswer, ReplayAnswer};

use kinds::KINDS;

// Samples to LLRs, at the noise variance. The answer is the number.
#[unsafe(no_mangle)]
pub extern "C" fn ruznavo_samples(
    samples: &[f32],
    marks: &[u8],
    variance: f32,
    llrs: &mut [i16],
) -> u64
    ensures value { result ≡ samples_number samples.now marks.now variance (length llrs.old) }
    ensures llrs_after { llrs.new ≡ samples_llrs samples.now marks.now variance llrs.old }
{
    ruznavo::ruznavo_samples(samples, marks, variance, llrs)
}

// The word of a payload. The answer is the number.
#[unsafe(no_mangle)]
pub extern "C" fn ruznavo_encode(mask: &[u8], payload: &[u8], word: &mut [u8]) -> u64
    ensures value { result ≡ encode_number mask.now payload.now (length word.old) }
    ensures word_after { word.new ≡ encode_word mask.now payload.now word.old }
{
    ruznavo::ruznavo_encode(mask, payload, word)
}

// The transform in place. The answer is the number.
#[unsafe(no_mangle)]
pub extern "C" fn ruznavo_transform(bits: &mut [u8]) -> u64
    ensures value { result ≡ transform_number bits.old }
    ensures bits_after { bits.new ≡ transform_bytes bits.old }
{
    ruznavo::ruznavo_transform(bits)
}

// A check of a plan. The answer is number + 256 × cycles of one sweep.
#[unsafe(no_mangle)]
pub extern "C" fn ruznavo_check_plan(mask: &[u8], plan: &[u8]) -> u64
    ensures { CheckAnswer mask.now plan.now result }
{
    ruznavo::ruznavo_check_plan(mask, plan)
}

// The planner's plan, and the counts of its cut nodes by kind. The answer is number + 256 × cycles of one sweep.
#[unsafe(no_mangle)]
pub extern "C" fn ruznavo_plan(mask: &[u8], plan: &mut [u8], counts: &mut [u32; KINDS]) -> u64
    ensures plan_answer { PlanAnswer mask.now (length plan.old) result }
    ensures plan_after { plan.new ≡ plan_bytes mask.now plan.old }
    ensures counts_after { counts.new ≡ host_counts mask.now (length plan.old) counts.old }
{
    ruznavo::ruznavo_plan(mask, plan, counts)
}

// A decode. The answer is number + 256 × cycles + 2 ^ 40 × frozen check + 2 ^ 41 × number of undecided bits.
#[unsafe(no_mangle)]
pub extern "C" fn ruznavo_decode(
    mask: &[u8],
    plan: &[u8],
    sweeps: usize,
    llrs: &[i16],
    soft: &mut [i32],
    hard: &mut [u8],
    payload: &mut [u8],
    work: &mut [i32],
) -> u64
    ensures { DecodeAnswer
        (given mask.now plan.now sweeps llrs.now
        (lent soft.old hard.old payload.old work.old))
        (lent soft.new hard.new payload.new work.new)
        result }
{
    ruznavo::ruznavo_decode(mask, plan, sweeps, llrs, soft, hard, payload, work)
}

// The mask of N and K by row weight. The answer is the number.
#[unsafe(no_mangle)]
pub extern "C" fn ruznavo_mask_by_weight(n: usize, k: usize, mask: &mut [u8]) -> u64
    ensures value { result ≡ weight_number n k (length mask.old) }
    ensures mask_after { mask.new ≡ weight_mask_after n k mask.old }
{
    ruznavo::ruznavo_mask_by_weight(n, k, mask)
}

// The mask of N and K by row weight, where its every non-zero word has d ones or more. The answer is number + 256 × (1 where a mask was written).
#[unsafe(no_mangle)]
pub extern "C" fn ruznavo_mask_for_distance(n: usize, k: usize, d: usize, mask: &mut [u8]) -> u64
    ensures distance_answer { DistanceAnswer n k d (length mask.old) result }
    ensures mask_after { mask.new ≡ distance_mask_after n k d mask.old }
{
    ruznavo::ruznavo_mask_for_distance(n, k, d, mask)
}

// A decode with up to `attempts` flip attempts. The answer is number + 256 × (t of the match, or the number of attempts made) + 2 ^ 40 × (1 for a match).
#[unsafe(no_mangle)]
pub extern "C" fn ruznavo_flip(
    mask: &[u8],
    sweeps: usize,
    attempts: usize,
    llrs: &[i16],
    payload: &mut [u8],
    work: &mut [i32],
) -> u64
    ensures { FlipAnswer (flip_call mask.now sweeps attempts llrs.now (length payload.old) (length work.old))
        payload.old payload.new work.old work.new result }
{
    ruznavo::ruznavo_flip(mask, sweeps, attempts, llrs, payload, work)
}

// The mask of N and K from the measured erasure rate z. The answer is the number.
#[unsafe(no_mangle)]
pub extern "C" fn ruznavo_mask_by_erasure(n: usize, k: usize, z: f64, mask: &mut [u8]) -> u64
    ensures value { result ≡ erasure_number n k z (length mask.old) }
    ensures mask_after { mask.new ≡ erasure_mask_after n k z mask.old }
{
    ruznavo::ruznavo_mask_by_erasure(n, k, z, mask)
}

// A capture replayed: the text of its totals goes to the front of out. The answer is the number + 256 × the length of the text.
#[unsafe(no_mangle)]
pub extern "C" fn ruznavo_replay(capture: &[u8], out: &mut [u8]) -> u64
    ensures { ReplayAnswer capture.now out.old out.new result }
{
    ruznavo::ruznavo_replay(capture, out)
}
