// Flip attempts: a decode whose payload ends with a CRC, and further decodes with one leaf flipped where the CRC does not match.
#![tactic(auto)]

ghost use Rattle.std.specs.Prelude.{◌≡◌, [], ◌∷◌, ◌≤◌, length};
ghost use Rattle.model.specs.Refusals.{refusal, row_7, row_11, row_12};
ghost use Rattle.model.specs.Attempts.{row_18, row_19};
ghost use Rattle.inputs.specs.Numbers.{number_of};
ghost use Rattle.scan_flip.specs.Calls.{flip_call, Outcome, FlipTests};

use attempts::{Attempted, MAX_ATTEMPTS, flip_attempts};
use decode::{count_tests, in_range};
use inputs::{Masked, Refusal, mask_tests, unfrozen_of};
use words::fill;

// The least K: eight bits of CRC, and one that they are over.
const MIN_K: usize = 9;

// Tests 18, 19, 7, 11 and 12, for K.
#[tactic(auto, unfolding(model::specs::Refusals::refusal))]
fn later_tests(
    k: usize,
    attempts: usize,
    llrs: &[i16],
    payload: usize,
    words: usize,
    work: usize,
) -> Result<(), Refusal>
    ensures { number_of result ≡ refusal (row_18 k ∷ row_19 attempts ∷ row_7 llrs.now ∷ row_11 k payload ∷ row_12 words work ∷ []) }
{
    if k < MIN_K {
        return Err(Refusal::ShortPayload);
    }
    if MAX_ATTEMPTS < attempts {
        return Err(Refusal::Attempts);
    }
    if !in_range(llrs) {
        return Err(Refusal::Llr);
    }
    if payload < k {
        return Err(Refusal::ShortOutput);
    }
    if work < words {
        return Err(Refusal::ShortWorkspace);
    }
    Ok(())
}

// The tests of a call, for buffers of these lengths. A call that passes has what the tests of the mask find, and K.
fn flip_tests(
    mask: &[u8],
    sweeps: usize,
    attempts: usize,
    llrs: &[i16],
    payload: usize,
    work: usize,
) -> Result<(Masked, usize), Refusal>
    ensures { FlipTests (flip_call mask.now sweeps attempts llrs.now payload work) result }
{
    let masked = mask_tests(mask)?;
    count_tests(mask.len(), llrs.len(), sweeps)?;
    let k = unfrozen_of(mask);
    let words = mask.len() * (masked.stage + 3);
    later_tests(k, attempts, llrs, payload, words, work)?;
    Ok((masked, k))
}

// Decodes LLRs whose payload ends with a CRC, with up to `attempts` flip attempts: answers a match by its t, or the number of
// attempts made. The payload is the first match's, or pass one's.
pub fn decode_flips(
    mask: &[u8],
    sweeps: usize,
    attempts: usize,
    llrs: &[i16],
    payload: &mut [u8],
    work: &mut [i32],
) -> Result<Attempted, Refusal>
    ensures { Outcome (flip_call mask.now sweeps attempts llrs.now (length payload.old) (length work.old))
        payload.old payload.new work.old work.new result }
{
    let (masked, k) = flip_tests(mask, sweeps, attempts, llrs, payload.len(), work.len())?;
    let size = mask.len();
    let stage = masked.stage;
    let mut known = [0u8; 1024];
    let mut bits = [0u8; 1024];
    let mut trial = [0u8; 1024];
    let answer = flip_attempts(
        mask,
        masked.ones,
        llrs,
        sweeps,
        attempts,
        size,
        stage,
        k,
        &mut known[..size],
        &mut bits[..size],
        &mut trial[..size],
        payload,
        work,
    );
    fill(work, 0, size * (stage + 3), 0);
    Ok(answer)
}
