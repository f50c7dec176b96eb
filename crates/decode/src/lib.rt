// The decoder: the tests of a call, SCAN's soft values by the plan, and what is read off them.
#![tactic(auto)]

ghost use Rattle.std.specs.Prelude.{◌≡◌, [], ◌∷◌};
ghost use Rattle.model.specs.Refusals.{llrs_in_range, refusal, row_3, row_4, row_11, row_12};
ghost use Rattle.inputs.specs.Numbers.{number_of, of_accepted};
ghost use Rattle.decode.specs.Calls.{lent, given, Outcome};
ghost use Rattle.decode.specs.Steps.{InputTests};

use decisions::read_off;
use inputs::{Masked, Refusal, is_llr, mask_tests, sweeps_fit, unfrozen_of};
use plans::fault_of;
use scan::soft_values;
use words::{fill, widened};

// What an accepted decode answers: the cycles, the frozen check and the number of undecided bits.
#[derive(Clone, Copy)]
pub struct Decoded {
    pub cycles: u32,
    pub check: u8,
    pub undecided: u16,
}

// Whether every LLR is within its range.
pub fn in_range(llrs: &[i16]) -> bool
    ensures { result ≡ llrs_in_range llrs.now }
{
    let mut good = true;
    for z in llrs {
        good &= is_llr(widened(*z));
    }
    good
}

// Tests 3 and 4, for N.
#[tactic(auto, unfolding(model::specs::Refusals::refusal))]
pub fn count_tests(size: usize, llrs: usize, sweeps: usize) -> Result<(), Refusal>
    ensures { number_of result ≡ refusal (row_3 llrs size ∷ row_4 sweeps ∷ []) }
{
    if llrs != size {
        return Err(Refusal::Count);
    }
    if !sweeps_fit(sweeps) {
        return Err(Refusal::Sweeps);
    }
    Ok(())
}

// Tests 1 to 7. Inputs that pass have what the tests of the mask find, and the cycles of one sweep.
fn input_tests(
    mask: &[u8],
    plan: &[u8],
    sweeps: usize,
    llrs: &[i16],
) -> Result<(Masked, u32), Refusal>
    ensures { InputTests mask.now plan.now sweeps llrs.now result }
{
    let masked = mask_tests(mask)?;
    count_tests(mask.len(), llrs.len(), sweeps)?;
    let cycles = fault_of(mask, plan, masked.stage)?;
    if !in_range(llrs) {
        return Err(Refusal::Llr);
    }
    Ok((masked, cycles))
}

// Tests 11 and 12, for N and K.
#[tactic(auto, unfolding(model::specs::Refusals::refusal))]
fn room_tests(
    size: usize,
    k: usize,
    words: usize,
    soft: usize,
    hard: usize,
    payload: usize,
    work: usize,
) -> Result<(), Refusal>
    ensures { number_of result ≡ refusal (row_11 size soft ∷ row_11 size hard ∷ row_11 k payload ∷ row_12 words work ∷ []) }
{
    if soft < size || hard < size || payload < k {
        return Err(Refusal::ShortOutput);
    }
    if work < words {
        return Err(Refusal::ShortWorkspace);
    }
    Ok(())
}

// Decodes LLRs along an allowed plan. The answer is that of SCAN walked to the last leaf, whichever allowed plan it is given.
pub fn decode(
    mask: &[u8],
    plan: &[u8],
    sweeps: usize,
    llrs: &[i16],
    soft: &mut [i32],
    hard: &mut [u8],
    payload: &mut [u8],
    work: &mut [i32],
) -> Result<Decoded, Refusal>
    ensures { Outcome
        (given mask.now plan.now sweeps llrs.now
        (lent soft.old hard.old payload.old work.old))
        (lent soft.new hard.new payload.new work.new)
        (number_of result) (of_accepted (λ d. d.cycles) result) (of_accepted (λ d. d.check) result) (of_accepted (λ d. d.undecided) result) }
{
    let (masked, of_sweep) = input_tests(mask, plan, sweeps, llrs)?;
    let size = mask.len();
    let stage = masked.stage;
    let words = size * (stage + 3);
    let k = unfrozen_of(mask);
    room_tests(
        size,
        k,
        words,
        soft.len(),
        hard.len(),
        payload.len(),
        work.len(),
    )?;
    // The front of the hard word is room for the word of the frozen values; the bits are written over it.
    soft_values(
        mask,
        plan,
        llrs,
        &mut hard[..size],
        masked.ones,
        sweeps,
        size,
        stage,
        soft,
        work,
    );
    fill(work, 0, words, 0);
    let read = read_off(mask, llrs, soft, hard, payload, size, stage, k);
    let cycles = sweeps as u32 * of_sweep;
    Ok(Decoded {
        cycles,
        check: read.check,
        undecided: read.undecided,
    })
}
