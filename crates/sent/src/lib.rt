// Encoder and decoder for callers who name the order of a word's places: 1 is that of the trial series, in which they are sent by their bits
// backwards, 2 is the one in which they stand. What is called here is in order 2.
#![tactic(auto)]

ghost use Rattle.std.specs.Prelude.{◌≡◌, ◌&&◌, [], ◌∷◌, ◌^◌, ◌≤◌, eqb, leb, pos, length};
ghost use Rattle.model.specs.Lists.{over};
ghost use Rattle.model.specs.Refusals.{exponent, refusal, row_1};
ghost use Rattle.model.specs.Sent.{reordered, order_number, encode_number_in, encode_word_in};
ghost use Rattle.inputs.specs.Numbers.{number_of, of_accepted};
ghost use Rattle.decode.specs.Calls.{lent, given};
ghost use Rattle.sent.specs.Calls.{OutcomeIn};

use decode::{Decoded, decode};
use encode::encode;
use inputs::{Refusal, exponent_of};
use reorder::{reorder_llrs, reorder_words};
use reorder_bytes::reorder_bytes;

// The order by bits backwards, and the one in which places stand.
const BACKWARDS: usize = 1;

const NATURAL: usize = 2;

// The tests that come first: the order's, then the length's.
#[tactic(auto, unfolding(model::specs::Sent::order_number, model::specs::Refusals::refusal))]
fn first_tests(order: usize, size: usize) -> Result<(), Refusal>
    ensures { number_of result ≡ order_number order (refusal (row_1 size ∷ [])) }
{
    if order != BACKWARDS && order != NATURAL {
        return Err(Refusal::Order);
    }
    if exponent_of(size) == 0 {
        return Err(Refusal::Length);
    }
    Ok(())
}

// Whether a list of so many places is moved: N of 4 or more is, by order 1. Two places backwards are the same two.
fn is_moved(order: usize, stage: usize) -> bool
    ensures { result ≡ (eqb order 1 && leb 2 stage) }
{
    order == BACKWARDS && 2 <= stage
}

// The word of a payload of an N of 4 or more in order 1: that of order 2, which is reordered where it stands.
fn encode_backwards(
    mask: &[u8],
    payload: &[u8],
    word: &mut [u8],
    stage: usize,
) -> Result<(), Refusal>
    requires { (2 ≤ stage) × (stage ≡ exponent (length mask.now)) }
    ensures value { number_of result ≡ encode_number_in 1 mask.now payload.now (length word.old) }
    ensures word_after { word.new ≡ encode_word_in 1 mask.now payload.now word.old }
{
    encode(mask, payload, word)?;
    reorder_bytes(&mut word[..mask.len()], stage);
    Ok(())
}

// The word of a payload, in the order, into the first N bytes of `word`.
pub fn encode_in(order: usize, mask: &[u8], payload: &[u8], word: &mut [u8]) -> Result<(), Refusal>
    ensures value { number_of result ≡ encode_number_in order mask.now payload.now (length word.old) }
    ensures word_after { word.new ≡ encode_word_in order mask.now payload.now word.old }
{
    first_tests(order, mask.len())?;
    let stage = exponent_of(mask.len());
    if is_moved(order, stage) {
        encode_backwards(mask, payload, word, stage)
    } else {
        encode(mask, payload, word)
    }
}

// Soft values and hard word put in order 1.
fn results_back(values: &[i32], soft: &mut [i32], hard: &mut [u8], stage: usize)
    requires { (2 ≤ stage) × (stage ≤ 10) × (length values.now ≡ 2 ^ stage) × (2 ^ stage ≤ length soft.old) × (length hard.old ≡ 2 ^ stage) }
    ensures soft_after { soft.new ≡ over (reordered (pos 0) stage values.now) soft.old }
    ensures hard_after { hard.new ≡ reordered 0 stage hard.old }
{
    reorder_words(values, soft, stage);
    reorder_bytes(hard, stage);
}

// A decode of LLRs of an allowed N of 4 or more in order 1: they are put in order 2, and soft values and hard word of an accepted call back
// in order 1.
fn decode_backwards(
    mask: &[u8],
    plan: &[u8],
    sweeps: usize,
    llrs: &[i16],
    soft: &mut [i32],
    hard: &mut [u8],
    payload: &mut [u8],
    work: &mut [i32],
    stage: usize,
) -> Result<Decoded, Refusal>
    requires { (2 ≤ stage) × (stage ≡ exponent (length llrs.now)) }
    ensures { OutcomeIn 1
        (given mask.now plan.now sweeps llrs.now
        (lent soft.old hard.old payload.old work.old))
        (lent soft.new hard.new payload.new work.new)
        (number_of result) (of_accepted (λ d. d.cycles) result) (of_accepted (λ d. d.check) result) (of_accepted (λ d. d.undecided) result) }
{
    let size = llrs.len();
    let mut own = [0i16; 1024];
    reorder_llrs(llrs, &mut own, stage);
    // As long as the soft values' buffer, up to the largest N, so that it is short where that is.
    let mut values = [0i32; 1024];
    let room = soft.len().min(1024);
    let decoded = decode(
        mask,
        plan,
        sweeps,
        &own[..size],
        &mut values[..room],
        hard,
        payload,
        work,
    )?;
    results_back(&values[..size], soft, &mut hard[..size], stage);
    Ok(decoded)
}

// Decodes LLRs in the order, along an allowed plan; soft values and hard word are in the order too.
pub fn decode_in(
    order: usize,
    mask: &[u8],
    plan: &[u8],
    sweeps: usize,
    llrs: &[i16],
    soft: &mut [i32],
    hard: &mut [u8],
    payload: &mut [u8],
    work: &mut [i32],
) -> Result<Decoded, Refusal>
    ensures { OutcomeIn order
        (given mask.now plan.now sweeps llrs.now
        (lent soft.old hard.old payload.old work.old))
        (lent soft.new hard.new payload.new work.new)
        (number_of result) (of_accepted (λ d. d.cycles) result) (of_accepted (λ d. d.check) result) (of_accepted (λ d. d.undecided) result) }
{
    first_tests(order, mask.len())?;
    let stage = exponent_of(llrs.len());
    if is_moved(order, stage) {
        decode_backwards(mask, plan, sweeps, llrs, soft, hard, payload, work, stage)
    } else {
        decode(mask, plan, sweeps, llrs, soft, hard, payload, work)
    }
}
