// The encoder.
#![tactic(auto)]

ghost use Rattle.std.specs.Prelude.{◌≡◌, [], ◌∷◌, ◌≤◌, length};
ghost use Rattle.model.specs.Lists.{over};
ghost use Rattle.model.specs.Encoding.{unfrozen, place};
ghost use Rattle.inputs.specs.Numbers.{number_of};
ghost use Rattle.model.specs.Refusals.{refusal, row_3, row_10, row_11, encode_number, encode_word};

use inputs::{Refusal, UNFROZEN, at_most, known_bit, mask_tests, unfrozen_of};
use transform::strides;

// The payload to the unfrozen positions in rising order, the known bits elsewhere.
fn place_bits(mask: &[u8], payload: &[u8], word: &mut [u8])
    requires { (length payload.now ≡ unfrozen mask.now) × (length mask.now ≤ length word.old) }
    ensures { word.new ≡ over (place mask.now payload.now) word.old }
{
    let mut next: usize = 0;
    for (i, &byte) in mask.iter().enumerate() {
        if byte == UNFROZEN {
            word[i] = payload[next];
            next += 1;
        } else {
            word[i] = known_bit(byte);
        }
    }
}

// Tests 3, 10 and 11, for N and K.
#[tactic(auto, unfolding(model::specs::Refusals::refusal))]
fn payload_tests(size: usize, k: usize, payload: &[u8], room: usize) -> Result<(), Refusal>
    ensures { number_of result ≡ refusal (row_3 (length payload.now) k ∷ row_10 payload.now ∷ row_11 size room ∷ []) }
{
    if payload.len() != k {
        return Err(Refusal::Count);
    }
    if !at_most(payload, 1) {
        return Err(Refusal::PayloadByte);
    }
    if room < size {
        return Err(Refusal::ShortOutput);
    }
    Ok(())
}

// The word of a payload, into the first N bytes of `word`.
pub fn encode(mask: &[u8], payload: &[u8], word: &mut [u8]) -> Result<(), Refusal>
    ensures value { number_of result ≡ encode_number mask.now payload.now (length word.old) }
    ensures word_after { word.new ≡ encode_word mask.now payload.now word.old }
{
    let masked = mask_tests(mask)?;
    let size = mask.len();
    payload_tests(size, unfrozen_of(mask), payload, word.len())?;
    place_bits(mask, payload, word);
    strides(&mut word[..size], masked.stage);
    Ok(())
}
