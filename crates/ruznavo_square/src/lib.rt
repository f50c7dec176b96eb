// Square frames for a C host: numbers and slices of bytes. The answer is one number.
#![tactic(auto)]

ghost use Rattle.std.specs.Prelude.{◌≡◌, length};
ghost use Rattle.model.specs.Square.{square_answer, square_bytes};

use square::decode_square;

// Decodes a square frame: LLRs of 16 bits by rows, the low byte first, into sums of the same layout. The answer is number + 256 × cycles of all lines.
#[tactic(auto, unfolding(model::specs::Square::square_answer))]
pub fn ruznavo_square(mask: &[u8], half_iterations: usize, llrs: &[u8], out: &mut [u8]) -> u64
    ensures value { result ≡ square_answer mask.now half_iterations llrs.now (length out.old) }
    ensures out_after { out.new ≡ square_bytes mask.now half_iterations llrs.now out.old }
{
    match decode_square(mask, half_iterations, llrs, out) {
        Ok(cycles) => 256 * u64::from(cycles),
        Err(refusal) => u64::from(refusal.number()),
    }
}
