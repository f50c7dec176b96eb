// The name that a C host links against: the call is that of the library `ruznavo_square`, with its clauses.
#![tactic(auto)]

ghost use Rattle.std.specs.Prelude.{◌≡◌, length};
ghost use Rattle.model.specs.Square.{square_answer, square_bytes};

// Decodes a square frame: LLRs of 16 bits by rows, the low byte first, into sums of the same layout. The answer is number + 256 × cycles of all lines.
#[unsafe(no_mangle)]
pub extern "C" fn ruznavo_square(
    mask: &[u8],
    half_iterations: usize,
    llrs: &[u8],
    out: &mut [u8],
) -> u64
    ensures value { result ≡ square_answer mask.now half_iterations llrs.now (length out.old) }
    ensures out_after { out.new ≡ square_bytes mask.now half_iterations llrs.now out.old }
{
    ruznavo_square::ruznavo_square(mask, half_iterations, llrs, out)
}
