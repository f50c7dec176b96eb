// Sums that are clamped to an LLR's range, and LLRs as bytes.
#![tactic(auto)]

ghost use Rattle.std.specs.Prelude.{◌≡◌, ◌*◌, ◌≤◌, length};
ghost use Rattle.model.specs.Lists.{over};
ghost use Rattle.model.specs.Soft.{soft_of};
ghost use Rattle.model.specs.Square.{clamped_sum, frame_bytes};

// A sum is clamped to ± this.
const MAX_SUM: i32 = 32767;

// A soft value beyond ± this gives with every 16-bit number a sum that is clamped.
const FAR: i32 = 65536;

// An LLR plus the soft value of a word, clamped. The word is brought within ±FAR first, so that the sum is small; the words of certain are beyond it.
pub fn clamped_sum(llr: i16, value: i32) -> i16
    ensures { result ≡ clamped_sum llr (soft_of value) }
{
    let near = value.clamp(-FAR, FAR);
    let sum = i32::from(llr) + near;
    sum.clamp(-MAX_SUM, MAX_SUM) as i16
}

// The numbers' bytes, the low byte first, into the front of `out`. It compiles to a copy of 32 bytes at a time.
pub fn write_numbers(numbers: &[i16], out: &mut [u8])
    requires { 2 * length numbers.now ≤ length out.old }
    ensures { out.new ≡ over (frame_bytes numbers.now) out.old }
{
    for (p, z) in numbers.iter().enumerate() {
        let [low, high] = z.to_le_bytes();
        out[2 * p] = low;
        out[2 * p + 1] = high;
    }
}
