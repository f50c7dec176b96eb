// Square frames: N lines of N LLRs, decoded by rows and by columns in turn.
#![tactic(auto)]

ghost use Rattle.std.specs.Prelude.{◌≡◌, false, ◌*◌, ◌≤◌, ◌<◌, T, length};
ghost use Rattle.model.specs.Lists.{over, at_most};
ghost use Rattle.inputs.specs.Numbers.{number_of, of_accepted};
ghost use Rattle.square_lines.specs.Frames.{LlrsAll, Square};
ghost use Rattle.model.specs.Square.{begun, half_iterations, frame_bytes, square_number, square_cycles, square_bytes};
ghost use Rattle.square.specs.Calls.{Held, ShapePassed, ShapeTests};

use captures::read_llrs;
use clamped::write_numbers;
use decode::in_range;
use inputs::{Masked, Refusal, exponent_of, mask_tests};
use planner::plan_mask;
use square_lines::{Code, WORK, add_soft, half_iteration};
use std::mem;

// N is at most this.
const MAX_SIZE: usize = 32;

// Half-iterations are at most this.
const MAX_HALF_ITERATIONS: usize = 16;

// The sums after all half-iterations, rows first, from soft values that are 0. A half-iteration replaces the soft values from its own direction, which are the others
// to the next one. The buffers are lent one by one, since it reads those of one direction and writes those of the other.
fn last_sums(
    code: Code,
    channel: &[i16],
    rows: &mut [i32],
    columns: &mut [i32],
    inputs: &mut [i16],
    sums: &mut [i16],
    work: &mut [i32; WORK],
    count: usize,
)
    requires square { Square (length code.mask.now) (length channel.now) (length rows.old) (length columns.old) (length inputs.old) }
    requires sums_len { length sums.old ≡ length inputs.old }
    requires range { LlrsAll channel.now }
    requires held { Held (begun code.stage) rows.old columns.old }
    requires some { 0 < count }
    ensures { sums.new ≡ (half_iterations code.entry.stage code.entry.mask.now channel.now count).sums }
{
    let mut own = &mut *rows;
    let mut others = &mut *columns;
    for h in 0..count {
        half_iteration(code, channel, others, own, inputs, h % 2 == 0, work);
        mem::swap(&mut own, &mut others);
    }
    add_soft(inputs, others, sums);
}

// The sums of a frame after all half-iterations, as bytes, to the front of `out`.
fn write_sums(code: Code, channel: &[i16], count: usize, out: &mut [u8])
    requires channel_len { length channel.now ≡ length code.mask.now * length code.mask.now }
    requires range { LlrsAll channel.now }
    requires room { 2 * length channel.now ≤ length out.old }
    requires some { 0 < count }
    ensures { out.new ≡ over (frame_bytes (half_iterations code.entry.stage code.entry.mask.now channel.now count).sums) out.old }
{
    let places = channel.len();
    let mut rows = [0i32; 1024];
    let mut columns = [0i32; 1024];
    let mut inputs = [0i16; 1024];
    let mut sums = [0i16; 1024];
    let mut work = [0i32; WORK];
    last_sums(
        code,
        channel,
        &mut rows[..places],
        &mut columns[..places],
        &mut inputs[..places],
        &mut sums[..places],
        &mut work,
        count,
    );
    write_numbers(&sums[..places], out);
}

// Tests 1, 22, 2, 3 and 23.
fn shape_tests(mask: &[u8], count: usize, bytes: usize) -> Result<Masked, Refusal>
    ensures { ShapeTests mask.now count bytes result }
{
    let size = mask.len();
    if exponent_of(size) == 0 {
        return Err(Refusal::Length);
    }
    if MAX_SIZE < size {
        return Err(Refusal::FrameSize);
    }
    let masked = mask_tests(mask)?;
    if bytes != 2 * size * size {
        return Err(Refusal::Count);
    }
    if !(1..=MAX_HALF_ITERATIONS).contains(&count) {
        return Err(Refusal::HalfIterations);
    }
    Ok(masked)
}

// Decodes a frame that passed all tests: its sums to the front of `out`. The answer is the cycles of all lines.
fn decode_frame(mask: &[u8], masked: Masked, channel: &[i16], count: usize, out: &mut [u8]) -> u32
    requires passed { ShapePassed mask.now count (2 * length channel.now) masked.stage }
    requires ones { masked.ones ≡ false → T (at_most 1 mask.now) }
    requires range { LlrsAll channel.now }
    requires room { 2 * length channel.now ≤ length out.old }
    ensures value { result ≡ (half_iterations masked.stage mask.now channel.now count).cycles }
    ensures out_after { out.new ≡ over (frame_bytes (half_iterations masked.stage mask.now channel.now count).sums) out.old }
{
    let size = mask.len();
    let mut plan = [0u8; 64];
    let Ok(planned) = plan_mask(mask, &mut plan) else {
        unreachable!()
    };
    let code = Code {
        mask,
        plan: &plan[..2 * size],
        ones: masked.ones,
        stage: masked.stage,
    };
    write_sums(code, channel, count, out);
    (count * size) as u32 * planned.cycles
}

// Decodes a square frame of LLRs in bytes, into bytes of the same layout. The answer is the cycles of all lines.
pub fn decode_square(
    mask: &[u8],
    half_iterations: usize,
    llrs: &[u8],
    out: &mut [u8],
) -> Result<u32, Refusal>
    ensures number { number_of result ≡ square_number mask.now half_iterations llrs.now (length out.old) }
    ensures cycles { of_accepted (λ c. c) result ≡ square_cycles mask.now half_iterations llrs.now (length out.old) }
    ensures out_after { out.new ≡ square_bytes mask.now half_iterations llrs.now out.old }
{
    let masked = shape_tests(mask, half_iterations, llrs.len())?;
    let places = llrs.len() / 2;
    let mut read = [0i16; 1024];
    let channel = &mut read[..places];
    read_llrs(llrs, 0, places, channel);
    if !in_range(channel) {
        return Err(Refusal::Llr);
    }
    if out.len() < llrs.len() {
        return Err(Refusal::ShortOutput);
    }
    Ok(decode_frame(mask, masked, channel, half_iterations, out))
}
