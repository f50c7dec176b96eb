// The lines of a square frame: their decodes, one after the other.
#![tactic(auto)]

ghost use Rattle.std.specs.Prelude.{◌≡◌, ◌+◌, ◌*◌, ◌≤◌, ◌<◌, pos, length, map};
ghost use Rattle.model.specs.Soft.{word_of};
ghost use Rattle.model.specs.Square.{with_line, line_soft, half_iteration};
ghost use Rattle.square_lines.specs.Frames.{along, Placed, InFrame, clamped_sums, line_from, Ready, LlrsAll, Square, Decodes};
ghost use Rattle.square_lines.specs.declared.TheConstants.{WORK};

use clamped::clamped_sum;
use scan::soft_values;

// As many words to work in as the largest N needs: N(n + 3) at N = 32.
pub const WORK: usize = 256;

// What the lines of a frame are decoded by: the mask, the planner's plan for it, and the exponent of N. `ones` is false only where no position is frozen to 1.
#[derive(Clone, Copy)]
pub struct Code<'a> {
    pub mask: &'a [u8],
    pub plan: &'a [u8],
    pub ones: bool,
    pub stage: usize,
    ghost ready: { Ready mask.now plan.now ones stage WORK },
}

// The places of a line: its first element's, and how far apart its elements stand.
#[derive(Clone, Copy)]
struct Line {
    first: usize,
    step: usize,
}

fn line_of(rows: bool, size: usize, i: usize) -> Line
    requires line { i < size }
    requires few { size ≤ 32 }
    ensures { Placed (along rows) size i result.first result.step }
{
    if rows {
        Line {
            first: i * size,
            step: 1,
        }
    } else {
        Line {
            first: i,
            step: size,
        }
    }
}

// LLRs plus soft values, clamped. The loop compiles to vectors.
pub fn add_soft(llrs: &[i16], soft: &[i32], sums: &mut [i16])
    requires { (length soft.now ≡ length llrs.now) × (length sums.old ≡ length llrs.now) }
    ensures { sums.new ≡ clamped_sums llrs.now soft.now }
{
    for (p, sum) in sums.iter_mut().enumerate() {
        *sum = clamped_sum(llrs[p], soft[p]);
    }
}

// Line i of a frame of inputs.
fn gather_line(inputs: &[i16], rows: bool, i: usize, line: &mut [i16])
    requires { InFrame (length line.old) i (length inputs.now) }
    ensures { line.new ≡ line_from (along rows) (length line.old) inputs.now i }
{
    let places = line_of(rows, line.len(), i);
    for (k, x) in line.iter_mut().enumerate() {
        *x = inputs[places.first + k * places.step];
    }
}

// Line i of a frame of soft values replaced.
fn store_line(values: &[i32], own: &mut [i32], rows: bool, i: usize)
    requires { InFrame (length values.now) i (length own.old) }
    ensures { own.new ≡ with_line (pos 0) (along rows) (length values.now) i values.now own.old }
{
    let places = line_of(rows, values.len(), i);
    for (k, v) in values.iter().enumerate() {
        own[places.first + k * places.step] = *v;
    }
}

// The soft values of a line: one sweep.
fn line_soft(code: Code, inputs: &[i16], values: &mut [i32], work: &mut [i32])
    requires room { length code.mask.now * (code.stage + 3) ≤ length work.old }
    requires inputs_len { length inputs.now ≡ length code.mask.now }
    requires values_len { length values.old ≡ length code.mask.now }
    requires range { LlrsAll inputs.now }
    ensures { values.new ≡ map word_of (line_soft code.entry.stage code.entry.mask.now inputs.now) }
{
    let size = code.mask.len();
    let mut known = [0u8; 32];
    soft_values(
        code.mask,
        code.plan,
        inputs,
        &mut known[..size],
        code.ones,
        1,
        size,
        code.stage,
        values,
        work,
    );
}

// Decodes line i: its soft values replace the last ones from its direction.
fn decode_line(code: Code, inputs: &[i16], own: &mut [i32], rows: bool, i: usize, work: &mut [i32])
    requires room { length code.mask.now * (code.stage + 3) ≤ length work.old }
    requires range { LlrsAll inputs.now }
    requires in_frame { InFrame (length code.mask.now) i (length own.old) }
    requires inputs_len { length inputs.now ≡ length own.old }
    ensures { own.new ≡ with_line (pos 0) (along rows) (length code.entry.mask.now) i (map word_of (line_soft code.entry.stage code.entry.mask.now (line_from (along rows) (length code.entry.mask.now) inputs.now i))) own.old }
{
    let size = code.mask.len();
    let mut line = [0i16; 32];
    let mut values = [0i32; 32];
    gather_line(inputs, rows, i, &mut line[..size]);
    line_soft(code, &line[..size], &mut values[..size], work);
    store_line(&values[..size], own, rows, i);
}

// A half-iteration: the inputs of all lines of a direction, and then each line, from the first to the last.
pub fn half_iteration(
    code: Code,
    channel: &[i16],
    others: &[i32],
    own: &mut [i32],
    inputs: &mut [i16],
    rows: bool,
    work: &mut [i32],
)
    requires room { length code.mask.now * (code.stage + 3) ≤ length work.old }
    requires square { Square (length code.mask.now) (length channel.now) (length others.now) (length own.old) (length inputs.old) }
    requires range { LlrsAll channel.now }
    ensures decodes { Decodes (along rows) (half_iteration (along rows) code.entry.stage code.entry.mask.now channel.now) others.now own.old own.new inputs.new }
    ensures inputs_after { inputs.new ≡ clamped_sums channel.now others.now }
{
    add_soft(channel, others, inputs);
    for i in 0..code.mask.len() {
        decode_line(code, inputs, own, rows, i, work);
    }
}
