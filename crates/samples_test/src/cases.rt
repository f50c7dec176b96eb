// Cases: calls on the vectors, the functions of one position, and calls that are refused.
ghost use Rattle.std.specs.Prelude.{◌≤◌};

use crate::calls::{Answer, FILLER, convert};
use crate::vectors::{Vector, count, field, position, read_vector, vector_at};
use samples::Channel;
use test_tools::buffers::{Bytes, with_byte};
use test_tools::numbers::{is_length, length_of};

// The input of a call on n vectors and the buffer that it leaves.
#[derive(Drop)]
struct Input {
    samples: [f32; 2056],
    marks: Bytes,
    llrs: [i16; 2056],
}

// The n vectors from first on.
fn load(file: &[u8], first: usize, n: usize) -> Input
    requires { (first ≤ 2048) × (n ≤ 1024) }
{
    let mut samples = [0.0f32; 2056];
    let mut marks = [0u8; 4112];
    let mut llrs = [FILLER; 2056];
    for i in 0..n {
        let v = vector_at(file, first + i);
        samples[i] = v.sample;
        marks[i] = v.mark;
        llrs[i] = v.llr;
    }
    Input {
        samples,
        marks,
        llrs,
    }
}

// Whether a call has its number and left the buffer as wanted.
fn is_answer(got: Answer, number: u32, want: [i16; 2056]) -> bool {
    got.number == number && got.llrs == want
}

// Call i on 2 ^ stage vectors, with room for up to three LLRs more.
pub fn call_case(file: &[u8], stage: usize, i: usize) -> bool {
    let n = length_of(stage);
    let first = (i << (stage % 16)) % 2048;
    let input = load(file, first, n);
    let samples = input.samples;
    let marks = input.marks;
    let llrs = input.llrs;
    let v = vector_at(file, first);
    is_answer(convert(samples, n, marks, n, v.channel, n + i % 4), 0, llrs)
}

// ---- one position

pub fn llr_case(v: Vector) -> bool {
    samples::llr_of(position(v), v.channel) == v.llr
}

// The rounding by itself, on a sent sample with variance 1.
pub fn rounding_case(v: Vector) -> bool {
    let y = v.sample;
    samples::to_llr(y + y) == v.llr
}

// ---- refused calls

// Zeros but for one sample.
fn samples_with(i: usize, y: f32) -> [f32; 2056] {
    let mut samples = [0.0f32; 2056];
    if i < 2056 {
        samples[i] = y;
    }
    samples
}

// A line VARIANCE SAMPLE MARK NUMBER SAMPLES MARKS PLACE ROOM: a call with the sample and the mark at the place has the number, and leaves
// the buffer.
pub fn refusal_case(file: &[u8], i: usize) -> bool {
    let at = 55442 + i % 248 * 43;
    let v = read_vector(file, at);
    let place = count(file, at + 35);
    let got = convert(
        samples_with(place, v.sample),
        count(file, at + 27),
        with_byte([0; 4112], place, v.mark),
        count(file, at + 31),
        v.channel,
        count(file, at + 39),
    );
    is_answer(got, field(file, at + 22, 4), [FILLER; 2056])
}

// A call on n samples with no fault but its length.
pub fn length_case(n: usize) -> bool {
    let channel = Channel { variance: 1.0 };
    let got = convert([0.0; 2056], n, [0; 4112], n, channel, n);
    if is_length(n) {
        got.number == 0
    } else {
        is_answer(got, 1, [FILLER; 2056])
    }
}
