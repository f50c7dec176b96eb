// The file of vectors and refused calls that tools/samples_vectors.py writes: lines of fixed lengths, in which every number is
// hexadecimal and a float is its bit pattern.
ghost use Rattle.std.specs.Prelude.{◌≤◌};

use reference::values::{short, with_sign};
use samples::{Channel, Position};
use test_tools::buffers::byte_at;
use test_tools::texts::{number, part};

// The float of a bit pattern. Above the pattern of infinity, but for the sign, all are NaN's. erasure_test has the same for `f64`, whose
// `from_bits` is another function: one for both would take that and the two sizes.
fn float(bits: u32) -> f32 {
    if bits % 0x8000_0000 <= 0x7f80_0000 {
        f32::from_bits(bits)
    } else {
        f32::NAN
    }
}

// The number of so many digits from a place on.
pub fn field(file: &[u8], at: usize, digits: usize) -> u32
    requires { (at ≤ 66560) × (digits ≤ 8) }
{
    number(part(file, at, at + digits))
}

pub fn count(file: &[u8], at: usize) -> usize
    requires { at ≤ 66560 }
{
    field(file, at, 3) as usize
}

// VARIANCE SAMPLE MARK LLR
#[derive(Clone, Copy)]
pub struct Vector {
    pub channel: Channel,
    pub sample: f32,
    pub mark: u8,
    pub llr: i16,
}

// The vector from a place on.
pub fn read_vector(file: &[u8], at: usize) -> Vector
    requires { at ≤ 66500 }
{
    let size = field(file, at + 22, 4) as u64;
    Vector {
        channel: Channel {
            variance: float(field(file, at, 8)),
        },
        sample: float(field(file, at + 9, 8)),
        mark: (field(file, at + 18, 2) % 256) as u8,
        llr: short(with_sign(byte_at(file, at + 21) == b'-', size)),
    }
}

// Vector i, behind the file's first line.
pub fn vector_at(file: &[u8], i: usize) -> Vector {
    read_vector(file, 65 + i % 2051 * 27)
}

pub fn position(v: Vector) -> Position {
    let y = v.sample;
    let mark = v.mark;
    match mark {
        0 => Position::Sent(y),
        1 => Position::Punctured,
        _ => Position::Shortened,
    }
}
