// The rates of 1024 positions beside the exact ones.
use std::io;
use test_tools::numbers::one_if;
use test_tools::report::{end_line, print_values};
use test_tools::tally::Count;
use test_tools::texts::{field, part, value, value_at};

// The float of a bit pattern. Above the pattern of infinity, but for the sign, all are NaN's. samples_test has the same for `f32`, whose
// `from_bits` is another function: one for both would take that and the two sizes.
pub fn float(bits: u64) -> f64 {
    if bits % 0x8000_0000_0000_0000 <= 0x7ff0_0000_0000_0000 {
        f64::from_bits(bits)
    } else {
        f64::NAN
    }
}

// 2 to the power -40, less more than the roundings of the exact rate and of the difference.
const LIMIT: f64 = 9.0e-13;

fn near(rate: f64, expected: f64, limit: f64) -> bool {
    let apart = rate - expected;
    apart <= limit && -limit <= apart
}

// Whether a position's rate is within the limit of the expected one, which is given by its bits. Prints the position if not.
fn right_rate(
    rt: &impl Print,
    position: usize,
    rate: f64,
    expected: usize,
    limit: f64,
) -> io::Result<bool> {
    let right = near(rate, float(expected as u64), limit);
    if !right {
        print_values(
            rt,
            b"mismatch: the rate of position | is not near that of bits ",
            [position, expected, 0, 0, 0, 0, 0, 0],
        )?;
        end_line(rt)?;
    }
    Ok(right)
}

// A line is WORD Z RATES: a case for each position.
fn run_within(rt: &impl Print, line: &[u8], limit: f64) -> io::Result<Count> {
    let mut values = [0.0f64; 1024];
    erasure::rates(float(value_at(line, 1) as u64), 10, &mut values);
    let expected = field(line, 2);
    let mut right = 0;
    for (i, rate) in values.iter().enumerate() {
        let bits = value(part(expected, 16 * i, 16 * i + 16));
        right += one_if(right_rate(rt, i, *rate, bits, limit)?);
    }
    Ok(Count {
        cases: 1024,
        right,
        calls: 1024,
    })
}

// Rates near exact ones.
pub fn run_rates(rt: &impl Print, line: &[u8]) -> io::Result<Count> {
    run_within(rt, line, LIMIT)
}

// Rates in binary64, exactly.
pub fn run_floats(rt: &impl Print, line: &[u8]) -> io::Result<Count> {
    run_within(rt, line, 0.0)
}
