// Row weights, compared with the ones of the matrix's rows and with each other along the order.
ghost use Rattle.std.specs.Prelude.{◌<◌};

use crate::fields::position_at;
use std::io;
use test_tools::numbers::{least, minus, one_if};
use test_tools::report::{end_line, print_values};
use test_tools::tally::Count;
use test_tools::texts::value_at;

// ---- against the matrix

fn ones(bits: [u8; 1024]) -> usize {
    bits.iter().filter(|bit| **bit == 1).count()
}

// The ones of row i: the transform of the unit vector.
fn ones_of_row(i: usize) -> usize
    requires { i < 1024 }
{
    let mut bits = [0u8; 1024];
    bits[i] = 1;
    let _number = transform::transform(&mut bits);
    ones(bits)
}

// Whether the weight of row i is the number of its ones. Prints the row if not.
fn right_weight(rt: &impl Print, i: usize) -> io::Result<bool>
    requires { i < 1024 }
{
    let weight = masks::row_weight(i);
    let expected = ones_of_row(i);
    if weight != expected {
        print_values(
            rt,
            b"mismatch: row |: weight |, expected ",
            [i, weight, expected, 0, 0, 0, 0, 0],
        )?;
        end_line(rt)?;
    }
    Ok(weight == expected)
}

pub fn run_weights(rt: &impl Print) -> io::Result<Count> {
    let mut right = 0;
    for i in 0..1024 {
        right += one_if(right_weight(rt, i)?);
    }
    Ok(Count {
        cases: 1024,
        right,
        calls: 1024,
    })
}

// ---- along the order

// The weight of a row; 0 where there is no such row.
fn weight_of(i: usize) -> usize {
    if i < 1024 { masks::row_weight(i) } else { 0 }
}

// Whether a position's weight is at most that of the one before it. Prints both if not.
fn right_step(rt: &impl Print, before: usize, after: usize) -> io::Result<bool> {
    let a = weight_of(before);
    let b = weight_of(after);
    if a < b {
        print_values(
            rt,
            b"mismatch: row | of weight | stands before row | of weight ",
            [before, a, after, b, 0, 0, 0, 0],
        )?;
        end_line(rt)?;
    }
    Ok(b <= a)
}

// A line is weights N POSITIONS.
pub fn run_along(rt: &impl Print, line: &[u8]) -> io::Result<Count> {
    let n = least(value_at(line, 1), 1024);
    let steps = minus(n, 1);
    let mut right = 0;
    for rank in 1..n {
        right += one_if(right_step(rt, position_at(line, rank - 1), position_at(line, rank))?);
    }
    Ok(Count {
        cases: steps,
        right,
        calls: steps,
    })
}
