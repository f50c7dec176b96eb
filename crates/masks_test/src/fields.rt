// Positions and exponents in a field of a line, in hexadecimal digits.
ghost use Rattle.std.specs.Prelude.{◌≤◌};

use test_tools::texts::{field, number, part};

// The position of a rank, from 0 on, in WORD N POSITIONS.
pub fn position_at(line: &[u8], rank: usize) -> usize
    requires { rank ≤ 1024 }
{
    let positions = field(line, 2);
    number(part(positions, 3 * rank, 3 * rank + 3)) as usize
}

// The exponent of K, one digit for each K from 1 on, in WORD N EXPONENTS.
pub fn exponent_at(line: &[u8], k: usize) -> usize
    requires { (1 ≤ k) × (k ≤ 1024) }
{
    let exponents = field(line, 2);
    number(part(exponents, k - 1, k)) as usize
}
