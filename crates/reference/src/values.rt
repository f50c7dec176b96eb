// Values of the reference: whole numbers of either sign as two's complement in a u64, so that no sum leaves its type,
// and the mark "certain" of either sign.
use test_tools::numbers::bit_if;

// The mark, above every sum of LLRs: certain of a 0. Minus the mark is certain of a 1.
pub const CERTAIN: u64 = 1099511627776;

// The mark's size in a word.
const MARK: u64 = 2147483647;

// The least bits of a negative number.
const NEGATIVE: u64 = 9223372036854775808;

// The byte of an undecided bit.
pub const UNDECIDED: u8 = 2;

pub fn negative(a: u64) -> bool {
    NEGATIVE <= a
}

// The number of a sign and a size.
pub fn with_sign(minus: bool, size: u64) -> u64 {
    if minus { size.wrapping_neg() } else { size }
}

fn size(a: u64) -> u64 {
    with_sign(negative(a), a)
}

// The smaller size with the product of the signs. The mark is larger than every other size, so it leaves the other value, and minus the
// mark leaves that value negated.
pub fn box_of(a: u64, b: u64) -> u64 {
    with_sign(negative(a) != negative(b), size(a).min(size(b)))
}

fn is_certain(a: u64) -> bool {
    size(a) == CERTAIN
}

// A certain value stays, with its sign. Two of different signs are never added.
pub fn sum(a: u64, b: u64) -> u64 {
    if is_certain(a) {
        return a;
    }
    if is_certain(b) {
        return b;
    }
    a.wrapping_add(b)
}

// The bit of LLR plus soft value, by the sign, which the mark has too.
pub fn hard_bit(total: u64) -> u8 {
    if total == 0 {
        return UNDECIDED;
    }
    bit_if(negative(total))
}

// The 16-bit number of an LLR, its size modulo 2 ^ 15.
pub fn short(a: u64) -> i16 {
    let z = (size(a) % 32768) as i16;
    if negative(a) { -z } else { z }
}

fn word_size(a: u64) -> u64 {
    if is_certain(a) { MARK } else { size(a) }
}

// The word of a soft value, its size modulo 2 ^ 31.
pub fn soft_word(a: u64) -> i32 {
    let z = (word_size(a) % 2147483648) as i32;
    if negative(a) { -z } else { z }
}
