// Words and payloads by the matrix, whose entry at row i and column j is 1 exactly if the ones of j are among those of i.
ghost use Rattle.std.specs.Prelude.{◌≤◌};

use crate::outputs::Outputs;
use crate::values::UNDECIDED;
use test_tools::buffers::{Bytes, same_front};
use test_tools::numbers::{bit_if, choose_byte, one_if};

// Bit j of the product: the parity of the bits, odd bytes, at the positions that have all ones of j. A turn has no branch; with
// `filter` and `count`, tried, encode_test takes three times as long.
fn column(bits: &[u8; 4112], n: usize, j: usize) -> u8
    requires { n ≤ 1024 }
{
    let mut odd = false;
    for (i, bit) in bits[..n].iter().enumerate() {
        odd ^= (i & j == j) & (*bit % 2 == 1);
    }
    bit_if(odd)
}

// The first n bits times the matrix, to the front of `over`.
pub fn product(bits: Bytes, n: usize, over: Bytes) -> Bytes
    requires { n ≤ 1024 }
{
    let mut word = over;
    for (j, bit) in word[..n].iter_mut().enumerate() {
        *bit = column(&bits, n, j);
    }
    word
}

// The bit that a frozen place holds, by its mask byte.
fn known_bit(byte: u8) -> u8 {
    bit_if(byte == 2)
}

// The payload's bits one after another at the unfrozen places of the first n, and the known bits elsewhere.
pub fn spread(mask: Bytes, payload: Bytes, n: usize) -> Bytes
    requires { n ≤ 1024 }
{
    let mut bits = [0u8; 4112];
    let mut k = 0;
    for j in 0..n {
        let unfrozen = mask[j] == 0;
        bits[j] = choose_byte(unfrozen, payload[k], known_bit(mask[j]));
        k += one_if(unfrozen);
    }
    bits
}

// The bits at the unfrozen places of the first n one after another, to the front of `over`.
fn gather(mask: Bytes, bits: Bytes, n: usize, over: Bytes) -> Bytes
    requires { n ≤ 1024 }
{
    let mut payload = over;
    let unfrozen = bits[..n].iter().zip(&mask).filter(|(_, byte)| **byte == 0);
    for (place, (bit, _)) in payload.iter_mut().zip(unfrozen) {
        *place = *bit;
    }
    payload
}

// How many of the first n bits are undecided.
fn undecided_of(hard: Bytes, n: usize) -> usize
    requires { n ≤ 1024 }
{
    hard[..n].iter().filter(|bit| **bit == UNDECIDED).count()
}

// The outputs with the payload and the frozen check that the first n hard bits give, and how many of these are undecided. If any is, then
// every bit counts as undecided, and the check is 0. Otherwise the frozen bits are the known ones exactly if the payload, spread again, gives
// all bits.
pub fn read_word(mask: Bytes, n: usize, out: Outputs) -> Outputs
    requires { n ≤ 1024 }
{
    let soft = out.soft;
    let hard = out.hard;
    let over = out.payload;
    let undecided = undecided_of(hard, n);
    let bits = if undecided == 0 {
        product(hard, n, hard)
    } else {
        [UNDECIDED; 4112]
    };
    let payload = gather(mask, bits, n, over);
    let as_known = same_front(bits, spread(mask, payload, n), n);
    Outputs {
        soft,
        hard,
        payload,
        check: bit_if(undecided == 0 && as_known),
        undecided,
    }
}
