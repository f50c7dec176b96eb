// Cases: calls that are accepted, compared with the matrix product, and calls that are refused.
ghost use Rattle.std.specs.Prelude.{◌≤◌};

use crate::calls::{Answer, encode_front, transform_front};
use reference::cases::{Case, draw_mask};
use reference::words::{product, spread};
use test_tools::buffers::{
    Bytes, draw_bits, draw_bytes, draw_mask_bytes, extended, same_bytes, same_front, unfrozen,
    with_byte,
};
use test_tools::faults::has;
use test_tools::numbers::{bit_if, choose, choose_byte, is_length, length_of, minus, next};

// Whether a call has its number and left the buffer as wanted.
fn is_answer(got: Answer, number: u32, want: Bytes) -> bool {
    let word = got.word;
    got.number == number && same_bytes(word, want)
}

// ---- accepted calls

// No position frozen for kind 0, all frozen to 0 for kind 1, all to 1 for kind 2, and drawn ones for the others, to 0 for kind 3.
fn mask_of(kind: usize, n: usize, seed: u32) -> Bytes {
    match kind {
        0 => [0; 4112],
        1 => [1; 4112],
        2 => [2; 4112],
        3 => draw_bits(n, seed),
        _ => draw_mask_bytes(n, seed),
    }
}

// A payload's word is the product, and the bytes after it stay.
fn word_right(mask: Bytes, n: usize, payload: Bytes, before: Bytes, room: usize) -> bool
    requires { n ≤ 1024 }
{
    let k = unfrozen(mask, n);
    is_answer(
        encode_front(mask, n, payload, k, before, room),
        0,
        product(spread(mask, payload, n), n, before),
    )
}

// The buffer is up to eight bytes longer than the word.
pub fn word_case(n: usize, i: usize, seed: u32) -> bool
    requires { n ≤ 1024 }
{
    let mask = mask_of(i % 5, n, seed);
    let payload = draw_bits(n, next(seed));
    word_right(mask, n, payload, draw_bytes(n + 8, seed), n + i % 9)
}

fn digit(number: usize, place: usize) -> u8
    requires { place ≤ 10 }
{
    bit_if(has(number, place))
}

// A mask and a payload of up to four bytes, both as numbers: of digits in base three, and in base two.
pub fn small_case(stage: usize, number: usize, payload: usize, seed: u32) -> bool {
    let n = length_of(stage);
    let mask = draw_mask(Case {
        stage,
        mask: 18,
        detail: number,
        ones: 0,
        plan: 0,
        llrs: 0,
        sweeps: 1,
        seed,
    });
    let bits = extended([
        digit(payload, 0),
        digit(payload, 1),
        digit(payload, 2),
        digit(payload, 3),
        0,
        0,
        0,
        0,
    ]);
    word_right(mask, n, bits, draw_bytes(n + 8, seed), n)
}

// The transform is the product for bytes of any value, and a second one gives the bytes modulo 2, which the seed draws as bits.
pub fn transform_case(n: usize, seed: u32) -> bool
    requires { n ≤ 1024 }
{
    let before = draw_bytes(n + 8, seed);
    let once = product(before, n, before);
    let second = transform_front(once, n);
    let twice = second.word;
    is_answer(transform_front(before, n), 0, once)
        && is_answer(second, 0, product(once, n, once))
        && same_front(twice, draw_bits(n, seed), n)
}

// Whether payload 0011 has the word under the mask.
fn frame_right(mask: [u8; 8], word: [u8; 8]) -> bool {
    let payload = extended([0, 0, 1, 1, 0, 0, 0, 0]);
    is_answer(
        encode_front(extended(mask), 8, payload, 4, [0; 4112], 8),
        0,
        extended(word),
    )
}

// Frame 9 of document 01, with the mask 11101000; and the same payload under the mask 12102000.
pub fn frame_case(i: usize) -> bool {
    if i == 0 {
        frame_right([1, 1, 1, 0, 1, 0, 0, 0], [0, 1, 0, 1, 0, 1, 0, 1])
    } else {
        frame_right([1, 2, 1, 0, 2, 0, 0, 0], [0, 0, 0, 1, 1, 1, 0, 1])
    }
}

// ---- refused calls

// The buffer stays where a call is refused.
fn is_refused(got: Answer, number: u32, before: Bytes) -> bool {
    if number == 0 {
        got.number == 0
    } else {
        is_answer(got, number, before)
    }
}

// A transform, or an encode with all positions unfrozen, for a length that may be no allowed N.
pub fn length_case(of_mask: bool, n: usize, seed: u32) -> bool {
    let before = draw_bytes(2056, seed);
    let number = if is_length(n) { 0 } else { 1 };
    let none = [0; 4112];
    if of_mask {
        is_refused(encode_front(none, n, none, n, before, n), number, before)
    } else {
        is_refused(transform_front(before, n), number, before)
    }
}

// The faults of an encode: 0 mask length, 1 mask byte, 2 payload length, 3 payload byte, 4 room. The first has the number.
fn first_number(faults: usize) -> u32 {
    match usize::trailing_zeros(faults) {
        0 => 1,
        1 => 2,
        2 => 3,
        3 => 10,
        4 => 11,
        _ => 0,
    }
}

// A drawn mask whose first position is unfrozen and the second frozen to 1, or has a wrong byte.
fn faulty_mask(n: usize, fault: bool, seed: u32) -> Bytes {
    let wrong = choose_byte(n == 4, 255, 3);
    with_byte(
        with_byte(draw_mask_bytes(n, seed), 0, 0),
        1,
        choose_byte(fault, wrong, 2),
    )
}

// Drawn bits with 1 at the front, or 2 with the fault.
fn faulty_payload(n: usize, fault: bool, seed: u32) -> Bytes {
    with_byte(draw_bits(n, seed), 0, choose_byte(fault, 2, 1))
}

// An encode with a set of faults. A wrong payload is too short for n = 4 and too long for a larger n.
pub fn refusal_case(n: usize, faults: usize, seed: u32) -> bool
    requires { n ≤ 1024 }
{
    let mask = faulty_mask(n, has(faults, 1), seed);
    let payload = faulty_payload(n + 1, has(faults, 3), next(seed));
    let before = draw_bytes(n + 8, seed);
    let size = choose(has(faults, 0), minus(n, 1), n);
    let k = unfrozen(mask, size);
    let count = choose(has(faults, 2), choose(n == 4, minus(k, 1), k + 1), k);
    let room = choose(has(faults, 4), minus(size, 1), size + 3);
    is_refused(
        encode_front(mask, size, payload, count, before, room),
        first_number(faults),
        before,
    )
}
