// The transform of N bits in place, which encoder and decoder share.
#![tactic(auto)]

ghost use Rattle.std.specs.Prelude.{◌≡◌, ◌*◌, ◌^◌, ◌%◌, ◌≤◌, length};
ghost use Rattle.model.specs.Encoding.{transform};
ghost use Rattle.blocks.specs.Steps.{low_bits, AllBits, add_half, each_block, add_halves};
ghost use Rattle.inputs.specs.Numbers.{number_of};
ghost use Rattle.transform.specs.Calls.{transform_number, transform_bytes};
ghost use Rattle.transform.specs.Steps.{Whole};

use blocks::{eight_bytes, four_bits, sixteen_bytes, two_bits};
use inputs::{Refusal, exponent_of};
use packed::{load_word, store_word};

// Each byte modulo 2.
fn reduce(bits: &mut [u8])
    ensures { bits.new ≡ low_bits bits.old }
{
    for byte in bits.iter_mut() {
        *byte %= 2;
    }
}

// The transform of each sixteen bytes. `count` is the number of these blocks.
fn sixteens(bits: &mut [u8], count: usize)
    requires { length bits.old ≡ count * 16 }
    ensures { bits.new ≡ each_block (transform 4) 16 count bits.old }
{
    for i in 0..count {
        let from = 16 * i;
        sixteen_bytes(&mut bits[from..from + 16]);
    }
}

// One block at stride h, a multiple of 8: its second half is added to its first half, a word at a time.
fn add_half(block: &mut [u8], h: usize)
    requires { (length block.old ≡ 2 * h) × (h % 8 ≡ 0) }
    ensures { block.new ≡ add_half h block.old }
{
    for i in 0..h / 8 {
        let k = 8 * i;
        let w = load_word(block, k) ^ load_word(block, k + h);
        store_word(&mut block[k..k + 8], w);
    }
}

// Every block at stride h. `count` is the number of blocks.
fn add_halves(bits: &mut [u8], h: usize, count: usize)
    requires { Whole bits.old count h }
    ensures { bits.new ≡ add_halves h count bits.old }
{
    let size = 2 * h;
    for i in 0..count {
        let from = size * i;
        add_half(&mut bits[from..from + size], h);
    }
}

// The same, with the short strides as constants: then the compiler can work on several words at once.
fn stride(bits: &mut [u8], h: usize, count: usize)
    requires { Whole bits.old count h }
    ensures { bits.new ≡ add_halves h count bits.old }
{
    match h {
        16 => add_halves(bits, 16, count),
        32 => add_halves(bits, 32, count),
        64 => add_halves(bits, 64, count),
        128 => add_halves(bits, 128, count),
        _ => add_halves(bits, h, count),
    }
}

// The transform of 2 ^ n bytes, sixteen or more, each modulo 2: blocks of sixteen, and the strides 16, 32 and so on.
// The stride is doubled: shifted from a loop's number it was tried, and was slower at N = 1024.
fn long_strides(bits: &mut [u8], n: usize)
    requires { (4 ≤ n) × (length bits.old ≡ 2 ^ n) }
    ensures { bits.new ≡ transform n bits.old }
{
    let mut count = bits.len() / 16;
    sixteens(bits, count);
    let mut h: usize = 16;
    for _ in 4..n {
        count /= 2;
        stride(bits, h, count);
        h *= 2;
    }
}

// The transform of 2 ^ n bytes, eight or more, each modulo 2, by words.
fn word_strides(bits: &mut [u8], n: usize)
    requires { (3 ≤ n) × (length bits.old ≡ 2 ^ n) }
    ensures { bits.new ≡ transform n bits.old }
{
    if n == 3 {
        eight_bytes(bits);
    } else {
        long_strides(bits, n);
    }
}

// The transform of 2 ^ n bits: two and four by bytes, more by words.
pub fn strides(bits: &mut [u8], n: usize)
    requires { (length bits.old ≡ 2 ^ n) × AllBits bits.old }
    ensures { bits.new ≡ transform n bits.old }
{
    match n {
        0 => {}
        1 => two_bits(bits),
        2 => four_bits(bits),
        _ => word_strides(bits, n),
    }
}

// The transform in place of N bytes, each taken modulo 2.
pub fn transform(bits: &mut [u8]) -> Result<(), Refusal>
    ensures value { number_of result ≡ transform_number bits.old }
    ensures bits_after { bits.new ≡ transform_bytes bits.old }
{
    let n = exponent_of(bits.len());
    if n == 0 {
        return Err(Refusal::Length);
    }
    if n < 3 {
        reduce(bits);
        strides(bits, n);
    } else {
        word_strides(bits, n);
    }
    Ok(())
}
