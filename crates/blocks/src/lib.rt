// The transform of short blocks: two and four bits by bytes, eight and sixteen by words.
#![tactic(auto)]

ghost use Rattle.std.specs.Prelude.{◌≡◌, ◌/◌, ◌<◌, length};
ghost use Rattle.std.specs.Int.Bits.{bit_xor, bit_and};
ghost use Rattle.model.specs.Encoding.{transform};
ghost use Rattle.packed.specs.Bytes.{bytes_of};
ghost use Rattle.blocks.specs.Steps.{AllBits};

use packed::{load_word, store_word};

// The transform of two bits.
pub fn two_bits(bits: &mut [u8])
    requires { (length bits.old ≡ 2) × AllBits bits.old }
    ensures { bits.new ≡ transform 1 bits.old }
{
    bits[0] ^= bits[1];
}

// The transform of four bits.
pub fn four_bits(bits: &mut [u8])
    requires { (length bits.old ≡ 4) × AllBits bits.old }
    ensures { bits.new ≡ transform 2 bits.old }
{
    let b = bits[1];
    let d = bits[3];
    let c = bits[2] ^ d;
    bits[0] = bits[0] ^ b ^ c;
    bits[1] = b ^ d;
    bits[2] = c;
}

// A stride below 8 inside a word: the bytes that the mask keeps of the shifted word are added.
fn add_inside(w: u64, scale: u64, mask: u64) -> u64
    requires { 0 < scale }
    ensures { result ≡ bit_xor w (bit_and (w / scale) mask) }
{
    w ^ ((w / scale) & mask)
}

// The transform of a word's eight bytes, each modulo 2, by the strides 1, 2 and 4.
fn word_transform(w: u64) -> u64
    ensures { bytes_of result ≡ transform 3 (bytes_of w) }
{
    let bits = w & 0x0101_0101_0101_0101;
    let one = add_inside(bits, 256, 0x00FF_00FF_00FF_00FF);
    let two = add_inside(one, 65536, 0x0000_FFFF_0000_FFFF);
    add_inside(two, 4294967296, 0x0000_0000_FFFF_FFFF)
}

// The transform of eight bytes, each modulo 2.
pub fn eight_bytes(bits: &mut [u8])
    requires { length bits.old ≡ 8 }
    ensures { bits.new ≡ transform 3 bits.old }
{
    let w = word_transform(load_word(bits, 0));
    store_word(bits, w);
}

// The transform of sixteen bytes, each modulo 2: that of two words, and stride 8.
pub fn sixteen_bytes(bits: &mut [u8])
    requires { length bits.old ≡ 16 }
    ensures { bits.new ≡ transform 4 bits.old }
{
    let second = word_transform(load_word(bits, 8));
    let first = word_transform(load_word(bits, 0)) ^ second;
    store_word(&mut bits[..8], first);
    store_word(&mut bits[8..], second);
}
