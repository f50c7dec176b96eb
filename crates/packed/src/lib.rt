// Eight bytes as one 64-bit word.
#![tactic(auto)]

ghost use Rattle.std.specs.Prelude.{◌≡◌, ◌+◌, ◌≤◌, length, take, drop};
ghost use Rattle.packed.specs.Bytes.{bytes_of};

// The word of the eight bytes at a place, low byte first. Bytes that stand side by side are loaded as one word.
pub fn load_word(bits: &[u8], at: usize) -> u64
    requires { at + 8 ≤ length bits.now }
    ensures { bytes_of result ≡ take 8 (drop at bits.now) }
{
    u64::from_le_bytes([
        bits[at],
        bits[at + 1],
        bits[at + 2],
        bits[at + 3],
        bits[at + 4],
        bits[at + 5],
        bits[at + 6],
        bits[at + 7],
    ])
}

// The bytes of a word, to eight bytes. Stores side by side compile to one; `copy_from_slice` would not.
pub fn store_word(part: &mut [u8], w: u64)
    requires { length part.old ≡ 8 }
    ensures { part.new ≡ bytes_of w }
{
    let bytes = w.to_le_bytes();
    part[0] = bytes[0];
    part[1] = bytes[1];
    part[2] = bytes[2];
    part[3] = bytes[3];
    part[4] = bytes[4];
    part[5] = bytes[5];
    part[6] = bytes[6];
    part[7] = bytes[7];
}
