// The CRC of flip attempts: bits are divided by the generator, in a register of eight bits.
#![tactic(auto)]

ghost use Rattle.std.specs.Prelude.{◌≡◌, ◌+◌, ◌%◌, ◌≤◌, T, length};
ghost use Rattle.model.specs.Lists.{at_most};
ghost use Rattle.model.specs.Crc.{is_multiple};
ghost use Rattle.crc.specs.Division.{shift};

// The sum of two bits.
fn add_bits(x: u8, y: u8) -> u8
    requires { (x ≤ 1) × (y ≤ 1) }
    ensures { (result ≡ (x + y) % 2) × (result ≤ 1) }
{
    (x + y) % 2
}

// The register after one bit more; its first bit is that of the highest power. Where a 1 falls out of it, D^8 is replaced by the generator's lower powers:
// 7, 6, 4, 2 and 0.
fn step(r: [u8; 8], bit: u8) -> [u8; 8]
    requires { T (at_most 1 r) × (bit ≤ 1) }
    ensures { (result ≡ shift r bit) × T (at_most 1 result) }
{
    let [top, d6, d5, d4, d3, d2, d1, d0] = r;
    [
        add_bits(d6, top),
        add_bits(d5, top),
        d4,
        add_bits(d3, top),
        d2,
        add_bits(d1, top),
        d0,
        add_bits(bit, top),
    ]
}

// Whether bits, the first one that of the highest power, are a multiple of the generator.
pub fn is_multiple(bits: &[u8]) -> bool
    requires { T (at_most 1 bits.now) × (8 ≤ length bits.now) }
    ensures { result ≡ is_multiple bits.now }
{
    let mut r = [0; 8];
    for &bit in bits {
        r = step(r, bit);
    }
    r == [0; 8]
}
