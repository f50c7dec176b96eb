// Bytes in the order sent, reordered where they stand.
#![tactic(auto)]

ghost use Rattle.std.specs.Prelude.{◌≡◌, ◌+◌, ◌-◌, ◌*◌, ◌^◌, ◌≤◌, length, get_or};
ghost use Rattle.model.specs.Sent.{reordered};
ghost use Rattle.words.specs.Words.{write};
ghost use Rattle.reorder.specs.Places.{interleaved_from, Spread};

use reorder::move_eights;

// Four bytes reordered where they stand.
fn four_bytes(bytes: &mut [u8])
    requires { length bytes.old ≡ 4 }
    ensures { bytes.new ≡ reordered 0 2 bytes.old }
{
    bytes.swap(1, 2);
}

// The 2 * h bytes from a on, their two halves interleaved.
fn interleave(from: &[u8], to: &mut [u8], a: usize, h: usize)
    requires { (a + 2 * h ≤ length from.now) × (a + 2 * h ≤ length to.old) }
    ensures { to.new ≡ write to.old a (2 * h) (λ i. get_or from.now (a + interleaved_from h i) 0) }
{
    for k in 0..h {
        let x = from[a + k];
        let y = from[a + h + k];
        let at = a + 2 * k;
        to[at] = x;
        to[at + 1] = y;
    }
}

// The eighths of `from` spread: each quarter interleaved, then each half, then the whole. The loops compile to vectors.
fn spread_bytes(from: &[u8], spread: &mut [u8], q: usize)
    requires { (8 * q ≤ 1024) × (8 * q ≤ length from.now) × (8 * q ≤ length spread.old) }
    ensures { Spread 0 q from.now spread.new }
{
    interleave(from, spread, 0, q);
    interleave(from, spread, 2 * q, q);
    interleave(from, spread, 4 * q, q);
    interleave(from, spread, 6 * q, q);
    let mut halves = [0u8; 1024];
    interleave(spread, &mut halves, 0, 2 * q);
    interleave(spread, &mut halves, 4 * q, 2 * q);
    interleave(&halves, spread, 0, 4 * q);
}

// The bytes reordered where they stand.
pub fn reorder_bytes(bytes: &mut [u8], stage: usize)
    requires { (2 ≤ stage) × (stage ≤ 10) × (length bytes.old ≡ 2 ^ stage) }
    ensures { bytes.new ≡ reordered 0 stage bytes.old }
{
    if stage == 2 {
        four_bytes(bytes);
        return;
    }
    let q = bytes.len() / 8;
    let mut spread = [0u8; 1024];
    spread_bytes(bytes, &mut spread, q);
    move_eights(&spread, bytes, q, stage);
}
