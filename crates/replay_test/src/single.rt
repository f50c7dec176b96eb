// The frames of an accepted capture decoded one by one, and the text of their totals.
ghost use Rattle.std.specs.Prelude.{◌<◌, ◌≤◌};

use crate::texts::{FILLER, Text};
use decode::Decoded;
use itoa::Buffer;
use test_tools::buffers::{byte_at, bytes, shorts};
use test_tools::numbers::{bit_if, least, minus, one_if, signed};
use test_tools::texts::{part, put, put_all};

// A 16-bit number, the low byte first.
fn word_at(s: &[u8], at: usize) -> usize
    requires { at ≤ 4294967296 }
    ensures { result ≤ 65535 }
{
    (byte_at(s, at) as usize) + 256 * (byte_at(s, at + 1) as usize)
}

// ---- one frame

// The number of LLR k.
fn llr_word(frame: &[u8], k: usize) -> usize
    requires { k ≤ 1024 }
    ensures { result ≤ 65535 }
{
    word_at(frame, 4 + 2 * k)
}

fn read_llrs(frame: &[u8], n: usize) -> [i16; 1024] {
    let mut llrs = [0i16; 1024];
    for (k, llr) in llrs.iter_mut().take(n).enumerate() {
        *llr = signed(llr_word(frame, k));
    }
    llrs
}

// How many of n hard bits differ from the sign of the frame's LLR, as every undecided one does.
fn differing(frame: &[u8], hard: &[u8], n: usize) -> u64 {
    let mut count = 0;
    for k in 0..least(n, 1024) {
        count += one_if(byte_at(hard, k) != bit_if(32768 <= llr_word(frame, k)));
    }
    count as u64
}

// What a frame adds to the totals of its drain.
#[derive(Drop)]
struct Single {
    drain: usize,
    check: u64,
    differ: u64,
    cycles: u64,
}

fn decode_single(mask: &[u8], plan: &[u8], frame: &[u8]) -> Single {
    let n = mask.len();
    let llrs = read_llrs(frame, n);
    let mut soft = [0i32; 1024];
    let mut hard = [0u8; 1024];
    let mut payload = [0u8; 1024];
    let mut work = [0i32; 13312];
    let sweeps = word_at(frame, 2);
    let decoded = decode::decode(
        mask,
        plan,
        sweeps,
        shorts(&llrs, n),
        &mut soft,
        &mut hard,
        &mut payload,
        &mut work,
    );
    let d = decoded.unwrap_or(Decoded {
        cycles: 0,
        check: 0,
        undecided: 0,
    });
    Single {
        drain: word_at(frame, 0),
        check: d.check as u64,
        differ: differing(frame, &hard, n),
        cycles: d.cycles as u64,
    }
}

// ---- all frames

#[derive(Clone, Copy)]
struct Totals {
    frames: [u64; 64],
    checks: [u64; 64],
    differ: [u64; 64],
    cycles: [u64; 64],
}

// None comes near 2 ^ 64.
fn added(totals: [u64; 64], drain: usize, amount: u64) -> [u64; 64] {
    let mut sums = totals;
    if drain < 64 {
        sums[drain] = sums[drain].wrapping_add(amount);
    }
    sums
}

fn with_frame(t: Totals, s: Single) -> Totals {
    let frames = t.frames;
    let checks = t.checks;
    let differ = t.differ;
    let cycles = t.cycles;
    Totals {
        frames: added(frames, s.drain, 1),
        checks: added(checks, s.drain, s.check),
        differ: added(differ, s.drain, s.differ),
        cycles: added(cycles, s.drain, s.cycles),
    }
}

// The totals of the frames up to a place.
fn totals_to(capture: &[u8], end: usize, mask: &[u8], plan: &[u8]) -> Totals
    requires { end ≤ 65535 }
{
    let size = 4 + 2 * least(mask.len(), 1024);
    let mut t = Totals {
        frames: [0; 64],
        checks: [0; 64],
        differ: [0; 64],
        cycles: [0; 64],
    };
    for at in (0..end).step_by(size) {
        t = with_frame(t, decode_single(mask, plan, part(capture, at, at + size)));
    }
    t
}

// ---- their text

fn put_number(out: &mut [u8], at: usize, n: u64) -> usize {
    let mut digits = Buffer::new();
    put_all(out, at, digits.format(n).as_bytes())
}

fn put_field(out: &mut [u8], at: usize, n: u64) -> usize {
    let e = put(out, at, b' ');
    put_number(out, e, n)
}

// The line of a drain, if it occurs.
fn put_drain(out: &mut [u8], at: usize, t: Totals, drain: usize) -> usize
    requires { drain < 64 }
{
    let frames = t.frames;
    let checks = t.checks;
    let differ = t.differ;
    let cycles = t.cycles;
    if frames[drain] == 0 {
        return at;
    }
    let a = put_number(out, at, drain as u64);
    let b = put_field(out, a, frames[drain]);
    let c = put_field(out, b, checks[drain]);
    let d = put_field(out, c, differ[drain]);
    let e = put_field(out, d, cycles[drain]);
    put(out, e, b'\n')
}

fn text_of(t: Totals) -> Text {
    let mut bytes = [FILLER; 8192];
    let mut n = 0;
    for drain in 0..64 {
        n = put_drain(&mut bytes, n, t, drain);
    }
    Text { bytes, length: n }
}

// The text of a capture that is accepted.
pub fn text_by_frames(capture: &[u8]) -> Text {
    let end = minus(least(capture.len(), 65536), 16);
    let mask_at = word_at(capture, end + 4);
    let mask = part(capture, mask_at, end);
    let mut plan = [0u8; 2048];
    let _planned = planner::plan_mask(mask, &mut plan);
    let t = totals_to(
        capture,
        mask_at,
        mask,
        bytes(&plan, 2 * least(mask.len(), 1024)),
    );
    text_of(t)
}
