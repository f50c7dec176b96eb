// A frame of a capture: read, decoded along the planner's plan, and what it adds to its drain's totals.
#![tactic(auto)]

ghost use Rattle.std.specs.Prelude.{◌≡◌, [], ◌∷◌, ◌+◌, ◌≤◌, length};
ghost use Rattle.model.specs.Captures.{max_capture, max_drain, frame_size, differing, frame_at};
ghost use Rattle.inputs.specs.Numbers.{number_of, of_accepted};
ghost use Rattle.frames.specs.Frames.{Planned, Roomy, frame_of, FrameReplayed};

use captures::{number16_at, read_llrs};
use decode::decode;
use inputs::Refusal;

// Drain numbers are at most this.
const MAX_DRAIN: usize = 63;

// 1 where a hard bit differs from an LLR's sign; an LLR of 0 counts as bit 0, and an undecided bit always differs.
fn differs(llr: i16, bit: u8) -> u16
    ensures { result ≡ differing (llr ∷ []) (bit ∷ []) }
{
    let sign = if llr < 0 { 1 } else { 0 };
    if bit == sign { 0 } else { 1 }
}

// Hard bits that differ from their LLR's sign. A count of 16 bits is as wide as an LLR, so that eight places are counted at once.
fn differing_bits(llrs: &[i16], hard: &[u8]) -> u32
    requires same_len { length llrs.now ≡ length hard.now }
    requires few { length llrs.now ≤ 1024 }
    ensures { result ≡ differing llrs.now hard.now }
{
    let mut count: u16 = 0;
    for (llr, bit) in llrs.iter().zip(hard) {
        count += differs(*llr, *bit);
    }
    u32::from(count)
}

// What a frame adds to the totals of its drain: whether its frozen check is 1, the hard bits that differ and its cycles.
#[derive(Clone, Copy)]
pub struct FrameTotals {
    pub drain: usize,
    pub check: u8,
    pub differ: u32,
    pub cycles: u32,
}

// Decodes a frame's LLRs along the planner's plan of the mask. The four buffers are for the decode: what they held has no influence, and what they hold afterwards
// is left open.
fn decode_frame(
    drain: usize,
    mask: &[u8],
    plan: &[u8],
    sweeps: usize,
    llrs: &[i16],
    soft: &mut [i32],
    hard: &mut [u8],
    payload: &mut [u8],
    work: &mut [i32],
) -> Result<FrameTotals, Refusal>
    requires planned { Planned mask.now plan.now }
    requires roomy { Roomy (length soft.old) (length hard.old) (length payload.old) (length work.old) }
    requires llrs_len { length llrs.now ≡ length mask.now }
    requires drain_fits { drain ≤ max_drain }
    ensures { FrameReplayed mask.now (frame_of drain sweeps llrs.now) (number_of result) (of_accepted (λ t. t.drain) result) (of_accepted (λ t. t.check) result) (of_accepted (λ t. t.differ) result) (of_accepted (λ t. t.cycles) result) }
{
    let decoded = decode(mask, plan, sweeps, llrs, soft, hard, payload, work)?;
    let differ = differing_bits(llrs, &hard[..mask.len()]);
    Ok(FrameTotals {
        drain,
        check: decoded.check,
        differ,
        cycles: decoded.cycles,
    })
}

// Replays the frame at `at`. The five buffers are for its decode: what they held has no influence, and what they hold afterwards is left open.
pub fn replay_frame(
    bytes: &[u8],
    at: usize,
    mask: &[u8],
    plan: &[u8],
    llrs: &mut [i16],
    soft: &mut [i32],
    hard: &mut [u8],
    payload: &mut [u8],
    work: &mut [i32],
) -> Result<FrameTotals, Refusal>
    requires mask_in_bounds { (at + frame_size (length mask.now) ≤ length bytes.now) × (length bytes.now ≤ max_capture) × (1024 ≤ length llrs.old) }
    requires planned { Planned mask.now plan.now × Roomy (length soft.old) (length hard.old) (length payload.old) (length work.old) }
    ensures { FrameReplayed mask.now (frame_at bytes.now (length mask.now) at) (number_of result) (of_accepted (λ t. t.drain) result) (of_accepted (λ t. t.check) result) (of_accepted (λ t. t.differ) result) (of_accepted (λ t. t.cycles) result) }
{
    let drain = number16_at(bytes, at);
    let sweeps = number16_at(bytes, at + 2);
    if MAX_DRAIN < drain {
        return Err(Refusal::Drain);
    }
    let size = mask.len();
    let llrs = &mut llrs[..size];
    read_llrs(bytes, at + 4, size, llrs);
    decode_frame(drain, mask, plan, sweeps, llrs, soft, hard, payload, work)
}
