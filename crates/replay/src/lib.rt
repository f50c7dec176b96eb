// A capture replayed: from its bytes to the text of its drains' totals, or of the first refusal.
#![tactic(auto)]

ghost use Rattle.std.specs.Prelude.{◌≡◌, ◌*◌, ◌<◌, ◌≤◌, length};
ghost use Rattle.model.specs.Captures.{max_capture, frame_size, frames_to, capture_number};
ghost use Rattle.inputs.specs.Numbers.{number_of, of_accepted};
ghost use Rattle.frames.specs.Frames.{Planned};
ghost use Rattle.printer.specs.Put.{Printed};
ghost use Rattle.replay.specs.Totals.{Free, Added, Counted};
ghost use Rattle.replay.specs.Program.{number_from_mask, lines_text, capture_text, Replayed, TotalsWritten, replay_text, max_replay};

use captures::read_layout;
use drains::{Totals, print_drains};
use frames::{FrameTotals, replay_frame};
use inputs::Refusal;
use planner::plan_mask;
use printer::print_refusal;

// Drain numbers are below this.
const DRAINS: usize = 64;

// The most bytes of a text.
const MAX_REPLAY: usize = 6720;

// The totals of no frame.
const NO_FRAMES: Totals = Totals {
    frames: 0,
    checks: 0,
    differ: 0,
    cycles: 0,
};

// Adds what a frame gave to its drain's totals.
fn add_frame(frame: FrameTotals, totals: &mut [Totals; DRAINS])
    requires drain_fits { frame.drain < 64 }
    requires free { Free totals.old }
    ensures { Added frame totals.old totals.new }
{
    let t = &mut totals[frame.drain];
    t.frames += 1;
    t.checks += u64::from(frame.check);
    t.cycles += u64::from(frame.cycles);
    t.differ += u64::from(frame.differ);
}

// The totals of the frames from the capture's start on, or the first refusal.
fn replay_frames(
    bytes: &[u8],
    count: usize,
    mask: &[u8],
    plan: &[u8],
) -> Result<[Totals; DRAINS], Refusal>
    requires frames_in_bounds { count * frame_size (length mask.now) ≤ length bytes.now }
    requires small { length bytes.now ≤ max_capture }
    requires planned { Planned mask.now plan.now }
    ensures { Counted mask.now (frames_to bytes.now (length mask.now) count) result }
{
    let mut llrs = [0i16; 1024];
    let mut soft = [0i32; 1024];
    let mut hard = [0u8; 1024];
    let mut payload = [0u8; 1024];
    // N(n + 3) words and two more: compiled so, it begins at a multiple of 16 bytes, where the decoder is faster.
    let mut work = [0i32; 13314];
    let size = 4 + 2 * mask.len();
    let mut totals = [NO_FRAMES; DRAINS];
    for j in 0..count {
        let frame = replay_frame(
            bytes,
            j * size,
            mask,
            plan,
            &mut llrs,
            &mut soft,
            &mut hard,
            &mut payload,
            &mut work,
        )?;
        add_frame(frame, &mut totals);
    }
    Ok(totals)
}

// Replays a capture whose trailer fits: its mask, and the number of its frames.
fn replay_with_mask(
    bytes: &[u8],
    mask: &[u8],
    count: usize,
    out: &mut [u8],
) -> Result<usize, Refusal>
    requires frames_in_bounds { count * frame_size (length mask.now) ≤ length bytes.now }
    requires small { length bytes.now ≤ max_capture }
    ensures { let fs = frames_to bytes.now (length mask.now) count in Replayed (number_from_mask mask.now fs) (lines_text mask.now fs) out.old out.new (number_of result) (of_accepted (λ n. n) result) }
{
    let mut plan = [0u8; 2048];
    plan_mask(mask, &mut plan)?;
    let totals = replay_frames(bytes, count, mask, &plan[..2 * mask.len()])?;
    Ok(print_drains(&totals, out))
}

// Replays a capture: the lines of its drains go to the front of `out`, and what has no room is left out. A refused capture leaves `out` as it was. Nothing is printed before all frames are decoded.
fn replay_lines(bytes: &[u8], out: &mut [u8]) -> Result<usize, Refusal>
    ensures { Replayed (capture_number bytes.now) (capture_text bytes.now) out.old out.new (number_of result) (of_accepted (λ n. n) result) }
{
    let layout = read_layout(bytes)?;
    let end = layout.mask_at + layout.size;
    replay_with_mask(bytes, &bytes[layout.mask_at..end], layout.count, out)
}

// Replays a capture: the lines of its drains go to the front of `out`. A buffer that is too short for the longest text is refused after the capture itself, which is then replayed into no buffer.
pub fn replay_totals(bytes: &[u8], out: &mut [u8]) -> Result<usize, Refusal>
    ensures { TotalsWritten bytes.now out.old out.new (number_of result) (of_accepted (λ n. n) result) }
{
    if out.len() < MAX_REPLAY {
        replay_lines(bytes, &mut [])?;
        return Err(Refusal::ShortOutput);
    }
    replay_lines(bytes, out)
}

// The replay program's answer to a capture's bytes, from the start of `out` on; answers its length. What has no room is left out.
pub fn replay(bytes: &[u8], out: &mut [u8]) -> usize
    ensures { Printed (replay_text bytes.now) max_replay out.old out.new result }
{
    match replay_lines(bytes, out) {
        Ok(length) => length,
        Err(refusal) => print_refusal(refusal.number(), out),
    }
}
