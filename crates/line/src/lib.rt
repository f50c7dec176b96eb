// The line program as a library: from the bytes of a line to the bytes of its answer.
#![tactic(auto)]

ghost use Rattle.std.specs.Prelude.{length};
ghost use Rattle.model.specs.Plans.{Allowed};
ghost use Rattle.model.specs.Refusals.{exponent};
ghost use Rattle.reader.specs.Steps.{Fit};
ghost use Rattle.printer.specs.Put.{Printed};
ghost use Rattle.line.specs.Program.{decode_text, planned_text, answer_text, max_text};

use decode::decode;
use inputs::unfrozen_of;
use planner::plan_mask;
use printer::{print_decoded, print_refusal};
use reader::read_line;

// Decodes along an allowed plan and prints the answer. What was read of a line passes the decoder's tests, and the planner's below.
fn answer_along(mask: &[u8], plan: &[u8], sweeps: usize, llrs: &[i16], out: &mut [u8]) -> usize
    requires fit { Fit mask.now sweeps llrs.now }
    requires allowed { Allowed (exponent (length mask.now)) plan.now mask.now }
    ensures { Printed (decode_text plan.now mask.now sweeps llrs.now) max_text out.old out.new result }
{
    let mut soft = [0i32; 1024];
    let mut hard = [0u8; 1024];
    let mut payload = [0u8; 1024];
    let mut work = [0i32; 13312];
    let decoded = decode(
        mask,
        plan,
        sweeps,
        llrs,
        &mut soft,
        &mut hard,
        &mut payload,
        &mut work,
    )
    .unwrap();
    let size = mask.len();
    let k = unfrozen_of(mask);
    print_decoded(
        decoded.cycles,
        &soft[..size],
        &hard[..size],
        &payload[..k],
        decoded.check,
        decoded.undecided,
        out,
    )
}

// Decodes along the planner's plan and prints the answer.
fn answer_planned(mask: &[u8], sweeps: usize, llrs: &[i16], out: &mut [u8]) -> usize
    requires { Fit mask.now sweeps llrs.now }
    ensures { Printed (planned_text mask.now sweeps llrs.now) max_text out.old out.new result }
{
    let mut plan = [0u8; 2048];
    plan_mask(mask, &mut plan).unwrap();
    let size = 2 * mask.len();
    answer_along(mask, &plan[..size], sweeps, llrs, out)
}

// The answer to the line at the start of the bytes, from the start of `out` on; answers its length. What has no room is left out.
pub fn answer(bytes: &[u8], out: &mut [u8]) -> usize
    ensures { Printed (answer_text bytes.now) max_text out.old out.new result }
{
    let mut mask = [0u8; 1024];
    let mut llrs = [0i16; 1024];
    match read_line(bytes, &mut mask, &mut llrs) {
        Ok(line) => answer_planned(&mask[..line.size], line.sweeps, &llrs[..line.size], out),
        Err(refusal) => print_refusal(refusal.number(), out),
    }
}
