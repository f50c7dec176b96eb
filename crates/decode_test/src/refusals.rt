// Calls with a set of faults: the answer is the number of the first, every other result is 0, and all buffers stay.
// The faults:
// 0 mask length, 1 mask byte, 2 number of LLRs, 3 sweeps, 4 form of the plan, 5 cuts of the plan, 6 LLR of -32768,
// 7 soft values too short (of a planner's call: the plan), 8 hard bits too short, 9 payload too short, 10 workspace too short.
// A variant, 0 to 11, chooses among the ways to have a fault.
ghost use Rattle.std.specs.Prelude.{◌<◌, ◌≤◌};

use crate::accepted::words_for;
use crate::calls::{Lengths, check_front, decode_front, plan_front};
use reference::cases::{Case, draw_llrs, draw_mask, shorts};
use reference::nodes::draw_plan;
use reference::outputs::draw_outputs;
use test_tools::buffers::{Bytes, draw_bytes, same_bytes, unfrozen, with_byte};
use test_tools::faults::has;
use test_tools::numbers::{bit_if, choose, is_length, length_of, minus, number_of, one_if};

// The set of fault 5 alone.
pub const WRONG_CUTS: usize = 32;

// Bytes that no mask has, and those that no plan has.
const WRONG_MASK_BYTES: [u8; 4] = [3, 4, 128, 255];

const WRONG_PLAN_BYTES: [u8; 4] = [2, 3, 128, 255];

// The number of the first fault in the order in which calls are tested, or 0.
fn first_number(faults: usize) -> u32 {
    match usize::trailing_zeros(faults) {
        0 => 1,
        1 => 2,
        2 => 3,
        3 => 4,
        4 => 5,
        5 => 6,
        6 => 7,
        7 | 8 | 9 => 11,
        10 => 12,
        _ => 0,
    }
}

// One of four lengths.
fn pick(variant: usize, a: usize, b: usize, c: usize, d: usize) -> usize {
    match variant % 4 {
        0 => a,
        1 => b,
        2 => c,
        _ => d,
    }
}

// The first, middle or last of n places.
fn spot(variant: usize, n: usize) -> usize
    requires { 1 ≤ n }
    ensures { result < n }
{
    match variant / 4 {
        0 => 0,
        1 => n / 2,
        _ => n - 1,
    }
}

fn wrong_length(n: usize, variant: usize) -> usize
    requires { (1 ≤ n) × (n ≤ 1024) }
{
    pick(variant, n - 1, n + 1, 0, n + n / 2)
}

fn wrong_sweeps(variant: usize) -> usize {
    pick(variant, 0, 9, 16, 65537)
}

// ---- plans

// A plan has a form fault by its length for variants to 3, by a byte above 1 for 4 to 7, and by its byte 0 above them.
fn wrong_plan_length(n: usize, variant: usize) -> usize
    requires { (1 ≤ n) × (n ≤ 1024) }
{
    if variant < 4 {
        pick(variant, 2 * n - 1, 2 * n + 1, 0, n)
    } else {
        2 * n
    }
}

fn spoil_form(plan: Bytes, n: usize, variant: usize) -> Bytes
    requires { (1 ≤ n) × (n ≤ 1024) }
{
    if variant < 4 {
        return plan;
    }
    if variant < 8 {
        let p = pick(variant, 1, n, 2 * n - 1, n / 2);
        return with_byte(plan, p, WRONG_PLAN_BYTES[variant % 4]);
    }
    with_byte(plan, 0, 1)
}

// Wrong cuts of a leaf-only plan: by variant a second cut on the first path, a leaf without its cut, or a cut node of no kind.
// The parent of the first two leaves is of a kind in the first case and of none in the last (see `faulty_mask`).
fn spoil_cuts(plan: Bytes, n: usize, variant: usize) -> Bytes
    requires { (1 ≤ n) × (n ≤ 1024) }
{
    if variant % 3 == 1 {
        let p = pick(variant / 3, n, n + 1, n + n / 2, 2 * n - 1);
        return with_byte(plan, p, 0);
    }
    let cut = with_byte(plan, n / 2, 1);
    if variant % 3 == 0 {
        return cut;
    }
    with_byte(with_byte(cut, n, 0), n + 1, 0)
}

fn faulty_plan(stage: usize, faults: usize, variant: usize) -> Bytes {
    let n = length_of(stage);
    let leaves = draw_plan([0; 4112], stage, 1, 1, [0; 4112]);
    let plan = if has(faults, 5) {
        spoil_cuts(leaves, n, variant)
    } else {
        leaves
    };
    if has(faults, 4) {
        spoil_form(plan, n, variant)
    } else {
        plan
    }
}

// ---- masks, LLRs and lengths

// The first two positions are one frozen and one unfrozen: an SPC node, or a node of no kind where the wrong cuts ask for it.
fn faulty_mask(stage: usize, faults: usize, variant: usize, seed: u32) -> Bytes {
    let n = length_of(stage);
    let c = Case {
        stage,
        mask: 2,
        detail: 0,
        ones: 1,
        plan: 0,
        llrs: 0,
        sweeps: 1,
        seed,
    };
    let no_kind = variant % 3 == 2;
    let first = with_byte(draw_mask(c), 0, bit_if(!no_kind));
    let mask = with_byte(first, 1, bit_if(no_kind));
    if has(faults, 1) {
        with_byte(mask, spot(variant, n), WRONG_MASK_BYTES[variant % 4])
    } else {
        mask
    }
}

fn faulty_llrs(stage: usize, faults: usize, variant: usize, seed: u32) -> [i16; 2056] {
    let mut llrs = shorts(draw_llrs(3, stage, [0; 4112], seed));
    if has(faults, 6) {
        let i = spot(variant, length_of(stage));
        llrs[i] = -32768;
    }
    llrs
}

// A room below `least`, or from it on.
fn room(short: bool, least: usize, variant: usize) -> usize
    requires { least ≤ 13312 }
{
    if short {
        pick(variant, minus(least, 1), 0, least / 2, minus(least, 1))
    } else {
        least + variant % 8
    }
}

fn faulty_lengths(stage: usize, k: usize, faults: usize, variant: usize) -> Lengths
    requires { k ≤ 1024 }
{
    let n = length_of(stage);
    Lengths {
        mask: choose(has(faults, 0), wrong_length(n, variant), n),
        plan: choose(has(faults, 4), wrong_plan_length(n, variant), 2 * n),
        sweeps: choose(has(faults, 3), wrong_sweeps(variant), 1 + variant % 8),
        llrs: choose(has(faults, 2), wrong_length(n, variant), n),
        soft: room(has(faults, 7), n, variant),
        hard: room(has(faults, 8), n, variant),
        payload: room(has(faults, 9), k, variant),
        work: room(has(faults, 10), words_for(stage), variant),
    }
}

// ---- the calls

// Whether a decode has the number of its faults, and a refused one has no other result and leaves the four buffers.
pub fn call_right(
    lengths: Lengths,
    faults: usize,
    seed: u32,
    mask: Bytes,
    plan: Bytes,
    llrs: [i16; 2056],
) -> bool {
    let before = draw_outputs(2056, seed);
    let got = decode_front(lengths, mask, plan, llrs, before, 0, seed);
    let out = got.out;
    if got.number != first_number(faults) {
        return false;
    }
    if faults == 0 {
        return true;
    }
    got.work && got.cycles == 0 && out == before
}

// A decode with faults.
pub fn decode_refusal(stage: usize, faults: usize, variant: usize, seed: u32) -> bool {
    let mask = faulty_mask(stage, faults, variant, seed);
    let plan = faulty_plan(stage, faults, variant);
    let llrs = faulty_llrs(stage, faults, variant, seed);
    let k = unfrozen(mask, length_of(stage));
    let lengths = faulty_lengths(stage, k, faults, variant);
    call_right(lengths, faults, seed, mask, plan, llrs)
}

// The cycles that answer a check with the faults: those of a leaf-only plan, or 0.
fn leaf_cycles(faults: usize, n: usize) -> usize
    requires { (1 ≤ n) × (n ≤ 1024) }
{
    if faults == 0 { minus(4 * n, 6) } else { 0 }
}

// A plan's check with faults 0, 1, 4 and 5.
pub fn check_refusal(stage: usize, faults: usize, variant: usize, seed: u32) -> bool {
    let mask = faulty_mask(stage, faults, variant, seed);
    let plan = faulty_plan(stage, faults, variant);
    let lengths = faulty_lengths(stage, 0, faults, variant);
    let answer = check_front(mask, lengths.mask, plan, lengths.plan);
    number_of(&answer) == first_number(faults)
        && answer.unwrap_or(0) as usize == leaf_cycles(faults, length_of(stage))
}

// Whether a planner's call has the number of its faults, and a refused one no counts and leaves the buffer.
fn planner_refused(mask: Bytes, n: usize, room: usize, faults: usize, seed: u32) -> bool {
    let before = draw_bytes(4112, seed);
    let got = plan_front(mask, n, before, room);
    let counts = got.counts;
    let plan = got.plan;
    if got.number != first_number(faults) {
        return false;
    }
    if faults == 0 {
        return true;
    }
    counts == [0; 8] && same_bytes(plan, before)
}

// A planner's call with faults 0, 1 and 7.
pub fn plan_refusal(stage: usize, faults: usize, variant: usize, seed: u32) -> bool {
    let n = length_of(stage);
    let mask = faulty_mask(stage, faults, variant, seed);
    let size = choose(has(faults, 0), wrong_length(n, variant), n);
    let free = room(has(faults, 7), 2 * n, variant);
    planner_refused(mask, size, free, faults, seed)
}

// ---- every length of the mask

// All calls on a mask of n unfrozen positions and the plan that cuts its root: they have number 0, or 1 and leave the buffers.
pub fn length_case(n: usize, seed: u32) -> bool
    requires { n ≤ 2056 }
{
    let mask = [0u8; 4112];
    let plan = with_byte(mask, 1, 1);
    let lengths = Lengths {
        mask: n,
        plan: 2 * n,
        sweeps: 1,
        llrs: n,
        soft: n,
        hard: n,
        payload: n,
        work: 13320,
    };
    let faults = one_if(!is_length(n));
    let answer = check_front(mask, n, plan, 2 * n);
    number_of(&answer) == first_number(faults)
        && planner_refused(mask, n, 2 * n, faults, seed)
        && call_right(lengths, faults, seed, mask, plan, [0; 2056])
}
