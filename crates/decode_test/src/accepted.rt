// Accepted calls: planner, check and decoder beside the reference, and encoded words decoded.
ghost use Rattle.std.specs.Prelude.{◌≤◌};

use crate::calls::{Lengths, check_front, decode_front, encode_front, plan_front};
use crate::refusals::{WRONG_CUTS, call_right};
use inputs::Refusal;
use reference::cases::{Case, draw_llrs, draw_mask, shorts};
use reference::nodes::{draw_plan, find_kinds, judge};
use reference::outputs::{Outputs, draw_outputs};
use test_tools::buffers::{
    Bytes, byte_at, draw_bits, draw_bytes, same_bytes, same_front, unfrozen, with_byte,
};
use test_tools::numbers::{bit_if, least, length_of, next};

// N (n + 3), the words of a workspace.
pub fn words_for(stage: usize) -> usize
    ensures { result ≤ 13312 }
{
    let n = least(stage, 10);
    least((n + 3) << n, 13312)
}

// The lengths of an accepted decode. Each output and the workspace are up to seven elements longer than asked.
fn accepted_lengths(stage: usize, sweeps: usize, k: usize, extra: u32) -> Lengths
    requires { k ≤ 1024 }
{
    let n = length_of(stage);
    Lengths {
        mask: n,
        plan: 2 * n,
        sweeps,
        llrs: n,
        soft: n + (extra % 8) as usize,
        hard: n + (extra / 8 % 8) as usize,
        payload: k + (extra / 64 % 8) as usize,
        work: words_for(stage) + (extra / 512 % 8) as usize,
    }
}

// Whether the planner's plan and counts are those found here, and its bytes past the plan stay.
fn planner_right(mask: Bytes, kinds: Bytes, stage: usize, seed: u32) -> bool {
    let n = length_of(stage);
    let before = draw_bytes(2 * n + 8, seed);
    let want = draw_plan(kinds, stage, 0, seed, before);
    let found = judge(kinds, stage, want);
    let got = plan_front(mask, n, before, 2 * n + (seed % 8) as usize);
    let counts = got.counts;
    let plan = got.plan;
    let want_counts = found.counts;
    got.number == 0 && counts == want_counts && same_bytes(plan, want)
}

// Whether the check of an allowed plan has number 0 and the model's cycles.
fn check_right(mask: Bytes, stage: usize, plan: Bytes, cycles: u32) -> bool {
    let n = length_of(stage);
    let answer = check_front(mask, n, plan, 2 * n);
    answer == Ok(cycles)
}

fn wide(x: u32) -> usize {
    x as usize
}

// Whether a decode's cycles are those of one sweep times its sweeps.
fn is_product(total: u32, sweeps: usize, cycles: u32) -> bool {
    if sweeps == 0 {
        return false;
    }
    wide(total) % sweeps == 0 && wide(total) / sweeps == wide(cycles)
}

// What a decode left, and whether planner, check and decoder were right.
#[derive(Drop)]
pub struct Tried {
    pub right: bool,
    pub cycles: u32,
    pub out: Outputs,
}

// A decode over drawn content: it writes what the reference gives, answers the model's cycles, clears its workspace and leaves every tail.
fn try_decode(c: Case, mask: Bytes, plan: Bytes, cycles: u32, llrs: [u64; 1024]) -> Tried {
    let n = length_of(c.stage);
    let before = draw_outputs(n + 8, c.seed);
    let want = reference::scan::decode(mask, llrs, c.stage, c.sweeps, before);
    let lengths = accepted_lengths(c.stage, c.sweeps, unfrozen(mask, n), next(c.seed));
    let used = words_for(c.stage);
    let got = decode_front(lengths, mask, plan, shorts(llrs), before, used, c.seed);
    let out = got.out;
    let answered = got.number == 0 && is_product(got.cycles, c.sweeps, cycles);
    Tried {
        right: answered && got.work && out == want,
        cycles: got.cycles,
        out,
    }
}

// Planner, check and decoder on one case.
pub fn try_case(c: Case, given: Bytes) -> Tried {
    let stage = c.stage;
    let mask = draw_mask(c);
    let kinds = find_kinds(mask, stage);
    let plan = draw_plan(kinds, stage, c.plan, c.seed, [0; 4112]);
    let found = judge(kinds, stage, plan);
    let llrs = draw_llrs(c.llrs, stage, given, next(c.seed));
    let planned = planner_right(mask, kinds, stage, c.seed);
    let checked = check_right(mask, stage, plan, found.cycles);
    let tried = try_decode(c, mask, plan, found.cycles, llrs);
    let out = tried.out;
    Tried {
        right: planned && checked && tried.right,
        cycles: tried.cycles,
        out,
    }
}

// How a case came out: whether it is right, and whether its decode has undecided bits.
#[derive(Drop)]
pub struct Found {
    pub right: bool,
    pub undecided: bool,
}

pub fn decode_case(c: Case) -> Found {
    let tried = try_case(c, [0; 4112]);
    let out = tried.out;
    Found {
        right: tried.right,
        undecided: out.undecided != 0,
    }
}

// ---- encoded words

// Whether a word decodes to itself and to its payload of k bits with check 1 and no undecided bit.
fn word_right(c: Case, word: Bytes, sent: Bytes, k: usize) -> bool {
    let tried = try_case(c, word);
    let out = tried.out;
    let hard = out.hard;
    let payload = out.payload;
    tried.right
        && out.check == 1
        && out.undecided == 0
        && same_front(hard, word, length_of(c.stage))
        && same_front(payload, sent, k)
}

// A drawn payload, encoded, with LLRs of drawn sizes and the word's signs.
pub fn sign_case(c: Case) -> bool {
    let n = length_of(c.stage);
    let mask = draw_mask(c);
    let k = unfrozen(mask, n);
    let sent = draw_bits(k, next(c.seed));
    let coded = encode_front(mask, n, sent, k, draw_bytes(n, c.seed));
    let word = coded.word;
    coded.done && word_right(c, word, sent, k)
}

// ---- plans with some bytes changed

// With chance of about 3/4 the byte of a drawn node becomes 1 if it was 0, and 0 if it was 1.
fn flip(plan: Bytes, n: usize, x: u32) -> Bytes
    requires { (1 ≤ n) × (n ≤ 1024) }
{
    if x % 4 == 0 {
        return plan;
    }
    let p = x as usize / 256 % (2 * n);
    if p == 0 {
        return plan;
    }
    with_byte(plan, p, bit_if(byte_at(&plan, p) == 0))
}

// The check of a plan that is not allowed answers 6, and a decode with it 6 too.
fn plan_refused(c: Case, mask: Bytes, plan: Bytes) -> bool {
    let n = length_of(c.stage);
    let lengths = accepted_lengths(c.stage, c.sweeps, n, c.seed);
    let answer = check_front(mask, n, plan, 2 * n);
    answer == Err(Refusal::PlanCuts)
        && call_right(lengths, WRONG_CUTS, c.seed, mask, plan, [0; 2056])
}

// A plan with up to three changed bytes is accepted or refused.
pub fn plan_case(c: Case) -> bool {
    let stage = c.stage;
    let n = length_of(stage);
    let mask = draw_mask(c);
    let kinds = find_kinds(mask, stage);
    let x = next(c.seed);
    let y = next(x);
    let drawn = draw_plan(kinds, stage, c.plan, c.seed, [0; 4112]);
    let plan = flip(flip(flip(drawn, n, x), n, y), n, next(y));
    let found = judge(kinds, stage, plan);
    if found.allowed {
        check_right(mask, stage, plan, found.cycles)
    } else {
        plan_refused(c, mask, plan)
    }
}
