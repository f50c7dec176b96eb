// Compares the decoder, the planner and the check of a plan with a SCAN of its own, walked to the last leaf, over drawn cases,
// tries the refusals of these calls, and decodes encoded words.
// Each line of the output has a group of cases, how many came out right, and how many there are; for decodes of drawn LLRs also how many
// have undecided bits. A case that does not come out right is printed with the numbers that determine it: `found(group, stage, index)` runs
// it alone, and a case of the numbers after these, handed to the function that is called for the group, does so too.
#![tactic(auto)]

mod accepted;
mod calls;
mod frames;
mod refusals;

ghost use Rattle.std.specs.Prelude.{◌≤◌, IfOk};

use accepted::Found;
use reference::cases::Case;
use std::io;
use test_tools::numbers::{case_seed, length_of, one_if};
use test_tools::report::{begin_report, end_line, print_number, print_values};

// The groups.
const FRAMES: usize = 0;

const EVERY_MASK: usize = 1;

const DRAWN: usize = 2;

const KINDS: usize = 3;

const SIGNS: usize = 4;

const CHANGED_PLANS: usize = 5;

const TWO_FAULTS: usize = 6;

const FAULTS: usize = 7;

const CHECK_FAULTS: usize = 8;

const PLANNER_FAULTS: usize = 9;

const LENGTHS: usize = 10;

// ---- a case by its group, its stage and its index

// Each style of mask and plan in turn, with drawn ones and sweeps.
fn drawn_case(stage: usize, i: usize, llrs: usize, seed: u32) -> Case {
    Case {
        stage,
        mask: i % 18,
        detail: (seed / 16 % 11) as usize,
        ones: (seed / 256 % 4) as usize,
        plan: i / 18 % 4,
        llrs,
        sweeps: 1 + (seed % 8) as usize,
        seed,
    }
}

// Every mask of N to 8, as a number, with each style of plan, and drawn LLRs and sweeps.
fn mask_case(stage: usize, i: usize, seed: u32) -> Case {
    Case {
        stage,
        mask: 18,
        detail: i % 6561,
        ones: 0,
        plan: i / 6561 % 4,
        llrs: (seed / 16 % 8) as usize,
        sweeps: 1 + (seed % 8) as usize,
        seed,
    }
}

// A node of each kind and each size, with each style of plan and of ones, and drawn LLRs and sweeps.
fn kind_case(stage: usize, i: usize, seed: u32) -> Case {
    Case {
        stage,
        mask: 10 + i % 8,
        detail: i / 8 % 11,
        ones: i / 352 % 4,
        plan: i / 88 % 4,
        llrs: (seed / 16 % 8) as usize,
        sweeps: 1 + (seed % 8) as usize,
        seed,
    }
}

// The case of a group of accepted calls.
fn case_of(group: usize, stage: usize, i: usize) -> Case {
    let seed = case_seed(group, stage, i);
    match group {
        1 => mask_case(stage, i, seed),
        3 => kind_case(stage, i, seed),
        4 => drawn_case(stage, i, 8, seed),
        _ => drawn_case(stage, i, i / 64 % 8, seed),
    }
}

// The set of faults of a refused call: one or two faults of a decode, any of a decode, any of 0, 1, 4 and 5 of a plan's check,
// or any of 0, 1 and 7 of a planner's call.
fn faults_of(group: usize, i: usize) -> usize {
    let set = i / 12;
    match group {
        6 => (1 << (set % 11)) | (1 << (set / 11 % 11)),
        7 => i % 2048,
        8 => set % 4 + set / 4 % 4 * 16,
        _ => set % 4 + set / 4 % 2 * 128,
    }
}

fn variant_of(group: usize, i: usize, seed: u32) -> usize {
    if group == FAULTS {
        (seed % 12) as usize
    } else {
        i % 12
    }
}

fn refusal_right(group: usize, stage: usize, i: usize) -> bool {
    let seed = case_seed(group, stage, i);
    let faults = faults_of(group, i);
    let variant = variant_of(group, i, seed);
    match group {
        8 => refusals::check_refusal(stage, faults, variant, seed),
        9 => refusals::plan_refusal(stage, faults, variant, seed),
        _ => refusals::decode_refusal(stage, faults, variant, seed),
    }
}

// Whether a case that is not a decode of drawn LLRs comes out right.
fn other_right(group: usize, stage: usize, i: usize) -> bool {
    match group {
        0 => frames::frame_case(i),
        4 => accepted::sign_case(case_of(group, stage, i)),
        5 => accepted::plan_case(case_of(group, stage, i)),
        10 => refusals::length_case(i % 2056, case_seed(group, stage, i)),
        _ => refusal_right(group, stage, i),
    }
}

// Whether a group has decodes of drawn LLRs.
fn has_drawn_llrs(group: usize) -> bool {
    matches!(group, 1 | 2 | 3)
}

// How a case comes out.
fn found(group: usize, stage: usize, i: usize) -> Found {
    if has_drawn_llrs(group) {
        return accepted::decode_case(case_of(group, stage, i));
    }
    Found {
        right: other_right(group, stage, i),
        undecided: false,
    }
}

// ---- what is printed

fn print_case(rt: &impl Print, c: Case) -> io::Result<()> {
    print_values(
        rt,
        b", mask |, detail |, ones |, plan |, LLRs |, sweeps ",
        [c.mask, c.detail, c.ones, c.plan, c.llrs, c.sweeps, 0, 0],
    )
}

fn print_faults(rt: &impl Print, faults: usize, variant: usize) -> io::Result<()> {
    print_values(
        rt,
        b", faults |, variant ",
        [faults, variant, 0, 0, 0, 0, 0, 0],
    )
}

fn print_mismatch(rt: &impl Print, group: usize, stage: usize, i: usize) -> io::Result<()> {
    let seed = case_seed(group, stage, i);
    print_values(
        rt,
        b"mismatch: group |, stage |, index |, seed ",
        [group, stage, i, seed as usize, 0, 0, 0, 0],
    )?;
    match group {
        1 | 2 | 3 | 4 | 5 => print_case(rt, case_of(group, stage, i))?,
        6 | 7 | 8 | 9 => print_faults(rt, faults_of(group, i), variant_of(group, i, seed))?,
        _ => {}
    }
    end_line(rt)
}

// How a case comes out; prints it if it is not right.
fn shown(rt: &impl Print, group: usize, stage: usize, i: usize) -> io::Result<Found> {
    let case = found(group, stage, i);
    if !case.right {
        print_mismatch(rt, group, stage, i)?;
    }
    Ok(case)
}

// How many cases came out right, and how many have undecided bits.
#[derive(Drop)]
struct Counts {
    right: usize,
    undecided: usize,
}

// The counts of the first `count` cases.
fn count_cases(rt: &impl Print, group: usize, stage: usize, count: usize) -> io::Result<Counts>
    requires { count ≤ 65536 }
    ensures { IfOk result (λ c. (c.right ≤ 65536) × (c.undecided ≤ 65536)) }
{
    let mut right = 0;
    let mut undecided = 0;
    for i in 0..count {
        let case = shown(rt, group, stage, i)?;
        right += one_if(case.right);
        undecided += one_if(case.undecided);
    }
    Ok(Counts { right, undecided })
}

fn report_line(rt: &impl Print, group: usize, counts: Counts, all: usize) -> io::Result<()> {
    begin_report(
        rt,
        b"frames: |every mask to N 8: | drawn cases |kinds at every size: |encoded words: |changed plans: |decode, one or two faults: |decode, sets of faults: |check, sets of faults: |planner, sets of faults: |lengths of the mask: ",
        group,
        counts.right,
        all,
    )?;
    if has_drawn_llrs(group) {
        print_number(rt, b", with undecided bits ", counts.undecided)?;
    }
    end_line(rt)
}

// A group with the same number of cases for each N to 2 ^ stages.
fn report_group(rt: &impl Print, group: usize, stages: usize, count: usize) -> io::Result<()>
    requires { (stages ≤ 10) × (count ≤ 65536) }
{
    let mut right = 0;
    let mut undecided = 0;
    let mut all = 0;
    for stage in 1..=stages {
        let c = count_cases(rt, group, stage, count)?;
        right += c.right;
        undecided += c.undecided;
        all += count;
    }
    report_line(rt, group, Counts { right, undecided }, all)
}

// Fewer cases for the largest N.
fn drawn_count(stage: usize) -> usize
    ensures { result ≤ 65536 }
{
    match stage {
        10 => 512,
        9 => 1024,
        8 => 2048,
        _ => 4096,
    }
}

// One line for each N.
fn report_drawn(rt: &impl Print) -> io::Result<()> {
    for stage in 1..=10 {
        let count = drawn_count(stage);
        print_number(rt, b"N ", length_of(stage))?;
        report_line(rt, DRAWN, count_cases(rt, DRAWN, stage, count)?, count)?;
    }
    Ok(())
}

fn main(rt: HostRuntime) -> io::Result<()> {
    report_group(&rt, FRAMES, 1, 18)?;
    report_group(&rt, EVERY_MASK, 3, 26244)?;
    report_drawn(&rt)?;
    report_group(&rt, KINDS, 10, 1408)?;
    report_group(&rt, SIGNS, 10, 512)?;
    report_group(&rt, CHANGED_PLANS, 10, 512)?;
    report_group(&rt, TWO_FAULTS, 10, 1452)?;
    report_group(&rt, FAULTS, 10, 2048)?;
    report_group(&rt, CHECK_FAULTS, 10, 192)?;
    report_group(&rt, PLANNER_FAULTS, 10, 96)?;
    report_group(&rt, LENGTHS, 1, 2056)
}
