// The planner.
// The recursion goes down the tree with a node's stage t, its number p, and its part of the mask: 2p and 2p + 1 are its children.
#![tactic(auto)]

ghost use Rattle.std.specs.Prelude.{◌≡◌, ◌++◌, false, ℕ, ◌<◌, ◌≤◌, length, get_or, drop, replicate, IfOk};
ghost use Rattle.model.specs.Kinds.{kind_of, is_some};
ghost use Rattle.model.specs.Refusals.{plan_number, plan_bytes, plan_counts, plan_cycles};
ghost use Rattle.inputs.specs.Numbers.{number_of, of_accepted};
ghost use Rattle.plans.specs.Nodes.{Node};
ghost use Rattle.planner.specs.Writing.{marked, tallied, written, counted, cycles_from, Free};

use inputs::{Refusal, mask_tests};
use kinds::{KINDS, kind_of, table_row};

// Cuts node p if it is of a kind, and counts it by its kind. Whether it is of a kind.
fn cut_here(mask: &[u8], plan: &mut [u8], counts: &mut [u32; KINDS], p: usize) -> bool
    requires { (p < length plan.old) × Free 0 counts.old }
    ensures value { result ≡ is_some (kind_of (length mask.now) mask.now) }
    ensures plan_after { plan.new ≡ marked p mask.now plan.old }
    ensures counts_after { counts.new ≡ tallied mask.now counts.old }
{
    let Some(kind) = kind_of(mask) else {
        return false;
    };
    let i = table_row(Some(kind)).place;
    plan[p] = 1;
    counts[i] += 1;
    true
}

// Cuts each node of a kind, below node p of stage t, which is of none, that has no such node above it, and counts it by its kind.
fn write_below(mask: &[u8], plan: &mut [u8], counts: &mut [u32; KINDS], t: usize, p: usize)
    requires node { Node t p (length mask.now) (length plan.old) }
    requires free { Free t counts.old × (is_some (kind_of (length mask.now) mask.now) ≡ false) }
    ensures plan_after { plan.new ≡ written t p mask.now plan.old }
    ensures counts_after { counts.new ≡ counted t mask.now counts.old }
{
    let u = t - 1;
    let l = 2 * p;
    let r = l + 1;
    let h = mask.len() / 2;
    if !cut_here(&mask[..h], plan, counts, l) {
        write_below(&mask[..h], plan, counts, u, l);
    }
    if !cut_here(&mask[h..], plan, counts, r) {
        write_below(&mask[h..], plan, counts, u, r);
    }
}

// The same from node p down. A cut node takes no call of its own but at the root.
fn write_plan(mask: &[u8], plan: &mut [u8], counts: &mut [u32; KINDS], t: usize, p: usize)
    requires node { Node t p (length mask.now) (length plan.old) }
    requires free { Free t counts.old }
    ensures plan_after { plan.new ≡ written t p mask.now plan.old }
    ensures counts_after { counts.new ≡ counted t mask.now counts.old }
{
    if !cut_here(mask, plan, counts, p) {
        write_below(mask, plan, counts, t, p);
    }
}

// The cycles of one sweep along a plan, from the counts of its cut nodes.
fn cycles_from(c: [u32; KINDS]) -> u32
    requires { (i : ℕ) → get_or c i 0 ≤ 65536 }
    ensures { result ≡ cycles_from c }
{
    let fixed = c[0] + c[1];
    let two = c[2] + c[3] + (c[4] + c[5]);
    let four = c[6] + c[7];
    let all = 4 * fixed + 8 * two + 10 * four;
    if all < 6 { 0 } else { all - 6 }
}

// What the planner finds: the counts of cut nodes by kind, in the kinds' order, and the cycles of one sweep.
#[derive(Clone, Copy)]
pub struct Planned {
    pub counts: [u32; KINDS],
    pub cycles: u32,
}

// Writes the plan that cuts each node of a kind that has no such node above it.
pub fn plan_mask(mask: &[u8], plan: &mut [u8]) -> Result<Planned, Refusal>
    ensures number { number_of result ≡ plan_number mask.now (length plan.old) }
    ensures counts { IfOk result (λ p. p.counts ≡ plan_counts mask.now (length plan.old)) }
    ensures cycles { of_accepted (λ p. p.cycles) result ≡ plan_cycles mask.now (length plan.old) }
    ensures plan_after { plan.new ≡ plan_bytes mask.now plan.old }
{
    let masked = mask_tests(mask)?;
    let size = 2 * mask.len();
    if plan.len() < size {
        return Err(Refusal::ShortOutput);
    }
    plan[..size].fill(0);
    let mut counts = [0u32; KINDS];
    write_plan(mask, plan, &mut counts, masked.stage, 1);
    let cycles = cycles_from(counts);
    Ok(Planned { counts, cycles })
}
