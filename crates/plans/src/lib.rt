// The check of a plan, and the cycles of one sweep.
// A recursion goes down the tree with a node's stage t, its number p, and its positions of the mask: 2p and 2p + 1 are its children.
#![tactic(auto)]

ghost use Rattle.std.specs.Prelude.{◌≡◌, cond, ◌&&◌, ◌-◌, ◌%◌, ◌≤◌, ◌<◌, ◌^◌, T, eqb, length, get_or};
ghost use Rattle.model.specs.Lists.{at_most, part};
ghost use Rattle.model.specs.Refusals.{check_number, check_cycles};
ghost use Rattle.inputs.specs.Numbers.{number_of, of_accepted};
ghost use Rattle.kinds.specs.Runs.{kind_found};
ghost use Rattle.plans.specs.Nodes.{Span, byte_sum, fault, share, shares};
ghost use Rattle.plans.specs.Faults.{fault_number, fault_cycles};

use inputs::{Refusal, at_most, mask_tests};
use kinds::{Kind, kind_of, table_row};

// What a leaf whose path has no cut, or a cut node of no kind, adds to the check's sum: more than all cuts of a plan.
const FAULT: u64 = 4294967296;

// What a cut adds, above the cycles.
const CUT: u64 = 65536;

// 4, and 2 more for the edge to a cut node that is no rate-0 or rate-1 node. The 4 stand for the uncut nodes: m cut nodes have m - 1 uncut ones above
// them, each with 2 cycles of its own and, but for the root, 2 for the edge to it, in all 4m - 6.
fn edge_share(fixed: bool) -> u64
    ensures { result ≡ cond fixed 4 6 }
{
    if fixed { 4 } else { 6 }
}

// What a cut node adds, of a kind or of none.
fn share_of(kind: Option<Kind>) -> u64
    ensures { result ≡ share (kind_found kind) }
{
    if kind.is_none() {
        return FAULT;
    }
    let row = table_row(kind);
    CUT + (row.cycles as u64 + edge_share(row.fixed))
}

// What a leaf adds, by its byte of the plan: each is a rate-0 or a rate-1 node.
fn leaf_share(byte: u8) -> u64
    ensures { result ≡ cond (eqb byte 1) 65540 fault }
{
    if byte == 1 { CUT + 4 } else { FAULT }
}

// The check's sum at node p, of stage t, in one pass from it down. The node has the s positions of the mask from b on: a part of the mask is made at a
// cut only, since a part that is handed on in each call costs more than two numbers. Above two leaves the pass ends, so that a plan that cuts the leaves
// takes no call for each.
fn shares_at(mask: &[u8], plan: &[u8], t: usize, p: usize, b: usize, s: usize) -> u64
    requires { Span t p b s mask.now plan.now }
    ensures { result ≡ shares plan.now t p (part mask.now b s) }
{
    if plan[p] == 1 {
        let e = b + s;
        return share_of(kind_of(&mask[b..e]));
    }
    if t == 0 {
        return FAULT;
    }
    let l = 2 * p;
    if t == 1 {
        return leaf_share(plan[l]) + leaf_share(plan[l + 1]);
    }
    let u = t - 1;
    let h = s / 2;
    let left = shares_at(mask, plan, u, l, b, h);
    let right = shares_at(mask, plan, u, l + 1, b + h, h);
    left + right
}

// The cycles of one sweep along an allowed plan, from the sum at the root, which has 6 too many. A cut rate-0 or rate-1 root has no cycles; its sum is 4.
fn cycles_in(sum: u64) -> u32
    ensures { result ≡ sum % 65536 - 6 }
{
    let all = sum % CUT;
    if all < 6 { 0 } else { (all - 6) as u32 }
}

// Whether a plan has the given size, bytes of 0 and 1, and byte 0 is 0.
fn is_plan(plan: &[u8], size: usize) -> bool
    requires { 0 < size }
    ensures { result ≡ (eqb (length plan.now) size && (at_most 1 plan.now && eqb (get_or plan.now 0 0) 0)) }
{
    plan.len() == size && at_most(plan, 1) && plan[0] == 0
}

// The number of cut nodes of a plan: its bytes added up. They are summed in 16 bits, which compiles to eight sums at a time.
fn cuts_in(plan: &[u8]) -> u32
    requires { (length plan.now ≤ 2048) × T (at_most 1 plan.now) }
    ensures { result ≡ byte_sum plan.now }
{
    let mut cuts: u16 = 0;
    for byte in plan {
        cuts += *byte as u16;
    }
    cuts as u32
}

// Tests 5 and 6 of a plan, for a mask of 2 ^ t bytes. The decoder shares them.
// Where a path has a second cut, the plan has more cuts than the pass from the root down counts; where one has none, or a cut node is of no kind, it has fewer.
pub fn fault_of(mask: &[u8], plan: &[u8], t: usize) -> Result<u32, Refusal>
    requires { (length mask.now ≡ 2 ^ t) × (t ≤ 10) }
    ensures number { number_of result ≡ fault_number t mask.now plan.now }
    ensures cycles { of_accepted (λ c. c) result ≡ fault_cycles t mask.now plan.now }
{
    if !is_plan(plan, 2 * mask.len()) {
        return Err(Refusal::PlanBytes);
    }
    let sum = shares_at(mask, plan, t, 1, 0, mask.len());
    let cuts = cuts_in(plan);
    if sum / CUT == cuts as u64 {
        Ok(cycles_in(sum))
    } else {
        Err(Refusal::PlanCuts)
    }
}

// Checks a plan for a mask, and answers the cycles of one sweep along it.
pub fn check_plan(mask: &[u8], plan: &[u8]) -> Result<u32, Refusal>
    ensures number { number_of result ≡ check_number mask.now plan.now }
    ensures cycles { of_accepted (λ c. c) result ≡ check_cycles mask.now plan.now }
{
    let masked = mask_tests(mask)?;
    fault_of(mask, plan, masked.stage)
}
