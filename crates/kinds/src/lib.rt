// The kind of a node, from its part of the mask. Each kind's pattern is a run of frozen positions with unfrozen ones after it.
#![tactic(auto)]

ghost use Rattle.std.specs.Prelude.{◌≡◌, true, cond, ◌+◌, ◌<◌, ◌≤◌, T, length};
ghost use Rattle.std.proofs.Math.Option.{some};
ghost use Rattle.model.specs.Lists.{part};
ghost use Rattle.model.specs.Encoding.{is_unfrozen, frozen_to_zero};
ghost use Rattle.model.specs.Kinds.{rate_0, rate_1, kind_of, is_some, is_kind};
ghost use Rattle.model.specs.Plans.{is_cut, is_rate01, cut_cycles};
ghost use Rattle.kinds.specs.Runs.{kind_named, kind_found, row_of, all_are, long_side, Ends};
ghost use Rattle.kinds.specs.Known.{FixedAs, is_certain, is_zero};

use inputs::UNFROZEN;

// A row of the table.
#[derive(Clone, Copy, Debug, PartialEq, Eq)]
pub enum Kind {
    Rate0,
    Rate1,
    Spc,
    Rep,
    TypeIII,
    TypeI,
    TypeII,
    TypeIV,
}

// The number of kinds.
pub const KINDS: usize = 8;

// What the table says of a kind, or of none: its place in the order, its own cycles, and whether its message is fixed.
#[derive(Clone, Copy)]
pub struct Row {
    pub place: usize,
    pub cycles: u32,
    pub fixed: bool,
}

// A row by its columns.
fn columns(place: usize, cycles: u32, fixed: bool) -> Row
    ensures place { result.place ≡ place }
    ensures cycles { result.cycles ≡ cycles }
    ensures fixed { result.fixed ≡ fixed }
{
    Row {
        place,
        cycles,
        fixed,
    }
}

// The table, a row a kind; the place of none is past the table.
pub fn table_row(kind: Option<Kind>) -> Row
    ensures place { result.place ≡ row_of (kind_found kind) }
    ensures cycles { result.cycles ≡ cut_cycles (kind_found kind) }
    ensures fixed { result.fixed ≡ is_rate01 (kind_found kind) }
{
    match kind {
        Some(Kind::Rate0) => columns(0, 0, true),
        Some(Kind::Rate1) => columns(1, 0, true),
        Some(Kind::Spc) => columns(2, 2, false),
        Some(Kind::Rep) => columns(3, 2, false),
        Some(Kind::TypeIII) => columns(4, 2, false),
        Some(Kind::TypeI) => columns(5, 2, false),
        Some(Kind::TypeII) => columns(6, 4, false),
        Some(Kind::TypeIV) => columns(7, 4, false),
        None => columns(KINDS, 0, false),
    }
}

// 1 for a frozen position, 0 for an unfrozen one.
fn frozen_byte(byte: u8) -> u8
    ensures { result ≡ cond (is_unfrozen byte) 0 1 }
{
    if byte == UNFROZEN { 0 } else { 1 }
}

// Whether the positions of a part are all frozen, for 1, or all unfrozen, for 0.
fn all_are(part: &[u8], byte: u8) -> bool
    ensures { result ≡ all_are byte (frozen_to_zero part.now) }
{
    let mut alike = true;
    for position in part {
        alike &= frozen_byte(*position) == byte;
    }
    alike
}

// Whether the longer of two sides keeps to a run of f frozen positions with unfrozen ones after it: those positions are frozen, or these are not. The
// shorter side is known from the ends. The position next to the middle is looked at first: of the long side it is the one that most often breaks the run.
fn is_run(mask: &[u8], f: usize) -> bool
    requires { (0 < length mask.now) × (f ≤ length mask.now) }
    ensures { result ≡ long_side f mask.now }
{
    let m = mask.len();
    if f + f <= m {
        if mask[m / 2] != UNFROZEN {
            return false;
        }
        all_are(&mask[f..], 0)
    } else {
        if mask[(m - 1) / 2] == UNFROZEN {
            return false;
        }
        all_are(&mask[..f], 1)
    }
}

// The one kind that a node may be of, and the length of the run of frozen positions in that kind's pattern.
#[derive(Clone, Copy)]
struct Candidate(Kind, usize);

// The candidate by the bytes at both ends of a node's part of the mask. Where two kinds' patterns are the same, the upper one is tested first.
fn candidate_at_ends(mask: &[u8]) -> Candidate
    requires { 0 < length mask.now }
    ensures { Ends mask.now (some (kind_named result.0)) result.1 }
{
    let m = mask.len();
    if mask[m - 1] != UNFROZEN {
        return Candidate(Kind::Rate0, m);
    }
    if mask[0] == UNFROZEN {
        return Candidate(Kind::Rate1, 0);
    }
    if mask[1] == UNFROZEN {
        return Candidate(Kind::Spc, 1);
    }
    if mask[m - 2] != UNFROZEN {
        return Candidate(Kind::Rep, m - 1);
    }
    if mask[2] == UNFROZEN {
        return Candidate(Kind::TypeIII, 2);
    }
    if mask[m - 3] != UNFROZEN {
        return Candidate(Kind::TypeI, m - 2);
    }
    if m < 8 {
        return Candidate(Kind::TypeIII, 2);
    }
    if mask[m - 4] != UNFROZEN {
        Candidate(Kind::TypeII, m - 3)
    } else {
        Candidate(Kind::TypeIV, 3)
    }
}

// The kind of a node: the candidate's, if the positions between the ends keep to its pattern too.
pub fn kind_of(mask: &[u8]) -> Option<Kind>
    ensures { kind_found result ≡ kind_of (length mask.now) mask.now }
{
    if mask.is_empty() {
        return None;
    }
    let Candidate(kind, run) = candidate_at_ends(mask);
    if is_run(mask, run) { Some(kind) } else { None }
}

// The kind of a node that is known to be of some kind, as a cut node of an allowed plan is: the bytes at its ends decide.
pub fn cut_kind(mask: &[u8]) -> Kind
    requires { T (is_some (kind_of (length mask.now) mask.now)) }
    ensures { some (kind_named result) ≡ kind_of (length mask.now) mask.now }
{
    let Candidate(kind, _) = candidate_at_ends(mask);
    kind
}

// Whether a node that is known to be of some kind is a rate-0 node: its last position decides.
fn is_rate_zero(mask: &[u8]) -> bool
    requires { T (is_some (kind_of (length mask.now) mask.now)) }
    ensures { result ≡ is_kind rate_0 (kind_of (length mask.now) mask.now) }
{
    mask[mask.len() - 1] != UNFROZEN
}

// Whether a node that is known to be of some kind is a rate-1 node: its first position decides.
fn is_rate_one(mask: &[u8]) -> bool
    requires { T (is_some (kind_of (length mask.now) mask.now)) }
    ensures { result ≡ is_kind rate_1 (kind_of (length mask.now) mask.now) }
{
    mask[0] == UNFROZEN
}

// A message that is known whatever the node is handed, a mask byte 2 being read as 1: ∞ everywhere, or 0 everywhere.
#[derive(Clone, Copy, Debug, PartialEq, Eq)]
pub enum FixedMessage {
    Certain,
    Zero,
}

// What is known of a node's message: a cut rate-0 node's is ∞, a cut rate-1 node's is 0. Node q has s positions from b on.
pub fn fixed_message(plan: &[u8], mask: &[u8], q: usize, b: usize, s: usize) -> Option<FixedMessage>
    requires q_in_bounds { (q < length plan.now) × (b + s ≤ length mask.now) }
    requires t { is_cut plan.now q ≡ true → T (is_some (kind_of s (part mask.now b s))) }
    ensures { FixedAs plan.now s q (part mask.now b s) (is_certain result) (is_zero result) }
{
    if plan[q] != 1 {
        return None;
    }
    let e = b + s;
    if is_rate_zero(&mask[b..e]) {
        Some(FixedMessage::Certain)
    } else if is_rate_one(&mask[b..e]) {
        Some(FixedMessage::Zero)
    } else {
        None
    }
}
