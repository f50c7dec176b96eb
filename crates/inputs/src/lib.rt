// What calls are refused for, and tests of inputs that several calls share.
#![tactic(auto)]

ghost use Rattle.std.specs.Prelude.{◌≡◌, cond, ℕ, ◌&&◌, ◌≤◌, max, leb, length};
ghost use Rattle.model.specs.Lists.{at_most, bit};
ghost use Rattle.model.specs.Encoding.{unfrozen, is_unfrozen, is_known_one};
ghost use Rattle.model.specs.Refusals.{exponent, max_sweeps, is_llr};
ghost use Rattle.inputs.specs.Numbers.{refusal_number};
ghost use Rattle.inputs.specs.Tests.{MaskTests};

// The mask byte of an unfrozen position; every other byte is a frozen one's.
pub const UNFROZEN: u8 = 0;

// The mask byte of a position that is frozen to 1.
const FROZEN_TO_ONE: u8 = 2;

// The largest mask byte.
const MAX_MASK: u8 = 2;

// Sweeps run from 1 to this.
const MAX_SWEEPS: usize = 8;

// An LLR is within ± this.
const MAX_LLR: i32 = 32767;

// ---- refusals

// What a call is refused for.
#[derive(Clone, Copy, Debug, PartialEq, Eq)]
pub enum Refusal {
    // N is no power of two from 2 to 1024.
    Length,
    // A mask byte is above 2.
    MaskByte,
    // LLRs, marks or payload bits are not as many as the mask or the samples ask for.
    Count,
    // Sweeps are not 1 to 8.
    Sweeps,
    // The plan has another length than 2N, a byte above 1, or its byte 0 is 1.
    PlanBytes,
    // A path through the tree has no cut or two, or a cut node is of no kind.
    PlanCuts,
    // An LLR is -32768.
    Llr,
    // The noise variance is not finite or not above 0.
    Variance,
    // A mark is above 2, or a sent sample is not finite.
    Sample,
    // A payload byte is above 1.
    PayloadByte,
    // An output buffer is too short.
    ShortOutput,
    // The workspace is too short.
    ShortWorkspace,
    // A line of the line program does not keep to its format.
    Line,
    // A capture's trailer or length does not fit.
    Capture,
    // A frame's drain number is above 63.
    Drain,
    // K is above N.
    UnfrozenCount,
    // K or the wanted distance is 0.
    NothingWanted,
    // K is too small for a CRC.
    ShortPayload,
    // More than 31 attempts are asked for.
    Attempts,
    // An erasure rate is not between 0 and 1.
    ErasureRate,
    // The order of places is neither 1 nor 2.
    Order,
    // N of a square frame is above 32.
    FrameSize,
    // Half-iterations are not 1 to 16.
    HalfIterations,
}

impl Refusal {
    // The number by which a C host and the programs' lines know it.
    pub fn number(self) -> u32
        ensures { result ≡ refusal_number self }
    {
        match self {
            Refusal::Length => 1,
            Refusal::MaskByte => 2,
            Refusal::Count => 3,
            Refusal::Sweeps => 4,
            Refusal::PlanBytes => 5,
            Refusal::PlanCuts => 6,
            Refusal::Llr => 7,
            Refusal::Variance => 8,
            Refusal::Sample => 9,
            Refusal::PayloadByte => 10,
            Refusal::ShortOutput => 11,
            Refusal::ShortWorkspace => 12,
            Refusal::Line => 13,
            Refusal::Capture => 14,
            Refusal::Drain => 15,
            Refusal::UnfrozenCount => 16,
            Refusal::NothingWanted => 17,
            Refusal::ShortPayload => 18,
            Refusal::Attempts => 19,
            Refusal::ErasureRate => 20,
            Refusal::Order => 21,
            Refusal::FrameSize => 22,
            Refusal::HalfIterations => 23,
        }
    }
}

// The number of a test that is not passed, and otherwise that of the tests after it. It stays for callers who know refusals by their numbers; the
// calls of this repository answer a `Refusal`.
pub fn tested(passed: bool, after: u32, number: u32) -> u32
    ensures { result ≡ cond passed after number }
{
    if passed { after } else { number }
}

// ---- masks

// The value that a position is frozen to; 0 for an unfrozen one.
pub fn known_bit(byte: u8) -> u8
    ensures { result ≡ bit (is_known_one byte) }
{
    (byte == FROZEN_TO_ONE) as u8
}

// The exponent of a power of two from 2 to 1024, and 0 for any other number.
pub fn exponent_of(size: usize) -> usize
    ensures { result ≡ exponent size }
{
    match size {
        2 => 1,
        4 => 2,
        8 => 3,
        16 => 4,
        32 => 5,
        64 => 6,
        128 => 7,
        256 => 8,
        512 => 9,
        1024 => 10,
        _ => 0,
    }
}

// The larger of two bytes.
pub fn larger(a: u8, b: u8) -> u8
    ensures { result ≡ max a b }
{
    a.max(b)
}

// The largest byte: what no byte is above, it is not above either.
fn largest(bytes: &[u8]) -> u8
    ensures { (top : ℕ) → leb result top ≡ at_most top bytes.now }
{
    let mut most: u8 = 0;
    for b in bytes {
        most = larger(most, *b);
    }
    most
}

// Whether no byte is above top.
pub fn at_most(bytes: &[u8], top: u8) -> bool
    ensures { result ≡ at_most top bytes.now }
{
    largest(bytes) <= top
}

// 1 for an unfrozen position, 0 for a frozen one.
fn unfrozen_bit(byte: u8) -> u16
    ensures { result ≡ bit (is_unfrozen byte) }
{
    if byte == UNFROZEN { 1 } else { 0 }
}

// K, the number of unfrozen positions of a mask. It is summed in 16 bits, which compiles to eight sums at a time.
pub fn unfrozen_of(mask: &[u8]) -> usize
    requires { length mask.now ≤ 1024 }
    ensures { result ≡ unfrozen mask.now }
{
    let mut k: u16 = 0;
    for byte in mask {
        k += unfrozen_bit(*byte);
    }
    k as usize
}

// What tests 1 and 2 of a mask find: the exponent of N, and whether a position is frozen to 1.
#[derive(Clone, Copy)]
pub struct Masked {
    pub stage: usize,
    pub ones: bool,
}

// Tests 1 and 2, which all calls with a mask begin with.
pub fn mask_tests(mask: &[u8]) -> Result<Masked, Refusal>
    ensures { MaskTests mask.now result }
{
    let stage = exponent_of(mask.len());
    if stage == 0 {
        return Err(Refusal::Length);
    }
    let most = largest(mask);
    if MAX_MASK < most {
        return Err(Refusal::MaskByte);
    }
    let ones = most == FROZEN_TO_ONE;
    Ok(Masked { stage, ones })
}

// Whether the number of sweeps is allowed.
pub fn sweeps_fit(sweeps: usize) -> bool
    ensures { result ≡ (leb 1 sweeps && leb sweeps max_sweeps) }
{
    1 <= sweeps && sweeps <= MAX_SWEEPS
}

// Whether a number is within an LLR's range.
pub fn is_llr(z: i32) -> bool
    ensures { result ≡ is_llr z }
{
    -MAX_LLR <= z && z <= MAX_LLR
}
