// What is read off the soft values: hard bits, payload, frozen check and the number of undecided bits.
#![tactic(auto)]

ghost use Rattle.std.specs.Prelude.{◌≡◌, cond, not, ℕ, ◌≤◌, ◌<◌, T, eqb, neg_ℤ, length, get_or};
ghost use Rattle.model.specs.Lists.{tabulate, at_most, bit, over};
ghost use Rattle.model.specs.Encoding.{max_mask, is_unfrozen, is_known_one, unfrozen, payload_of, frozen_match};
ghost use Rattle.model.specs.Encoding as encoding;
ghost use Rattle.model.specs.Scan.{undecided_in};
ghost use Rattle.transform.specs.Steps.{AllBits};
ghost use Rattle.decisions.specs.Bits.{decision, negative_at, word_decisions, Decidable, WordRoom, WordRead, Readable, ReadOff};

use inputs::{UNFROZEN, larger};
use transform::strides;
use words::widened;

// The byte of an undecided bit, and of each payload bit of a word that has one.
const UNDECIDED: u8 = 2;

// The LLR negated. LLR plus soft has the sign of the soft value against this, so no sum is formed.
fn opposite(llr: i16) -> i32
    ensures { result ≡ neg_ℤ llr }
{
    -widened(llr)
}

// 1 where LLR plus soft is negative, otherwise 0.
fn negative_bit(llr: i16, soft: i32) -> u8
    ensures { result ≡ bit (eqb (decision llr soft) 1) }
{
    (soft < opposite(llr)) as u8
}

// 1 for a tie, where LLR plus soft is 0, otherwise 0.
fn tie_bit(llr: i16, soft: i32) -> u32
    ensures { result ≡ bit (eqb (decision llr soft) 2) }
{
    (soft == opposite(llr)) as u32
}

// The bits by the signs of LLR plus soft, where there is no tie; answers the number of ties. Most words have none, and so
// ties are only counted here: this costs the loop less than a choice between three bits.
fn decide_signs(llrs: &[i16], soft: &[i32], hard: &mut [u8]) -> u32
    requires { Decidable llrs.now soft.now (length hard.old) (length hard.old) }
    ensures value { result ≡ undecided_in (word_decisions llrs.now soft.now (length hard.old)) }
    ensures hard_after { hard.new ≡ tabulate (length hard.old) (negative_at llrs.now soft.now) }
{
    let mut ties: u32 = 0;
    for k in 0..hard.len() {
        let llr = llrs[k];
        let value = soft[k];
        hard[k] = negative_bit(llr, value);
        ties += tie_bit(llr, value);
    }
    ties
}

// The hard bit, by the sign of LLR plus soft.
fn hard_bit(llr: i16, soft: i32) -> u8
    ensures { result ≡ decision llr soft }
{
    if soft == opposite(llr) {
        UNDECIDED
    } else {
        negative_bit(llr, soft)
    }
}

// The hard bits, by the signs of LLR plus soft.
fn decide(llrs: &[i16], soft: &[i32], hard: &mut [u8])
    requires { Decidable llrs.now soft.now (length hard.old) (length hard.old) }
    ensures { hard.new ≡ word_decisions llrs.now soft.now (length hard.old) }
{
    for k in 0..hard.len() {
        hard[k] = hard_bit(llrs[k], soft[k]);
    }
}

// The unfrozen bits of u, to the front of payload.
pub fn read_payload(mask: &[u8], u: &[u8], payload: &mut [u8])
    requires { (length mask.now ≤ length u.now) × (unfrozen mask.now ≤ length payload.old) }
    ensures { payload.new ≡ over (payload_of mask.now u.now) payload.old }
{
    let mut j = 0;
    for (i, byte) in mask.iter().enumerate() {
        if *byte == UNFROZEN {
            payload[j] = u[i];
            j += 1;
        }
    }
}

// 1 for a bit of u that is not the value its position is frozen to, otherwise 0: byte and bit are 1 and 1, or 2 and 0.
fn wrong_bit(byte: u8, b: u8) -> u8
    requires { (byte ≤ max_mask) × (b ≤ 1) }
    ensures { result ≡ cond (is_unfrozen byte) 0 (bit (not (eqb b (bit (is_known_one byte))))) }
{
    (byte + b == 2) as u8
}

// 1 exactly if the frozen bits of u are the values that their positions are frozen to.
fn frozen_check(mask: &[u8], u: &[u8]) -> u8
    requires mask_in_bounds { (length mask.now ≤ length u.now) × T (at_most max_mask mask.now) }
    requires by_index { (k : ℕ) → k < length mask.now → get_or u.now k 0 ≤ 1 }
    ensures { result ≡ bit (frozen_match mask.now u.now) }
{
    let mut most: u8 = 0;
    for (i, byte) in mask.iter().enumerate() {
        most = larger(most, wrong_bit(*byte, u[i]));
    }
    (most == 0) as u8
}

// The payload of a word of N bits, all decided; answers the frozen check. The decoded u, its transform, takes the word's
// place. Here and below `stage` is the exponent of N.
fn read_word(mask: &[u8], payload: &mut [u8], u: &mut [u8], stage: usize) -> u8
    requires { WordRoom mask.now stage (length u.old) (length u.old) (length payload.old) × AllBits u.old }
    ensures word_read { WordRead mask.now stage u.old payload.old payload.new result }
    ensures u_after { u.new ≡ encoding.transform stage u.old }
{
    strides(u, stage);
    read_payload(mask, u, payload);
    frozen_check(mask, u)
}

// The same of a hard word that stays as it is, through a buffer for the decoded u.
fn read_through(mask: &[u8], hard: &[u8], payload: &mut [u8], u: &mut [u8], stage: usize) -> u8
    requires word_room { WordRoom mask.now stage (length hard.now) (length u.old) (length payload.old) }
    requires all_bits { (length u.old ≡ length hard.now) × AllBits hard.now }
    ensures { WordRead mask.now stage hard.now payload.old payload.new result }
{
    u.copy_from_slice(hard);
    read_word(mask, payload, u, stage)
}

// The same with a buffer of its own. A word of up to 64 bits has a short one, since clearing the long one would cost it
// more than the rest.
fn read_copied(mask: &[u8], hard: &[u8], payload: &mut [u8], stage: usize) -> u8
    requires word_room { WordRoom mask.now stage (length hard.now) (length hard.now) (length payload.old) }
    requires all_bits { AllBits hard.now }
    ensures { WordRead mask.now stage hard.now payload.old payload.new result }
{
    let size = hard.len();
    if size <= 64 {
        let mut short = [0u8; 64];
        return read_through(mask, hard, payload, &mut short[..size], stage);
    }
    let mut long = [0u8; 1024];
    read_through(mask, hard, payload, &mut long[..size], stage)
}

// The payload of a hard word of N bits that are all decided; answers the frozen check. A word of up to 16 bits is transformed
// where it stands and transformed back, since the transform undoes itself: that costs it less than a copy.
fn read_decided(mask: &[u8], hard: &mut [u8], payload: &mut [u8], stage: usize) -> u8
    requires { WordRoom mask.now stage (length hard.old) (length hard.old) (length payload.old) × AllBits hard.old }
    ensures word_read { WordRead mask.now stage hard.old payload.old payload.new result }
    ensures hard_unchanged { hard.new ≡ hard.old }
{
    if 16 < hard.len() {
        return read_copied(mask, hard, payload, stage);
    }
    let check = read_word(mask, payload, hard, stage);
    strides(hard, stage);
    check
}

// The frozen check and the number of undecided bits.
#[derive(Clone, Copy)]
pub struct ReadBits {
    pub check: u8,
    pub undecided: u16,
}

// Hard bits and payload from the soft values' words; K is the number of payload bits.
pub fn read_off(
    mask: &[u8],
    llrs: &[i16],
    soft: &[i32],
    hard: &mut [u8],
    payload: &mut [u8],
    size: usize,
    stage: usize,
    k: usize,
) -> ReadBits
    requires { Readable mask.now llrs.now soft.now stage size k (length hard.old) (length payload.old) }
    ensures { ReadOff mask.now stage (word_decisions llrs.now soft.now size) hard.old hard.new payload.old payload.new result.check result.undecided }
{
    let hard = &mut hard[..size];
    let ties = decide_signs(llrs, soft, hard);
    if ties == 0 {
        let check = read_decided(mask, hard, payload, stage);
        return ReadBits {
            check,
            undecided: 0,
        };
    }
    decide(llrs, soft, hard);
    payload[..k].fill(UNDECIDED);
    ReadBits {
        check: 0,
        undecided: ties as u16,
    }
}
