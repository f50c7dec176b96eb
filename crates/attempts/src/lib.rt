// Pass one and the attempts after it, up to the first whose payload is a multiple of the generator.
#![tactic(auto)]

ghost use Rattle.std.specs.Prelude.{◌≡◌, ◌≤◌, T, IfSome, length};
ghost use Rattle.model.specs.Lists.{at_most, over};
ghost use Rattle.model.specs.Encoding.{unfrozen, payload_of};
ghost use Rattle.model.specs.Crc.{is_multiple};
ghost use Rattle.attempts.specs.Steps.{first_found, is_matched, attempts_of, Searchable, Searched, AfterFirst, Flippable, Made};

use crc::is_multiple;
use decisions::read_payload;
use passes::{attempt, first_pass};
use ranking::rank_leaves;

// At most this many attempts.
pub const MAX_ATTEMPTS: usize = 31;

// The payload of a pass's leaf bits, u, to the front of `payload`; answers whether it matches its CRC.
fn payload_matches(mask: &[u8], u: &[u8], payload: &mut [u8], k: usize) -> bool
    requires mask_in_bounds { (length mask.now ≤ length u.now) × T (at_most 1 u.now) }
    requires k_value { (k ≡ unfrozen mask.now) × (8 ≤ k) × (k ≤ length payload.old) }
    ensures value { result ≡ is_multiple (payload_of mask.now u.now) }
    ensures payload_after { payload.new ≡ over (payload_of mask.now u.now) payload.old }
{
    read_payload(mask, u, payload);
    is_multiple(&payload[..k])
}

// The first attempt that matches, by its t. Attempt t flips the t-th of the ranked leaves; `bits` holds those of pass one.
fn first_match(
    mask: &[u8],
    bits: &[u8],
    ranked: &[u16],
    k: usize,
    llrs: &[i16],
    sweeps: usize,
    size: usize,
    stage: usize,
    known: &mut [u8],
    trial: &mut [u8],
    payload: &mut [u8],
    work: &mut [i32],
) -> Option<usize>
    requires { Searchable mask.now bits.now ranked.now llrs.now sweeps size stage k (length ranked.now) (length known.old) (length trial.old) (length payload.old) (length work.old) }
    ensures searched { Searched mask.now llrs.now sweeps size stage k (length ranked.now) payload.old payload.new work.old work.new (first_found (length ranked.now) result) }
    ensures within { IfSome result (λ t. t ≤ length ranked.now) }
{
    for (before, leaf) in ranked.iter().enumerate() {
        attempt(
            mask,
            bits,
            *leaf as usize,
            llrs,
            sweeps,
            size,
            stage,
            known,
            trial,
            work,
        );
        if payload_matches(mask, trial, payload, k) {
            return Some(before + 1);
        }
    }
    None
}

// The attempts after pass one, whose leaf values are still in row 0.
fn later_attempts(
    mask: &[u8],
    bits: &[u8],
    count: usize,
    k: usize,
    llrs: &[i16],
    sweeps: usize,
    size: usize,
    stage: usize,
    known: &mut [u8],
    trial: &mut [u8],
    payload: &mut [u8],
    work: &mut [i32],
) -> Option<usize>
    requires { AfterFirst mask.now bits.now llrs.now sweeps size stage k count (length known.old) (length trial.old) (length payload.old) work.old }
    ensures searched { Searched mask.now llrs.now sweeps size stage k count payload.old payload.new work.old work.new (first_found count result) }
    ensures within { IfSome result (λ t. t ≤ count) }
{
    let mut ranked = [0u16; MAX_ATTEMPTS];
    rank_leaves(mask, work, &mut ranked, count);
    first_match(
        mask,
        bits,
        &ranked[..count],
        k,
        llrs,
        sweeps,
        size,
        stage,
        known,
        trial,
        payload,
        work,
    )
}

// What the attempts answer: a match by its t, which is 0 for pass one, or none, with the number of attempts made.
#[derive(Clone, Copy, Debug, PartialEq, Eq)]
pub enum Attempted {
    Matched(u32),
    Unmatched(u32),
}

// Pass one, and up to `allowed` attempts where it does not match. If none matches, the payload is pass one's again.
pub fn flip_attempts(
    mask: &[u8],
    ones: bool,
    llrs: &[i16],
    sweeps: usize,
    allowed: usize,
    size: usize,
    stage: usize,
    k: usize,
    known: &mut [u8],
    bits: &mut [u8],
    trial: &mut [u8],
    payload: &mut [u8],
    work: &mut [i32],
) -> Attempted
    requires { Flippable mask.now ones llrs.now sweeps allowed size stage k (length known.old) (length bits.old) (length trial.old) (length payload.old) (length work.old) }
    ensures { Made mask.now llrs.now sweeps allowed size stage payload.old payload.new work.old work.new (is_matched result) (attempts_of result) }
{
    first_pass(mask, ones, llrs, sweeps, size, stage, known, bits, work);
    if payload_matches(mask, bits, payload, k) {
        return Attempted::Matched(0);
    }
    let count = allowed.min(k);
    let found = later_attempts(
        mask, bits, count, k, llrs, sweeps, size, stage, known, trial, payload, work,
    );
    match found {
        Some(t) => Attempted::Matched(t as u32),
        None => {
            read_payload(mask, bits, payload);
            Attempted::Unmatched(count as u32)
        }
    }
}
