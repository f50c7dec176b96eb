// Masks that are made from N and K: by row weight, and for a wanted distance.
#![tactic(auto)]

ghost use Rattle.std.specs.Prelude.{◌≡◌, cond, ℕ, ◌+◌, ◌^◌, ◌<◌, ◌≤◌, length};
ghost use Rattle.std.specs.Int.Count.{ones};
ghost use Rattle.model.specs.Lists.{tabulate, bit, over};
ghost use Rattle.model.specs.Masks.{weight, matrix_row, ahead, weight_byte, weight_number, weight_mask_after};
ghost use Rattle.model.specs.Distance.{distance_number, distance_found, distance_mask_after};
ghost use Rattle.inputs.specs.Numbers.{number_of, of_accepted};

use inputs::{Refusal, UNFROZEN, exponent_of};

mod table;

// The number of ones of row i of the polar matrix: its exponent is the count of ones of the index, by which the table is ordered.
pub fn row_weight(i: usize) -> usize
    requires { i < 1024 }
    ensures value { result ≡ 2 ^ ones i }
    ensures by_index { (n : ℕ) → i < 2 ^ n → result ≡ weight (matrix_row n i) }
{
    1 << i.count_ones()
}

// The mask byte of a position that is unfrozen or not.
fn mask_byte(unfrozen: bool) -> u8
    ensures { result ≡ cond unfrozen 0 1 }
{
    if unfrozen { UNFROZEN } else { 1 }
}

// A mask byte for each of the first `size` positions, in rank order: the first k are unfrozen. Entries of the table that are
// `size` or more are skipped.
fn choose(size: usize, k: usize, mask: &mut [u8])
    requires { (size ≤ 1024) × (size ≤ length mask.old) }
    ensures { mask.new ≡ over (tabulate size (weight_byte size k)) mask.old }
{
    let mut seen: usize = 0;
    for p in table::ranks() {
        let p = p as usize;
        if p < size {
            mask[p] = mask_byte(seen < k);
            seen += 1;
        }
    }
}

// Tests 1, 16 and 11.
#[tactic(auto, unfolding(model::specs::Masks::weight_number, model::specs::Refusals::refusal))]
fn weight_tests(size: usize, k: usize, room: usize) -> Result<(), Refusal>
    ensures { number_of result ≡ weight_number size k room }
{
    if exponent_of(size) == 0 {
        return Err(Refusal::Length);
    }
    if k > size {
        return Err(Refusal::UnfrozenCount);
    }
    if room < size {
        return Err(Refusal::ShortOutput);
    }
    Ok(())
}

// The mask of N and K by row weight, into the first N bytes of `mask`.
pub fn mask_by_weight(size: usize, k: usize, mask: &mut [u8]) -> Result<(), Refusal>
    ensures value { number_of result ≡ weight_number size k (length mask.old) }
    ensures mask_after { mask.new ≡ weight_mask_after size k mask.old }
{
    weight_tests(size, k, mask.len())?;
    choose(size, k, mask);
    Ok(())
}

// ---- a wanted distance

// Tests 1, 16, 17 and 11.
#[tactic(auto, unfolding(model::specs::Distance::distance_number, model::specs::Refusals::refusal))]
fn distance_tests(size: usize, k: usize, d: usize, room: usize) -> Result<(), Refusal>
    ensures { number_of result ≡ distance_number size k d room }
{
    if exponent_of(size) == 0 {
        return Err(Refusal::Length);
    }
    if size < k {
        return Err(Refusal::UnfrozenCount);
    }
    if k == 0 || d == 0 {
        return Err(Refusal::NothingWanted);
    }
    if room < size {
        return Err(Refusal::ShortOutput);
    }
    Ok(())
}

// The unfrozen position that ranks last: k - 1 of the positions below `size` rank before it.
fn last_ranked(size: usize, k: usize) -> usize
    requires { (size ≤ 1024) × (1 ≤ k) × (k ≤ size) }
    ensures { (result < size) × (ahead size result + 1 ≡ k) }
{
    let mut passed = 0;
    for p in table::ranks() {
        let p = p as usize;
        if p < size {
            passed += 1;
            if passed == k {
                return p;
            }
        }
    }
    unreachable!()
}

// The mask of N and K by row weight where its every non-zero word has d ones or more, into the first N bytes of `mask`, and whether
// it was written; otherwise no mask of that N and K has the property. No non-zero word of the mask has fewer ones than the row of
// the unfrozen position that ranks last.
pub fn mask_for_distance(size: usize, k: usize, d: usize, mask: &mut [u8]) -> Result<bool, Refusal>
    ensures number { number_of result ≡ distance_number size k d (length mask.old) }
    ensures found { of_accepted bit result ≡ distance_found size k d (length mask.old) }
    ensures mask_after { mask.new ≡ distance_mask_after size k d mask.old }
{
    distance_tests(size, k, d, mask.len())?;
    let found = d <= row_weight(last_ranked(size, k));
    if found {
        choose(size, k, mask);
    }
    Ok(found)
}
