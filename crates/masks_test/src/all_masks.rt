// All masks of an N to 16, each with the words of all its payloads. The least weight of a mask's non-zero words is compared with the least
// row weight of its unfrozen positions, and the largest of these least weights for each K with the answers of the call.
// A set of positions below N is a number: its digit i in base two is 1 if position i is in the set. A mask is the set of its unfrozen
// positions, a payload the set of the positions that it sets to 1, a word or a row the set of its ones. There are `sets` of them, 2 ^ N.
ghost use Rattle.std.specs.Prelude.{◌<◌, ◌≤◌};

use crate::distances::{right_mask, right_none};
use std::io;
use test_tools::numbers::{least, length_of, minus, one_if};
use test_tools::report::{end_line, print_values};
use test_tools::tally::{Count, sum};
use test_tools::texts::value_at;

// ---- sets

// A number for each set.
type Numbers = [usize; 65536];

fn holds(set: usize, i: usize) -> bool
    requires { i ≤ 15 }
{
    (set >> i) % 2 == 1
}

// A set without a position that it holds.
fn without(set: usize, i: usize) -> usize
    requires { i ≤ 15 }
    ensures { result ≤ set }
{
    minus(set, 1usize << i)
}

// The lowest position of a set that is not empty.
fn lowest(set: usize) -> usize
    ensures { result ≤ 15 }
{
    (usize::trailing_zeros(set) % 16) as usize
}

fn ones(set: usize) -> usize {
    (usize::count_ones(set) % 32) as usize
}

// ---- words

// Row i of the polar matrix: a 1 in column j where each 1 among the digits of j is one of i too. It is the same for every N above i.
fn row(i: usize) -> usize {
    let mut columns = 0;
    for j in 0..16 {
        if j & i == j {
            columns |= 1usize << j;
        }
    }
    columns
}

// The word of each payload: the word of the payload without its lowest position, plus the row of that position.
fn all_words(sets: usize) -> Numbers
    requires { sets ≤ 65536 }
{
    let mut words = [0usize; 65536];
    for s in 1..sets {
        let i = lowest(s);
        let rest = without(s, i);
        words[s] = words[rest] ^ row(i);
    }
    words
}

// ---- least weights

// More than any word of 16 bits has; the least weight where there are no words.
const NO_WEIGHT: usize = 17;

// The least weight of a mask's non-zero words: of the word with all its positions set, and of the words of the mask without one of them.
fn least_weight(mask: usize, words: &Numbers, leasts: &Numbers) -> usize
    requires { mask < 65536 }
{
    let mut weight = ones(words[mask]);
    for i in 0..16 {
        if holds(mask, i) {
            let rest = without(mask, i);
            weight = weight.min(leasts[rest]);
        }
    }
    weight
}

// The least weight of each mask.
fn all_leasts(sets: usize) -> Numbers
    requires { sets ≤ 65536 }
{
    let words = all_words(sets);
    let mut leasts = [NO_WEIGHT; 65536];
    for mask in 1..sets {
        let weight = least_weight(mask, &words, &leasts);
        leasts[mask] = weight;
    }
    leasts
}

// ---- against the row weights

// The least of 2 to the power of the ones of i over the unfrozen positions i.
fn least_row(mask: usize) -> usize {
    let mut weight = NO_WEIGHT;
    for i in 0..16 {
        if holds(mask, i) {
            weight = weight.min(length_of(ones(i)));
        }
    }
    weight
}

// Whether a mask's least weight is its least row weight. Prints the mask if not.
fn right_least(rt: &impl Print, n: usize, mask: usize, weight: usize) -> io::Result<bool> {
    let expected = least_row(mask);
    if weight != expected {
        print_values(
            rt,
            b"mismatch: N |, mask |: least weight |, least row weight ",
            [n, mask, weight, expected, 0, 0, 0, 0],
        )?;
        end_line(rt)?;
    }
    Ok(weight == expected)
}

// A case for each mask.
fn run_masks(rt: &impl Print, n: usize, sets: usize, leasts: &Numbers) -> io::Result<Count>
    requires { sets ≤ 65536 }
{
    let masks = minus(sets, 1);
    let mut right = 0;
    for mask in 1..sets {
        right += one_if(right_least(rt, n, mask, leasts[mask])?);
    }
    Ok(Count {
        cases: masks,
        right,
        calls: masks,
    })
}

// ---- against the call

// The largest least weight of the masks with K unfrozen positions.
fn largest(k: usize, sets: usize, leasts: &Numbers) -> usize
    requires { sets ≤ 65536 }
{
    leasts[..sets]
        .iter()
        .enumerate()
        .skip(1)
        .filter(|(mask, _)| ones(*mask) == k)
        .map(|(_, weight)| *weight)
        .max()
        .unwrap_or(0)
}

// Two calls for each K: a mask is there for the largest least weight, and none for one more.
fn run_largest(rt: &impl Print, n: usize, sets: usize, leasts: &Numbers) -> io::Result<Count>
    requires { (n ≤ 16) × (sets ≤ 65536) }
{
    let mut right = 0;
    for k in 1..=n {
        let d = largest(k, sets, leasts);
        let more = d.wrapping_add(1);
        right += one_if(right_mask(rt, n, k, d)?) + one_if(right_none(rt, n, k, more)?);
    }
    Ok(Count {
        cases: 0,
        right,
        calls: 2 * n,
    })
}

// A line is all N.
pub fn run_all(rt: &impl Print, line: &[u8]) -> io::Result<Count> {
    let n = least(value_at(line, 1), 16);
    let sets = least(1usize << n, 65536);
    let leasts = all_leasts(sets);
    let masks = run_masks(rt, n, sets, &leasts)?;
    Ok(sum(masks, run_largest(rt, n, sets, &leasts)?))
}
