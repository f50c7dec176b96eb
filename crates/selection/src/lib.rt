// The value at a place in the falling order of values from 0 to 1, and the positions of equal ones.
#![tactic(auto)]

ghost use Rattle.std.specs.Prelude.{◌≡◌, true, ◌<◌, ◌≤◌, length, take};
ghost use Rattle.std.specs.Float.Ieee.{eq};
ghost use Rattle.model.specs.Erasure.{Probability};
ghost use Rattle.selection.specs.Places.{tally, beyond, Each, value_at, InFront, AtPlace};

// Whether x is above p, or below it.
fn is_beyond(x: f64, p: f64, above: bool) -> bool
    ensures { result ≡ beyond above p x }
{
    if above { p < x } else { x < p }
}

// How many of the first `len` values are above p, or below it. Each test adds 0 or 1, with no branch; `filter` and `count`, tried,
// take a mask a quarter longer.
pub fn count_beyond(values: &[f64], len: usize, p: f64, above: bool) -> usize
    requires { len ≤ length values.now }
    ensures { result ≡ tally (beyond above p) (take len values.now) }
{
    let mut found = 0;
    for x in &values[..len] {
        found += is_beyond(*x, p, above) as usize;
    }
    found
}

// Moves those of the first `len` values that are above p, or below it, to the front, in their order, and answers how many they are.
fn keep_beyond(values: &mut [f64], len: usize, p: f64, above: bool) -> usize
    requires { len ≤ length values.old }
    ensures { InFront above p len values.old values.new result }
{
    let mut moved = 0;
    for j in 0..len {
        let x = values[j];
        values[moved] = x;
        moved += is_beyond(x, p, above) as usize;
    }
    moved
}

// The value at place m, counted from 0, in falling order of the first `size` values. Of those the ones above the value in the middle
// are kept, or the ones below it, by the side on which the place lies, and so on; the others are lost. The loop counts no index: it
// goes on with fewer values each turn.
pub fn select(values: &mut [f64], size: usize, m: usize) -> f64
    requires { (m < size) × (size ≤ length values.old) × Each Probability (take size values.old) }
    ensures { AtPlace (take size values.old) m result }
{
    let mut len = size;
    let mut left = m;
    loop {
        let p = values[len / 2];
        let above = count_beyond(values, len, p, true);
        let level = len - count_beyond(values, len, p, false);
        if left < above {
            len = keep_beyond(values, len, p, true);
        } else if left < level {
            return p;
        } else {
            left -= level;
            len = keep_beyond(values, len, p, false);
        }
    }
}

// The position of the value t that has `before` positions of that value before it.
pub fn position_of(values: &[f64], size: usize, t: f64, before: usize) -> usize
    requires { (size ≤ length values.now) × (before < tally (λ x. eq x t) (take size values.now)) }
    ensures upper_bound { (result < size) × (tally (λ x. eq x t) (take result values.now) ≡ before) }
    ensures t_value { eq (value_at values.now result) t ≡ true }
{
    let mut seen = 0;
    for (i, x) in values[..size].iter().enumerate() {
        if *x == t {
            if seen == before {
                return i;
            }
            seen += 1;
        }
    }
    unreachable!()
}
