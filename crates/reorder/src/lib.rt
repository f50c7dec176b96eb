// Lists in the order sent: place i has the element of the place whose bits are those of i backwards.
// Words are gathered by eights; LLRs are spread first and then moved by eights, which was measured to be faster for them from N = 256 on.
#![tactic(auto)]

ghost use Rattle.std.specs.Prelude.{◌≡◌, ◌+◌, ◌-◌, ◌*◌, ◌^◌, ◌<◌, ◌≤◌, pos, length, get_or};
ghost use Rattle.model.specs.Lists.{tabulate, over};
ghost use Rattle.model.specs.Sent.{backwards, reordered};
ghost use Rattle.words.specs.Words.{write};
ghost use Rattle.reorder.specs.Places.{eight_at, eight_from, Spread, Sized};

pub mod table;

// The number whose stage - 3 bits are those of p backwards.
pub fn place(table: &[u8; 256], p: usize, stage: usize) -> usize
    requires { (3 ≤ stage) × (stage ≤ 10) × (p < 2 ^ (stage - 3)) × (table.now ≡ tabulate 256 (backwards 8)) }
    ensures { (result ≡ backwards (stage - 3) p) × (result < 2 ^ (stage - 3)) }
{
    let entry = table[p] as usize;
    entry >> (11 - stage)
}

// Four elements reordered.
fn four<T: Copy>(from: &[T], to: &mut [T])
    requires { (4 ≤ length from.now) × (4 ≤ length to.old) }
    ensures { (d : T) → to.new ≡ over (reordered d 2 from.now) to.old }
{
    to[0] = from[0];
    to[1] = from[2];
    to[2] = from[1];
    to[3] = from[3];
}

// to[at], .., to[at + 7] = the elements of `from` at r, s on, t on, s and t on, and the four that stand o on from these.
// Stores side by side, after all eight are known, compile to few.
fn move_eight<T: Copy>(from: &[T], r: usize, s: usize, t: usize, o: usize, to: &mut [T], at: usize)
    requires { (r + s + t + o < length from.now) × (at + 8 ≤ length to.old) }
    ensures { (d : T) → to.new ≡ write to.old at 8 (λ j. get_or from.now (eight_at r s t o j) d) }
{
    let a = from[r];
    let b = from[r + s];
    let c = from[r + t];
    let d = from[r + s + t];
    let e = from[r + o];
    let f = from[r + s + o];
    let g = from[r + t + o];
    let h = from[r + s + t + o];
    to[at] = a;
    to[at + 1] = b;
    to[at + 2] = c;
    to[at + 3] = d;
    to[at + 4] = e;
    to[at + 5] = f;
    to[at + 6] = g;
    to[at + 7] = h;
}

// Each eight of elements moved to its place.
pub fn move_eights<T: Copy>(spread: &[T], to: &mut [T], q: usize, stage: usize)
    requires { Sized q stage × (8 * q ≤ length spread.now) × (8 * q ≤ length to.old) }
    ensures { (d : T) → to.new ≡ over (tabulate (8 * q) (λ i. get_or spread.now (eight_from (stage - 3) i) d)) to.old }
{
    let table = table::places();
    for p in 0..q {
        let r = place(&table, p, stage);
        move_eight(spread, 8 * r, 1, 2, 4, to, 8 * p);
    }
}

// ---- words

// The first 8 * q words of `from` reordered, into the first of `to`.
fn gather_words(from: &[i32], to: &mut [i32], q: usize, stage: usize)
    requires { Sized q stage × (8 * q ≤ length from.now) × (8 * q ≤ length to.old) }
    ensures { to.new ≡ over (reordered (pos 0) stage from.now) to.old }
{
    let table = table::places();
    for p in 0..q {
        let r = place(&table, p, stage);
        move_eight(from, r, 4 * q, 2 * q, q, to, 8 * p);
    }
}

// The words reordered, into the first of `to`.
pub fn reorder_words(from: &[i32], to: &mut [i32], stage: usize)
    requires { (2 ≤ stage) × (stage ≤ 10) × (length from.now ≡ 2 ^ stage) × (2 ^ stage ≤ length to.old) }
    ensures { to.new ≡ over (reordered (pos 0) stage from.now) to.old }
{
    if stage == 2 {
        four(from, to);
    } else {
        gather_words(from, to, from.len() / 8, stage);
    }
}

// ---- LLRs

// The eighths of `from` spread. The loop has no table, so that it compiles to vectors.
fn spread_llrs(from: &[i16], spread: &mut [i16], q: usize)
    requires { (8 * q ≤ length from.now) × (8 * q ≤ length spread.old) }
    ensures { Spread (pos 0) q from.now spread.new }
{
    for u in 0..q {
        move_eight(from, u, 4 * q, 2 * q, q, spread, 8 * u);
    }
}

// The LLRs reordered, into the first of `to`.
pub fn reorder_llrs(from: &[i16], to: &mut [i16], stage: usize)
    requires { (2 ≤ stage) × (stage ≤ 10) × (length from.now ≡ 2 ^ stage) × (2 ^ stage ≤ length to.old) }
    ensures { to.new ≡ over (reordered (pos 0) stage from.now) to.old }
{
    if stage == 2 {
        four(from, to);
        return;
    }
    let q = from.len() / 8;
    let mut spread = [0i16; 1024];
    spread_llrs(from, &mut spread, q);
    move_eights(&spread, to, q, stage);
}
