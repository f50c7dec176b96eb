// What the three other of four classes of places add to what was gathered over a class: for nodes of type II the box of the others' sums, for those of
// type IV the sum of the others' boxes.
#![tactic(auto)]

ghost use Rattle.std.specs.Prelude.{◌≡◌, ℕ, ◌+◌, ◌%◌, ◌≤◌, nat_abs, ◌+ℤ◌, length};
ghost use Rattle.model.specs.Soft.{mark};
ghost use Rattle.words.specs.Words.{Word, word};
ghost use Rattle.classes.specs.LeastSizes.{with_value, gather_all};
ghost use Rattle.joined.specs.Joins.{box_three, sum_three, join_four, box_of, join_boxes, totals_by, Room, RoomTotals, RoomBoxes};

use classes::{ByPlace, Gathered, Totals, with_value};
use words::{MARK_SIZE, box_words, with_sign};

// The box of three words, which are not the mark.
fn box_three(a: i32, b: i32, c: i32) -> i32
    requires { Word a × Word b × Word c }
    ensures { result ≡ box_three a b c }
{
    box_words(a, box_words(b, c))
}

// The sum of three words.
fn sum_three(a: i32, b: i32, c: i32) -> i32
    requires { nat_abs a + nat_abs b + nat_abs c ≤ mark }
    ensures { result ≡ sum_three a b c }
{
    a + (b + c)
}

// t plus the box of a, b and c.
fn plus_box(t: i32, a: i32, b: i32, c: i32) -> i32
    requires { Room (nat_abs t) (nat_abs a) (nat_abs b) (nat_abs c) }
    ensures { result ≡ t +ℤ box_three a b c }
{
    t + box_three(a, b, c)
}

// Each of four sums plus the box of the three others.
fn join_totals(a: i32, b: i32, c: i32, d: i32) -> Totals
    requires { Room (nat_abs a) (nat_abs b) (nat_abs c) (nat_abs d) }
    ensures { result ≡ join_four a b c d }
{
    Totals {
        at0: plus_box(a, b, c, d),
        at1: plus_box(b, a, c, d),
        at2: plus_box(c, a, b, d),
        at3: plus_box(d, a, b, c),
    }
}

// What the values of places are taken from, by the period: the sums, of four classes with the box of the others' sums.
pub fn totals_by(t: Totals, p: usize) -> Totals
    requires { p ≡ 4 → RoomTotals t }
    ensures { result ≡ totals_by p t }
{
    if p == 4 {
        join_totals(t.at0, t.at1, t.at2, t.at3)
    } else {
        t
    }
}

// Box over a class.
fn box_of(g: Gathered) -> i32
    requires { g.least ≤ mark }
    ensures { result ≡ box_of g }
{
    with_sign(g.neg, g.least as i32)
}

// What is gathered of a class, with the sum of three other classes' boxes.
fn plus_boxes(g: Gathered, a: Gathered, b: Gathered, c: Gathered) -> Gathered
    requires { Room g.least a.least b.least c.least }
    ensures { result ≡ with_value g (sum_three (box_of a) (box_of b) (box_of c)) }
{
    with_value(g, sum_three(box_of(a), box_of(b), box_of(c)))
}

// Each of four classes with the sum of the three others' boxes.
fn join_boxes(g: ByPlace) -> ByPlace
    requires { RoomBoxes g }
    ensures { result ≡ join_boxes g }
{
    ByPlace {
        at0: plus_boxes(g.at0, g.at1, g.at2, g.at3),
        at1: plus_boxes(g.at1, g.at0, g.at2, g.at3),
        at2: plus_boxes(g.at2, g.at0, g.at1, g.at3),
        at3: plus_boxes(g.at3, g.at0, g.at1, g.at2),
    }
}

// What is gathered of the four classes of a list, four places a turn, so that the compiler works on the classes at once.
fn gather_four(l: &[i32]) -> ByPlace
    requires l_len { length l.now % 4 ≡ 0 }
    requires by_index { (k : ℕ) → Word (word l.now k) }
    ensures { result ≡ gather_all 4 l.now }
{
    let none = Gathered {
        least: MARK_SIZE,
        next: MARK_SIZE,
        neg: false,
    };
    let mut a = none;
    let mut b = none;
    let mut c = none;
    let mut d = none;
    for q in 0..l.len() / 4 {
        let i = 4 * q;
        a = with_value(a, l[i]);
        b = with_value(b, l[i + 1]);
        c = with_value(c, l[i + 2]);
        d = with_value(d, l[i + 3]);
    }
    ByPlace {
        at0: a,
        at1: b,
        at2: c,
        at3: d,
    }
}

// What is gathered of the four classes of a list, each with the sum of the three others' boxes.
pub fn gather_joined(l: &[i32]) -> ByPlace
    requires l_len { length l.now % 4 ≡ 0 }
    requires by_index { (k : ℕ) → Word (word l.now k) }
    requires room_boxes { RoomBoxes (gather_all 4 l.now) }
    ensures { result ≡ join_boxes (gather_all 4 l.now) }
{
    join_boxes(gather_four(l))
}
