// The message of an uncut node, from the incoming list that was made for its right child, on words.
#![tactic(auto)]

ghost use Rattle.std.specs.Prelude.{◌≡◌, ◌+◌, ◌%◌, ◌≤◌, length};
ghost use Rattle.words.specs.Words.{add_word, word};
ghost use Rattle.halves.specs.Halves.{box_plus, Places, Combinable, RightListAt, node_words};
ghost use Rattle.by_list.specs.Pairs.{PairAt, box_of};

use combine::node_message;
use words::{add_words, box_words, store_four, sub_words};

// The words at k of both halves of a message.
#[derive(Clone, Copy)]
struct Pair {
    low: i32,
    high: i32,
}

// The words at k of both halves, from the right child's incoming list at c: less w[y + k], the second half of the node's, its word is the box.
fn pair_by_list(w: &[i32], l: usize, r: usize, y: usize, c: usize, k: usize) -> Pair
    requires { PairAt w.now l r y c k }
    ensures { (result.low ≡ box_plus w.now l y r k) × (result.high ≡ add_word (box_of w.now c y k) (word w.now (r + k))) }
{
    let list = w[c + k];
    let high = w[y + k];
    let left = w[l + k];
    let right = w[r + k];
    Pair {
        low: box_words(left, add_words(high, right)),
        high: add_words(sub_words(list, high), right),
    }
}

// `message_by_list` by four places at once.
fn by_list_fours(w: &mut [i32], m: usize, x: usize, l: usize, c: usize, h: usize)
    requires places { Places m x l h c × (c + h ≤ length w.old) }
    requires combinable { Combinable w.old x l h × RightListAt w.old x l c h }
    requires h_value { h % 4 ≡ 0 }
    ensures { w.new ≡ node_words w.old m x l h }
{
    let y = x + h;
    let r = l + h;
    let g = m + h;
    for i in 0..h / 4 {
        let k = 4 * i;
        let p = pair_by_list(&w[..], l, r, y, c, k);
        let q = pair_by_list(&w[..], l, r, y, c, k + 1);
        let u = pair_by_list(&w[..], l, r, y, c, k + 2);
        let v = pair_by_list(&w[..], l, r, y, c, k + 3);
        store_four(w, m + k, p.low, q.low, u.low, v.low);
        store_four(w, g + k, p.high, q.high, u.high, v.high);
    }
}

// `message_by_list` for halves of two places: the message's four words are stored at once.
fn by_list_two(w: &mut [i32], m: usize, x: usize, l: usize, c: usize, h: usize)
    requires places { Places m x l h c × (c + h ≤ length w.old) }
    requires combinable { Combinable w.old x l h × RightListAt w.old x l c h }
    requires h_value { h ≡ 2 }
    ensures { w.new ≡ node_words w.old m x l h }
{
    let y = x + h;
    let r = l + h;
    let p = pair_by_list(&w[..], l, r, y, c, 0);
    let q = pair_by_list(&w[..], l, r, y, c, 1);
    store_four(w, m, p.low, q.low, p.high, q.high);
}

// The message of `combine::node_message`, where the right child's incoming list w[c + k] = box(w[x + k], w[l + k]) + w[x + h + k] is still at c: less w[x + h + k], its
// words are the boxes of the second half. A half of one place, which no walk has here, goes by the formula.
pub fn message_by_list(w: &mut [i32], m: usize, x: usize, l: usize, c: usize, h: usize)
    requires places { Places m x l h c × (c + h ≤ length w.old) }
    requires combinable { Combinable w.old x l h × RightListAt w.old x l c h }
    ensures { w.new ≡ node_words w.old m x l h }
{
    if h % 4 == 0 {
        by_list_fours(w, m, x, l, c, h);
    } else if h == 2 {
        by_list_two(w, m, x, l, c, h);
    } else {
        node_message(w, m, x, l, h);
    }
}
