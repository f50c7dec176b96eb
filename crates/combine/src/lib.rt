// The message of an uncut node, from its incoming list and its children's messages, on words.
#![tactic(auto)]

ghost use Rattle.std.specs.Prelude.{◌≡◌, cond, ◌+◌, pos, length};
ghost use Rattle.model.specs.Soft.{mark};
ghost use Rattle.words.specs.Words.{box_word, add_word, word, Word, Words, Holds};
ghost use Rattle.halves.specs.Halves.{Places, Combinable, node_words};

use words::{MARK, add_words, box_words};

// The message of a node of size 2h, stored at m: its incoming list is at x, its left child's message at l and its right child's at l + h.
// w[m + k] = box(w[l + k], w[x + h + k] + w[l + h + k]) and w[m + h + k] = box(w[x + k], w[l + k]) + w[l + h + k]
pub fn node_message(w: &mut [i32], m: usize, x: usize, l: usize, h: usize)
    requires places { Places m x l h (length w.old) }
    requires combinable { Combinable w.old x l h }
    ensures { w.new ≡ node_words w.old m x l h }
{
    let y = x + h;
    let r = l + h;
    let g = m + h;
    for k in 0..h {
        let first = w[x + k];
        let second = w[y + k];
        let left = w[l + k];
        let right = w[r + k];
        w[m + k] = box_words(left, add_words(second, right));
        w[g + k] = add_words(box_words(first, left), right);
    }
}

// The same message, where the left child's is certain everywhere: a box with it is the other word.
pub fn message_left_certain(w: &mut [i32], m: usize, x: usize, l: usize, h: usize)
    requires places { Places m x l h (length w.old) }
    requires combinable { Combinable w.old x l h }
    requires holds { Holds w.old l h (λ k. pos mark) }
    ensures { w.new ≡ node_words w.old m x l h }
{
    let y = x + h;
    let r = l + h;
    let g = m + h;
    for k in 0..h {
        let first = w[x + k];
        let second = w[y + k];
        let right = w[r + k];
        w[m + k] = add_words(second, right);
        w[g + k] = add_words(first, right);
    }
}

// The same message, where the right child's is 0 everywhere: a sum with it is the other word.
pub fn message_right_zero(w: &mut [i32], m: usize, x: usize, l: usize, h: usize)
    requires places { Places m x l h (length w.old) }
    requires combinable { Combinable w.old x l h }
    requires holds { Holds w.old (l + h) h (λ k. pos 0) }
    ensures { w.new ≡ node_words w.old m x l h }
{
    let y = x + h;
    let g = m + h;
    for k in 0..h {
        let first = w[x + k];
        let second = w[y + k];
        let left = w[l + k];
        w[m + k] = box_words(left, second);
        w[g + k] = box_words(first, left);
    }
}

// The first word of the message where the children are leaves, whose words are certain or 0: box(left, second + right).
pub fn leaves_low(left: bool, right: bool, second: i32) -> i32
    requires { Word second }
    ensures { result ≡ box_word (cond left (pos mark) (pos 0)) (add_word second (cond right (pos mark) (pos 0))) }
{
    if left {
        if right { MARK } else { second }
    } else {
        0
    }
}

// The second word: box(first, left) + right.
pub fn leaves_high(left: bool, right: bool, first: i32) -> i32
    requires { Word first }
    ensures { result ≡ add_word (box_word first (cond left (pos mark) (pos 0))) (cond right (pos mark) (pos 0)) }
{
    if right {
        MARK
    } else {
        if left { first } else { 0 }
    }
}

// The same message, where the children are leaves: which of their words are certain is known, so that neither a box nor a sum is left.
pub fn message_of_leaves(w: &mut [i32], left: bool, right: bool, m: usize, x: usize, l: usize)
    requires places { Places m x l 1 (length w.old) }
    requires words { Words w.old x 2 }
    requires l_value { (word w.old l ≡ cond left (pos mark) (pos 0)) × (word w.old (l + 1) ≡ cond right (pos mark) (pos 0)) }
    ensures { w.new ≡ node_words w.old m x l 1 }
{
    let first = w[x];
    let second = w[x + 1];
    w[m] = leaves_low(left, right, second);
    w[m + 1] = leaves_high(left, right, first);
}
