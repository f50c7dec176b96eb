// A word of the file: encoded, and LLRs with its signs decoded, both in order 1.
use std::io;
use test_tools::buffers::{Bytes, bytes, lent_bytes, lent_words, same_bytes, shorts};
use test_tools::numbers::{choose, least, one_if, signed};
use test_tools::report::{end_line, print_values};
use test_tools::tally::Count;
use test_tools::texts::{digits_of, field};

// What a buffer holds before a call; no word has this byte.
const FILLER: u8 = b'#';

// The order by bits backwards.
const BACKWARDS: usize = 1;

// A mask with its payload and word, each in front of fillers; N and K.
#[derive(Clone, Copy)]
struct Case {
    mask: Bytes,
    payload: Bytes,
    word: Bytes,
    n: usize,
    k: usize,
}

// A line is word MASK PAYLOAD WORD.
fn case_of(line: &[u8]) -> Case {
    let mask = field(line, 1);
    let payload = field(line, 2);
    Case {
        mask: digits_of(mask, FILLER),
        payload: digits_of(payload, FILLER),
        word: digits_of(field(line, 3), FILLER),
        n: mask.len(),
        k: payload.len(),
    }
}

// Whether the encoder gives the word.
fn encodes(c: Case) -> bool {
    let mask = c.mask;
    let payload = c.payload;
    let expected = c.word;
    let mut word = [FILLER; 4112];
    let encoded = sent::encode_in(
        BACKWARDS,
        bytes(&mask, c.n),
        bytes(&payload, c.k),
        lent_bytes(&mut word, c.n),
    );
    encoded.is_ok() && same_bytes(word, expected)
}

// LLRs from 1 to 50, negative where the word has a 1.
fn llrs_of(word: Bytes, n: usize) -> [i16; 1056] {
    let mut llrs = [0i16; 1056];
    for (i, (llr, bit)) in llrs.iter_mut().zip(&word).take(n).enumerate() {
        let size = 1 + i % 50;
        *llr = signed(choose(*bit == 1, 65536 - size, size));
    }
    llrs
}

// Whether LLRs with the word's signs decode to the word and its payload, with the frozen check 1.
fn decodes(c: Case) -> bool {
    let mask = c.mask;
    let word = c.word;
    let bits = c.payload;
    let llrs = llrs_of(word, c.n);
    let mut plan = [0u8; 4112];
    let planned = planner::plan_mask(
        bytes(&mask, c.n),
        lent_bytes(&mut plan, 2 * least(c.n, 1024)),
    );
    let mut soft = [0i32; 1056];
    let mut hard = [FILLER; 4112];
    let mut payload = [FILLER; 4112];
    let mut work = [0i32; 13344];
    let decoded = sent::decode_in(
        BACKWARDS,
        bytes(&mask, c.n),
        bytes(&plan, 2 * least(c.n, 1024)),
        1,
        shorts(&llrs, c.n),
        lent_words(&mut soft, c.n),
        lent_bytes(&mut hard, c.n),
        lent_bytes(&mut payload, c.k),
        &mut work,
    );
    let accepted = planned.is_ok() && decoded.is_ok_and(|d| d.check == 1);
    accepted && same_bytes(hard, word) && same_bytes(payload, bits)
}

// A case: both calls. Prints its number if one is not right.
pub fn run_word(rt: &impl Print, case: usize, line: &[u8]) -> io::Result<Count> {
    let encoded = encodes(case_of(line));
    let decoded = decodes(case_of(line));
    if !(encoded && decoded) {
        print_values(
            rt,
            b"mismatch: case |, encoder right |, decoder right ",
            [case, one_if(encoded), one_if(decoded), 0, 0, 0, 0, 0],
        )?;
        end_line(rt)?;
    }
    Ok(Count {
        cases: 1,
        right: one_if(encoded) + one_if(decoded),
        calls: 2,
    })
}
