// Cases: a line of the file read, and its calls compared with the answer that it has.
ghost use Rattle.std.specs.Prelude.{◌≤◌, IfOk};

use crate::calls::{Answer, FILLER, Inputs, Lent, called};
use std::io;
use test_tools::buffers::{Bytes, byte_at, same_bytes};
use test_tools::numbers::{case_seed, choose, least, one_if, signed};
use test_tools::report::{end_line, print_values};
use test_tools::tally::Count;
use test_tools::texts::{digits_of, field, number, value_at};

// ---- a line of the file

// The LLRs, four digits each, and zeros behind them.
fn llrs_of(digits: &[u8]) -> [i16; 1056] {
    let mut llrs = [0i16; 1056];
    for (llr, four) in llrs.iter_mut().zip(digits.chunks_exact(4)) {
        *llr = signed(number(four) as usize);
    }
    llrs
}

// The inputs of a line's call.
fn inputs_of(line: &[u8]) -> Inputs {
    let mask = field(line, 2);
    let llrs = field(line, 5);
    Inputs {
        mask: digits_of(mask, FILLER),
        size: mask.len(),
        sweeps: value_at(line, 3),
        attempts: value_at(line, 4),
        llrs: llrs_of(llrs),
        llr_count: llrs.len() / 4,
    }
}

// The answer that a line has.
fn answer_in(line: &[u8]) -> Answer {
    Answer {
        kind: byte_at(line, 0),
        number: number(field(line, 1)),
    }
}

// ---- its calls

// A call that differs: the case's number, the buffers, what came, with the code of the answer's first letter, and the line.
fn print_mismatch(
    rt: &impl Print,
    case: usize,
    lent: Lent,
    answer: Answer,
    work: bool,
    line: &[u8],
) -> io::Result<()> {
    print_values(
        rt,
        b"mismatch: case |, payload buffer of |, workspace of |; answer |, number |, workspace right ",
        [
            case,
            lent.room,
            lent.words,
            answer.kind as usize,
            answer.number as usize,
            one_if(work),
            0,
            0,
        ],
    )?;
    end_line(rt)?;
    rt.write_all(line)?;
    end_line(rt)
}

// Whether both have the same kind and number.
fn same_answer(a: Answer, b: Answer) -> bool {
    a.kind == b.kind && a.number == b.number
}

// Whether a call answers and leaves what the line has. Prints the case if not.
fn right(rt: &impl Print, case: usize, line: &[u8], lent: Lent) -> io::Result<bool> {
    let got = called(inputs_of(line), lent);
    let answer = got.answer;
    let payload = got.payload;
    let left = got.work && same_bytes(payload, digits_of(field(line, 8), FILLER));
    if same_answer(answer, answer_in(line)) && left {
        return Ok(true);
    }
    print_mismatch(rt, case, lent, answer, got.work, line)?;
    Ok(false)
}

// Whether the line has a refused call.
fn is_refused(line: &[u8]) -> bool {
    byte_at(line, 0) == b'r'
}

// The buffers of a line's call, longer by `extra`. A refused call clears no word.
fn lent_for(line: &[u8], extra: usize, seed: u32) -> Lent
    requires { extra ≤ 8 }
{
    let words = least(value_at(line, 7), 13312);
    Lent {
        room: least(value_at(line, 6), 1056) + extra,
        words: words + extra,
        cleared: choose(is_refused(line), 0, words),
        seed,
    }
}

// How many calls are right, of two with buffers longer by `extra` and different words in the workspace.
fn both_fillings(rt: &impl Print, case: usize, line: &[u8], extra: usize) -> io::Result<usize>
    requires { extra ≤ 8 }
    ensures { IfOk result (λ n. n ≤ 2) }
{
    let first = right(
        rt,
        case,
        line,
        lent_for(line, extra, case_seed(1, extra, case)),
    )?;
    let second = right(
        rt,
        case,
        line,
        lent_for(line, extra, case_seed(2, extra, case)),
    )?;
    Ok(one_if(first) + one_if(second))
}

// A line is ANSWER NUMBER MASK SWEEPS ATTEMPTS LLRS ROOM WORDS PAYLOAD NAME. An accepted call is made with longer buffers too.
pub fn run_case(rt: &impl Print, case: usize, line: &[u8]) -> io::Result<Count> {
    let exact = both_fillings(rt, case, line, 0)?;
    if is_refused(line) {
        return Ok(Count {
            cases: 1,
            right: exact,
            calls: 2,
        });
    }
    let longer = both_fillings(rt, case, line, 1 + case % 8)?;
    Ok(Count {
        cases: 1,
        right: exact + longer,
        calls: 4,
    })
}
