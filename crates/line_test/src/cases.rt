// Cases: the answer to an input, compared with the expected text, also in buffers that are too short for it.
ghost use Rattle.std.specs.Prelude.{◌+◌, ◌<◌, ◌≤◌};

use crate::texts::{Text, text_of};
use std::io;
use test_tools::buffers::{bytes, lent_bytes};
use test_tools::numbers::{least, one_if};
use test_tools::report::{end_line, print_values};
use test_tools::tally::{Count, sum};
use test_tools::texts::{find, part, put_all};

// What a buffer holds before a call; no answer has this byte.
const FILLER: u8 = b'#';

// More than the longest answer.
const ROOM: usize = 16384;

fn with_call(c: Count, right: bool) -> Count {
    sum(
        c,
        Count {
            cases: 0,
            right: one_if(right),
            calls: 1,
        },
    )
}

fn print_line(rt: &impl Print, name: &[u8], text: &[u8]) -> io::Result<()> {
    rt.write_all(name)?;
    rt.write_all(text)?;
    end_line(rt)
}

fn print_text(rt: &impl Print, name: &[u8], t: Text) -> io::Result<()> {
    let text = t.bytes;
    print_line(rt, name, bytes(&text, t.length))
}

// A call that differs: the case's number, the buffer, the record with the answer that is expected, and what came.
fn print_mismatch(
    rt: &impl Print,
    number: usize,
    room: usize,
    record: &[u8],
    got: Text,
) -> io::Result<()> {
    print_values(
        rt,
        b"mismatch: case |, buffer of ",
        [number, room, 0, 0, 0, 0, 0, 0],
    )?;
    print_line(rt, b" bytes\n  name|input|expected: ", record)?;
    print_text(rt, b"  got: ", got)
}

// The answer to an input in a buffer of so many bytes, and the bytes behind it.
fn answer(input: Text, room: usize) -> Text {
    let line = input.bytes;
    let mut out = [FILLER; 20480];
    let length = line::answer(bytes(&line, input.length), lent_bytes(&mut out, room));
    Text { bytes: out, length }
}

// What that call is to leave: the text, as far as there is room. `cut` in replay_test is the same for a shorter buffer: one function for
// both would take a `Text` with the size of its buffer as a parameter, at every use of it.
fn expected(text: Text, room: usize) -> Text {
    let whole = text.bytes;
    let mut out = [FILLER; 20480];
    let length = put_all(&mut out, 0, bytes(&whole, least(text.length, room)));
    Text { bytes: out, length }
}

// Whether an input's answer in a buffer of so many bytes is the text, as far as there is room, and leaves the bytes behind it.
// Prints the case if not.
fn answered(
    rt: &impl Print,
    number: usize,
    record: &[u8],
    input: Text,
    text: Text,
    room: usize,
) -> io::Result<bool> {
    let got = answer(input, room);
    if got == expected(text, room) {
        return Ok(true);
    }
    print_mismatch(rt, number, room, record, got)?;
    Ok(false)
}

// The step between the lengths of shorter buffers: every length for a short answer, and about 16 for a long one.
fn step_for(n: usize) -> usize
    ensures { (0 < result) × (result ≤ n + 1) }
{
    if n < 64 { 1 } else { n / 16 }
}

// The calls with shorter buffers, counted on.
fn shorter(
    rt: &impl Print,
    c: Count,
    number: usize,
    record: &[u8],
    input: Text,
    text: Text,
) -> io::Result<Count> {
    let length = least(text.length, ROOM);
    let mut total = c;
    for room in (0..length).step_by(step_for(length)) {
        total = with_call(total, answered(rt, number, record, input, text, room)?);
    }
    Ok(total)
}

// A case: a call with room for the answer, and if that is right the calls with shorter buffers.
fn compared(
    rt: &impl Print,
    number: usize,
    record: &[u8],
    input: Text,
    text: Text,
) -> io::Result<Count> {
    if answered(rt, number, record, input, text, ROOM)? {
        shorter(
            rt,
            Count {
                cases: 1,
                right: 1,
                calls: 1,
            },
            number,
            record,
            input,
            text,
        )
    } else {
        Ok(Count {
            cases: 1,
            right: 0,
            calls: 1,
        })
    }
}

// A record is NAME|INPUT|ANSWER.
pub fn run_case(rt: &impl Print, number: usize, record: &[u8]) -> io::Result<Count> {
    let a = find(record, 0, b'|');
    let e = find(record, a + 1, b'|');
    let input = text_of(part(record, a + 1, e));
    let text = text_of(part(record, e + 1, record.len()));
    compared(rt, number, record, input, text)
}
