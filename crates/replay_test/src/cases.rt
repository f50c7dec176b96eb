// Cases: the text of a capture, compared with the expected one and with that of the frames decoded one by one, also in buffers that are too
// short for it.
ghost use Rattle.std.specs.Prelude.{◌≤◌, IfOk};

use crate::single::text_by_frames;
use crate::texts::{FILLER, Text, lines_of, unpack};
use std::io;
use test_tools::buffers::{byte_at, bytes, lent_bytes};
use test_tools::numbers::{least, minus, number_of, one_if};
use test_tools::report::{end_line, print_values};
use test_tools::tally::Count;
use test_tools::texts::{find, number, part, put_all};

// The buffer of a call with room for every text, and the most bytes of one.
const ROOM: usize = 8192;

const LONGEST: usize = 6720;

// A call that differs: the case's number and name, the buffer, and both texts.
fn print_mismatch(
    rt: &impl Print,
    number: usize,
    name: &[u8],
    room: usize,
    expected: Text,
    got: Text,
) -> io::Result<()> {
    let e = expected.bytes;
    let g = got.bytes;
    print_values(
        rt,
        b"mismatch: case |, buffer of ",
        [number, room, 0, 0, 0, 0, 0, 0],
    )?;
    rt.write_all(b" bytes: ")?;
    rt.write_all(name)?;
    rt.write_all(b"\nexpected:\n")?;
    rt.write_all(bytes(&e, expected.length))?;
    rt.write_all(b"\ngot:\n")?;
    rt.write_all(bytes(&g, got.length))?;
    end_line(rt)
}

// The text of a capture in a buffer of so many bytes, and the bytes behind it.
fn replayed(capture: &[u8], room: usize) -> Text {
    let mut out = [FILLER; 8192];
    let length = replay::replay(capture, lent_bytes(&mut out, room));
    Text { bytes: out, length }
}

// What that call is to leave: the text, as far as there is room. `expected` in line_test is the same for a longer buffer: one function
// for both would take a `Text` with the size of its buffer as a parameter, at every use of it.
fn cut(text: Text, room: usize) -> Text {
    let whole = text.bytes;
    let mut out = [FILLER; 8192];
    let length = put_all(&mut out, 0, bytes(&whole, least(text.length, room)));
    Text { bytes: out, length }
}

// Whether a capture's text in a buffer of so many bytes is this one, as far as there is room. Prints the case if not.
fn right(
    rt: &impl Print,
    number: usize,
    name: &[u8],
    capture: &[u8],
    text: Text,
    room: usize,
) -> io::Result<bool> {
    let expected = cut(text, room);
    let got = replayed(capture, room);
    if got == expected {
        return Ok(true);
    }
    print_mismatch(rt, number, name, room, expected, got)?;
    Ok(false)
}

// Whether a capture's text is that of its frames decoded one by one. Prints the case if not.
pub fn right_by_frames(
    rt: &impl Print,
    number: usize,
    name: &[u8],
    capture: &[u8],
) -> io::Result<bool> {
    right(rt, number, name, capture, text_by_frames(capture), ROOM)
}

fn is_refusal(text: Text) -> bool {
    let b = text.bytes;
    byte_at(&b, 0) == b'n'
}

// The number of a refusal's text, `no` and one or two digits.
fn refusal_of(text: Text) -> u32 {
    let b = text.bytes;
    let n = number(part(bytes(&b, text.length), 3, minus(text.length, 1)));
    n / 16 % 10 * 10 + n % 16
}

// The number of a call for the totals with a buffer of so many bytes.
fn totals_number(text: Text, room: usize) -> u32 {
    if is_refusal(text) {
        return refusal_of(text);
    }
    if room < LONGEST { 11 } else { 0 }
}

// Whether a call for the totals answers the number that is asked for, and leaves the text, or nothing where it is refused. Prints the case if not.
fn right_totals(
    rt: &impl Print,
    case: usize,
    name: &[u8],
    capture: &[u8],
    text: Text,
    room: usize,
) -> io::Result<bool> {
    let number = totals_number(text, room);
    let expected = cut(text, if number == 0 { room } else { 0 });
    let mut out = [FILLER; 8192];
    let r = replay::replay_totals(capture, lent_bytes(&mut out, room));
    let got = Text {
        bytes: out,
        length: r.unwrap_or(0),
    };
    let given = number_of(&r);
    if given == number && got == expected {
        return Ok(true);
    }
    print_mismatch(rt, case, name, room, expected, got)?;
    print_values(
        rt,
        b"expected number |, got ",
        [number as usize, given as usize, 0, 0, 0, 0, 0, 0],
    )?;
    end_line(rt)?;
    Ok(false)
}

// Calls with room for every text, of which that of an accepted capture is also that of its frames.
fn compared_whole(
    rt: &impl Print,
    number: usize,
    name: &[u8],
    capture: &[u8],
    text: Text,
) -> io::Result<usize>
    ensures { IfOk result (λ n. n ≤ 3) }
{
    let whole = right(rt, number, name, capture, text, ROOM)?;
    let by_frames = if is_refusal(text) {
        true
    } else {
        right_by_frames(rt, number, name, capture)?
    };
    let totals = right_totals(rt, number, name, capture, text, LONGEST)?;
    let no_room = right_totals(rt, number, name, capture, text, LONGEST - 1)?;
    Ok(one_if(whole && by_frames) + one_if(totals) + one_if(no_room))
}

// These, and two calls with buffers that are shorter than the text, if it is not empty.
fn compared(
    rt: &impl Print,
    number: usize,
    name: &[u8],
    capture: &[u8],
    text: Text,
) -> io::Result<Count> {
    let whole = compared_whole(rt, number, name, capture, text)?;
    if text.length == 0 {
        return Ok(Count {
            cases: 1,
            right: whole,
            calls: 3,
        });
    }
    let shorter = right(rt, number, name, capture, text, minus(text.length, 1))?;
    let half = right(rt, number, name, capture, text, text.length / 2)?;
    Ok(Count {
        cases: 1,
        right: whole + one_if(shorter) + one_if(half),
        calls: 5,
    })
}

// A record is NAME|CAPTURE|TEXT.
pub fn run_case(rt: &impl Print, number: usize, record: &[u8]) -> io::Result<Count> {
    let a = find(record, 0, b'|');
    let e = find(record, a + 1, b'|');
    let mut capture = [0u8; 65600];
    let n = unpack(part(record, a + 1, e), &mut capture);
    let text = lines_of(part(record, e + 1, record.len()));
    compared(rt, number, part(record, 0, a), bytes(&capture, n), text)
}
