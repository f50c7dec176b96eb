// Calls that are refused. The buffer stays as it was.
use crate::calls::{FILLER, right};
use crate::distances::right_answer;
use std::io;
use test_tools::numbers::one_if;
use test_tools::tally::Count;
use test_tools::texts::value_at;

// A line is call N K ROOM NUMBER.
pub fn run_call(rt: &impl Print, line: &[u8]) -> io::Result<Count> {
    let n = value_at(line, 1);
    let k = value_at(line, 2);
    let room = value_at(line, 3);
    let number = (value_at(line, 4) % 256) as u32;
    Ok(Count {
        cases: 1,
        right: one_if(right(rt, n, k, room, number, [FILLER; 4112])?),
        calls: 1,
    })
}

// A line is distance N K D ROOM NUMBER.
pub fn run_distance(rt: &impl Print, line: &[u8]) -> io::Result<Count> {
    let n = value_at(line, 1);
    let k = value_at(line, 2);
    let d = value_at(line, 3);
    let room = value_at(line, 4);
    let number = (value_at(line, 5) % 256) as u32;
    Ok(Count {
        cases: 1,
        right: one_if(right_answer(rt, n, k, d, room, number, [FILLER; 4112])?),
        calls: 1,
    })
}
