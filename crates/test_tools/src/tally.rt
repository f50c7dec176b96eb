// Cases of a file, in groups: how many cases and calls there were, and how many calls came out right.
use crate::report::print_values;
use crate::texts::part;
use std::io;

#[derive(Clone, Copy)]
pub struct Count {
    pub cases: usize,
    pub right: usize,
    pub calls: usize,
}

pub fn zero() -> Count {
    Count {
        cases: 0,
        right: 0,
        calls: 0,
    }
}

// None comes near 2 ^ 64.
pub fn sum(a: Count, b: Count) -> Count {
    Count {
        cases: a.cases.wrapping_add(b.cases),
        right: a.right.wrapping_add(b.right),
        calls: a.calls.wrapping_add(b.calls),
    }
}

// The line of a group, or of all.
pub fn report_count(rt: &impl Print, name: &[u8], c: Count) -> io::Result<()> {
    rt.write_all(name)?;
    print_values(
        rt,
        b": | cases, | of ",
        [c.cases, c.right, c.calls, 0, 0, 0, 0, 0],
    )?;
    rt.write_all(b" calls right\n")
}

// The counts of a group, and of all groups before it.
#[derive(Clone, Copy)]
pub struct Tally {
    pub group: Count,
    pub total: Count,
}

pub fn no_cases() -> Tally {
    Tally {
        group: zero(),
        total: zero(),
    }
}

// The number of the next case; the first has number 1.
pub fn next_number(t: Tally) -> usize {
    let all = sum(t.total, t.group);
    all.cases.wrapping_add(1)
}

// A case's counts added to its group's.
pub fn with_count(t: Tally, c: Count) -> Tally {
    let total = t.total;
    Tally {
        group: sum(t.group, c),
        total,
    }
}

// The group's line is printed, and the next group begins.
pub fn end_group(rt: &impl Print, t: Tally, name: &[u8]) -> io::Result<Tally> {
    let group = t.group;
    report_count(rt, name, group)?;
    Ok(Tally {
        group: zero(),
        total: sum(t.total, group),
    })
}

// Runs the lines of a file. One that begins with '#' is a comment, one with '=' ends a group and names it, and every other one, a blank
// one too, is a case: `run_case` is handed its number and the line, and answers its counts. Behind the last line feed there is no line if
// the file ends there. The lines around the call stay in each `main`: the buffer of each program has a length of its own.
pub fn run_cases<F: Fn(usize, &[u8]) -> io::Result<Count>>(
    rt: &impl Print,
    file: &[u8],
    run_case: F,
) -> io::Result<Tally>
    requires { F.IsAlwaysCallable run_case }
{
    let mut t = no_cases();
    for ended in file.split_inclusive(|b| *b == b'\n') {
        let line = ended.strip_suffix(b"\n").unwrap_or(ended);
        t = match line.first() {
            Some(b'#') => t,
            Some(b'=') => end_group(rt, t, part(line, 2, line.len()))?,
            _ => with_count(t, run_case(next_number(t), line)?),
        };
    }
    Ok(t)
}
