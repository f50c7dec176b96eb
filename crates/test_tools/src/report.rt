// What a test program prints: lines with a group of cases, how many came out right and how many there are, and the numbers of a case
// that did not. Names stand in one text, with a '|' between two. An error is that of the write that failed; what
// was printed before it stays, and nothing is printed after it.
use std::io;

pub fn print_number(rt: &impl Print, name: &[u8], n: usize) -> io::Result<()> {
    rt.write_all(name)?;
    print!(rt; "{n}")
}

pub fn end_line(rt: &impl Print) -> io::Result<()> {
    rt.write_all(b"\n")
}

// A name of a text, without the '|' that ends it. A text that ends with a '|', or is empty, has no name behind that.
fn without_bar(name: &[u8]) -> &[u8] {
    name.strip_suffix(b"|").unwrap_or(name)
}

// The numbers, each after its name, as many as there are names.
pub fn print_values(rt: &impl Print, names: &[u8], values: [usize; 8]) -> io::Result<()> {
    for (name, value) in names.split_inclusive(|b| *b == b'|').zip(values) {
        print_number(rt, without_bar(name), value)?;
    }
    Ok(())
}

// Answers whether a case came out right, and prints its numbers if not.
pub fn shown(rt: &impl Print, right: bool, group: usize, i: usize) -> io::Result<bool> {
    if !right {
        print_values(
            rt,
            b"mismatch: group |, index ",
            [group, i, 0, 0, 0, 0, 0, 0],
        )?;
        end_line(rt)?;
    }
    Ok(right)
}

// The line of the group with name k, without its end.
pub fn begin_report(
    rt: &impl Print,
    names: &[u8],
    k: usize,
    right: usize,
    all: usize,
) -> io::Result<()> {
    if let Some(name) = names.split_inclusive(|b| *b == b'|').nth(k) {
        print_number(rt, without_bar(name), right)?;
    }
    print_number(rt, b" of ", all)
}

// The line of the group with name k.
pub fn report(rt: &impl Print, names: &[u8], k: usize, right: usize, all: usize) -> io::Result<()> {
    begin_report(rt, names, k, right, all)?;
    end_line(rt)
}
