// The line program: reads one line from standard input and prints its answer.
#![tactic(auto)]

ghost use Rattle.std.specs.Prelude.{◌≡◌, ◌+◌, ◌<◌, ◌≤◌, length, take, IfOk, OnErr};
ghost use Rattle.io.specs.Counts.{IsPrefixLen};
ghost use Rattle.fields.specs.Grammar.{first_of, feed, max_line};
ghost use Rattle.line.specs.Program.{answer_text, max_text};

use std::io;
use std::io::Read;

// One read, behind the first n bytes. It is made only where there is room and no line feed has come yet, so the program
// never waits for more than the line. An error is the read's own, and the first n bytes stay then too.
fn read_more<R: Read>(input: &mut R, buf: &mut [u8], n: usize) -> io::Result<usize>
    requires n_in_bounds { n < length buf.old }
    requires buf_value { first_of feed (take n buf.old) ≡ n }
    ensures result_in_bounds { IfOk result (λ k. n + k ≤ length buf.new) }
    ensures buf_unchanged { take n buf.new ≡ take n buf.old }
{
    input.read(&mut buf[n..])
}

// Reads until a line feed has come, the buffer is full or the input ends; answers the number of bytes read. The buffer holds the longest line.
// An error is that of the first read that failed, and nothing is read after it; the buffer then holds what came before.
fn read_input<R: Read>(input: &mut R, buf: &mut [u8]) -> io::Result<usize>
    requires { max_line ≤ length buf.old }
    ensures prefix_len { IfOk result (λ n. IsPrefixLen n buf.new) }
    ensures err { OnErr result (length buf.new ≡ length buf.old) }
{
    let mut n = 0;
    // A read gives as many bytes as have come, so this counts bytes and not reads.
    while n < buf.len() {
        let more = read_more(input, buf, n)?;
        if more == 0 {
            return Ok(n);
        }
        let e = n + more;
        if buf[n..e].contains(&b'\n') {
            return Ok(e);
        }
        n = e;
    }
    Ok(n)
}

// What is printed for a line, at the front of a buffer that holds the longest text; answers its length.
fn whole_text(bytes: &[u8], out: &mut [u8]) -> usize
    requires { max_text ≤ length out.old }
    ensures prefix_len { IsPrefixLen result out.new }
    ensures out_after { take result out.new ≡ answer_text bytes.now }
{
    line::answer(bytes, out)
}

fn main(rt: HostRuntime) -> io::Result<()> {
    let mut buf = [0u8; 16384];
    let n = read_input(&mut rt.stdin(), &mut buf)?;
    let mut out = [0u8; 14361];
    let k = whole_text(&buf[..n], &mut out);
    rt.write_all(&out[..k])
}
