// The replay program: reads a capture from standard input and prints the totals of its drains, or its refusal.
#![tactic(auto)]

ghost use Rattle.std.specs.Prelude.{◌≡◌, ◌<◌, ◌≤◌, length, take, IfOk, OnErr};
ghost use Rattle.io.specs.Counts.{IsPrefixLen};
ghost use Rattle.model.specs.Captures.{max_capture};
ghost use Rattle.replay.specs.Program.{replay_text, max_replay};

use std::io;
use std::io::Read;

// Reads until the input ends or the buffer is full; answers the number of bytes read. The buffer holds more than a capture may have, so that
// a longer input is noticed. An error is that of the first read that failed, and nothing is read after it; the buffer then holds what came before.
fn read_input<R: Read>(input: &mut R, buf: &mut [u8]) -> io::Result<usize>
    requires { max_capture < length buf.old }
    ensures prefix_len { IfOk result (λ n. IsPrefixLen n buf.new) }
    ensures err { OnErr result (length buf.new ≡ length buf.old) }
{
    let mut n = 0;
    // A read gives as many bytes as have come, so this counts bytes and not reads.
    while n < buf.len() {
        let more = input.read(&mut buf[n..])?;
        if more == 0 {
            return Ok(n);
        }
        n += more;
    }
    Ok(n)
}

// What is printed for a capture, at the front of a buffer that holds the longest text; answers its length.
fn whole_text(bytes: &[u8], out: &mut [u8]) -> usize
    requires { max_replay ≤ length out.old }
    ensures prefix_len { IsPrefixLen result out.new }
    ensures out_after { take result out.new ≡ replay_text bytes.now }
{
    replay::replay(bytes, out)
}

fn main(rt: HostRuntime) -> io::Result<()> {
    let mut buf = [0u8; 65537];
    let n = read_input(&mut rt.stdin(), &mut buf)?;
    let mut out = [0u8; 6720];
    let k = whole_text(&buf[..n], &mut out);
    rt.write_all(&out[..k])
}
