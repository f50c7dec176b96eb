// Prints the totals of a capture's drains into a buffer that the caller lends. Text that has no room is left out.
#![tactic(auto)]

ghost use Rattle.std.specs.Prelude.{◌∷◌, ◌≤◌, length};
ghost use Rattle.printer.specs.Text.{nat_text};
ghost use Rattle.printer.specs.Put.{Put, Printed};
ghost use Rattle.drains.specs.Text.{drain_text, drain_line, drains_text, totals_in, max_drain_line, max_drains_text};

use printer::{put_byte, put_digits};

// A number behind a space; it has at most 20 digits.
fn put_field(n: u64, out: &mut [u8], at: usize) -> usize
    ensures put { Put (32 ∷ nat_text n) out.old at out.new result }
    ensures few { length (nat_text n) ≤ 20 }
{
    let e = put_byte(b' ', out, at);
    put_digits(n, out, e)
}

// What a drain's frames add up to: how many there are, those whose frozen check is 1, hard bits that differ, and cycles.
#[derive(Clone, Copy)]
pub struct Totals {
    pub frames: u64,
    pub checks: u64,
    pub differ: u64,
    pub cycles: u64,
}

// One drain's line, from `at` on; answers where it ends. What has no room is left out.
fn put_drain(drain: usize, totals: Totals, out: &mut [u8], at: usize) -> usize
    ensures put { Put (drain_text drain totals.frames totals.checks totals.differ totals.cycles) out.old at out.new result }
    ensures few { length (drain_text drain totals.frames totals.checks totals.differ totals.cycles) ≤ max_drain_line }
{
    let a = put_digits(drain as u64, out, at);
    let b = put_field(totals.frames, out, a);
    let c = put_field(totals.checks, out, b);
    let d = put_field(totals.differ, out, c);
    let e = put_field(totals.cycles, out, d);
    put_byte(b'\n', out, e)
}

// The line of a drain that occurs; nothing for one without frames.
fn put_occurring(drain: usize, totals: Totals, out: &mut [u8], at: usize) -> usize
    ensures put { Put (drain_line drain totals.frames totals.checks totals.differ totals.cycles) out.old at out.new result }
    ensures few { length (drain_line drain totals.frames totals.checks totals.differ totals.cycles) ≤ max_drain_line }
{
    if totals.frames == 0 {
        return at;
    }
    put_drain(drain, totals, out, at)
}

// The lines of all drains that occur, by their totals, from the buffer's start on; answers their length.
pub fn print_drains(totals: &[Totals; 64], out: &mut [u8]) -> usize
    ensures { Printed (drains_text 64 0 (totals_in totals.now)) max_drains_text out.old out.new result }
{
    let mut end = 0;
    for (drain, t) in totals.iter().enumerate() {
        end = put_occurring(drain, *t, out, end);
    }
    end
}
