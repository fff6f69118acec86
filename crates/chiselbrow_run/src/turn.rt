// One turn of the run, between a read and a write: a function on the two buffers.
ghost use Rattle.std.specs.Prelude.{◌+◌, ◌*◌, ◌≤◌, [], length, if◌then◌else◌};
ghost use Rattle.text.specs.Put.{Put};
ghost use Rattle.lines.specs.Program.{ending_of};
ghost use Rattle.chiselbrow_run.specs.Turn.{Turned};

use framing::{goes_on, keep};
use lines::buffer::{ending, put_lines};

// How many bytes were answered and how many are left, how many were written, and whether the run goes on.
#[derive(Clone, Copy)]
pub(crate) struct Turn {
    pub read: usize,
    pub left: usize,
    pub written: usize,
    pub more: bool,
}

// Puts the line for what is left, unless the run goes on.
fn end(out: &mut [u8], at: usize, rest: &[u8], more: bool) -> usize
    ensures { Put out.old at 19 (if more then [] else ending_of rest.now) out.new result }
{
    if more {
        return at;
    }
    ending(out, at, rest)
}

// Answers the whole records of a buffer, and moves what is left to its front. The output takes every line: no record has
// fewer than four bytes, and no line more than 64.
pub(crate) fn answer(input: &mut [u8], ended: bool, out: &mut [u8]) -> Turn
    requires { 16 * length input.old + 64 ≤ length out.old }
    ensures { Turned ended input.old input.new out.old out.new result }
{
    let p = put_lines(input, out);
    let read = p.read;
    let more = goes_on(ended, &input[read..]);
    let written = end(out, p.written, &input[read..], more);
    let left = input.len() - read;
    keep(input, read);
    Turn {
        read,
        left,
        written,
        more,
    }
}
