// Records in a buffer, written as lines.
ghost use Rattle.std.specs.Prelude.{◌≡◌};
ghost use Rattle.text.specs.Put.{Put};
ghost use Rattle.lines.specs.Program.{next_with_room, LinesPut, ending_of};

use crate::line::put_line;
use framing::next;
use reckoning::refusal::Refusal;

// How far a buffer was read, and how much was written.
#[derive(Clone, Copy)]
pub struct Progress {
    pub read: usize,
    pub written: usize,
}

// The length of the record at a place, where a whole one is there and 64 bytes of output are.
fn next_with_room(s: &[u8], at: usize, size: usize) -> Option<usize>
    ensures { result ≡ next_with_room s.now at size }
{
    if size < 64 {
        return None;
    }
    next(s, at)
}

// Writes the line of each whole record, as far as the output has room.
pub fn put_lines(input: &[u8], out: &mut [u8]) -> Progress
    ensures { LinesPut input.now out.old out.new result }
{
    let mut read = 0;
    let mut written = 0;
    while let Some(n) = next_with_room(input, read, out.len() - written) {
        let end = read + n;
        written = put_line(&input[read..end], out, written);
        read = end;
    }
    Progress { read, written }
}

// The line for bytes that are no record, where there are any.
pub fn ending(out: &mut [u8], at: usize, rest: &[u8]) -> usize
    ensures { Put out.old at 19 (ending_of rest.now) out.new result }
{
    if rest.is_empty() {
        return at;
    }
    text::refused(out, at, Refusal::Short.number())
}
