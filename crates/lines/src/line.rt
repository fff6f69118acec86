// The line of a record.
ghost use Rattle.std.specs.Prelude.{◌≡◌, ◌+◌, ◌≤◌, length};
ghost use Rattle.text.specs.Wrote.{Wrote};
ghost use Rattle.reckoning.specs.RefusalNumbers.{number_of, month_told};
ghost use Rattle.lines.specs.Line.{stored_line, refusal_line, line_of};

use citation::judge::{Judgement, judge};
use little_endian::le16;
use reckoning::refusal::Refusal;

// The line of a day and its stored record.
fn put_day(out: &mut [u8], start: usize, j: Judgement) -> usize
    requires { start + 64 ≤ length out.old }
    ensures { Wrote out.old start (stored_line j.stored j.day.0) out.new result × (result ≤ start + 64) }
{
    let stored = j.stored;
    let name = reckoning::day_name(j.day).0 as u32;
    let last = [stored[9] as u32, j.day.0, name];
    let at = text::year(out, start, stored[4] as u32, le16(stored[5], stored[6]));
    let at = text::month(out, at, stored[7] as u32, stored[8]);
    text::line(out, at, b"", &last)
}

// The line of a refusal, with the month that it tells where it tells one.
fn put_refusal(out: &mut [u8], start: usize, refusal: Refusal) -> usize
    requires { start + 64 ≤ length out.old }
    ensures { Wrote out.old start (refusal_line (number_of refusal) (month_told refusal)) out.new result × (result ≤ start + 64) }
{
    match refusal {
        Refusal::NotLeap(_) => text::refused_telling(out, start, refusal.number(), refusal.told()),
        _ => text::refused(out, start, refusal.number()),
    }
}

// The line of a record, at a place of the output with 64 bytes after it.
pub(crate) fn put_line(s: &[u8], out: &mut [u8], start: usize) -> usize
    requires { start + 64 ≤ length out.old }
    ensures { Wrote out.old start (line_of s.now) out.new result × (result ≤ start + 64) }
{
    match judge(s) {
        Ok(j) => put_day(out, start, j),
        Err(refusal) => put_refusal(out, start, refusal),
    }
}
