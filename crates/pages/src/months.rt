// The lines of a year's months, and of the next year's head.
ghost use Rattle.std.specs.Prelude.{◌≡◌, ◌+◌, ◌≤◌, ◌<◌, length};
ghost use Rattle.reckoning.specs.Told.{year_answered};
ghost use Rattle.text.specs.Wrote.{Wrote};
ghost use Rattle.pages.specs.Printable.{Printable};
ghost use Rattle.pages.specs.Page.{held_qi, told_month, month_start, month_line, month_lines, next_line};

use crate::names::name;
use reckoning::data::{NONE_HELD, Year};

// What is told of a month.
#[derive(Clone, Copy)]
pub(crate) struct ToldMonth {
    pub place: u32,
    pub number: u8,
    pub leap: u8,
    pub head: u32,
    pub name: u32,
    pub days: u32,
    pub remainder: u32,
    pub held: u8,
}

// The month at index i, from 0.
fn told(months: Year, i: usize) -> ToldMonth
    requires { Printable (year_answered months) × (i < months.count) }
    ensures { result ≡ told_month (year_answered months) i }
{
    let head = months.heads[i];
    let next = months.heads[i + 1];
    let number = months.numbers[i];
    let leap = months.leaps[i];
    let remainder = months.remainders[i];
    let held = months.held[i];
    let place = i as u32 + 1;
    let days = next.0 - head.0;
    ToldMonth {
        place,
        number,
        leap,
        head: head.0,
        name: name(head),
        days,
        remainder,
        held,
    }
}

// The index of the middle qi that a month holds, if it holds one.
fn held_qi(held: u8) -> Option<u32>
    ensures { result ≡ held_qi held }
{
    if held == NONE_HELD {
        return None;
    }
    Some(held as u32)
}

// Which month it is, and when it begins.
fn month_start(out: &mut [u8], at: usize, month: ToldMonth) -> usize
    requires { at + 50 ≤ length out.old }
    ensures { Wrote out.old at (month_start month) out.new result × (result ≤ at + 50) }
{
    let at = text::numbered(out, at, b"month", month.place);
    let at = text::month(out, at, month.number as u32, month.leap);
    let at = text::field(out, at, month.head);
    text::field(out, at, month.name)
}

fn month_line(out: &mut [u8], at: usize, month: ToldMonth) -> usize
    requires { at + 84 ≤ length out.old }
    ensures { Wrote out.old at (month_line month) out.new result × (result ≤ at + 84) }
{
    let at = month_start(out, at, month);
    let at = text::field(out, at, month.days);
    let at = text::field(out, at, month.remainder);
    text::last_field(out, at, held_qi(month.held))
}

pub(crate) fn lines(out: &mut [u8], start: usize, months: Year) -> usize
    requires { (start + 1092 ≤ length out.old) × Printable (year_answered months) }
    ensures { Wrote out.old start (month_lines (year_answered months)) out.new result × (result ≤ start + 1092) }
{
    let mut at = start;
    for i in 0..months.count as usize {
        at = month_line(out, at, told(months, i));
    }
    at
}

pub(crate) fn next_line(out: &mut [u8], at: usize, months: Year) -> usize
    requires { (at + 16 ≤ length out.old) × Printable (year_answered months) }
    ensures { Wrote out.old at (next_line (year_answered months)) out.new result × (result ≤ at + 16) }
{
    let count = months.count as usize;
    let head = months.heads[count];
    let numbers = [head.0];
    text::line(out, at, b"next", &numbers)
}
