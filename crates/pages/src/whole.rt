// The page of a year: its first line, its qi, its months, and the names of its days. A system and a year go as two
// numbers here, as the requests take them.
ghost use Rattle.std.specs.Prelude.{◌+◌, ◌≤◌, IsOkAnd, length};
ghost use Rattle.reckoning.specs.Scope.{InScope};
ghost use Rattle.reckoning.specs.Told.{year_answered, sheet_answered};
ghost use Rattle.text.specs.Wrote.{Wrote};
ghost use Rattle.pages.specs.PageEnds.{Ends};
ghost use Rattle.pages.specs.Printable.{Printable};
ghost use Rattle.pages.specs.Page.{year_line, sheet_names, names_line, year_lines, page_of};

use crate::{months, steps};
use reckoning::data::{Sheet, Year};
use reckoning::refusal::Refusal;

fn year_line(out: &mut [u8], at: usize, system: u32, year: u32, months: u8, days: u16) -> usize
    requires { at + 40 ≤ length out.old }
    ensures { Wrote out.old at (year_line system year months days) out.new result × (result ≤ at + 40) }
{
    let numbers = [months as u32, days as u32];
    let at = text::word(out, at, b"year ");
    let at = text::year(out, at, system, year);
    text::line(out, at, b"", &numbers)
}

// The names of a year's days, so many from the sheet's first on.
fn sheet_names(out: &mut [u8], start: usize, sheet: Sheet, days: u16) -> usize
    requires { (start + 4224 ≤ length out.old) × (days ≤ 384) }
    ensures { Wrote out.old start (sheet_names (sheet_answered sheet) days) out.new result × (result ≤ start + 4224) }
{
    let mut at = start;
    for name in &sheet.names[..days as usize] {
        at = text::field(out, at, *name as u32);
    }
    at
}

fn names_line(out: &mut [u8], at: usize, sheet: Sheet, days: u16) -> usize
    requires { (at + 4230 ≤ length out.old) × (days ≤ 384) }
    ensures { Wrote out.old at (names_line (sheet_answered sheet) days) out.new result × (result ≤ at + 4230) }
{
    let at = text::word(out, at, b"names");
    let at = sheet_names(out, at, sheet, days);
    text::word(out, at, b"\n")
}

// The lines of a year in scope with these months and so many days, named on the sheet.
fn year_lines(
    out: &mut [u8],
    at: usize,
    system: u32,
    year: u32,
    months: Year,
    days: u16,
    sheet: Sheet,
) -> Result<usize, Refusal>
    requires { (at + 8192 ≤ length out.old) × InScope system year × Printable (year_answered months) × (days ≤ 384) }
    ensures { IsOkAnd result (λ end. Wrote out.old at (year_lines system year (year_answered months) days (sheet_answered sheet)) out.new end
        × (end ≤ at + 8192)) }
{
    let at = year_line(out, at, system, year, months.count, days);
    let at = steps::lines(out, at, b"qi", 25, |i| reckoning::qi(system, year, i))?;
    let at = months::lines(out, at, months);
    let at = months::next_line(out, at, months);
    Ok(names_line(out, at, sheet, days))
}

// The page of a year.
pub(crate) fn put(out: &mut [u8], at: usize, system: u32, year: u32) -> Result<usize, Refusal>
    requires { at + 8192 ≤ length out.old }
    ensures { Ends out.old at 8192 (page_of system year) out.new result }
{
    let months = reckoning::year(system, year)?;
    let days = reckoning::days(system, year)?;
    let sheet = reckoning::sheet(system, year)?;
    year_lines(out, at, system, year, months, days.length, sheet)
}
