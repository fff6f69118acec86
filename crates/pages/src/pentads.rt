// The page of a year's pentads, and the line of the pentad in force on a day.
ghost use Rattle.std.specs.Prelude.{◌+◌, ◌≤◌, length};
ghost use Rattle.text.specs.Wrote.{Wrote};
ghost use Rattle.pages.specs.PageEnds.{Ends};
ghost use Rattle.pages.specs.PentadPages.{pentads_page, in_force_line, pentad_line};

use crate::steps;
use calendar::data::RegisterDay;
use reckoning::refusal::Refusal;

// The pentads of a year. A refusal of its first is one of the year.
pub(crate) fn page(out: &mut [u8], at: usize, system: u32, year: u32) -> Result<usize, Refusal>
    requires { at + 4608 ≤ length out.old }
    ensures { Ends out.old at 4608 (pentads_page system year) out.new result }
{
    reckoning::pentad(system, year, 0)?;
    let at = text::title(out, at, b"pentads ", system, year);
    steps::lines(
        out,
        at,
        b"pentad",
        72,
        |i| reckoning::pentad(system, year, i),
    )
}

// A day, and the pentad in force at its end with the system's letter and its year.
fn in_force_line(out: &mut [u8], at: usize, day: u32, system: u32, year: u32, pentad: u32) -> usize
    requires { at + 35 ≤ length out.old }
    ensures { Wrote out.old at (in_force_line day system year pentad) out.new result × (result ≤ at + 35) }
{
    let letter = [b' ', text::letter_of(system)];
    let numbers = [year, pentad];
    let at = text::number(out, at, day);
    let at = text::word(out, at, &letter);
    text::line(out, at, b"", &numbers)
}

// The pentad in force on a day.
pub(crate) fn line(
    out: &mut [u8],
    at: usize,
    system: u32,
    day: RegisterDay,
) -> Result<usize, Refusal>
    requires { at + 35 ≤ length out.old }
    ensures { Ends out.old at 35 (pentad_line system day.0) out.new result }
{
    let found = reckoning::pentad_in_force(system, day)?;
    Ok(in_force_line(out, at, day.0, system, found.year, found.pentad))
}
