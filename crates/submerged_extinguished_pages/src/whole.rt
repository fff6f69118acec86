// The pages of a year's submerged and extinguished days: a first line, and one for each qi or new moon.
ghost use Rattle.std.specs.Prelude.{◌≡◌, ◌+◌, ◌≤◌, length};
ghost use Rattle.text.specs.Wrote.{Wrote};
ghost use Rattle.submerged_extinguished.specs.Answers.{submerged_of, answer_on};
ghost use Rattle.submerged_extinguished.specs.Told.{moons_answered};
ghost use Rattle.submerged_extinguished_pages.specs.DistancePages.{qi_told, qi_lines, submerged_page, moon_line, moon_lines, extinguished_page};

use crate::line;
use submerged_extinguished::data::{DayDistance, ExtinguishedDays};

fn qi_line(out: &mut [u8], at: usize, i: u32, answer: DayDistance) -> usize
    requires { at + 36 ≤ length out.old }
    ensures { Wrote out.old at (qi_told i (answer_on answer)) out.new result × (result ≤ at + 36) }
{
    line::put(out, at, b"qi", i, answer)
}

// Where qi 0 is answered, so is each.
fn qi_lines(out: &mut [u8], start: usize, system: u32, year: u32) -> usize
    requires { (start + 900 ≤ length out.old) × ((submerged_of system year 0).refusal ≡ 0) }
    ensures { Wrote out.old start (qi_lines system year) out.new result × (result ≤ start + 900) }
{
    let mut at = start;
    for i in 0..25 {
        let answer = submerged_extinguished::submerged(system, year, i).unwrap();
        at = qi_line(out, at, i, answer);
    }
    at
}

// The page of a year's submerged days, or the line of its refusal.
pub(crate) fn submerged(out: &mut [u8], at: usize, system: u32, year: u32) -> usize
    requires { at + 1024 ≤ length out.old }
    ensures { Wrote out.old at (submerged_page system year) out.new result × (result ≤ at + 1024) }
{
    match submerged_extinguished::submerged(system, year, 0) {
        Ok(_) => {
            let at = text::title(out, at, b"submerged ", system, year);
            qi_lines(out, at, system, year)
        }
        Err(refusal) => text::refused(out, at, refusal.number()),
    }
}

// The line of the new moon at a place, from 1.
fn moon_line(out: &mut [u8], at: usize, place: u32, moon: DayDistance) -> usize
    requires { at + 38 ≤ length out.old }
    ensures { Wrote out.old at (moon_line place moon) out.new result × (result ≤ at + 38) }
{
    line::put(out, at, b"moon", place, moon)
}

fn moon_lines(out: &mut [u8], start: usize, days: ExtinguishedDays) -> usize
    requires { (start + 494 ≤ length out.old) × (days.count ≤ 13) }
    ensures { Wrote out.old start (moon_lines (moons_answered days)) out.new result × (result ≤ start + 494) }
{
    let mut at = start;
    for (i, moon) in days.moons[..days.count as usize].iter().enumerate() {
        at = moon_line(out, at, i as u32 + 1, *moon);
    }
    at
}

// The page of a year's extinguished days, or the line of its refusal.
pub(crate) fn extinguished(out: &mut [u8], at: usize, system: u32, year: u32) -> usize
    requires { at + 1024 ≤ length out.old }
    ensures { Wrote out.old at (extinguished_page system year) out.new result × (result ≤ at + 1024) }
{
    match submerged_extinguished::extinguished_days(system, year) {
        Ok(days) => {
            let at = text::title(out, at, b"extinguished ", system, year);
            moon_lines(out, at, days)
        }
        Err(refusal) => text::refused(out, at, refusal.number()),
    }
}
