// The requests by system and year: qi, pentad, months, days, day sheet and head; one month; one day by its ordinal; the
// date, the pentad in force and the name of a day.
//
// System, year, qi and pentad number come as 32 bits, so that no number is cut before it can be refused.
#![tactic(auto)]

ghost use Rattle.std.specs.Prelude.{◌≡◌, Err};
ghost use Rattle.calendar.specs.Systems.{constants_of};
ghost use Rattle.calendar.specs.SixtyDayName.{name_of};
ghost use Rattle.reckoning.specs.RefusalNumbers.{system_refused};
ghost use Rattle.reckoning.specs.Scope.{SystemInScope};
ghost use Rattle.reckoning.specs.ComputedRefusals.{year_refusal};
ghost use Rattle.reckoning.specs.Requests.{qi_of, pentad_of, year_of, sheet_of, days_of, year_head_of};
ghost use Rattle.reckoning.specs.Requests.{answer_unless, no_month, month_silent, month_of, ordinal_day_of, date_of, pentad_in_force};
ghost use Rattle.reckoning.specs.Told.{told_moment, told_year, told_sheet, told_days, told_year_head, told_month, told_ordinal_day, told_date, told_pentad};

use calendar::data::{Constants, DayName, Ordinal, RegisterDay};
use calendar::systems::{System, guantian, jingchu, jiyuan};
use calendars::{Accepted, Calendar};
use data::{Date, Days, Moment, Month, OrdinalDay, PentadInForce, Sheet, Year};
use refusal::Refusal;

mod asked;
mod calendars;
mod closed_forms;
pub mod data;
mod dates;
mod leap_months;
mod month_spans;
mod months;
mod names;
mod ordinals;
mod pentads;
pub mod refusal;
mod steps;
mod year_days;
mod year_heads;

// Qi i of a year, i from 0 (the winter solstice) to 24 (that of the year after).
pub fn qi(system: u32, year: u32, i: u32) -> Result<Moment, Refusal>
    ensures { told_moment result ≡ qi_of system year i }
{
    let asked = asked::of_step(system, year, 24, i)?;
    Ok(asked.step(24, asked.calendar.c.units, i))
}

// Pentad p of a year, p from 0 (the winter solstice) to 71.
pub fn pentad(system: u32, year: u32, p: u32) -> Result<Moment, Refusal>
    ensures { told_moment result ≡ pentad_of system year p }
{
    let asked = asked::of_step(system, year, 71, p)?;
    Ok(asked.step(72, asked.calendar.c.denominator, p))
}

// The months of a year.
pub fn year(system: u32, year: u32) -> Result<Year, Refusal>
    ensures { told_year result ≡ year_of system year }
{
    let asked = asked::of_year(system, year)?;
    Ok(asked.months())
}

// The day sheet of a year.
pub fn sheet(system: u32, year: u32) -> Result<Sheet, Refusal>
    ensures { told_sheet result ≡ sheet_of system year }
{
    let asked = asked::of_year(system, year)?;
    Ok(asked.sheet())
}

// The days of a year.
pub fn days(system: u32, year: u32) -> Result<Days, Refusal>
    ensures { told_days result ≡ days_of system year }
{
    let asked = asked::of_year(system, year)?;
    Ok(asked.days())
}

// Below are what a citation asks (a month, a day by its ordinal, a date), the head that the second stands on, and the
// pentad in force.

// What a system's constants answer. The systems are named one by one, so that the compiler knows the constants and need
// not divide by variables: a system more is an arm more.
#[inline(always)]
fn by_system<A, F: FnOnce(Constants) -> Result<A, Refusal>>(
    system: u32,
    answer: F,
) -> Result<A, Refusal>
    requires { F.pre answer (constants_of system) }
    ensures answered { SystemInScope system → F.post answer (constants_of system) result }
    ensures refused { (SystemInScope system → ⊥) → result ≡ Err system_refused }
{
    match System::try_from(system)? {
        System::Guantian => answer(guantian()),
        System::Jiyuan => answer(jiyuan()),
        System::Jingchu => answer(jingchu()),
    }
}

// The head of a year, reckoned even where it is printed: so the storing step asks for it since the time that a read from
// the page took longer there. Now it would take less (docs/DECISIONS.md, Q-5).
pub fn reckoned_head(system: u32, year: u32) -> Result<RegisterDay, Refusal>
    ensures { told_year_head result ≡ year_head_of system year }
{
    by_system(
        system,
        |c| Calendar::of(system, c).head_of_common_year(year),
    )
}

// The month of a year with a number and a leap mark, as `month` has it, but with no leap month told.
fn month_found(system: u32, year: u32, number: u32, leap: u32) -> Result<Month, Refusal>
    ensures { told_month result ≡ answer_unless (year_refusal system year) system year (month_silent number leap) no_month }
{
    // Not by `by_system`: so long a closure the compiler does not copy to each system's constants, so that it would have to
    // divide by variables.
    match System::try_from(system)? {
        System::Guantian => Calendar::of(system, guantian()).month_of_common_year(
            year, number, leap,
        ),
        System::Jiyuan => Calendar::of(system, jiyuan()).month_of_common_year(year, number, leap),
        System::Jingchu => Calendar::of(system, jingchu()).month_of_common_year(year, number, leap),
    }
}

// The month of a year with a number and a leap mark; refused Month where the number is not 1 to 12 or the mark not 0 or
// 1, and then NotLeap, with the number of the year's leap month, where that month is not leap.
pub fn month(system: u32, year: u32, number: u32, leap: u32) -> Result<Month, Refusal>
    ensures { told_month result ≡ month_of system year number leap }
{
    match month_found(system, year, number, leap) {
        Err(Refusal::NotLeap(_)) => by_system(
            system,
            |c| Err(Refusal::NotLeap(Accepted::of(system, c, year).leap_number())),
        ),
        Err(refusal) => Err(refusal),
        Ok(month) => Ok(month),
    }
}

// The day of a year with an ordinal; refused Day where the year has no such day. Head and day are found one after the
// other: both together would be too long for the compiler to copy them to each system's constants.
pub fn ordinal_day(system: u32, year: u32, ordinal: Ordinal) -> Result<OrdinalDay, Refusal>
    ensures { told_ordinal_day result ≡ ordinal_day_of system year ordinal.0 }
{
    let head = reckoned_head(system, year)?;
    if ordinal.0 == 0 {
        return Err(Refusal::Day);
    }
    by_system(
        system,
        |c| Accepted::of(system, c, year).day_counted(head, ordinal),
    )
}

// The date of a register day; refused Day outside years 1 to 3000.
pub fn date(system: u32, day: RegisterDay) -> Result<Date, Refusal>
    ensures { told_date result ≡ date_of system day.0 }
{
    by_system(system, |c| Calendar::of(system, c).date(day))
}

// The pentad in force at the end of a register day; refused Day outside years 1 to 3000, counted from solstice to
// solstice.
pub fn pentad_in_force(system: u32, day: RegisterDay) -> Result<PentadInForce, Refusal>
    ensures { told_pentad result ≡ pentad_in_force system day.0 }
{
    by_system(system, |c| Calendar::of(system, c).pentad_in_force(day))
}

// The sixty-day name of a register day.
pub fn day_name(day: RegisterDay) -> DayName
    ensures { result ≡ record { 0 = name_of day.0 } }
{
    DayName(names::name_of(day.0 as u64))
}
