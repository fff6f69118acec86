// Submerged days (没日), each of a qi, and extinguished days (灭日), each of a new moon, by the systems that have them:
// Guantian and Jiyuan. Each is answered as its distance from the day of its qi or new moon.
#![tactic(auto)]

ghost use Rattle.std.specs.Prelude.{◌≡◌};
ghost use Rattle.submerged_extinguished.specs.Answers.{submerged_of, extinguished_days_of, extinguished_of};
ghost use Rattle.submerged_extinguished.specs.Outcomes.{SubmergedOutcome, ExtinguishedOutcome};
ghost use Rattle.submerged_extinguished.specs.Told.{told_day, told_moons};

use data::{DayDistance, ExtinguishedDays};
use reckoning::refusal::{Refusal, outside};

pub mod data;
mod distances;
mod moons;
mod rules;

// The submerged day of qi i of a year, i from 0 to 24. Refused System, then Year, then Step.
pub fn submerged(system: u32, year: u32, i: u32) -> Result<DayDistance, Refusal>
    ensures { (told_day result ≡ submerged_of system year i) × SubmergedOutcome system year i (told_day result) }
{
    let ruled = rules::with_rule(system)?;
    let qi = reckoning::qi(system, year, i)?;
    Ok(DayDistance {
        day: qi.day,
        distance: distances::submerged(ruled, qi.parts, qi.units),
    })
}

// The extinguished days of a year. Refused System, then Year.
pub fn extinguished_days(system: u32, year: u32) -> Result<ExtinguishedDays, Refusal>
    ensures { told_moons result ≡ extinguished_days_of system year }
{
    let ruled = rules::with_rule(system)?;
    let days = reckoning::days(system, year)?;
    let count = moons::months_in(days.length);
    Ok(moons::of_months(ruled, days.head, count))
}

// The extinguished day of the new moon at a place of a year, from 1. Refused System, then Year, then Day for a place that
// the year lacks.
pub fn extinguished(system: u32, year: u32, place: u32) -> Result<DayDistance, Refusal>
    ensures { (told_day result ≡ extinguished_of system year place) × ExtinguishedOutcome system year place (told_day result) }
{
    let days = extinguished_days(system, year)?;
    if outside(1, days.count as u32, place) {
        return Err(Refusal::Day);
    }
    Ok(days.moons[place as usize - 1])
}
