// Where two systems differ in a year, month by month.
#![tactic(auto)]

ghost use Rattle.std.specs.Prelude.{◌≡◌};
ghost use Rattle.comparison.specs.Comparisons.{comparison_of};
ghost use Rattle.comparison.specs.Told.{told_comparison};
ghost use Rattle.comparison.specs.WhereSystemsDiffer.{EachSays};

use calendar::systems::System;
use data::Comparison;
use reckoning::refusal::Refusal;

pub mod data;
mod places;

// Compares the months of a year by two systems, place by place. Refused System for either system, then Year.
pub fn compare(first: u32, second: u32, year: u32) -> Result<Comparison, Refusal>
    ensures { (told_comparison result ≡ comparison_of first second year) × EachSays first second year (told_comparison result) }
{
    // `year` judges its own system: here each is judged before the year.
    System::try_from(first)?;
    System::try_from(second)?;
    let of_first = reckoning::year(first, year)?;
    let of_second = reckoning::year(second, year)?;
    Ok(places::list(&of_first, &of_second))
}
