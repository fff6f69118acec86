// The places where two years differ.
ghost use Rattle.std.specs.Prelude.{◌≡◌, ◌<◌, pos, ◌-ℤ◌};
ghost use Rattle.reckoning.specs.Told.{year_answered};
ghost use Rattle.comparison.specs.Comparisons.{unused, listing};
ghost use Rattle.comparison.specs.Months.{month_at, difference_told};
ghost use Rattle.comparison.specs.Told.{comparison_answered};

use crate::data::{Comparison, Difference, Listed};
use calendar::data::RegisterDay;
use reckoning::data::Year;

// What two months of one place are compared by.
#[derive(Clone, Copy, PartialEq, Eq)]
struct Month {
    number: u8,
    leap: u8,
    head: RegisterDay,
}

// The month that a year has at index i, from 0: that of place i + 1.
fn month_at(year: &Year, i: usize) -> Option<Month>
    requires { i < 13 }
    ensures { result ≡ month_at (year_answered year.now) i }
{
    if year.count as usize <= i {
        return None;
    }
    Some(Month {
        number: year.numbers[i],
        leap: year.leaps[i],
        head: year.heads[i],
    })
}

// The second head less the first.
fn days_between(first: RegisterDay, second: RegisterDay) -> Difference
    ensures { result ≡ Difference.Days (pos second.0 -ℤ pos first.0) }
{
    let days = second.0 as i64 - first.0 as i64;
    Difference::Days(days)
}

// How the two differ there, if they do.
fn difference_at(first: &Year, second: &Year, i: usize) -> Option<Difference>
    requires { i < 13 }
    ensures { result ≡ difference_told (year_answered first.now) (year_answered second.now) i }
{
    match (month_at(first, i), month_at(second, i)) {
        (Some(month), Some(other)) if month == other => None,
        (Some(month), Some(other)) => Some(days_between(month.head, other.head)),
        (Some(_), None) => Some(Difference::SecondLacks),
        (None, Some(_)) => Some(Difference::FirstLacks),
        (None, None) => None,
    }
}

// An entry that is not used.
fn unused() -> Listed
    ensures { result ≡ unused }
{
    Listed {
        place: 0,
        difference: Difference::Days(0),
    }
}

// The places where two years differ.
pub(crate) fn list(first: &Year, second: &Year) -> Comparison
    ensures { comparison_answered result ≡ listing (year_answered first.now) (year_answered second.now) }
{
    let mut places = [unused(); 13];
    let mut count = 0;
    for i in 0..13 {
        if let Some(difference) = difference_at(first, second, i) {
            places[count] = Listed {
                place: i as u8 + 1,
                difference,
            };
            count += 1;
        }
    }
    Comparison {
        count: count as u8,
        places,
    }
}
