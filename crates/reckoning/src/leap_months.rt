// The leap month of a year, found by halving.
ghost use Rattle.std.specs.Prelude.{◌≡◌, ◌+◌, ◌-◌, ◌<◌};
ghost use Rattle.calendar.specs.Systems.{years_elapsed};
ghost use Rattle.calendar.specs.LeapMonth.{leap_number, no_leap_up_to, LeapBetween};
ghost use Rattle.reckoning.specs.RefusalNumbers.{number_or_0};
ghost use Rattle.reckoning.specs.WordBounds.{FirstMonthFits, YearInRegister};

use crate::calendars::{Accepted, Calendar};
use crate::closed_forms::number_of_qi;

// Two middle qi, counted from a year's first: none of the months up to that of `low` is leap, and one up to that of
// `high` is, unless `high` is 16.
#[derive(Clone, Copy)]
struct Bounds {
    low: u64,
    high: u64,
}

impl Calendar {
    // None of the months up to that of middle qi i is leap: it falls before the end of the month i after the first.
    fn no_leap_up_to(self, n: u64, first: u64, i: u64) -> bool
        requires { FirstMonthFits self.c n first × (i < 16) }
        ensures { result ≡ no_leap_up_to self.c n i }
    {
        self.day_of_qi(12 * n + i) < self.month_head(first + i + 1)
    }

    fn halved(self, n: u64, first: u64, b: Bounds) -> Bounds
        requires { FirstMonthFits self.c n first × LeapBetween self.c n b.low b.high × (b.low + 1 < b.high) }
        ensures { LeapBetween self.c n result.low result.high × (result.high - result.low < b.high - b.low) }
    {
        let middle = (b.low + b.high) / 2;
        if self.no_leap_up_to(n, first, middle) {
            return Bounds {
                low: middle,
                high: b.high,
            };
        }
        Bounds {
            low: b.low,
            high: middle,
        }
    }

    // The last of sixteen middle qi up to whose month none is leap.
    fn last_before_leap(self, n: u64) -> u64
        requires { YearInRegister self.c n }
        ensures { LeapBetween self.c n result (result + 1) }
    {
        let first = self.first_month(n);
        let mut b = Bounds { low: 0, high: 16 };
        while b.low + 1 < b.high {
            b = self.halved(n, first.month, b);
        }
        b.low
    }
}

impl Accepted {
    // The number of the year's leap month, if it has one.
    pub(crate) fn leap_number(self) -> Option<u8>
        ensures { number_or_0 result ≡ leap_number self.calendar.c (years_elapsed self.calendar.c self.year) }
    {
        let last = self
            .calendar
            .last_before_leap(self.calendar.years_elapsed(self.year));
        if 12 <= last {
            return None;
        }
        Some(number_of_qi(last))
    }
}
