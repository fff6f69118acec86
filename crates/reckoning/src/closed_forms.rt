// Years, days, steps and numbers, over the constants of one system. The bounds that each function asks for keep its
// numbers within 64 bits; every year in scope meets them, and every register day from the epoch on.
ghost use Rattle.std.specs.Prelude.{◌≡◌, false, ◌%◌, ◌<◌, ◌^◌};
ghost use Rattle.calendar.specs.Systems.{years_elapsed, register_day, count_day, before_epoch};
ghost use Rattle.calendar.specs.Month.{month_head, number_of};
ghost use Rattle.calendar.specs.ClosedForms.{day_of_qi, held_by};
ghost use Rattle.reckoning.specs.CommonYears.{common_year, out_of_scope};
ghost use Rattle.reckoning.specs.LastSteps.{last_step};
ghost use Rattle.reckoning.specs.WordBounds.{LastStepFits, InRegister};

use crate::calendars::Calendar;
use crate::data::NONE_HELD;
use calendar::data::RegisterDay;

// A step counted on from the epoch, and what the division that finds it leaves over.
#[derive(Clone, Copy)]
pub(crate) struct LastStep {
    pub step: u64,
    pub left: u64,
}

impl Calendar {
    // Years elapsed, N, at a common year.
    pub(crate) fn years_elapsed(self, year: u32) -> u64
        ensures { result ≡ years_elapsed self.c year }
    {
        self.c.elapsed + year as u64 - self.c.common
    }

    // The register day of a count day.
    pub(crate) fn register_day(self, d: u64) -> RegisterDay
        requires { InRegister self.c d }
        ensures { result ≡ record { 0 = register_day self.c d } }
    {
        RegisterDay((d + self.c.epoch - self.c.anchor) as u32)
    }

    // Whether a register day has no count day, since it lies before the epoch.
    pub(crate) fn before_epoch(self, day: RegisterDay) -> bool
        ensures { result ≡ before_epoch self.c day.0 }
    {
        day.0 as u64 + self.c.anchor < self.c.epoch
    }

    // The count day of a register day.
    pub(crate) fn count_day(self, day: RegisterDay) -> u64
        requires { before_epoch self.c day.0 ≡ false }
        ensures { result ≡ count_day self.c day.0 }
    {
        day.0 as u64 + self.c.anchor - self.c.epoch
    }

    // The first count day of month k.
    pub(crate) fn month_head(self, k: u64) -> u64
        requires { k < 2 ^ 32 }
        ensures { result ≡ month_head self.c k }
    {
        k * self.c.month / self.c.lunar
    }

    // The count day of middle qi g, counted on from the epoch.
    pub(crate) fn day_of_qi(self, g: u64) -> u64
        requires { g < 2 ^ 32 }
        ensures { result ≡ day_of_qi self.c g }
    {
        g * self.c.year / (12 * self.c.solar)
    }

    // The last of `steps` equal steps a year on a day before d. Parts are cut into `steps` pieces each: a step has Y of
    // them then, and a day D times `steps`, so that all is whole.
    pub(crate) fn last_step(self, steps: u64, d: u64) -> LastStep
        requires { LastStepFits self.c steps d }
        ensures { result ≡ last_step self.c steps d }
    {
        let end = d * (steps * self.c.solar) - 1;
        LastStep {
            step: end / self.c.year,
            left: end % self.c.year,
        }
    }

    // Whether the common year at n years elapsed is not one of years 1 to 3000.
    pub(crate) fn out_of_scope(self, n: u64) -> bool
        requires { n < 2 ^ 62 }
        ensures { result ≡ out_of_scope self.c n }
    {
        let year = n + self.c.common;
        year <= self.c.elapsed || self.c.elapsed + 3000 < year
    }

    // The common year at n years elapsed.
    pub(crate) fn common_year(self, n: u64) -> u32
        requires { out_of_scope self.c n ≡ false }
        ensures { result ≡ common_year self.c n }
    {
        (n + self.c.common - self.c.elapsed) as u32
    }
}

// The number that middle qi j of a year gives its month.
pub(crate) fn number_of(j: u64) -> u8
    requires { j < 12 }
    ensures { result ≡ number_of j }
{
    ((j + 10) % 12 + 1) as u8
}

// The number that middle qi g, counted on from the epoch, gives its month.
pub(crate) fn number_of_qi(g: u64) -> u8
    ensures { result ≡ number_of (g % 12) }
{
    number_of(g % 12)
}

// The index of the middle qi that a month holds, by the month's leap mark and its last middle qi; NONE_HELD for a leap
// month.
pub(crate) fn held_by(leap: u8, g: u64) -> u8
    ensures { result ≡ held_by leap g }
{
    if leap == 0 {
        return (g % 12) as u8;
    }
    NONE_HELD
}
