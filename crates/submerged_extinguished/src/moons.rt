// The new moons of a year, each from the one before it, with no division.
ghost use Rattle.std.specs.Prelude.{◌≡◌};
ghost use Rattle.calendar.specs.Systems.{count_day, constants_of};
ghost use Rattle.calendar.specs.ClosedForms.{month_of_day};
ghost use Rattle.reckoning.specs.WordBounds.{MonthsInRegister};
ghost use Rattle.submerged_extinguished.specs.Answers.{unused, extinguished_from};
ghost use Rattle.submerged_extinguished.specs.Moons.{moon_at, moon_after, extinguished_on, months_in};
ghost use Rattle.submerged_extinguished.specs.Told.{moons_answered};
ghost use Rattle.submerged_extinguished.specs.Rules.{ruled_number, rule_of};
ghost use Rattle.submerged_extinguished.specs.WordBounds.{HeadFits, MoonFits};

use crate::data::{DayDistance, ExtinguishedDays};
use crate::rules;
use crate::rules::{Numbers, Ruled};
use calendar::data::RegisterDay;

// A new moon: its register day and its remainder.
#[derive(Clone, Copy)]
pub(crate) struct Moon {
    pub day: u32,
    pub remainder: u64,
}

// A place that is not used.
fn unused() -> DayDistance
    ensures { result ≡ unused }
{
    DayDistance {
        day: RegisterDay(0),
        distance: None,
    }
}

impl Numbers {
    // The new moon of a month, by the month's head. A division of the day's last part by months leaves over what is left
    // of the day after the new moon. The count day is computed here, since `count_day` of reckoning is that crate's own.
    fn first_moon(self, head: RegisterDay) -> Moon
        requires { HeadFits self.constants head.0 }
        ensures { result ≡ moon_at self.constants (month_of_day self.constants (count_day self.constants head.0)) }
    {
        let c = self.constants;
        let day = head.0 as u64 + c.anchor - c.epoch;
        let left = ((day + 1) * c.lunar - 1) % c.month;
        let remainder = c.lunar - 1 - left;
        Moon {
            day: head.0,
            remainder,
        }
    }

    // The next one. Thirty days later the remainder has lost the shortfall; where it is less, the day is the one before.
    #[tactic(auto, unfolding(crate::specs::Moons::moon_after))]
    fn next_moon(self, moon: Moon) -> Moon
        requires { MoonFits self.constants moon }
        ensures { result ≡ moon_after self.constants self.rule moon }
    {
        let shortfall = self.rule.shortfall;
        if moon.remainder < shortfall {
            return Moon {
                day: moon.day + 29,
                remainder: moon.remainder + self.constants.lunar - shortfall,
            };
        }
        Moon {
            day: moon.day + 30,
            remainder: moon.remainder - shortfall,
        }
    }

    // The extinguished day of a new moon.
    fn extinguished_on(self, moon: Moon) -> DayDistance
        ensures { result ≡ extinguished_on self.rule moon }
    {
        DayDistance {
            day: RegisterDay(moon.day),
            distance: self.extinguished(moon.remainder),
        }
    }

    // Those of `count` months, of which the first has this head.
    fn extinguished_days(self, head: RegisterDay, count: usize) -> ExtinguishedDays
        requires { HeadFits self.constants head.0
            × MonthsInRegister self.constants (month_of_day self.constants (count_day self.constants head.0)) count }
        ensures { moons_answered result ≡ extinguished_from self.constants self.rule (month_of_day self.constants (count_day self.constants head.0)) count }
    {
        let mut moons = [unused(); 13];
        let mut moon = self.first_moon(head);
        for i in 0..count {
            moons[i] = self.extinguished_on(moon);
            moon = self.next_moon(moon);
        }
        ExtinguishedDays {
            count: count as u8,
            moons,
        }
    }
}

// How many months a year of so many days has.
pub(crate) fn months_in(length: u16) -> usize
    ensures { result ≡ months_in length }
{
    if length < 383 { 12 } else { 13 }
}

// Those of a system's months. The systems are named one by one here too (see `distances::submerged`).
pub(crate) fn of_months(ruled: Ruled, head: RegisterDay, count: usize) -> ExtinguishedDays
    requires { HeadFits (constants_of (ruled_number ruled)) head.0
        × MonthsInRegister (constants_of (ruled_number ruled)) (month_of_day (constants_of (ruled_number ruled)) (count_day (constants_of (ruled_number ruled)) head.0)) count }
    ensures { moons_answered result ≡ extinguished_from (constants_of (ruled_number ruled)) (rule_of (ruled_number ruled)) (month_of_day (constants_of (ruled_number ruled)) (count_day (constants_of (ruled_number ruled)) head.0)) count }
{
    match ruled {
        Ruled::Guantian => rules::guantian().extinguished_days(head, count),
        Ruled::Jiyuan => rules::jiyuan().extinguished_days(head, count),
    }
}
