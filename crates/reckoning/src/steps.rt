// The equal steps of a year.
ghost use Rattle.std.specs.Prelude.{◌≡◌, ◌%◌, ◌^◌, ◌<◌};
ghost use Rattle.calendar.specs.Systems.{years_elapsed};
ghost use Rattle.reckoning.specs.Requests.{step_in};
ghost use Rattle.reckoning.specs.Told.{moment_answered};
ghost use Rattle.reckoning.specs.WordBounds.{StepFits};

use crate::calendars::Accepted;
use crate::data::Moment;

// What is left of x after whole `by`s.
fn rest(x: u64, by: u64) -> u32
    requires { (0 < by) × (by < 2 ^ 32) }
    ensures { result ≡ x % by }
{
    (x % by) as u32
}

impl Accepted {
    // Step i of the year, of `steps` equal ones, in units of which a part has `units`, so that nothing is rounded.
    pub(crate) fn step(self, steps: u64, units: u64, i: u32) -> Moment
        requires { StepFits self.calendar.c steps units (years_elapsed self.calendar.c self.year) i }
        ensures { moment_answered result ≡ step_in steps units i self.calendar.c (years_elapsed self.calendar.c self.year) }
    {
        let c = self.calendar.c;
        let n = self.calendar.years_elapsed(self.year);
        let moment = n * c.year * units + i as u64 * (c.year * units / steps);
        let parts = moment / units;
        Moment {
            day: self.calendar.register_day(parts / c.solar),
            parts: rest(parts, c.solar),
            units: rest(moment, units),
        }
    }
}
