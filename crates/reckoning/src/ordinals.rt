// The day of a year by its ordinal.
ghost use Rattle.std.specs.Prelude.{◌≡◌, ◌<◌};
ghost use Rattle.calendar.specs.Systems.{years_elapsed};
ghost use Rattle.calendar.specs.ClosedForms.{register_head};
ghost use Rattle.reckoning.specs.Requests.{ordinal_day_in};
ghost use Rattle.reckoning.specs.Told.{told_ordinal_day};

use crate::calendars::Accepted;
use crate::closed_forms::number_of;
use crate::data::OrdinalDay;
use crate::refusal::Refusal;
use calendar::data::{Ordinal, RegisterDay};

impl Accepted {
    // The day of the year with an ordinal, counted from the year's head. The last middle qi of its month tells whether the
    // year has it, so that the next year's head is not reckoned.
    pub(crate) fn day_counted(
        self,
        head: RegisterDay,
        ordinal: Ordinal,
    ) -> Result<OrdinalDay, Refusal>
        requires { (head ≡ register_head self.calendar.c (years_elapsed self.calendar.c self.year)) × (0 < ordinal.0) }
        ensures { told_ordinal_day result ≡ ordinal_day_in ordinal.0 self.calendar.c (years_elapsed self.calendar.c self.year) }
    {
        let calendar = self.calendar;
        let n = calendar.years_elapsed(self.year);
        let d = calendar.count_day(head) + ordinal.0 as u64 - 1;
        let m = calendar.month_of_day(d);
        let last = calendar.last_qi(m);
        let j = last.qi - 12 * n;
        if 12 <= j {
            return Err(Refusal::Day);
        }
        let place = (d - m.head + 1) as u8;
        Ok(OrdinalDay {
            day: calendar.register_day(d),
            month: number_of(j),
            leap: last.leap,
            place,
        })
    }
}
