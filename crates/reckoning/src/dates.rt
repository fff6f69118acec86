// The date of a day.
ghost use Rattle.std.specs.Prelude.{◌≡◌};
ghost use Rattle.reckoning.specs.Requests.{date_in};
ghost use Rattle.reckoning.specs.Told.{told_date};

use crate::calendars::Calendar;
use crate::closed_forms::number_of_qi;
use crate::data::Date;
use crate::refusal::Refusal;
use calendar::data::RegisterDay;

impl Calendar {
    // The date of a register day. From the epoch on its year tells whether the day is in scope, so that no year's head is
    // reckoned.
    pub(crate) fn date(self, day: RegisterDay) -> Result<Date, Refusal>
        ensures { told_date result ≡ date_in self.c day.0 }
    {
        if self.before_epoch(day) {
            return Err(Refusal::Day);
        }
        let d = self.count_day(day);
        let m = self.month_of_day(d);
        let last = self.last_qi(m);
        let n = last.qi / 12;
        if self.out_of_scope(n) {
            return Err(Refusal::Day);
        }
        let place = (d - m.head + 1) as u8;
        Ok(Date {
            year: self.common_year(n),
            month: number_of_qi(last.qi),
            leap: last.leap,
            day: place,
        })
    }
}
