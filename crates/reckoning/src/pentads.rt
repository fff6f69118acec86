// The pentad in force on a day.
ghost use Rattle.std.specs.Prelude.{◌≡◌};
ghost use Rattle.reckoning.specs.Requests.{in_force_in};
ghost use Rattle.reckoning.specs.Told.{told_pentad};

use crate::calendars::Calendar;
use crate::data::PentadInForce;
use crate::refusal::Refusal;
use calendar::data::RegisterDay;

impl Calendar {
    // The pentad in force at the end of a register day: the last on a day before the day after it. From the epoch on its
    // year tells whether the day is in scope.
    pub(crate) fn pentad_in_force(self, day: RegisterDay) -> Result<PentadInForce, Refusal>
        ensures { told_pentad result ≡ in_force_in self.c day.0 }
    {
        if self.before_epoch(day) {
            return Err(Refusal::Day);
        }
        let d = self.count_day(day);
        let last = self.last_step(72, d + 1);
        let n = last.step / 72;
        if self.out_of_scope(n) {
            return Err(Refusal::Day);
        }
        let pentad = (last.step % 72) as u32;
        Ok(PentadInForce {
            year: self.common_year(n),
            pentad,
        })
    }
}
