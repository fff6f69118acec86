// The days of one year.
ghost use Rattle.std.specs.Prelude.{◌≡◌, ◌-◌, ◌≤◌};
ghost use Rattle.calendar.specs.Systems.{years_elapsed};
ghost use Rattle.reckoning.specs.Requests.{days_in};
ghost use Rattle.reckoning.specs.Told.{days_answered};

use crate::calendars::Accepted;
use crate::data::Days;
use calendar::data::RegisterDay;

// The days from a year's head to the next year's.
fn between(head: RegisterDay, next: RegisterDay) -> Days
    requires { (head.0 ≤ next.0) × (next.0 - head.0 ≤ 384) }
    ensures { result ≡ record { head = head; length = next.0 - head.0 } }
{
    Days {
        head,
        length: (next.0 - head.0) as u16,
    }
}

impl Accepted {
    // The days of the year.
    pub(crate) fn days(self) -> Days
        ensures { days_answered result ≡ days_in self.calendar.c (years_elapsed self.calendar.c self.year) }
    {
        let head = self.calendar.head_of_year(self.year);
        let next = self.calendar.head_of_year(self.year + 1);
        between(head, next)
    }
}
