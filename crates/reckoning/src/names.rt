// The names of one year's days.
ghost use Rattle.std.specs.Prelude.{◌≡◌, ◌≤◌, ◌<◌, ◌^◌};
ghost use Rattle.calendar.specs.Systems.{years_elapsed};
ghost use Rattle.calendar.specs.SixtyDayName.{name_of};
ghost use Rattle.reckoning.specs.Requests.{sheet_in, name_at, no_names};
ghost use Rattle.reckoning.specs.Told.{sheet_answered};
ghost use Rattle.reckoning.specs.Filled.{filled};

use crate::calendars::Accepted;
use crate::data::Sheet;
use calendar::data::RegisterDay;

// The name of register day d.
pub(crate) fn name_of(d: u64) -> u8
    requires { d < 2 ^ 63 }
    ensures { result ≡ name_of d }
{
    ((d + 49) % 60 + 1) as u8
}

// The names of `length` days from register day `head` on, and 255 after them.
fn names_from(head: RegisterDay, length: usize) -> [u8; 384]
    requires { length ≤ 384 }
    ensures { result ≡ filled (name_at head.0) no_names length }
{
    let first = head.0 as u64;
    let mut names = [255u8; 384];
    for i in 0..length {
        names[i] = name_of(first + i as u64);
    }
    names
}

impl Accepted {
    // The day sheet of the year.
    pub(crate) fn sheet(self) -> Sheet
        ensures { sheet_answered result ≡ sheet_in self.calendar.c (years_elapsed self.calendar.c self.year) }
    {
        let days = self.days();
        let names = names_from(days.head, days.length as usize);
        Sheet { names }
    }
}
