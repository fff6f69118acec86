// The name of a day, as a number is written.
ghost use Rattle.std.specs.Prelude.{◌≡◌};
ghost use Rattle.calendar.specs.SixtyDayName.{name_of};

use calendar::data::RegisterDay;
use little_endian::wide;

// The sixty-day name of a day.
pub(crate) fn name(day: RegisterDay) -> u32
    ensures { result ≡ name_of day.0 }
{
    wide(reckoning::day_name(day).0)
}
