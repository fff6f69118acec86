// A row of the list.
ghost use Rattle.std.specs.Prelude.{◌≡◌, not, T};
ghost use Rattle.std.specs.Float.Ieee.{is_nan};
ghost use Rattle.exchange.specs.Row.{day_field, pattern_field, row_of};

use calendar::data::RegisterDay;
use little_endian::{bytes4, bytes8, le32, le64};

// Bytes in a row.
pub(crate) const SIZE: usize = 13;

pub(crate) type Row = [u8; SIZE];

// Tags: how a time is written.
pub(crate) const FRACTION: u8 = 1;

pub(crate) const PARTS: u8 = 2;

pub(crate) fn day(row: &Row) -> RegisterDay
    ensures { result.0 ≡ day_field row.now }
{
    RegisterDay(le32(row[0], row[1], row[2], row[3]))
}

// The eight bytes of the time as one number: the bit pattern of a fraction, or the parts with the filler above them.
pub(crate) fn time(row: &Row) -> u64
    ensures { result ≡ pattern_field row.now }
{
    le64(
        row[5], row[6], row[7], row[8], row[9], row[10], row[11], row[12],
    )
}

// The row of a fraction.
pub(crate) fn of_fraction(day: RegisterDay, fraction: f64) -> Row
    requires { T (not (is_nan fraction)) }
    ensures { result ≡ row_of day.0 fraction }
{
    let day = bytes4(day.0);
    let time = bytes8(f64::to_bits(fraction));
    [
        day[0], day[1], day[2], day[3], FRACTION, time[0], time[1], time[2], time[3], time[4],
        time[5], time[6], time[7],
    ]
}
