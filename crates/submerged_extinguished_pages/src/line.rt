// The line of a qi or a new moon. It takes 34 bytes at most beside its word, a number taking ten digits.
ghost use Rattle.std.specs.Prelude.{◌+◌, ◌≤◌, length};
ghost use Rattle.text.specs.Wrote.{Wrote};
ghost use Rattle.submerged_extinguished_pages.specs.DistancePages.{distance_line};

use submerged_extinguished::data::DayDistance;

// A word, a number, and a day with the distance from it.
pub(crate) fn put(out: &mut [u8], at: usize, bytes: &[u8], number: u32, found: DayDistance) -> usize
    requires { at + (length bytes.now + 34) ≤ length out.old }
    ensures { Wrote out.old at (distance_line bytes.now number found.day.0 found.distance) out.new result
        × (result ≤ at + (length bytes.now + 34)) }
{
    let at = text::numbered(out, at, bytes, number);
    let at = text::field(out, at, found.day.0);
    text::last_field(out, at, found.distance.map(u32::from))
}
