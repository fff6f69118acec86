// The line of a place. Each function asks for the room that its longest text takes, a number taking ten digits.
ghost use Rattle.std.specs.Prelude.{◌≡◌, ◌+◌, ◌^◌, ◌≤◌, ◌<◌, nat_abs, length};
ghost use Rattle.reckoning.specs.Told.{year_answered};
ghost use Rattle.text.specs.Wrote.{Wrote};
ghost use Rattle.comparison_pages.specs.Printable.{SmallDays, PlacePrintable};
ghost use Rattle.comparison_pages.specs.ComparisonPage.{month_text, month_texts, days_text, difference_text, line_end, place_line};

use comparison::data::{Difference, Listed};
use reckoning::data::Year;

// The month at index i, from 0.
fn month(out: &mut [u8], at: usize, months: Year, i: usize) -> usize
    requires { (at + 23 ≤ length out.old) × (i < 13) }
    ensures { Wrote out.old at (month_text (year_answered months) i) out.new result × (result ≤ at + 23) }
{
    if months.count as usize <= i {
        return text::word(out, at, b" - -");
    }
    let head = months.heads[i];
    let number = months.numbers[i];
    let leap = months.leaps[i];
    let at = text::month(out, at, number as u32, leap);
    text::field(out, at, head.0)
}

fn both_months(out: &mut [u8], at: usize, first: Year, second: Year, i: usize) -> usize
    requires { (at + 46 ≤ length out.old) × (i < 13) }
    ensures { Wrote out.old at (month_texts (year_answered first) (year_answered second) i) out.new result × (result ≤ at + 46) }
{
    let at = month(out, at, first, i);
    month(out, at, second, i)
}

fn days(out: &mut [u8], at: usize, days: i64) -> usize
    requires { (at + 12 ≤ length out.old) × (nat_abs days < 2 ^ 32) }
    ensures { Wrote out.old at (days_text days) out.new result × (result ≤ at + 12) }
{
    let size = days.unsigned_abs() as u32;
    if days < 0 {
        let at = text::word(out, at, b" -");
        return text::number(out, at, size);
    }
    text::field(out, at, size)
}

fn difference(out: &mut [u8], at: usize, difference: Difference) -> usize
    requires { (at + 12 ≤ length out.old) × SmallDays difference }
    ensures { Wrote out.old at (difference_text difference) out.new result × (result ≤ at + 12) }
{
    match difference {
        Difference::Days(count) => days(out, at, count),
        Difference::FirstLacks => text::word(out, at, b" first"),
        Difference::SecondLacks => text::word(out, at, b" second"),
    }
}

fn line_end(out: &mut [u8], at: usize, ending: Difference) -> usize
    requires { (at + 13 ≤ length out.old) × SmallDays ending }
    ensures { Wrote out.old at (line_end ending) out.new result × (result ≤ at + 13) }
{
    let at = difference(out, at, ending);
    text::word(out, at, b"\n")
}

// The line of a place that is listed.
pub(crate) fn line(out: &mut [u8], at: usize, first: Year, second: Year, listed: Listed) -> usize
    requires { (at + 75 ≤ length out.old) × PlacePrintable listed }
    ensures { Wrote out.old at (place_line (year_answered first) (year_answered second) listed) out.new result × (result ≤ at + 75) }
{
    let place = listed.place;
    let ending = listed.difference;
    let at = text::numbered(out, at, b"place", place as u32);
    let at = both_months(out, at, first, second, place as usize - 1);
    line_end(out, at, ending)
}
