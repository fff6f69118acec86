// The page of a comparison: what is compared, and the places. It takes 34 bytes for the first line and 75 for each of
// thirteen places, at most.
ghost use Rattle.std.specs.Prelude.{◌+◌, ◌≤◌, length};
ghost use Rattle.reckoning.specs.Told.{year_answered};
ghost use Rattle.comparison.specs.Told.{comparison_answered};
ghost use Rattle.text.specs.Wrote.{Wrote};
ghost use Rattle.comparison_pages.specs.Printable.{Printable};
ghost use Rattle.comparison_pages.specs.ComparisonPage.{line_start, compare_line, place_lines, comparison_page};

use crate::place;
use comparison::compare;
use comparison::data::Comparison;
use reckoning::data::Year;

// Up to the first system's letter; `text::year` writes the second's.
fn line_start(out: &mut [u8], at: usize, first: u32) -> usize
    requires { at + 10 ≤ length out.old }
    ensures { Wrote out.old at (line_start first) out.new result × (result ≤ at + 10) }
{
    let letter = [text::letter_of(first), b' '];
    let at = text::word(out, at, b"compare ");
    text::word(out, at, &letter)
}

fn compare_line(out: &mut [u8], at: usize, first: u32, second: u32, year: u32, places: u8) -> usize
    requires { at + 34 ≤ length out.old }
    ensures { Wrote out.old at (compare_line first second year places) out.new result × (result ≤ at + 34) }
{
    let numbers = [places as u32];
    let at = line_start(out, at, first);
    let at = text::year(out, at, second, year);
    text::line(out, at, b"", &numbers)
}

fn place_lines(
    out: &mut [u8],
    start: usize,
    first: Year,
    second: Year,
    compared: Comparison,
) -> usize
    requires { (start + 975 ≤ length out.old) × Printable (comparison_answered compared) }
    ensures { Wrote out.old start (place_lines (year_answered first) (year_answered second) (comparison_answered compared)) out.new result × (result ≤ start + 975) }
{
    let mut at = start;
    for listed in &compared.places[..compared.count as usize] {
        at = place::line(out, at, first, second, *listed);
    }
    at
}

// The page of a comparison, or the line of its refusal.
pub(crate) fn put(out: &mut [u8], at: usize, first: u32, second: u32, year: u32) -> usize
    requires { at + 1024 ≤ length out.old }
    ensures { Wrote out.old at (comparison_page first second year) out.new result × (result ≤ at + 1024) }
{
    let compared = match compare(first, second, year) {
        Err(refusal) => return text::refused(out, at, refusal.number()),
        Ok(compared) => compared,
    };
    let count = compared.count;
    let at = compare_line(out, at, first, second, year, count);
    // Most years list nothing, and then no month is asked for again.
    if count == 0 {
        return at;
    }
    // A comparison that was answered has both years.
    let of_first = reckoning::year(first, year).unwrap();
    let of_second = reckoning::year(second, year).unwrap();
    place_lines(out, at, of_first, of_second, compared)
}
