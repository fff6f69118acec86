// Pages for people: of a year, with its qi, its months, and the names of its days; of its pentads; and the line of the
// pentad in force on a day.
//
// Each is put into an output at a place, or the line of its refusal; where too few bytes are left there, the output and
// the place stay as they are.
#![tactic(auto)]

ghost use Rattle.std.specs.Prelude.{◌≡◌, MatchResult};
ghost use Rattle.reckoning.specs.RefusalNumbers.{number_of};
ghost use Rattle.text.specs.Piece.{refused_line};
ghost use Rattle.text.specs.Put.{Put};
ghost use Rattle.pages.specs.Page.{page_of};
ghost use Rattle.pages.specs.PentadPages.{pentads_page, pentad_line};

use calendar::data::RegisterDay;
use reckoning::refusal::Refusal;

mod months;
mod names;
mod pentads;
mod steps;
mod whole;

// The end of what was put, or of the line of its refusal.
fn or_refused(out: &mut [u8], at: usize, end: Result<usize, Refusal>) -> usize
    ensures { MatchResult end (λ end. (out.new ≡ out.old) × (result ≡ end))
        (λ refusal. Put out.old at 19 (refused_line (number_of refusal)) out.new result) }
{
    match end {
        Ok(end) => end,
        Err(refusal) => text::refused(out, at, refusal.number()),
    }
}

// The page of a year.
pub fn page(out: &mut [u8], at: usize, system: u32, year: u32) -> usize
    ensures { Put out.old at 8192 (page_of system year) out.new result }
{
    if text::is_short(out.len(), at, 8192) {
        return at;
    }
    let end = whole::put(out, at, system, year);
    or_refused(out, at, end)
}

// The page of a year's pentads.
pub fn pentads_page(out: &mut [u8], at: usize, system: u32, year: u32) -> usize
    ensures { Put out.old at 4608 (pentads_page system year) out.new result }
{
    if text::is_short(out.len(), at, 4608) {
        return at;
    }
    let end = pentads::page(out, at, system, year);
    or_refused(out, at, end)
}

// The line of the pentad in force at the end of a day.
pub fn pentad_line(out: &mut [u8], at: usize, system: u32, day: RegisterDay) -> usize
    ensures { Put out.old at 35 (pentad_line system day.0) out.new result }
{
    if text::is_short(out.len(), at, 35) {
        return at;
    }
    let end = pentads::line(out, at, system, day);
    or_refused(out, at, end)
}
