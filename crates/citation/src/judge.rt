// The judgement of a citation: its refusal, or the day that it names and its stored record.
ghost use Rattle.std.specs.Prelude.{◌≡◌, true, false, MatchOption, Err, ◌<◌, ◌^◌, length};
ghost use Rattle.citation.specs.Store.{accept, judge_register_day, judge_ordinal, judge_day, days_to_name, judge_name};
ghost use Rattle.citation.specs.Store.{judge_kind, judge_of};
ghost use Rattle.citation.specs.JudgeParts.{Whole, Found, is_whole, kind_number};
ghost use Rattle.citation.specs.Record.{kind_of};
ghost use Rattle.citation.specs.Told.{judgement_answered, told_judgement};

use crate::output::Record;
use calendar::data::{DayName, Ordinal, RegisterDay};
use little_endian::{le16, le32};
use reckoning::data::Month;
use reckoning::refusal::{Refusal, outside};

// The day that an accepted citation names, and its stored record.
#[derive(Clone, Copy)]
pub struct Judgement {
    pub day: RegisterDay,
    pub stored: Record,
}

// A month as a record has it.
#[derive(Clone, Copy)]
struct MonthCited {
    system: u8,
    year: u16,
    number: u8,
    leap: u8,
}

// A day, the month with it, and its place in the month.
fn accept(day: RegisterDay, cited: MonthCited, place: u8) -> Judgement
    ensures { judgement_answered result ≡ accept day.0 cited.system cited.year cited.number cited.leap place }
{
    let [low, high] = cited.year.to_le_bytes();
    Judgement {
        day,
        stored: [
            10,
            0,
            1,
            0,
            cited.system,
            low,
            high,
            cited.number,
            cited.leap,
            place,
        ],
    }
}

// Kind 3.
fn judge_ordinal(system: u8, year: u16, ordinal: Ordinal) -> Result<Judgement, Refusal>
    ensures { told_judgement result ≡ judge_ordinal system year ordinal.0 }
{
    let d = reckoning::ordinal_day(system as u32, year as u32, ordinal)?;
    let cited = MonthCited {
        system,
        year,
        number: d.month,
        leap: d.leap,
    };
    Ok(accept(d.day, cited, d.place))
}

// Kind 4.
fn judge_register_day(system: u8, day: RegisterDay) -> Result<Judgement, Refusal>
    ensures { told_judgement result ≡ judge_register_day system day.0 }
{
    let d = reckoning::date(system as u32, day)?;
    let cited = MonthCited {
        system,
        year: d.year as u16,
        number: d.month,
        leap: d.leap,
    };
    Ok(accept(day, cited, d.day))
}

// Kind 1, in its month.
fn judge_day(m: Month, cited: MonthCited, day: u8) -> Result<Judgement, Refusal>
    requires { Found m cited.system cited.year cited.number cited.leap }
    ensures { told_judgement result ≡ judge_day cited.system cited.year cited.number cited.leap day }
{
    if outside(1, m.length as u32, day as u32) {
        return Err(Refusal::Day);
    }
    Ok(accept(RegisterDay(m.head.0 + day as u32 - 1), cited, day))
}

// Sixty times a number, and more than any head.
const SIXTIES: u32 = 2_147_483_700;

// Days from a month's head to the next day with a name. Day r has the name (r + 49) % 60 + 1, so that they are the
// remainder of name + 10 - head; the sixties keep that above 0.
fn days_to_name(head: RegisterDay, name: DayName) -> u32
    requires { head.0 < 2 ^ 31 }
    ensures { result ≡ days_to_name head.0 name.0 }
{
    (name.0 as u32 + 10 + SIXTIES - head.0) % 60
}

// Kind 5, in its month.
fn judge_name(m: Month, cited: MonthCited, name: DayName) -> Result<Judgement, Refusal>
    requires { Found m cited.system cited.year cited.number cited.leap }
    ensures { told_judgement result ≡ judge_name cited.system cited.year cited.number cited.leap name.0 }
{
    if outside(1, 60, name.0 as u32) {
        return Err(Refusal::Day);
    }
    let days = days_to_name(m.head, name);
    if m.length as u32 <= days {
        return Err(Refusal::Day);
    }
    Ok(accept(RegisterDay(m.head.0 + days), cited, days as u8 + 1))
}

// What a record names its day by: the kinds that are not retired.
#[derive(Clone, Copy, Debug, PartialEq, Eq)]
enum Kind {
    Date,
    Ordinal,
    RegisterDay,
    Name,
}

// A whole record of a kind. Each request to the reckoning stands at one place: the compiler copies those of their size
// only into the one place that calls them.
fn judge_kind(s: &[u8], kind: Kind) -> Result<Judgement, Refusal>
    requires { Whole s.now (kind_number kind) }
    ensures { told_judgement result ≡ judge_kind s.now }
{
    let system = s[4];
    match kind {
        Kind::Date | Kind::Name => {
            let year = le16(s[5], s[6]);
            let number = s[7];
            let leap = s[8];
            let m = reckoning::month(system as u32, year, number as u32, leap as u32)?;
            let cited = MonthCited {
                system,
                year: year as u16,
                number,
                leap,
            };
            if matches!(kind, Kind::Date) {
                return judge_day(m, cited, s[9]);
            }
            judge_name(m, cited, DayName(s[9]))
        },
        Kind::Ordinal => {
            let year = le16(s[5], s[6]) as u16;
            let ordinal = le16(s[7], s[8]) as u16;
            judge_ordinal(system, year, Ordinal(ordinal))
        },
        Kind::RegisterDay => judge_register_day(system, RegisterDay(le32(s[5], s[6], s[7], s[8]))),
    }
}

// The kind of a whole record: the length field and the length of the input are those of its kind. Kinds 1 and 5 have ten
// bytes, and 3 and 4 nine.
fn whole(s: &[u8]) -> Option<Kind>
    ensures { MatchOption result (is_whole s.now ≡ false) (λ k. (is_whole s.now ≡ true) × (kind_number k ≡ kind_of s.now)) }
{
    let length = s.len();
    if length < 9 {
        return None;
    }
    if 10 < length {
        return None;
    }
    if le16(s[0], s[1]) as usize != length {
        return None;
    }
    let kind = le16(s[2], s[3]);
    if length == 9 {
        return match kind {
            3 => Some(Kind::Ordinal),
            4 => Some(Kind::RegisterDay),
            _ => None,
        };
    }
    match kind {
        1 => Some(Kind::Date),
        5 => Some(Kind::Name),
        _ => None,
    }
}

// The refusal of what is no whole record: the first in the order of the table.
fn frame_refusal(s: &[u8]) -> Refusal
    requires { is_whole s.now ≡ false }
    ensures { told_judgement (Err result) ≡ judge_of s.now }
{
    if s.len() < 4 {
        return Refusal::Short;
    }
    let kind = le16(s[2], s[3]);
    if outside(1, 5, kind) {
        return Refusal::Kind;
    }
    if kind == 2 {
        return Refusal::Retired;
    }
    Refusal::Length
}

// Any bytes. Whether a record is whole is tested first, and only of another what is wrong: most records are whole.
pub fn judge(s: &[u8]) -> Result<Judgement, Refusal>
    ensures { told_judgement result ≡ judge_of s.now }
{
    match whole(s) {
        Some(kind) => judge_kind(s, kind),
        None => Err(frame_refusal(s)),
    }
}
