// The import of a row.
ghost use Rattle.std.specs.Prelude.{◌≡◌, not};
ghost use Rattle.std.specs.Float.{binary64};
ghost use Rattle.std.specs.Float.Ieee.{nan_bits};
ghost use Rattle.exchange.specs.Import.{settled_time, answer_of, fraction_answer, parts_answer, import_of, tag_of, import_answer};

use crate::data::{Imported, Time};
use crate::row::{self, Row};
use crate::systems::parts_in_day;
use calendar::data::RegisterDay;
use reckoning::refusal::Refusal;

// The count that a time settles to.
fn settle(in_day: u16, time: Time) -> Option<u16>
    ensures { result ≡ settled_time in_day time }
{
    match time {
        Time::Fraction(fraction) => day_fraction::settle(in_day, fraction),
        Time::Parts(parts) => (parts < in_day).then_some(parts),
    }
}

// A day with its time, settled.
fn answer(in_day: u16, day: RegisterDay, time: Time) -> Result<Imported, Refusal>
    ensures { result ≡ answer_of in_day day.0 time }
{
    let count = settle(in_day, time).ok_or(Refusal::Time)?;
    Ok(Imported { day, time, count })
}

// The bit pattern of infinity, and the bit of the sign. Without it, a pattern above that of infinity is not a number.
const INFINITY: u64 = 9_218_868_437_227_405_312;

const SIGN: u64 = 9_223_372_036_854_775_808;

fn is_number(pattern: u64) -> bool
    ensures { result ≡ not (nan_bits binary64 pattern) }
{
    pattern % SIGN <= INFINITY
}

// A row whose time is a fraction.
fn fraction_row(in_day: u16, row: &Row) -> Result<Imported, Refusal>
    ensures { result ≡ fraction_answer in_day row.now }
{
    let pattern = row::time(row);
    if is_number(pattern) {
        return answer(
            in_day,
            row::day(row),
            Time::Fraction(f64::from_bits(pattern)),
        );
    }
    Err(Refusal::Time)
}

// A row whose time is a count of parts, in the first two of its bytes; the others are to be zero. Where one is not, the
// time as one number is above any count.
fn parts_row(in_day: u16, row: &Row) -> Result<Imported, Refusal>
    ensures { result ≡ parts_answer in_day row.now }
{
    let time = row::time(row);
    if time < in_day as u64 {
        return answer(in_day, row::day(row), Time::Parts(time as u16));
    }
    Err(Refusal::Time)
}

// Imports a row by a system.
#[tactic(auto, unfolding(crate::specs::Import::import_of))]
pub fn import(system: u64, row: &[u8]) -> Result<Imported, Refusal>
    ensures { result ≡ import_of system row.now }
{
    let Ok(row) = <&Row>::try_from(row) else {
        return Err(Refusal::Length);
    };
    let in_day = parts_in_day(system).ok_or(Refusal::System)?;
    match row[4] {
        row::FRACTION => fraction_row(in_day, row),
        row::PARTS => parts_row(in_day, row),
        _ => Err(Refusal::Kind),
    }
}

// 2^40 and 2^56: in an answer to C the count stands above the 8 bits of a refusal number, and the tag above it.
const COUNT_UNIT: u64 = 1_099_511_627_776;

const TAG_UNIT: u64 = 72_057_594_037_927_936;

fn tag(time: Time) -> u8
    ensures { result ≡ tag_of time }
{
    match time {
        Time::Fraction(_) => row::FRACTION,
        Time::Parts(_) => row::PARTS,
    }
}

// Imports a row. The answer is its register day, plus 2^40 times the count of parts that its time settles to, plus 2^56
// times its tag; refused, it is 2^32 times the refusal number.
pub fn chiselbrow_import(system: u64, row: &[u8]) -> u64
    ensures { result ≡ import_answer (import_of system row.now) }
{
    match import(system, row) {
        Ok(row) => {
            row.day.0 as u64 + row.count as u64 * COUNT_UNIT + tag(row.time) as u64 * TAG_UNIT
        }
        Err(refusal) => refusal.in_answer(),
    }
}
