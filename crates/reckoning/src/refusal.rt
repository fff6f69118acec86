// The refusals: paper 01, "Numbered refusals", and paper 02, Q-3, Q-4, Q-7 and Q-10 to Q-12. Each case says what is wrong,
// as in include/chiselbrow.h; `of_` functions give the first that applies to a request by system and year. Day is told by
// the year of a day (`closed_forms::out_of_scope`), and before the epoch by `closed_forms::before_epoch`.
ghost use Rattle.std.specs.Prelude.{◌≡◌, ◌*◌, ◌^◌};
ghost use Rattle.reckoning.specs.RefusalNumbers.{number_of, month_told, system_refused};
ghost use Rattle.reckoning.specs.ComputedRefusals.{outside, out_of_years, year_refusal, step_refusal};
ghost use Rattle.reckoning.specs.Told.{told_refusal};

use calendar::systems::{NoSuchSystem, System};

#[derive(Clone, Copy, Debug, PartialEq, Eq)]
pub enum Refusal {
    // The input is too short to be a record.
    Short,
    // There is no such kind, or no such tag.
    Kind,
    // A length is not that of the kind, or of a row.
    Length,
    // There is no such system, or it has no rule for what is asked.
    System,
    // The year is out of scope.
    Year,
    // There is no such month.
    Month,
    // The month, the year or the half year after a solstice has no such day, or the register day is out of scope; or the
    // year has no such place.
    Day,
    // The output is too short for what is to be written.
    Output,
    // There is no such qi, or no such pentad.
    Step,
    // The year has no such leap month, but the one told, if any.
    NotLeap(Option<u8>),
    // The kind is retired.
    Retired,
    // It is no time of the day.
    Time,
}

// 2^32: in an answer to C a refusal's number stands above the 32 bits of a day.
const UNIT: u64 = 4_294_967_296;

impl Refusal {
    // Its number in the papers' table.
    pub fn number(self) -> u8
        ensures { result ≡ number_of self }
    {
        match self {
            Refusal::Short => 1,
            Refusal::Kind => 2,
            Refusal::Length => 3,
            Refusal::System => 4,
            Refusal::Year => 5,
            Refusal::Month => 6,
            Refusal::Day => 7,
            Refusal::Output => 8,
            Refusal::Step => 9,
            Refusal::NotLeap(_) => 10,
            Refusal::Retired => 11,
            Refusal::Time => 12,
        }
    }

    // Its number as an answer to C has it.
    pub fn in_answer(self) -> u64
        ensures { result ≡ number_of self * 2 ^ 32 }
    {
        self.number() as u64 * UNIT
    }

    // What is told beside the number: the number of the year's leap month, or 0.
    pub fn told(self) -> u8
        ensures { result ≡ month_told self }
    {
        match self {
            Refusal::NotLeap(Some(month)) => month,
            _ => 0,
        }
    }
}

impl From<NoSuchSystem> for Refusal {
    ghost from_gives = { λ _ refusal. refusal ≡ system_refused };

    #[inline(always)]
    fn from(_: NoSuchSystem) -> Self {
        Self::System
    }
}

// x is not `least` to `most`.
pub fn outside(least: u32, most: u32, x: u32) -> bool
    ensures { result ≡ outside least most x }
{
    x < least || most < x
}

// A year is not in scope.
pub(crate) fn out_of_years(year: u32) -> bool
    ensures { result ≡ out_of_years year }
{
    outside(1, 3000, year)
}

pub(crate) fn of_year(system: u32, year: u32) -> Result<(), Refusal>
    ensures { told_refusal result ≡ year_refusal system year }
{
    System::try_from(system)?;
    if out_of_years(year) {
        return Err(Refusal::Year);
    }
    Ok(())
}

// Of a request for one of a year's steps, which are numbered from 0 to `most`.
pub(crate) fn of_step(system: u32, year: u32, most: u32, i: u32) -> Result<(), Refusal>
    ensures { told_refusal result ≡ step_refusal most system year i }
{
    of_year(system, year)?;
    if most < i {
        return Err(Refusal::Step);
    }
    Ok(())
}
