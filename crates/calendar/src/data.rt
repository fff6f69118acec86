// A register day: the Julian Day Number of a civil day counted from midnight. The customer's own term.
#[derive(Clone, Copy, PartialEq, Eq)]
pub struct RegisterDay(pub u32);

// A sixty-day name, from 1 (jiazi) to 60 (guihai).
#[derive(Clone, Copy)]
pub struct DayName(pub u8);

// The place of a day in its year, from 1.
#[derive(Clone, Copy)]
pub struct Ordinal(pub u16);

// All that differs between systems. Paper 01, "Constants", in the order of its rows, and paper 02, Q-4 and Q-6.
#[derive(Clone, Copy)]
pub struct Constants {
    // Parts in a day, D: of those in which the year is counted, and of those in which the month is. No rule compares
    // the two.
    pub solar: u64,
    pub lunar: u64,
    // Parts in a year, Y.
    pub year: u64,
    // Parts in a mean month, M.
    pub month: u64,
    // Small units in a part.
    pub units: u64,
    // The denominator of a pentad's fraction of a part: 36 where it is told in 36ths. Q-4.
    pub denominator: u64,
    // Years elapsed, N, at the common year `common`.
    pub elapsed: u64,
    pub common: u64,
    // The place of count day 0 in the round of sixty, from 0 (jiazi).
    pub name: u64,
    // The count day of register day 0, where the epoch lies before it; otherwise 0. And the register day of the epoch,
    // which is count day 0, where it lies after; otherwise 0.
    pub anchor: u64,
    pub epoch: u64,
}
