// What the import of a row gives.
use calendar::data::RegisterDay;

// A time of day until it is settled: a fraction of the day, or a count of parts.
#[derive(Clone, Copy)]
pub enum Time {
    Fraction(f64),
    Parts(u16),
}

// A row's day, its time as it came, and the count of parts that the time settles to.
#[derive(Clone, Copy)]
pub struct Imported {
    pub day: RegisterDay,
    pub time: Time,
    pub count: u16,
}
