// What the requests answer.
use calendar::data::RegisterDay;

// The moment of a qi or of a pentad: its day, and the parts and units left over of it. Units are a qi's small units,
// and of a pentad those in which its fraction is told.
#[derive(Clone, Copy)]
pub struct Moment {
    pub day: RegisterDay,
    pub parts: u32,
    pub units: u32,
}

// The pentad in force at the end of a day, by number, and its year, counted from solstice to solstice.
#[derive(Clone, Copy)]
pub struct PentadInForce {
    pub year: u32,
    pub pentad: u32,
}

// The mark that a month holds no middle qi.
pub const NONE_HELD: u8 = 255;

// The months of a year: `count` of them, 12 or 13. Their heads stand in order, the next year's head
// after them; beside each month's head its number and leap mark, the remainder of its new moon in lunar parts, and the
// index, 0 to 11, of the middle qi that it holds, or NONE_HELD. Unused places are 0, in `held` NONE_HELD, and so is what
// stands beside the next year's head.
#[derive(Clone, Copy)]
pub struct Year {
    pub count: u8,
    pub heads: [RegisterDay; 14],
    pub numbers: [u8; 14],
    pub leaps: [u8; 14],
    pub remainders: [u32; 14],
    pub held: [u8; 14],
}

// The names of a year's days, in order; 255 past its end.
#[derive(Clone, Copy)]
pub struct Sheet {
    pub names: [u8; 384],
}

// A month: its first day and how many days it has.
#[derive(Clone, Copy)]
pub struct Month {
    pub head: RegisterDay,
    pub length: u8,
}

// The days of a year: the first, and how many.
#[derive(Clone, Copy)]
pub struct Days {
    pub head: RegisterDay,
    pub length: u16,
}

// A day of a year by its ordinal: the day, its month's number and leap mark, and its place in the month. In this order the
// fields take twelve bytes: a struct of eight is packed into one word and taken apart again, which costs the storing step
// time.
#[derive(Clone, Copy)]
pub struct OrdinalDay {
    pub month: u8,
    pub day: RegisterDay,
    pub leap: u8,
    pub place: u8,
}

// A day by year, month number, leap mark and day of the month; of twelve bytes too.
#[derive(Clone, Copy)]
pub struct Date {
    pub month: u8,
    pub year: u32,
    pub leap: u8,
    pub day: u8,
}
