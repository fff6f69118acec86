// What is answered of submerged and extinguished days.
use calendar::data::RegisterDay;

// The day of a qi or of a new moon, and how many whole days after it the qi's submerged day or the new moon's extinguished
// day lies; `None` where it has none.
#[derive(Clone, Copy)]
pub struct DayDistance {
    pub day: RegisterDay,
    pub distance: Option<u8>,
}

// The extinguished days of a year: those of its `count` new moons in order, then day 0 and no distance. All thirteen
// places are there: `extinguished_days_of`, which the clause of `extinguished_days` names, has them.
#[derive(Clone, Copy)]
pub struct ExtinguishedDays {
    pub count: u8,
    pub moons: [DayDistance; 13],
}
