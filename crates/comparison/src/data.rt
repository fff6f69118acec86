// What a comparison answers.

// How two systems differ at a place of a year: the head of the second less the head of the first, in days, or which of
// the two lacks a month there.
#[derive(Clone, Copy)]
pub enum Difference {
    Days(i64),
    FirstLacks,
    SecondLacks,
}

// A place of the year, from 1, and how the two differ there.
#[derive(Clone, Copy)]
pub struct Listed {
    pub place: u8,
    pub difference: Difference,
}

// The places where two systems differ in a year, in order: `count` of them, then zeros. All thirteen entries are there,
// since `thirteen_entries` and `unused_are_zeros` speak of them; and a comparison is Copy, which an ArrayVec is not.
#[derive(Clone, Copy)]
pub struct Comparison {
    pub count: u8,
    pub places: [Listed; 13],
}
