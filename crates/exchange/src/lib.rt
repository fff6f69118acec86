// Exchange with the observatory's list, whose rows have a register day and a time of day: the export of a row, and the
// import of one.
#![tactic(auto)]

pub mod data;
pub mod export;
pub mod import;
mod row;
mod systems;
