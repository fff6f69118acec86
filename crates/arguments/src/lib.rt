// Arguments read from their text: options, a decimal number, the numbers of a range.
#![tactic(auto)]

pub mod number;
pub mod options;
pub mod ranges;
