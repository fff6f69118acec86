// Citations: records that name a day in one of four ways, and the storing step, which turns each into one canonical
// ten-byte record.
#![tactic(auto)]

pub mod judge;
pub mod output;
pub mod store;
