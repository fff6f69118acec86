// The number types and the constants that every other crate builds on. The calendar's rules are in specs/, their laws
// in proofs/.
#![tactic(auto)]

pub mod data;
pub mod systems;
