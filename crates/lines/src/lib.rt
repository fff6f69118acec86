// What the program writes: the line of a record, the lines of the records in a buffer, and the line that ends it.
#![tactic(auto)]

pub mod buffer;
mod line;
