// What a program has of the system: its command line, standard input and output, and the status that it exits with.
#![tactic(auto)]

pub mod command_line;
pub mod exit;
pub mod streams;

// The version of the programs, which include/chiselbrow.h tells C.
pub const VERSION: &[u8] = b"2.0.4";
