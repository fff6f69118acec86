// The program chiselbrow, as it is installed. Each program is a crate with a `main` of its own.
#![tactic(auto)]

use chiselbrow_run::chiselbrow_run;
use process::{exit, streams};
use std::process::ExitCode;

fn main(rt: HostRuntime) -> ExitCode {
    let mut streams = streams::open(rt.stdin(), rt.stdout(), rt.stderr());
    exit::code(chiselbrow_run(&rt, &mut streams, process::VERSION).number())
}
