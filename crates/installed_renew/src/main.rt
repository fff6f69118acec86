// The program chiselbrow-renew, as it is installed. Each program is a crate with a `main` of its own.
#![tactic(auto)]

use process::{exit, streams};
use renew_run::renew_run;
use std::process::ExitCode;

fn main(rt: HostRuntime) -> ExitCode {
    let mut streams = streams::open(rt.stdin(), rt.stdout(), rt.stderr());
    exit::code(renew_run(&rt, &mut streams, process::VERSION).number())
}
