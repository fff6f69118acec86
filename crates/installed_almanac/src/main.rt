// The program almanac, as it is installed. Each program is a crate with a `main` of its own.
#![tactic(auto)]

use almanac_run::almanac_run;
use process::{exit, streams};
use std::process::ExitCode;

fn main(rt: HostRuntime) -> ExitCode {
    let mut streams = streams::open(rt.stdin(), rt.stdout(), rt.stderr());
    exit::code(almanac_run(&rt, &mut streams, process::VERSION).number())
}
