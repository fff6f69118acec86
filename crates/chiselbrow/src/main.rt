// The program chiselbrow for the gate, which runs it on the file stdin beside src/. The installed one is
// crates/installed_chiselbrow, which ends with the status of the run.
#![tactic(auto)]

use chiselbrow_run::chiselbrow_run;
use process::streams;

fn main(rt: HostRuntime) {
    let mut streams = streams::open(rt.stdin(), rt.stdout(), rt.stderr());
    chiselbrow_run(&rt, &mut streams, b"");
}
