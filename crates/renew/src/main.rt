// The program chiselbrow-renew for the gate, which runs it on the file stdin beside src/. The installed one is
// crates/installed_renew, which ends with the status of the run.
#![tactic(auto)]

use process::streams;
use renew_run::renew_run;

fn main(rt: HostRuntime) {
    let mut streams = streams::open(rt.stdin(), rt.stdout(), rt.stderr());
    renew_run(&rt, &mut streams, b"");
}
