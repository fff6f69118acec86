// The program almanac for the gate, which runs it with the words of the file args beside src/. The installed one is
// crates/installed_almanac, which ends with the status of the run.
#![tactic(auto)]

use almanac_run::almanac_run;
use process::streams;

fn main(rt: HostRuntime) {
    let mut streams = streams::open(rt.stdin(), rt.stdout(), rt.stderr());
    almanac_run(&rt, &mut streams, b"");
}
