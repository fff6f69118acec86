// The run of the program chiselbrow. What it answers is in `lines`, and what it does between two calls of the system in
// `turn`; here bytes are moved between that and the system.
#![tactic(auto)]

ghost use Rattle.std.specs.Prelude.{◌≡◌, ◌+◌, ◌*◌, ◌<◌, ◌≤◌, length, take, if◌then◌else◌, nat_eq, IfOk};
ghost use Rattle.process.specs.Exit.{AnsweredOrFailed, Ended};
ghost use Rattle.chiselbrow_run.specs.Buffers.{Buffers};
ghost use Rattle.chiselbrow_run.specs.Stepped.{Stepped, ReadAndAnswered};

use process::command_line::Program;
use process::exit::Status;
use process::streams::{Failure, Streams, zeros};
use process::{command_line, exit, streams};
use std::env::Env;
use turn::answer;

mod turn;

const NAME: &[u8] = b"chiselbrow";

// How a step ended: whether the run goes on, how many bytes are left and how many were answered.
#[derive(Clone, Copy)]
struct Step {
    more: bool,
    left: usize,
    read: usize,
}

// Answers the records among these bytes, and writes their lines.
fn write_answer(
    streams: &mut Streams,
    bytes: &mut [u8],
    ended: bool,
    out: &mut [u8],
) -> Result<Step, Failure>
    requires { 16 * length bytes.old + 64 ≤ length out.old }
    ensures { Stepped ended bytes.old bytes.new result }
{
    let t = answer(bytes, ended, out);
    streams::write(streams, &out[..t.written])?;
    Ok(Step {
        more: t.more,
        left: t.left,
        read: t.read,
    })
}

// Reads once after the bytes that were kept, and answers.
fn read_and_answer(
    streams: &mut Streams,
    input: &mut [u8],
    kept: usize,
    out: &mut [u8],
) -> Result<Step, Failure>
    requires { (kept < 64) × Buffers input.old out.old }
    ensures { ReadAndAnswered (take kept input.old) input.new result }
{
    let count = streams::read(streams, &mut input[kept..])?;
    let filled = kept + count;
    write_answer(streams, &mut input[..filled], count == 0, out)
}

fn stopped(streams: &mut Streams, left: usize, offset: u64) -> Status
    ensures { (result ≡ (if nat_eq left 0 then Status.Answered else Status.Failed)) × AnsweredOrFailed result }
{
    exit::stopped(
        streams,
        b"chiselbrow: standard input: no record at byte ",
        left,
        offset,
    )
}

// Step after step. A proved loop has to end, so it counts its turns. The runs differ in what a step gives and in what
// follows the stop; a common one would take both as closures.
fn answer_input(streams: &mut Streams, input: &mut [u8], out: &mut [u8]) -> Result<Status, Failure>
    requires { Buffers input.old out.old }
    ensures { IfOk result (λ status. AnsweredOrFailed status) }
{
    let mut kept = 0;
    let mut offset: u64 = 0;
    for _ in 0..u64::MAX {
        let step = read_and_answer(streams, input, kept, out)?;
        offset = offset.wrapping_add(step.read as u64);
        if !step.more {
            return Ok(stopped(streams, step.left, offset));
        }
        kept = step.left;
    }
    Ok(Status::Failed)
}

fn answer_all(streams: &mut Streams) -> Status
    ensures { AnsweredOrFailed result }
{
    let mut input = zeros::<32768>();
    let mut out = zeros::<524352>();
    let run = answer_input(streams, &mut input, &mut out);
    exit::ended(streams, NAME, run)
}

// Does what the arguments ask, and gives the exit status.
pub fn chiselbrow_run<R: Env>(rt: &R, streams: &mut Streams, version: &[u8]) -> Status
    ensures { Ended result }
{
    let help = b"chiselbrow [--help | --version] < records\n\
        \n\
        Reads citation records from standard input, one directly after another, and\n\
        writes one line for each: system, year, month with * if leap, day, register\n\
        day and sixty-day name; or `refused` and a number, and after 10 the year's\n\
        leap month, 0 if it has none. A year begins with month 11, late in the common\n\
        year before it. The manual page chiselbrow(1) tells the records, the refusals\n\
        and the exit status.\n";
    let program = Program {
        name: NAME,
        version,
        help,
        usage: b"usage: chiselbrow [--help | --version] < records\n",
    };
    match command_line::reply(rt, streams, &program) {
        Some(status) => status,
        None => answer_all(streams),
    }
}
