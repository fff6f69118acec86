// The run of the program chiselbrow-renew. What it does between two calls of the system is in `turn`; here bytes are
// moved between that and the system.
#![tactic(auto)]

ghost use Rattle.std.specs.Prelude.{◌≡◌, false, ◌<◌, ◌≤◌, length, take, if◌then◌else◌, nat_eq, IfOk, MatchResult};
ghost use Rattle.process.specs.Exit.{AnsweredOrFailed, Ended};
ghost use Rattle.renew_run.specs.Stepped.{Stepped, ReadAndRenewed};

use framing::keep;
use process::command_line::Program;
use process::exit::Status;
use process::streams::{Failure, Streams, zeros};
use process::{command_line, exit, streams};
use std::env::Env;
use telling::tell_refused;
use turn::renew;

mod telling;
mod turn;

const NAME: &[u8] = b"chiselbrow-renew";

// How a step ended: whether the run goes on, whether the input has ended, how many bytes are left and how many the
// records had, and whether one of them was refused.
#[derive(Clone, Copy)]
struct Step {
    more: bool,
    ended: bool,
    left: usize,
    read: usize,
    refused: bool,
}

// Tells the records that were refused, where one was.
fn tell_if(streams: &mut Streams, refused: bool, renewed: &[u8], offset: u64) {
    if refused {
        tell_refused(streams, renewed, offset);
    }
}

// Renews the records among these bytes, writes them, and moves what is left to the front.
fn renew_and_write(
    streams: &mut Streams,
    bytes: &mut [u8],
    ended: bool,
    offset: u64,
) -> Result<Step, Failure>
    ensures { Stepped ended bytes.old bytes.new result }
{
    let t = renew(bytes, ended);
    tell_if(streams, t.refused, bytes, offset);
    streams::write(streams, &bytes[..t.written])?;
    let read = t.read;
    keep(bytes, read);
    Ok(Step {
        more: t.more,
        ended,
        left: bytes.len() - read,
        read,
        refused: t.refused,
    })
}

// Reads once after the bytes that were kept, and renews.
fn read_and_renew(
    streams: &mut Streams,
    buffer: &mut [u8],
    kept: usize,
    offset: u64,
) -> Result<Step, Failure>
    requires { (kept < 64) × (64 ≤ length buffer.old) }
    ensures { ReadAndRenewed (take kept buffer.old) buffer.new result }
{
    let count = streams::read(streams, &mut buffer[kept..])?;
    let filled = kept + count;
    renew_and_write(streams, &mut buffer[..filled], count == 0, offset)
}

// Writes all further input as it is. A proved loop has to end, so it counts its turns.
fn copy(streams: &mut Streams, buffer: &mut [u8]) -> Result<(), Failure> {
    for _ in 0..u64::MAX {
        let count = streams::read(streams, buffer)?;
        if count == 0 {
            break;
        }
        streams::write(streams, &buffer[..count])?;
    }
    Ok(())
}

// The status of a run that stopped with so many bytes left, which were written as they are. Unless the input has ended,
// what follows is written so too.
fn stop(
    streams: &mut Streams,
    buffer: &mut [u8],
    left: usize,
    ended: bool,
    offset: u64,
    status: Status,
) -> Result<Status, Failure>
    requires { AnsweredOrFailed status }
    ensures { MatchResult result
        (λ r. (r ≡ (if nat_eq left 0 then status else Status.Failed)) × AnsweredOrFailed r)
        (λ _. nat_eq left 0 ≡ false) }
{
    if left == 0 {
        return Ok(status);
    }
    let stopped = exit::stopped(
        streams,
        b"chiselbrow-renew: standard input: no record at byte ",
        left,
        offset,
    );
    if !ended {
        copy(streams, buffer)?;
    }
    Ok(stopped)
}

// The status after a step with a record that was refused, or with none.
fn after_step(status: Status, refused: bool) -> Status
    requires { AnsweredOrFailed status }
    ensures { (result ≡ (if refused then Status.Failed else status)) × AnsweredOrFailed result }
{
    if refused {
        return Status::Failed;
    }
    status
}

// Step after step. The runs differ in what a step gives and in what follows the stop; a common one would take both as
// closures.
fn renew_input(streams: &mut Streams, buffer: &mut [u8]) -> Result<Status, Failure>
    requires { 64 ≤ length buffer.old }
    ensures { IfOk result (λ status. AnsweredOrFailed status) }
{
    let mut kept = 0;
    let mut offset: u64 = 0;
    let mut status = Status::Answered;
    for _ in 0..u64::MAX {
        let step = read_and_renew(streams, buffer, kept, offset)?;
        offset = offset.wrapping_add(step.read as u64);
        status = after_step(status, step.refused);
        if !step.more {
            return stop(streams, buffer, step.left, step.ended, offset, status);
        }
        kept = step.left;
    }
    Ok(Status::Failed)
}

fn renew_all(streams: &mut Streams) -> Status
    ensures { AnsweredOrFailed result }
{
    let mut buffer = zeros::<65536>();
    let run = renew_input(streams, &mut buffer);
    exit::ended(streams, NAME, run)
}

// Does what the arguments ask, and gives the exit status.
pub fn renew_run<R: Env>(rt: &R, streams: &mut Streams, version: &[u8]) -> Status
    ensures { Ended result }
{
    let help = b"chiselbrow-renew [--help | --version] < records > renewed\n\
        \n\
        Reads citation records from standard input, one directly after another, and\n\
        writes them to standard output: each record of the retired kind 2, which cites\n\
        a day by its sixty-day name counted from 0, as one of kind 5, with the name\n\
        counted from 1; all others as they are. A record of kind 2 that is wrong by its\n\
        length or its name, and bytes that are no record, stay as they are and are told\n\
        on standard error. The manual page chiselbrow-renew(1) tells the records and\n\
        the exit status.\n";
    let program = Program {
        name: NAME,
        version,
        help,
        usage: b"usage: chiselbrow-renew [--help | --version] < records > renewed\n",
    };
    match command_line::reply(rt, streams, &program) {
        Some(status) => status,
        None => renew_all(streams),
    }
}
