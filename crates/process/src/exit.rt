// Exit statuses, with the words that go to standard error.
ghost use Rattle.std.specs.Prelude.{◌≡◌, ◌%◌, cond, eqb, MatchResult};
ghost use Rattle.std.specs.Process.{exit_status};
ghost use Rattle.process.specs.Exit.{number, AnsweredOrFailed, EndedBy};

use crate::streams;
use crate::streams::{Failure, Streams};
use itoa::Buffer;
use std::process::ExitCode;

// How a program ended.
#[derive(Clone, Copy, Debug, PartialEq, Eq)]
pub enum Status {
    // All that was read was answered, or renewed.
    Answered = 0,
    // A read or a write failed, or not all of the input was what it should be.
    Failed = 1,
    // The arguments were wrong.
    Misused = 2,
}

impl Status {
    // The number that the system is told.
    pub fn number(self) -> u32
        ensures { result ≡ number self }
    {
        self as u32
    }
}

// What a program ends with that has this status, of which the system takes the lowest byte. It takes any number: a
// `Status` would ask more of callers, and `exit_status` is promised of all.
pub fn code(status: u32) -> ExitCode
    ensures { exit_status result ≡ status % 256 }
{
    ExitCode::from((status % 256) as u8)
}

// Writes the first bytes of a line to standard error, so many of them, and gives the status of what it tells. It is
// written by one call, so that it stays whole where other programs write to the same file.
fn tell(streams: &mut Streams, line: &[u8], count: usize) -> Status
    ensures { result ≡ Status.Failed }
{
    if count <= line.len() {
        let _ = streams::write_error(streams, &line[..count]);
    }
    Status::Failed
}

// Says on which stream of a program a call failed, with the system's words for why.
pub fn fail(streams: &mut Streams, program: &[u8], failure: Failure) -> Status
    ensures { result ≡ Status.Failed }
{
    let mut line = [0u8; 512];
    let at = text::word(&mut line, 0, program);
    let (stream, error) = match failure {
        Failure::Input(error) => (b": standard input: ".as_slice(), error),
        Failure::Output(error) => (b": standard output: ".as_slice(), error),
    };
    let at = text::word(&mut line, at, stream);
    let at = streams::reason(error, &mut line, at);
    let at = text::word(&mut line, at, b"\n");
    tell(streams, &line, at)
}

// Says what is wrong at a place of the input: words, the place, and more words.
pub fn fail_at(streams: &mut Streams, words: &[u8], place: u64, more: &[u8]) -> Status
    ensures { result ≡ Status.Failed }
{
    let mut digits = Buffer::new();
    let mut line = [0u8; 256];
    let at = text::word(&mut line, 0, words);
    let at = text::word(&mut line, at, digits.format(place).as_bytes());
    let at = text::word(&mut line, at, more);
    tell(streams, &line, at)
}

// The status of a run that stopped with so many bytes left, from the given place of the input on; `words` go before
// that.
pub fn stopped(streams: &mut Streams, words: &[u8], left: usize, place: u64) -> Status
    ensures { (result ≡ cond (eqb left 0) Status.Answered Status.Failed) × AnsweredOrFailed result }
{
    if left == 0 {
        return Status::Answered;
    }
    fail_at(streams, words, place, b"\n")
}

// Says how the program is used.
pub fn misuse(streams: &mut Streams, usage: &[u8]) -> Status
    ensures { result ≡ Status.Misused }
{
    let _ = streams::write_error(streams, usage);
    Status::Misused
}

// The status of a program by that of its run, or by the failure that ended the run, which is told.
pub fn ended(streams: &mut Streams, program: &[u8], run: Result<Status, Failure>) -> Status
    ensures { EndedBy run result }
{
    match run {
        Ok(status) => status,
        Err(failure) => fail(streams, program, failure),
    }
}

// The status of a program that has written what it was asked for, or could not.
pub fn written(streams: &mut Streams, program: &[u8], done: Result<(), Failure>) -> Status
    ensures { MatchResult done (λ _. result ≡ Status.Answered) (λ _. result ≡ Status.Failed)
        × AnsweredOrFailed result }
{
    ended(streams, program, done.map(|()| Status::Answered))
}

// Writes a text to a program's standard output.
pub fn reply(streams: &mut Streams, program: &[u8], text: &[u8]) -> Status
    ensures { AnsweredOrFailed result }
{
    let done = streams::write(streams, text);
    written(streams, program, done)
}

fn write_version(streams: &mut Streams, program: &[u8], version: &[u8]) -> Result<(), Failure> {
    streams::write(streams, program)?;
    streams::write(streams, b" ")?;
    streams::write(streams, version)?;
    streams::write(streams, b"\n")
}

// Writes a program's name and version to standard output.
pub fn reply_version(streams: &mut Streams, program: &[u8], version: &[u8]) -> Status
    ensures { AnsweredOrFailed result }
{
    let done = write_version(streams, program, version);
    written(streams, program, done)
}
