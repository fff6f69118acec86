// Standard input and output and standard error, a failure told apart from the end. A call that a signal interrupts is
// made again. What a call reads or writes is the system's, and no contract can say it.
ghost use Rattle.std.specs.Prelude.{◌≡◌, ℕ, pos, ◌<◌, ◌≤◌, length, slice_index, IfOk, IsOk};

use std::io;
use std::io::{Cursor, Error, ErrorKind, Read, Stderr, Stdin, Stdout, Write};

// The three streams, and the system's number for why the last call that failed did so: 0 where none has failed.
#[derive(Drop)]
pub struct Streams {
    input: Stdin,
    output: Stdout,
    errors: Stderr,
    errno: i32,
}

// Why a program cannot go on: a read of standard input or a write to standard output failed.
#[derive(Clone, Copy, Debug)]
pub enum Failure {
    Input(Error),
    Output(Error),
}

// Room for what is read or written. A function, since an array of many thousand places, written out in a run, is too long
// for the prover.
pub fn zeros<const N: usize>() -> [u8; N]
    ensures size { length result ≡ N }
    ensures each { (i : ℕ) → i < N → slice_index result i ≡ 0 }
{
    [0; N]
}

// None of them has failed yet.
pub fn open(input: Stdin, output: Stdout, errors: Stderr) -> Streams
    ensures { result ≡ record { input = input; output = output; errors = errors; errno = pos 0 } }
{
    Streams {
        input,
        output,
        errors,
        errno: 0,
    }
}

// Whether a call that gave this error was interrupted before it did anything. The error's number is kept.
fn is_interrupted(error: Error, errno: &mut i32) -> bool {
    *errno = error.raw_os_error().unwrap_or(0);
    error.kind() == ErrorKind::Interrupted
}

// Reads once into a buffer that has room, and gives how many bytes; none at the end of the input. A proved loop has to
// end, so it counts its tries.
pub fn read(streams: &mut Streams, buffer: &mut [u8]) -> Result<usize, Failure>
    ensures { IfOk result (λ count. count ≤ length buffer.new) }
{
    for _ in 0..u64::MAX {
        match streams.input.read(buffer) {
            Ok(count) => return Ok(count),
            Err(error) => {
                if !is_interrupted(error, &mut streams.errno) {
                    break;
                }
            }
        }
    }
    Err(Failure::Input(Error::from_raw_os_error(streams.errno)))
}

// Writes all of the text; no text can always be written. After a failure some of it may have been written. Where the
// system takes nothing without an error, the last call that failed tells why: so no `write_all`.
pub fn write_to<W: Write>(stream: &mut W, errno: &mut i32, text: &[u8]) -> io::Result<()>
    ensures { length text.now ≡ 0 → IsOk result }
{
    if text.is_empty() {
        return Ok(());
    }
    let mut rest = text;
    for _ in 0..u64::MAX {
        match stream.write(rest) {
            Ok(0) => break,
            Ok(n) => {
                rest = &rest[n..];
                if rest.is_empty() {
                    return Ok(());
                }
            }
            Err(error) => {
                if !is_interrupted(error, errno) {
                    break;
                }
            }
        }
    }
    Err(Error::from_raw_os_error(*errno))
}

// The same to standard output.
pub fn write(streams: &mut Streams, text: &[u8]) -> Result<(), Failure>
    ensures { length text.now ≡ 0 → IsOk result }
{
    write_to(&mut streams.output, &mut streams.errno, text).map_err(Failure::Output)
}

// The same to standard error.
pub fn write_error(streams: &mut Streams, text: &[u8]) -> io::Result<()>
    ensures { length text.now ≡ 0 → IsOk result }
{
    write_to(&mut streams.errors, &mut streams.errno, text)
}

// The system's error as std tells it: the system's words, and its number, as in
// `No space left on device (os error 28)`. An error that is not the system's has the number 0.
fn told(error: Error) -> [u8; 256] {
    let error = Error::from_raw_os_error(error.raw_os_error().unwrap_or(0));
    let mut text = Cursor::new([0u8; 256]);
    let _ = write!(text, "{error}");
    text.into_inner()
}

// Where the words end in such a text.
fn end_of_words(text: &[u8]) -> usize
    ensures { result ≤ length text.now }
{
    match text.iter().rposition(|byte| *byte == b'(') {
        Some(i) => i.saturating_sub(1),
        None => 0,
    }
}

// Puts the system's words for an error into a line.
pub(crate) fn reason(error: Error, line: &mut [u8], at: usize) -> usize {
    let text = told(error);
    let end = end_of_words(&text);
    text::word(line, at, &text[..end])
}
