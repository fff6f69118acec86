// The command line of a program that takes one option or none.
ghost use Rattle.std.specs.Prelude.{◌≤◌, length};
ghost use Rattle.process.specs.CommandLine.{RepliedTo, Replied};

use crate::exit;
use crate::exit::Status;
use crate::streams::Streams;
use arguments::options;
use arguments::options::Wish;
use std::env::{Env, FillError};

// What a program tells of itself: its name and version, its help, and how it is used.
#[derive(Clone, Copy, Debug)]
pub struct Program<'a> {
    pub name: &'a [u8],
    pub version: &'a [u8],
    pub help: &'a [u8],
    pub usage: &'a [u8],
}

// Word i of the command line, copied to the start of the text; no bytes where it is missing or longer than the text.
pub fn word<'a, R: Env>(rt: &R, i: usize, text: &'a mut [u8]) -> &'a [u8]
    ensures { length result.now ≤ length text.old }
{
    match rt.arg(i, text) {
        Ok(n) => &text[..n],
        Err(_) => &[],
    }
}

// Whether the command line has a word i.
fn has_word<R: Env>(rt: &R, i: usize) -> bool {
    !matches!(rt.arg(i, &mut []), Err(FillError::NotPresent))
}

// How many words the command line has; the first is the program's name.
pub fn word_count<R: Env>(rt: &R) -> usize {
    (0..usize::MAX).take_while(|i| has_word(rt, *i)).count()
}

// What the first argument asks for.
fn wish<R: Env>(rt: &R) -> Wish {
    let mut text = [0u8; 4096];
    options::read(word(rt, 1, &mut text))
}

// Replies to a wish with the program's help, or its name and version, and to any other with its usage.
fn reply_to(streams: &mut Streams, wish: Wish, program: &Program) -> Status
    ensures { RepliedTo wish result }
{
    match wish {
        Wish::Help => exit::reply(streams, program.name, program.help),
        Wish::Version => exit::reply_version(streams, program.name, program.version),
        Wish::Other => exit::misuse(streams, program.usage),
    }
}

// Replies to an option, and to more arguments than one with the usage, and gives the status that the program ends with;
// none where there is no argument, so that it is to run.
pub fn reply<R: Env>(rt: &R, streams: &mut Streams, program: &Program) -> Option<Status>
    ensures { Replied result }
{
    if !has_word(rt, 1) {
        return None;
    }
    if has_word(rt, 2) {
        return Some(exit::misuse(streams, program.usage));
    }
    Some(reply_to(streams, wish(rt), program))
}
