// Text for any program: words, decimal numbers, a system's letter and a leap month's star, put into an output at a place.
// Each function that puts text gives the place after it; where too few bytes are left at the place, the output and the
// place stay as they are.
//
// The output and the place go as a pair. A struct of the two, with methods, was proved for words and fields and was as
// fast; but each function that takes it has to say as well that it still holds the same output, and names four fields
// in its contract in place of two parameters.
#![tactic(auto)]

ghost use Rattle.std.specs.Prelude.{◌≡◌, ◌+◌, ◌*◌, ◌^◌, ◌<◌, ◌≤◌, ltb, length};
ghost use Rattle.std.specs.Fn.{FnOnceTakesAtMut, FnOnceReturnsAtMut};
ghost use Rattle.text.specs.Decimal.{decimal};
ghost use Rattle.text.specs.Piece.{word, field, letter_of, year, title, month, numbered, line, last_field, refused_with, refused_line, refused_telling_line};
ghost use Rattle.text.specs.Put.{Put};

use calendar::systems::System;

mod put;

// Whether an output of that length has fewer than `room` bytes left at a place. The crates of pages test by this, since
// `with_room` has a `requires`, as no public function has.
pub fn is_short(length: usize, at: usize, room: usize) -> bool
    ensures { result ≡ ltb length (at + room) }
{
    if length < room {
        return true;
    }
    if length - room < at {
        return true;
    }
    false
}

// Has a piece put where there is room for it; where there is not, the output and the place stay as they are.
fn with_room<F: FnOnce(&mut [u8]) -> usize>(
    out: &mut [u8],
    at: usize,
    room: usize,
    piece: F,
) -> usize
    requires { at + room ≤ length out.old → FnOnceTakesAtMut F.FnOnce piece out.old }
    ensures short { length out.old < at + room → (out.new ≡ out.old) × (result ≡ at) }
    ensures put { at + room ≤ length out.old → FnOnceReturnsAtMut F.FnOnce piece out.old result out.new }
{
    if is_short(out.len(), at, room) {
        return at;
    }
    piece(out)
}

// A word, as its bytes.
pub fn word(out: &mut [u8], at: usize, bytes: &[u8]) -> usize
    ensures { Put out.old at (length bytes.now) (word bytes.now) out.new result }
{
    with_room(out, at, bytes.len(), |out| put::word(out, at, bytes))
}

// A number, where there is room for ten digits.
pub fn number(out: &mut [u8], at: usize, n: u32) -> usize
    ensures { Put out.old at 10 (decimal n) out.new result }
{
    with_room(out, at, 10, |out| put::number(out, at, n))
}

// A space and a number, where there is room for ten digits.
pub fn field(out: &mut [u8], at: usize, n: u32) -> usize
    ensures { Put out.old at 11 (field n) out.new result }
{
    with_room(out, at, 11, |out| put::field(out, at, n))
}

// The byte of a system's letter. A number that is no system's has '?'.
pub fn letter_of(system: u32) -> u8
    ensures { result ≡ letter_of system }
{
    match System::try_from(system) {
        Ok(System::Guantian) => b'G',
        Ok(System::Jiyuan) => b'J',
        Ok(System::Jingchu) => b'W',
        Err(_) => b'?',
    }
}

// A system's letter, a space and a year.
pub fn year(out: &mut [u8], at: usize, system: u32, n: u32) -> usize
    ensures { Put out.old at 12 (year system n) out.new result }
{
    with_room(out, at, 12, |out| put::year(out, at, system, n))
}

// The first line of a page: a word, with the space after it, and a year of a system.
pub fn title(out: &mut [u8], at: usize, bytes: &[u8], system: u32, n: u32) -> usize
    ensures { Put out.old at (length bytes.now + 13) (title bytes.now system n) out.new result }
{
    with_room(
        out,
        at,
        bytes.len() + 13,
        |out| put::title(out, at, bytes, system, n),
    )
}

// A space and a month's number, with a star directly after it where the leap mark is not 0.
pub fn month(out: &mut [u8], at: usize, number: u32, leap: u8) -> usize
    ensures { Put out.old at 12 (month number leap) out.new result }
{
    with_room(out, at, 12, |out| put::month(out, at, number, leap))
}

// A word, a space and a number.
pub fn numbered(out: &mut [u8], at: usize, bytes: &[u8], n: u32) -> usize
    ensures { Put out.old at (length bytes.now + 11) (numbered bytes.now n) out.new result }
{
    with_room(
        out,
        at,
        bytes.len() + 11,
        |out| put::numbered(out, at, bytes, n),
    )
}

// Whether there is no room for a line of a word and so many numbers.
fn lacks_line(length: usize, at: usize, word: usize, count: usize) -> bool
    requires { (length < 2 ^ 63) × (word < 2 ^ 63) }
    ensures { result ≡ ltb length (at + (word + 11 * count + 1)) }
{
    if length / 11 < count {
        return true;
    }
    is_short(length, at, word + 11 * count + 1)
}

// A line of a word and numbers, a space before each number, where there is room for ten digits in each. So much room may
// be more than a usize can tell, so it is not asked of `with_room`.
pub fn line(out: &mut [u8], at: usize, bytes: &[u8], numbers: &[u32]) -> usize
    ensures { Put out.old at (length bytes.now + 11 * length numbers.now + 1)
        (line bytes.now numbers.now) out.new result }
{
    if lacks_line(out.len(), at, bytes.len(), numbers.len()) {
        return at;
    }
    put::line(out, at, bytes, numbers)
}

// The last field of a line: a space and a number, or '-' where there is none; and the line's end.
pub fn last_field(out: &mut [u8], at: usize, n: Option<u32>) -> usize
    ensures { Put out.old at 12 (last_field n) out.new result }
{
    with_room(out, at, 12, |out| put::last_field(out, at, n))
}

fn refused_with(out: &mut [u8], at: usize, numbers: &[u32]) -> usize
    ensures { Put out.old at (7 + 11 * length numbers.now + 1) (refused_with numbers.now) out.new result }
{
    line(out, at, b"refused", numbers)
}

// The line of a refusal.
pub fn refused(out: &mut [u8], at: usize, refusal: u8) -> usize
    ensures { Put out.old at 19 (refused_line refusal) out.new result }
{
    let numbers = [refusal as u32];
    refused_with(out, at, &numbers)
}

// The line of a refusal that tells a month.
pub fn refused_telling(out: &mut [u8], at: usize, refusal: u8, told: u8) -> usize
    ensures { Put out.old at 30 (refused_telling_line refusal told) out.new result }
{
    let numbers = [refusal as u32, told as u32];
    refused_with(out, at, &numbers)
}
