// Text put into an output at a place that has room for it; each function gives the place after what it wrote.
ghost use Rattle.std.specs.Prelude.{◌≡◌, ◌+◌, ◌*◌, ◌/◌, ◌%◌, ◌^◌, ◌≤◌, ◌<◌, cond, [], ◌∷◌, eqb, ltb, length};
ghost use Rattle.text.specs.Decimal.{digit, two_digits, four_digits, decimal};
ghost use Rattle.text.specs.Piece.{word, field, year, title, star, month, numbered, fields, line, last_field};
ghost use Rattle.text.specs.Wrote.{Wrote};

use crate::letter_of;

fn byte(out: &mut [u8], at: usize, b: u8) -> usize
    requires { at + 1 ≤ length out.old }
    ensures { Wrote out.old at (b ∷ []) out.new result × (result ≤ at + 1) }
{
    out[at] = b;
    at + 1
}

// `first` and `second`, or `second` alone where `both` is 0. What the first store wrote is then written over, so that
// there is no branch to guess wrong.
fn pair(out: &mut [u8], at: usize, both: usize, first: u8, second: u8) -> usize
    requires { (at + 2 ≤ length out.old) × (both ≤ 1) }
    ensures { Wrote out.old at (cond (eqb both 0) (second ∷ []) (first ∷ second ∷ [])) out.new result × (result ≤ at + 2) }
{
    out[at] = first;
    out[at + both] = second;
    at + both + 1
}

fn has_tens(n: u32) -> usize
    ensures { (result ≡ cond (ltb n 10) 0 1) × (result ≤ 1) }
{
    if n < 10 { 0 } else { 1 }
}

// Both digits in one number, the first in its low byte, so that one store of the machine writes both.
fn both_digits(n: u32) -> u32
    requires { n < 100 }
    ensures { result ≡ digit (n / 10) + 256 * digit (n % 10) }
{
    12_336 + 256 * n - 2559 * (n / 10)
}

fn two_digits(out: &mut [u8], at: usize, n: u32) -> usize
    requires { (at + 2 ≤ length out.old) × (n < 100) }
    ensures { Wrote out.old at (two_digits n) out.new result × (result ≤ at + 2) }
{
    let both = both_digits(n);
    pair(out, at, 1, (both % 256) as u8, (both / 256) as u8)
}

fn below_100(out: &mut [u8], at: usize, n: u32) -> usize
    requires { (at + 2 ≤ length out.old) × (n < 100) }
    ensures { Wrote out.old at (decimal n) out.new result × (result ≤ at + 2) }
{
    pair(
        out,
        at,
        has_tens(n),
        (48 + n / 10) as u8,
        (48 + n % 10) as u8,
    )
}

fn four_digits(out: &mut [u8], at: usize, n: u32) -> usize
    requires { (at + 4 ≤ length out.old) × (n < 10_000) }
    ensures { Wrote out.old at (four_digits n) out.new result × (result ≤ at + 4) }
{
    let next = two_digits(out, at, n / 100);
    two_digits(out, next, n % 100)
}

fn nine_or_ten_digits(out: &mut [u8], at: usize, n: u32) -> usize
    requires { (at + 10 ≤ length out.old) × (100_000_000 ≤ n) × (n < 2 ^ 32) }
    ensures { Wrote out.old at (decimal n) out.new result × (result ≤ at + 10) }
{
    let next = below_100(out, at, n / 100_000_000);
    let last = four_digits(out, next, n / 10_000 % 10_000);
    four_digits(out, last, n % 10_000)
}

// A number of three digits or more.
fn from_100(out: &mut [u8], at: usize, n: u32) -> usize
    requires { (at + 10 ≤ length out.old) × (100 ≤ n) }
    ensures { Wrote out.old at (decimal n) out.new result × (result ≤ at + 10) }
{
    if n < 10_000 {
        let next = below_100(out, at, n / 100);
        return two_digits(out, next, n % 100);
    }
    if n < 1_000_000 {
        let next = below_100(out, at, n / 10_000);
        let last = two_digits(out, next, n / 100 % 100);
        return two_digits(out, last, n % 100);
    }
    // as register days have
    if n < 10_000_000 {
        let next = byte(out, at, (48 + n / 1_000_000) as u8);
        let third = two_digits(out, next, n / 10_000 % 100);
        let last = two_digits(out, third, n / 100 % 100);
        return two_digits(out, last, n % 100);
    }
    if n < 100_000_000 {
        let next = below_100(out, at, n / 1_000_000);
        let third = two_digits(out, next, n / 10_000 % 100);
        let last = two_digits(out, third, n / 100 % 100);
        return two_digits(out, last, n % 100);
    }
    nine_or_ten_digits(out, at, n)
}

// Digits are put by hand: itoa's `Buffer::format` and a copy of its text took 1.8 to 2 times as long.
pub(crate) fn number(out: &mut [u8], at: usize, n: u32) -> usize
    requires { at + 10 ≤ length out.old }
    ensures { Wrote out.old at (decimal n) out.new result × (result ≤ at + 10) }
{
    if n < 100 {
        return below_100(out, at, n);
    }
    from_100(out, at, n)
}

// A space and a number.
pub(crate) fn field(out: &mut [u8], at: usize, n: u32) -> usize
    requires { at + 11 ≤ length out.old }
    ensures { Wrote out.old at (field n) out.new result × (result ≤ at + 11) }
{
    let next = byte(out, at, b' ');
    number(out, next, n)
}

// The same, of a number that most often has two digits at most: short enough to be inlined where it is used.
fn small_field(out: &mut [u8], at: usize, n: u32) -> usize
    requires { at + 11 ≤ length out.old }
    ensures { Wrote out.old at (field n) out.new result × (result ≤ at + 11) }
{
    if n < 100 {
        let next = byte(out, at, b' ');
        return below_100(out, next, n);
    }
    field(out, at, n)
}

// A system's letter and a year.
pub(crate) fn year(out: &mut [u8], at: usize, system: u32, n: u32) -> usize
    requires { at + 12 ≤ length out.old }
    ensures { Wrote out.old at (year system n) out.new result × (result ≤ at + 12) }
{
    let next = byte(out, at, letter_of(system));
    field(out, next, n)
}

// A word, a year of a system, and the line's end.
pub(crate) fn title(out: &mut [u8], at: usize, bytes: &[u8], system: u32, n: u32) -> usize
    requires { at + (length bytes.now + 13) ≤ length out.old }
    ensures { Wrote out.old at (title bytes.now system n) out.new result
        × (result ≤ at + (length bytes.now + 13)) }
{
    let next = word(out, at, bytes);
    let next = year(out, next, system, n);
    byte(out, next, b'\n')
}

fn star(out: &mut [u8], at: usize, leap: u8) -> usize
    requires { at + 1 ≤ length out.old }
    ensures { Wrote out.old at (star leap) out.new result × (result ≤ at + 1) }
{
    if leap == 0 {
        return at;
    }
    byte(out, at, b'*')
}

// A month's number, and a star if the month is leap.
pub(crate) fn month(out: &mut [u8], at: usize, number: u32, leap: u8) -> usize
    requires { at + 12 ≤ length out.old }
    ensures { Wrote out.old at (month number leap) out.new result × (result ≤ at + 12) }
{
    let next = small_field(out, at, number);
    star(out, next, leap)
}

// A field for each number.
fn fields(out: &mut [u8], start: usize, numbers: &[u32]) -> usize
    requires { start + 11 * length numbers.now ≤ length out.old }
    ensures { Wrote out.old start (fields numbers.now) out.new result
        × (result ≤ start + 11 * length numbers.now) }
{
    let mut at = start;
    for n in numbers {
        at = small_field(out, at, *n);
    }
    at
}

// A word, as its bytes. One by one: of a word that it knows the compiler makes a store or two, and of `copy_from_slice` a
// test whether the two overlap as well.
pub(crate) fn word(out: &mut [u8], at: usize, bytes: &[u8]) -> usize
    requires { at + length bytes.now ≤ length out.old }
    ensures { Wrote out.old at (word bytes.now) out.new result × (result ≤ at + length bytes.now) }
{
    for i in 0..bytes.len() {
        out[at + i] = bytes[i];
    }
    at + bytes.len()
}

// A word and a number after it.
pub(crate) fn numbered(out: &mut [u8], at: usize, bytes: &[u8], n: u32) -> usize
    requires { at + (length bytes.now + 11) ≤ length out.old }
    ensures { Wrote out.old at (numbered bytes.now n) out.new result
        × (result ≤ at + (length bytes.now + 11)) }
{
    let next = word(out, at, bytes);
    field(out, next, n)
}

// A word, a field for each number, and the line's end.
pub(crate) fn line(out: &mut [u8], start: usize, bytes: &[u8], numbers: &[u32]) -> usize
    requires { start + (length bytes.now + 11 * length numbers.now + 1) ≤ length out.old }
    ensures { Wrote out.old start (line bytes.now numbers.now) out.new result
        × (result ≤ start + (length bytes.now + 11 * length numbers.now + 1)) }
{
    let at = word(out, start, bytes);
    let at = fields(out, at, numbers);
    byte(out, at, b'\n')
}

// A field and the line's end; '-' in the field where there is no number.
pub(crate) fn last_field(out: &mut [u8], at: usize, n: Option<u32>) -> usize
    requires { at + 12 ≤ length out.old }
    ensures { Wrote out.old at (last_field n) out.new result × (result ≤ at + 12) }
{
    match n {
        None => word(out, at, b" -\n"),
        Some(n) => {
            let next = field(out, at, n);
            byte(out, next, b'\n')
        }
    }
}
