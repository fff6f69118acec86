// The conversion of records of the retired kind 2, which cited a day by its name counted from 0, into kind 5.
#![tactic(auto)]

ghost use Rattle.std.specs.Prelude.{◌≡◌, false, eqb, length};
ghost use Rattle.reckoning.specs.RefusalNumbers.{KIND, number_of};
ghost use Rattle.reckoning.specs.Told.{told_refusal};
ghost use Rattle.conversion.specs.Conversion.{conversion_refusal, converted, conversion_answer};
ghost use Rattle.conversion.specs.Conversion.{converted_into, renewed, left_with};
ghost use Rattle.conversion.specs.Told.{told_left};

use citation::output::{Record, put};
use little_endian::le16;
use reckoning::refusal::Refusal;

// A record that is converted.
fn is_convertible(s: &[u8]) -> bool
    ensures { result ≡ eqb (conversion_refusal s.now) 0 }
{
    if s.len() != 10 || le16(s[0], s[1]) != 10 || le16(s[2], s[3]) != 2 {
        return false;
    }
    s[9] < 60
}

// The refusal of another.
fn refusal(s: &[u8]) -> Refusal
    requires { eqb (conversion_refusal s.now) 0 ≡ false }
    ensures { number_of result ≡ conversion_refusal s.now }
{
    if s.len() < 4 {
        return Refusal::Short;
    }
    if le16(s[2], s[3]) != 2 {
        return Refusal::Kind;
    }
    if s.len() != 10 || le16(s[0], s[1]) != 10 {
        return Refusal::Length;
    }
    Refusal::Day
}

// A record is converted or refused by its bytes. What it cites is left to the storing step.
fn convertible(s: &[u8]) -> Result<(), Refusal>
    ensures { told_refusal result ≡ conversion_refusal s.now }
{
    if is_convertible(s) {
        return Ok(());
    }
    Err(refusal(s))
}

// The record of kind 5 for one of kind 2, whose first four bytes are known.
fn raised(s: &[u8]) -> Record
    requires { conversion_refusal s.now ≡ 0 }
    ensures { result ≡ converted s.now }
{
    [10, 0, 5, 0, s[4], s[5], s[6], s[7], s[8], s[9] + 1]
}

// A record of another kind, which is not to be converted.
fn is_another(s: &[u8]) -> bool
    ensures { result ≡ eqb (conversion_refusal s.now) KIND }
{
    4 <= s.len() && le16(s[2], s[3]) != 2
}

// The refusal of a record that is left; one that is converted or of another kind has none.
pub fn left_with(s: &[u8]) -> Option<Refusal>
    ensures { told_left result ≡ left_with s.now }
{
    if is_another(s) {
        return None;
    }
    convertible(s).err()
}

// A record in its place: converted, or left as it is, with its refusal. Most records are of another kind, which is tested
// first.
pub fn renew(cited: &mut [u8]) -> Result<(), Refusal>
    ensures value { told_refusal result ≡ left_with cited.old }
    ensures cited_after { cited.new ≡ renewed cited.old }
{
    if is_another(cited) {
        return Ok(());
    }
    convertible(cited)?;
    let record = raised(cited);
    put(cited, record);
    Ok(())
}

// Converts one record. The output's first ten bytes become the record of kind 5, and the rest is left. The answer is
// 2^32 times the refusal number; refused, no byte changes.
pub fn chiselbrow_convert(input: &[u8], output: &mut [u8]) -> u64
    ensures value { result ≡ conversion_answer input.now (length output.old) }
    ensures output_after { output.new ≡ converted_into input.now output.old }
{
    if let Err(refusal) = convertible(input) {
        return refusal.in_answer();
    }
    if put(output, raised(input)) {
        return 0;
    }
    Refusal::Output.in_answer()
}
