// The numbers of a range, by the texts of its first and its last: digit by digit, so that they may have any length.
ghost use Rattle.std.specs.Prelude.{◌≡◌, true, ◌≤◌};
ghost use Rattle.arguments.specs.Number.{all_digits};
ghost use Rattle.arguments.specs.Ranges.{digit_at, count_of, range_of};

use crate::number;

const LONGEST: u64 = 1_000_000_000_000_000_000;

// The first number of a range, as a number is told, and how many there are.
#[derive(Clone, Copy, Debug, PartialEq, Eq)]
pub struct Range {
    pub first: u32,
    pub count: u64,
}

fn digit_at(text: &[u8], place: usize) -> u8
    requires { all_digits text.now ≡ true }
    ensures { (result ≡ digit_at text.now place) × (result ≤ 9) }
{
    if text.len() <= place {
        return 0;
    }
    text[text.len() - 1 - place] - b'0'
}

// From the highest place down, how far the last number is ahead of the first. Once it is behind, it stays behind: the
// places below make up less than one.
fn count(first: &[u8], last: &[u8]) -> u64
    requires { (all_digits first.now ≡ true) × (all_digits last.now ≡ true) }
    ensures { result ≡ count_of first.now last.now }
{
    let mut ahead: u64 = 0;
    for place in (0..first.len().max(last.len())).rev() {
        let first_digit = digit_at(first, place) as u64;
        let last_digit = digit_at(last, place) as u64;
        let above = ahead * 10 + last_digit;
        if above < first_digit {
            return 0;
        }
        ahead = (above - first_digit).min(LONGEST);
    }
    (ahead + 1).min(LONGEST)
}

pub fn read(first: &[u8], last: &[u8]) -> Option<Range>
    ensures { result ≡ range_of first.now last.now }
{
    let start = number::read(first)?;
    number::read(last)?;
    Some(Range {
        first: start,
        count: count(first, last),
    })
}
