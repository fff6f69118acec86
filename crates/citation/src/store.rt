// The storing step.
ghost use Rattle.std.specs.Prelude.{◌≡◌, ◌+◌, ◌*◌, ◌^◌, length};
ghost use Rattle.reckoning.specs.RefusalNumbers.{number_of, month_told};
ghost use Rattle.citation.specs.Store.{answer_of, stored_into};

use crate::judge::judge;
use crate::output::put;
use reckoning::refusal::Refusal;

// 2^40: the month that a refusal tells stands above the 8 bits of its number.
const TOLD_UNIT: u64 = 1_099_511_627_776;

// The answer of a refusal.
fn refused(refusal: Refusal) -> u64
    ensures { result ≡ number_of refusal * 2 ^ 32 + month_told refusal * 2 ^ 40 }
{
    refusal.in_answer() + refusal.told() as u64 * TOLD_UNIT
}

// Stores one citation. The answer is the register day that it names, plus 2^32 times the refusal number and 2^40 times
// the month told with it; the output's first ten bytes become its stored record, and the rest is left. Refused, the day
// is 0 and no byte changes.
pub fn chiselbrow_store(input: &[u8], output: &mut [u8]) -> u64
    ensures value { result ≡ answer_of input.now (length output.old) }
    ensures output_after { output.new ≡ stored_into input.now output.old }
{
    match judge(input) {
        Ok(j) => {
            if put(output, j.stored) {
                j.day.0 as u64
            } else {
                refused(Refusal::Output)
            }
        },
        Err(refusal) => refused(refusal),
    }
}
