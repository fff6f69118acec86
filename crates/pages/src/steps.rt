// The lines of a year's equal steps. A line takes 62 bytes at most, its word six and a number ten digits.
ghost use Rattle.std.specs.Prelude.{◌≡◌, ℕ, ◌+◌, ◌*◌, ◌≤◌, ◌<◌, Result, IsOkAnd, length};
ghost use Rattle.reckoning.specs.declared.data.Moment.{Moment};
ghost use Rattle.reckoning.specs.declared.refusal.Refusal.{Refusal};
ghost use Rattle.reckoning.specs.Answers.{MomentAnswer};
ghost use Rattle.reckoning.specs.Told.{moment_answered, told_moment};
ghost use Rattle.text.specs.Wrote.{Wrote};
ghost use Rattle.pages.specs.StepLines.{moment_numbers, step_line, step_lines};

use crate::names::name;
use reckoning::data::Moment;
use reckoning::refusal::Refusal;

// The numbers that a line tells of step i, by its moment.
fn numbers(i: u32, moment: Moment) -> [u32; 5]
    ensures { result ≡ moment_numbers i (moment_answered moment) }
{
    let day = moment.day;
    [i, day.0, name(day), moment.parts, moment.units]
}

fn line(out: &mut [u8], at: usize, word: &[u8], i: u32, moment: Moment) -> usize
    requires { (at + 62 ≤ length out.old) × (length word.now ≤ 6) }
    ensures { Wrote out.old at (step_line word.now i (moment_answered moment)) out.new result × (result ≤ at + 62) }
{
    let numbers = numbers(i, moment);
    text::line(out, at, word, &numbers)
}

// So many steps of a year, from the first on, each with a word before it, by the moments that they have. Where none of
// them is refused, their lines are written.
pub(crate) fn lines<F: Fn(u32) -> Result<Moment, Refusal>>(
    out: &mut [u8],
    start: usize,
    word: &[u8],
    count: u32,
    moment: F,
) -> Result<usize, Refusal>
    requires room { start + 62 * count ≤ length out.old }
    requires short { length word.now ≤ 6 }
    requires callable { F.IsAlwaysCallable moment }
    ensures { (moments : ℕ → MomentAnswer) → ((i : ℕ) (m : Result Moment Refusal) → F.post moment i m → told_moment m ≡ moments i)
        → ((i : ℕ) → i < count → (moments i).refusal ≡ 0)
        → IsOkAnd result (λ end. Wrote out.old start (step_lines word.now moments count) out.new end
        × (end ≤ start + 62 * count)) }
{
    let mut at = start;
    for i in 0..count {
        at = line(out, at, word, i, moment(i)?);
    }
    Ok(at)
}
