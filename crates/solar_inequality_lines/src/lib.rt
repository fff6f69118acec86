// The line for people of the sun's excess or shortfall on a day.
#![tactic(auto)]

ghost use Rattle.std.specs.Prelude.{◌+◌, ◌≤◌, length};
ghost use Rattle.text.specs.Put.{Put};
ghost use Rattle.text.specs.Wrote.{Wrote};
ghost use Rattle.solar_inequality_lines.specs.AmountLine.{day_line, amount_line};

use solar_inequality::data::Season;

// A day and its amount.
fn put_day(out: &mut [u8], at: usize, days: u32, amount: u16) -> usize
    requires { at + 22 ≤ length out.old }
    ensures { Wrote out.old at (day_line days amount) out.new result × (result ≤ at + 22) }
{
    let at = text::number(out, at, days);
    text::last_field(out, at, Some(amount as u32))
}

fn put_line(out: &mut [u8], at: usize, season: Season, days: u32) -> usize
    requires { at + 22 ≤ length out.old }
    ensures { Wrote out.old at (amount_line season days) out.new result × (result ≤ at + 22) }
{
    match solar_inequality::amount(season, days) {
        Ok(amount) => put_day(out, at, days, amount),
        Err(refusal) => text::refused(out, at, refusal.number()),
    }
}

// The line of a day, or that of its refusal, is put into an output where 22 bytes follow; where fewer do, the output and
// the position stay as they are.
pub fn line(out: &mut [u8], at: usize, season: Season, days: u32) -> usize
    ensures { Put out.old at 22 (amount_line season days) out.new result }
{
    if text::is_short(out.len(), at, 22) {
        return at;
    }
    put_line(out, at, season, days)
}
