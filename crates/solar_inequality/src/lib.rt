// The sun's excess and shortfall (盈缩) by Guantian: by how many degrees it is ahead of even motion on a day after the
// winter solstice, or behind it after the summer solstice.
#![tactic(auto)]

ghost use Rattle.std.specs.Prelude.{◌≡◌};
ghost use Rattle.solar_inequality.specs.Answers.{answer_of};
ghost use Rattle.solar_inequality.specs.Told.{told_amount};

use data::Season;
use reckoning::refusal::Refusal;

pub mod data;
mod limits;
mod taken;

// The last day that is answered: the half year has so many whole days.
const LAST: u32 = 182;

// The excess or the shortfall on a day, so many whole days after the solstice, in ten-thousandths of a degree, cut down.
// Refused Day past the last.
#[tactic(auto, unfolding(crate::specs::Answers::answer_of))]
pub fn amount(season: Season, days: u32) -> Result<u16, Refusal>
    ensures { told_amount result ≡ answer_of season days }
{
    if LAST < days {
        return Err(Refusal::Day);
    }
    Ok(taken::amount(taken::of_day(season, days)))
}
