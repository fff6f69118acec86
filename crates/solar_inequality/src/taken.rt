// What the rule takes of a day, and the amount by it.
ghost use Rattle.std.specs.Prelude.{◌≡◌, ◌≤◌};
ghost use Rattle.solar_inequality.specs.Answers.{taken_of, amount_by, amount_taken};
ghost use Rattle.solar_inequality.specs.Limits.{limit_of};
ghost use Rattle.solar_inequality.specs.LimitHolds.{LimitHolds};

use crate::data::Season;
use crate::limits::{HALF_YEAR, Limit};
use calendar::systems::GUANTIAN_DAY;

// So many parts, x in paper 02, and the season whose limit is used.
#[derive(Clone, Copy)]
pub(crate) struct Taken {
    pub parts: u64,
    pub season: Season,
}

// The days as they are up to the season's limit; beyond it, what is left of the half year, by the other season's.
#[tactic(auto, unfolding(crate::specs::Answers::taken_of))]
pub(crate) fn of_day(season: Season, days: u32) -> Taken
    requires { days ≤ 182 }
    ensures { result ≡ taken_of season days }
{
    let parts = days as u64 * GUANTIAN_DAY;
    if parts <= season.limit().parts {
        return Taken { parts, season };
    }
    Taken {
        parts: HALF_YEAR - parts,
        season: season.other(),
    }
}

// One division, so that nothing is rounded before it.
fn amount_by(limit: Limit, parts: u64) -> u16
    requires { LimitHolds limit × (parts ≤ limit.parts) }
    ensures { result ≡ amount_by limit parts }
{
    let product = parts * (2 * limit.parts - parts);
    let amount = 10_000 * product / (GUANTIAN_DAY * GUANTIAN_DAY * limit.divisor);
    amount as u16
}

// The seasons are named one by one, so that the compiler knows the divisors.
#[tactic(auto, unfolding(crate::specs::Answers::amount_taken))]
pub(crate) fn amount(taken: Taken) -> u16
    requires { taken.parts ≤ (limit_of taken.season).parts }
    ensures { result ≡ amount_taken taken }
{
    match taken.season {
        Season::Winter => amount_by(Limit::WINTER, taken.parts),
        Season::Summer => amount_by(Limit::SUMMER, taken.parts),
    }
}
