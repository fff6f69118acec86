// The numbers of the rule, which are Guantian's. Times are in parts of a day, so that all are whole.
ghost use Rattle.std.specs.Prelude.{◌≡◌};
ghost use Rattle.solar_inequality.specs.Limits.{limit_of, other};

use crate::data::Season;
use calendar::systems::GUANTIAN_DAY;

// All that differs between the seasons: for how long the excess or the shortfall grows (限), L in paper 02, and the
// divisor that goes with it.
#[derive(Clone, Copy)]
pub(crate) struct Limit {
    pub parts: u64,
    pub divisor: u64,
}

impl Limit {
    pub(crate) const WINTER: Limit = Limit {
        parts: 88 * GUANTIAN_DAY + 10_958,
        divisor: 3294,
    };

    pub(crate) const SUMMER: Limit = Limit {
        parts: 93 * GUANTIAN_DAY + 8552,
        divisor: 3659,
    };
}

// From one solstice to the next (二至限).
pub(crate) const HALF_YEAR: u64 = 182 * GUANTIAN_DAY + 7480;

impl Season {
    pub(crate) fn limit(self) -> Limit
        ensures { result ≡ limit_of self }
    {
        match self {
            Season::Winter => Limit::WINTER,
            Season::Summer => Limit::SUMMER,
        }
    }

    pub(crate) fn other(self) -> Season
        ensures { result ≡ other self }
    {
        match self {
            Season::Winter => Season::Summer,
            Season::Summer => Season::Winter,
        }
    }
}
