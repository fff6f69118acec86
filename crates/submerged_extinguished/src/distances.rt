// The distance of a submerged day by the remainder of its qi, and of an extinguished day by that of its new moon.
ghost use Rattle.std.specs.Prelude.{◌≡◌, ◌<◌};
ghost use Rattle.calendar.specs.Systems.{constants_of};
ghost use Rattle.submerged_extinguished.specs.Rules.{ruled_number};
ghost use Rattle.submerged_extinguished.specs.Answers.{exact_remainder, submerged_by, submerged_after, extinguished_by};

use crate::rules;
use crate::rules::{Numbers, Ruled};

impl Numbers {
    // After a qi with a remainder of so many parts and small units. All in small units, so that nothing is rounded before
    // the one division.
    #[tactic(auto, unfolding(crate::specs::Answers::submerged_by))]
    fn submerged(self, parts: u32, units: u32) -> Option<u8>
        requires { (parts < self.constants.solar) × (units < self.constants.units) }
        ensures { result ≡ submerged_by self.constants self.rule (exact_remainder self.constants parts units) }
    {
        let in_part = self.constants.units;
        let rule = self.rule;
        let remainder = parts as u64 * in_part + units as u64;
        if remainder < rule.limit {
            return None;
        }
        let left = rule.minuend * in_part - rule.multiplier * remainder;
        let days = left / (rule.divisor * in_part);
        Some(days as u8)
    }

    // After a new moon with a remainder.
    #[tactic(auto, unfolding(crate::specs::Answers::extinguished_by))]
    pub(crate) fn extinguished(self, remainder: u64) -> Option<u8>
        ensures { result ≡ extinguished_by self.rule remainder }
    {
        let shortfall = self.rule.shortfall;
        if remainder < shortfall {
            let days = 30 * remainder / shortfall;
            Some(days as u8)
        } else {
            None
        }
    }
}

// The systems are named one by one, so that the compiler knows the divisors. `moons::of_months` has a `match` of its own
// too: a function that handed the numbers to a closure would have a longer contract than both.
pub(crate) fn submerged(ruled: Ruled, parts: u32, units: u32) -> Option<u8>
    requires { (parts < (constants_of (ruled_number ruled)).solar) × (units < (constants_of (ruled_number ruled)).units) }
    ensures { result ≡ submerged_after (ruled_number ruled) parts units }
{
    match ruled {
        Ruled::Guantian => rules::guantian().submerged(parts, units),
        Ruled::Jiyuan => rules::jiyuan().submerged(parts, units),
    }
}
