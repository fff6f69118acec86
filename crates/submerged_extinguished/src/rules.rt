// The numbers of the rules for submerged and extinguished days, of the systems that have them.
ghost use Rattle.std.specs.Prelude.{◌≡◌, MatchResult};
ghost use Rattle.calendar.specs.Systems.{guantian, jiyuan};
ghost use Rattle.reckoning.specs.RefusalNumbers.{system_refused};
ghost use Rattle.submerged_extinguished.specs.Rules.{guantian_rule, jiyuan_rule, ruled_number, HasRule};
ghost use Rattle.submerged_extinguished.specs.WordBounds.{RuleFits};

use calendar::data::Constants;
use calendar::systems;
use calendar::systems::System;
use reckoning::refusal::Refusal;

// All that differs between the systems.
#[derive(Clone, Copy)]
pub(crate) struct Rule {
    // The least remainder of a qi that has a submerged day (没限), in small units.
    pub limit: u64,
    // The distance is this number less the remainder so many times, by the divisor.
    pub minuend: u64,
    pub multiplier: u64,
    pub divisor: u64,
    // What a mean month lacks of thirty days (朔虚分): a new moon with a smaller remainder has an extinguished day.
    pub shortfall: u64,
}

// The constants of a system that has a rule, and its rule.
#[derive(Clone, Copy)]
pub(crate) struct Numbers {
    pub constants: Constants,
    pub rule: Rule,
    ghost fits: { RuleFits constants rule },
}

// A system that has a rule.
#[derive(Clone, Copy)]
pub(crate) enum Ruled {
    Guantian,
    Jiyuan,
}

// The system with a number, where it has a rule; refused System where it has none.
pub(crate) fn with_rule(system: u32) -> Result<Ruled, Refusal>
    ensures { MatchResult result
        (λ ruled. (ruled_number ruled ≡ system) × HasRule system)
        (λ refusal. (refusal ≡ system_refused) × (HasRule system → ⊥)) }
{
    match System::try_from(system)? {
        System::Guantian => Ok(Ruled::Guantian),
        System::Jiyuan => Ok(Ruled::Jiyuan),
        System::Jingchu => Err(Refusal::System),
    }
}

pub(crate) fn guantian() -> Numbers
    ensures constants { result.constants ≡ guantian }
    ensures rule { result.rule ≡ guantian_rule }
{
    let rule = Rule {
        limit: 9402 * 36,
        minuend: 4_393_880,
        multiplier: 360,
        divisor: 63_080,
        shortfall: 5647,
    };
    Numbers {
        constants: systems::guantian(),
        rule,
    }
}

pub(crate) fn jiyuan() -> Numbers
    ensures constants { result.constants ≡ jiyuan }
    ensures rule { result.rule ≡ jiyuan_rule }
{
    let rule = Rule {
        limit: 5697 * 4 + 1,
        minuend: 443_771,
        multiplier: 60,
        divisor: 6371,
        shortfall: 3422,
    };
    Numbers {
        constants: systems::jiyuan(),
        rule,
    }
}
