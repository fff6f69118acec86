// The systems that have an exchange.
ghost use Rattle.std.specs.Prelude.{◌≡◌, ◌<◌, MatchOption};
ghost use Rattle.exchange.specs.Systems.{parts_in_day};

use calendar::systems;

// Parts in a day; none of a system that has no exchange.
pub(crate) fn parts_in_day(system: u64) -> Option<u16>
    ensures { MatchOption result (parts_in_day system ≡ 0) (λ parts. (parts ≡ parts_in_day system) × (0 < parts)) }
{
    // What this test leaves is a choice of two, which costs no jump. By a `match` of both systems, such as one of
    // `System::try_from`, an export takes 9 ns and not 4 where they are mixed.
    if system == 0 || 2 < system {
        return None;
    }
    let constants = if system == 1 {
        systems::guantian()
    } else {
        systems::jiyuan()
    };
    Some(constants.solar as u16)
}
