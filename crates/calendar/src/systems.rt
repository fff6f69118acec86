// The systems, their numbers and their constants. The constants of each are a function and no `const`, so that they have a
// promise: a `const` has no clause.
ghost use Rattle.std.specs.Prelude.{◌≡◌};
ghost use Rattle.calendar.specs.Systems.{guantian, jiyuan, jingchu, Numbered};

use crate::data::Constants;

#[derive(Clone, Copy, Debug, PartialEq, Eq)]
pub enum System {
    Guantian,
    Jiyuan,
    Jingchu,
}

// A number that no system has.
#[derive(Clone, Copy, Debug, PartialEq, Eq)]
pub struct NoSuchSystem(pub u32);

impl TryFrom<u32> for System {
    type Error = NoSuchSystem;

    ghost try_from_gives = { Numbered };

    #[inline(always)]
    fn try_from(number: u32) -> Result<Self, NoSuchSystem> {
        match number {
            1 => Ok(System::Guantian),
            2 => Ok(System::Jiyuan),
            3 => Ok(System::Jingchu),
            _ => Err(NoSuchSystem(number)),
        }
    }
}

// Parts in a day of Guantian, the sun's and the moon's alike.
pub const GUANTIAN_DAY: u64 = 12_030;

pub fn guantian() -> Constants
    ensures { result ≡ guantian }
{
    Constants {
        solar: GUANTIAN_DAY,
        lunar: GUANTIAN_DAY,
        year: 4_393_880,
        month: 355_253,
        units: 36,
        denominator: 36,
        elapsed: 5_944_808,
        common: 1092,
        name: 0,
        anchor: 2_169_182_929,
        epoch: 0,
    }
}

pub fn jiyuan() -> Constants
    ensures { result ≡ jiyuan }
{
    Constants {
        solar: 7290,
        lunar: 7290,
        year: 2_662_626,
        month: 215_278,
        units: 4,
        denominator: 60,
        elapsed: 28_613_460,
        common: 1100,
        name: 15,
        anchor: 10_448_760_934,
        epoch: 0,
    }
}

pub fn jingchu() -> Constants
    ensures { result ≡ jingchu }
{
    Constants {
        solar: 1843,
        lunar: 4559,
        year: 673_150,
        month: 134_630,
        units: 12,
        denominator: 36,
        elapsed: 4045,
        common: 237,
        name: 0,
        anchor: 0,
        epoch: 330_191,
    }
}
