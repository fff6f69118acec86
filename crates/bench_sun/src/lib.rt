// The sun's excess and shortfall for the benchmark, which calls it from C.
#![tactic(auto)]

ghost use Rattle.std.specs.Prelude.{◌≡◌};
ghost use Rattle.bench_sun.specs.Amounts.{season_of, amount_for};

use solar_inequality::data::Season;

// No `From` of the season's: that any number but 0 is summer is the benchmark's own affair.
fn season_of(number: u32) -> Season
    ensures { result ≡ season_of number }
{
    match number {
        0 => Season::Winter,
        _ => Season::Summer,
    }
}

#[unsafe(no_mangle)]
pub extern "C" fn sun_amount(season: u32, days: u32) -> u32
    ensures { result ≡ amount_for season days }
{
    solar_inequality::amount(season_of(season), days).map_or(0, |amount| amount as u32)
}
