// The heads of Guantian years 960 to 1279, printed: paper 02, Q-5.
#![tactic(auto)]

ghost use Rattle.std.specs.Prelude.{◌≡◌, ◌+◌, ◌<◌};
ghost use Rattle.calendar.specs.Systems.{guantian, years_elapsed};
ghost use Rattle.printed_heads.specs.PrintedHeads.{first_year, on_page, IsHead, Says, printed_head};

use calendar::data::RegisterDay;
use calendar::systems::System;
use page::HEADS;

mod page;

// The years of the page.
const FIRST: u32 = 960;

const LAST: u32 = 1279;

// Entry i of the page.
fn entry(i: usize) -> RegisterDay
    requires { i < 320 }
    ensures { IsHead guantian (years_elapsed guantian (first_year + i)) result.0 }
{
    RegisterDay(HEADS[i])
}

// Whether the page has a year of a system.
fn on_page(system: u32, year: u32) -> bool
    ensures { result ≡ on_page system year }
{
    System::try_from(system) == Ok(System::Guantian) && FIRST <= year && year <= LAST
}

// The head of a year of a system, if it is printed.
pub fn of_year(system: u32, year: u32) -> Option<RegisterDay>
    ensures { (result ≡ printed_head system year) × Says system year result }
{
    if on_page(system, year) {
        Some(entry((year - FIRST) as usize))
    } else {
        None
    }
}
