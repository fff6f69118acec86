// What a request by system and year stands on.
ghost use Rattle.std.specs.Prelude.{◌≡◌};
ghost use Rattle.calendar.specs.Systems.{constants_of};
ghost use Rattle.reckoning.specs.Asked.{asked_of};
ghost use Rattle.reckoning.specs.ComputedRefusals.{year_refusal, step_refusal};
ghost use Rattle.reckoning.specs.Scope.{YearInScope};
ghost use Rattle.reckoning.specs.Told.{accepted_as, told_asked};

use crate::calendars::Accepted;
use crate::refusal;
use crate::refusal::Refusal;
use calendar::data::Constants;
use calendar::systems::{System, guantian, jingchu, jiyuan};

// The constants that a system's number picks. One that is no system's picks the first system's; its request is refused
// before.
fn constants_of(system: u32) -> Constants
    ensures { result ≡ constants_of system }
{
    match System::try_from(system) {
        Ok(System::Jiyuan) => jiyuan(),
        Ok(System::Jingchu) => jingchu(),
        _ => guantian(),
    }
}

fn accept(system: u32, year: u32) -> Accepted
    requires { YearInScope year }
    ensures { accepted_as result ≡ asked_of 0 system year }
{
    Accepted::of(system, constants_of(system), year)
}

pub(crate) fn of_year(system: u32, year: u32) -> Result<Accepted, Refusal>
    ensures { told_asked system year result ≡ asked_of (year_refusal system year) system year }
{
    refusal::of_year(system, year)?;
    Ok(accept(system, year))
}

pub(crate) fn of_step(system: u32, year: u32, most: u32, i: u32) -> Result<Accepted, Refusal>
    ensures { told_asked system year result ≡ asked_of (step_refusal most system year i) system year }
{
    refusal::of_step(system, year, most, i)?;
    Ok(accept(system, year))
}
