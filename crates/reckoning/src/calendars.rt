// A system as all is reckoned by it, and a year of it that a request is answered for. What the reckoning needs of the two is
// in their types. Their methods stand in the file of what they find: closed forms, months, heads, dates and so on.
ghost use Rattle.std.specs.Prelude.{◌≡◌};
ghost use Rattle.calendar.specs.Systems.{constants_of};
ghost use Rattle.reckoning.specs.Scope.{YearInScope};
ghost use Rattle.reckoning.specs.WordBounds.{YearsInRegister};

use calendar::data::Constants;

// A system's number and its constants, which keep the numbers of every year in scope within 64 bits.
#[derive(Clone, Copy)]
pub(crate) struct Calendar {
    pub system: u32,
    pub c: Constants,
    ghost of_system: { c ≡ constants_of system },
    ghost fits: { YearsInRegister c },
}

// A year in scope.
#[derive(Clone, Copy)]
pub(crate) struct Accepted {
    pub calendar: Calendar,
    pub year: u32,
    ghost in_scope: { YearInScope year },
}

impl Calendar {
    #[inline(always)]
    pub(crate) fn of(system: u32, c: Constants) -> Self
        requires { c ≡ constants_of system }
        ensures { result.c ≡ c }
    {
        Calendar { system, c }
    }
}

impl Accepted {
    #[inline(always)]
    pub(crate) fn of(system: u32, c: Constants, year: u32) -> Self
        requires { (c ≡ constants_of system) × YearInScope year }
        ensures { (result.calendar.c ≡ c) × (result.year ≡ year) }
    {
        Accepted {
            calendar: Calendar::of(system, c),
            year,
        }
    }
}
