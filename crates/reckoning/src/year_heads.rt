// The heads of years: from the printed page, or reckoned.
ghost use Rattle.std.specs.Prelude.{◌≡◌, ◌+◌, ◌<◌, ◌^◌};
ghost use Rattle.calendar.specs.Systems.{years_elapsed};
ghost use Rattle.calendar.specs.Month.{month_head};
ghost use Rattle.calendar.specs.ClosedForms.{month_of_day, first_month, register_head};
ghost use Rattle.reckoning.specs.MonthSpans.{month_span};
ghost use Rattle.reckoning.specs.Requests.{answer_of_year, year_head_in, no_year_head};
ghost use Rattle.reckoning.specs.Told.{told_year_head};
ghost use Rattle.reckoning.specs.WordBounds.{HeadInRegister};

use crate::calendars::Calendar;
use crate::month_spans::MonthSpan;
use crate::refusal::{Refusal, out_of_years};
use calendar::data::RegisterDay;

// HeadInRegister stays a clause: it is asked of a year in scope and of the year after, and a type for both would need two
// constructors with longer clauses than these.
impl Calendar {
    // The register day of a year's head, reckoned.
    fn reckoned_head(self, year: u32) -> RegisterDay
        requires { HeadInRegister self.c (years_elapsed self.c year) }
        ensures { result ≡ register_head self.c (years_elapsed self.c year) }
    {
        let first = self.first_month(self.years_elapsed(year));
        self.register_day(first.head)
    }

    // The head of a year, reckoned; refused Year outside years 1 to 3000.
    pub(crate) fn head_of_common_year(self, year: u32) -> Result<RegisterDay, Refusal>
        ensures { told_year_head result ≡ answer_of_year self.c year year_head_in no_year_head }
    {
        if out_of_years(year) {
            return Err(Refusal::Year);
        }
        Ok(self.reckoned_head(year))
    }

    // The register day of a year's head, as it is printed or else reckoned.
    pub(crate) fn head_of_year(self, year: u32) -> RegisterDay
        requires { HeadInRegister self.c (years_elapsed self.c year) }
        ensures { result ≡ register_head self.c (years_elapsed self.c year) }
    {
        printed_heads::of_year(self.system, year).unwrap_or_else(|| self.reckoned_head(year))
    }

    // The month whose head is count day d.
    fn month_from_head(self, d: u64) -> MonthSpan
        requires { (d + 1 < 2 ^ 38) × (month_head self.c (month_of_day self.c d) ≡ d) }
        ensures { result ≡ month_span self.c (month_of_day self.c d) }
    {
        let m = self.month_of_day(d);
        MonthSpan {
            month: m.month,
            head: d,
            next: m.next,
        }
    }

    // The month that a year begins with: by its printed head, or else by its solstice.
    pub(crate) fn first_month_of_year(self, year: u32) -> MonthSpan
        requires { HeadInRegister self.c (years_elapsed self.c year) }
        ensures { result ≡ month_span self.c (first_month self.c (years_elapsed self.c year)) }
    {
        match printed_heads::of_year(self.system, year) {
            Some(head) => self.month_from_head(self.count_day(head)),
            None => self.first_month(self.years_elapsed(year)),
        }
    }
}
