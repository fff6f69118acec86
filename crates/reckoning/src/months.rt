// The months of one year: all of them, and one of them by number and leap mark.
ghost use Rattle.std.specs.Prelude.{◌≡◌};
ghost use Rattle.calendar.specs.Systems.{years_elapsed};
ghost use Rattle.reckoning.specs.MonthSpans.{month_span};
ghost use Rattle.reckoning.specs.Requests.{answer_of_year, head_at, months_from, year_in, month_at, no_month, month_in, month_silent};
ghost use Rattle.reckoning.specs.Told.{year_answered, month_answered, told_month};
ghost use Rattle.reckoning.specs.WordBounds.{InRegister, SpanFits, MonthsInRegister, YearInRegister};

use crate::calendars::{Accepted, Calendar};
use crate::closed_forms::{held_by, number_of_qi};
use crate::data::{Month, NONE_HELD, Year};
use crate::month_spans::MonthSpan;
use crate::refusal::{Refusal, out_of_years, outside};
use calendar::data::RegisterDay;

impl Accepted {
    // The months of the year.
    pub(crate) fn months(self) -> Year
        ensures { year_answered result ≡ year_in self.calendar.c (years_elapsed self.calendar.c self.year) }
    {
        let first = self.calendar.first_month_of_year(self.year);
        let next = self.calendar.first_month_of_year(self.year + 1);
        let closing = self.calendar.register_day(next.head);
        self.calendar
            .months_from(first, (next.month - first.month) as usize, closing)
    }
}

impl Calendar {
    // `count` months from month `first` on: in order each head, number, leap mark, remainder and middle qi held, then
    // `closing`, the head after them.
    fn months_from(self, first: MonthSpan, count: usize, closing: RegisterDay) -> Year
        requires { (first ≡ month_span self.c first.month)
            × (closing ≡ head_at self.c first.month count)
            × MonthsInRegister self.c first.month count }
        ensures { year_answered result ≡ months_from self.c first.month count }
    {
        let mut heads = [RegisterDay(0); 14];
        let mut numbers = [0u8; 14];
        let mut leaps = [0u8; 14];
        let mut remainders = [0u32; 14];
        let mut held = [NONE_HELD; 14];
        let mut m = first;
        for i in 0..count {
            let head = self.register_day(m.head);
            let last = self.last_qi(m);
            heads[i] = head;
            numbers[i] = number_of_qi(last.qi);
            leaps[i] = last.leap;
            remainders[i] = self.new_moon_remainder(m);
            held[i] = held_by(last.leap, last.qi);
            m = self.month_after(m);
        }
        heads[count] = closing;
        Year {
            count: count as u8,
            heads,
            numbers,
            leaps,
            remainders,
            held,
        }
    }

    // Month m.
    fn month_at(self, m: MonthSpan) -> Month
        requires { SpanFits self.c m × InRegister self.c m.head }
        ensures { month_answered result ≡ month_at self.c m.month }
    {
        let length = (m.next - m.head) as u8;
        Month {
            head: self.register_day(m.head),
            length,
        }
    }

    // The month of year n with a number and a leap mark. Which month is leap, if not this one, `leap_months` finds: with
    // that search in it, this function would be too long for the compiler to copy it to each system's constants.
    #[inline(always)]
    fn month_of_year(self, n: u64, number: u32, leap: u32) -> Result<Month, Refusal>
        requires { YearInRegister self.c n }
        ensures { told_month result ≡ month_in self.c n number leap 0 }
    {
        if outside(1, 12, number) {
            return Err(Refusal::Month);
        }
        let g = 12 * n + (number as u64 + 1) % 12;
        let m = self.month_of_qi(g);
        if leap == 0 {
            return Ok(self.month_at(m));
        }
        // Marks are nearly all 0, so that only another is tested.
        if outside(0, 1, leap) {
            return Err(Refusal::Month);
        }
        let next = self.month_after(m);
        // Not leap: it holds the next middle qi.
        if self.day_of_qi(g + 1) < next.next {
            return Err(Refusal::NotLeap(None));
        }
        Ok(self.month_at(next))
    }

    #[inline(always)]
    pub(crate) fn month_of_common_year(
        self,
        year: u32,
        number: u32,
        leap: u32,
    ) -> Result<Month, Refusal>
        ensures { told_month result ≡ answer_of_year self.c year (month_silent number leap) no_month }
    {
        if out_of_years(year) {
            return Err(Refusal::Year);
        }
        self.month_of_year(self.years_elapsed(year), number, leap)
    }
}
