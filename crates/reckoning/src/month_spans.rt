// Months with their bounds: that of a day, of a middle qi or of a year's beginning, and the next; the remainder of a
// month's new moon, and its last middle qi.
ghost use Rattle.std.specs.Prelude.{◌≡◌, ◌+◌, ◌<◌, ◌^◌};
ghost use Rattle.calendar.specs.Month.{new_moon_remainder};
ghost use Rattle.calendar.specs.ClosedForms.{month_of_day, month_of_qi, first_month};
ghost use Rattle.reckoning.specs.MonthSpans.{month_span, last_qi};
ghost use Rattle.reckoning.specs.WordBounds.{SpanFits};

use crate::calendars::Calendar;

// A month, its head and the next month's, as count days.
#[derive(Clone, Copy)]
pub(crate) struct MonthSpan {
    pub month: u64,
    pub head: u64,
    pub next: u64,
}

// The last middle qi on a day of a month or earlier, and the month's leap mark.
#[derive(Clone, Copy)]
pub(crate) struct LastQi {
    pub qi: u64,
    pub leap: u8,
}

// SpanFits stays a clause: it leaves room for two months more, and the month after one that fits may have room for only
// one, so that `month_after` could not answer a type that held it.
impl Calendar {
    // The month that has count day d. The parts from its new moon to the end of d have the days before d, and those left
    // of the month the days after it: neither head needs a product of its own.
    pub(crate) fn month_of_day(self, d: u64) -> MonthSpan
        requires { d + 1 < 2 ^ 38 }
        ensures { result ≡ month_span self.c (month_of_day self.c d) }
    {
        let end = (d + 1) * self.c.lunar - 1;
        let into = end % self.c.month;
        let left = self.c.month - into - 1;
        let head = d - into / self.c.lunar;
        let next = d + 1 + left / self.c.lunar;
        MonthSpan {
            month: end / self.c.month,
            head,
            next,
        }
    }

    // The month that holds middle qi g.
    pub(crate) fn month_of_qi(self, g: u64) -> MonthSpan
        requires { g < 2 ^ 32 }
        ensures { result ≡ month_span self.c (month_of_qi self.c g) }
    {
        self.month_of_day(self.day_of_qi(g))
    }

    // The month that year n begins with.
    pub(crate) fn first_month(self, n: u64) -> MonthSpan
        requires { n < 2 ^ 28 }
        ensures { result ≡ month_span self.c (first_month self.c n) }
    {
        self.month_of_qi(12 * n)
    }

    // The month after m.
    pub(crate) fn month_after(self, m: MonthSpan) -> MonthSpan
        requires { SpanFits self.c m }
        ensures { result ≡ month_span self.c (m.month + 1) }
    {
        MonthSpan {
            month: m.month + 1,
            head: m.next,
            next: self.month_head(m.month + 2),
        }
    }

    // The remainder of the new moon of month m: the parts from the beginning of the month's first day. No division is
    // left to do, since the head is known.
    pub(crate) fn new_moon_remainder(self, m: MonthSpan) -> u32
        requires { SpanFits self.c m }
        ensures { result ≡ new_moon_remainder self.c m.month }
    {
        (m.month * self.c.month - m.head * self.c.lunar) as u32
    }

    // What the last middle qi of month m tells. The month is leap exactly when there are no fewer parts from that qi to
    // its end than in its days; both are counted in twelfths, so that all is whole.
    pub(crate) fn last_qi(self, m: MonthSpan) -> LastQi
        requires { SpanFits self.c m }
        ensures { result ≡ last_qi self.c m.month }
    {
        let length = (m.next - m.head) * (12 * self.c.solar);
        let last = self.last_step(12, m.next);
        if last.left < length {
            return LastQi {
                qi: last.step,
                leap: 0,
            };
        }
        LastQi {
            qi: last.step,
            leap: 1,
        }
    }
}
