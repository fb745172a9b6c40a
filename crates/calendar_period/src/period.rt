// A period: its first day and the number of its days.
ghost use Rattle.std.specs.Prelude.{◌≡◌, ◌≤◌};
ghost use Rattle.refusal.specs.Questions.{answered};
ghost use Rattle.calendar_dates.specs.Dates.{date_of, AllDates};
ghost use Rattle.calendar_period.specs.Period.{period_question, period_check, period_days, value_count_of_days, dates_from};

use crate::{Days, date_in};
use calendar_dates::CalendarDay;
use refusal::Refusal;
use std::marker::Model;

// It has at most 1,461 days, all of them dates of the span. One that passed questions 7 and 8 has at least one; only `of_days` makes
// one without days.
#[derive(Clone, Copy)]
pub struct Period {
    first: CalendarDay,
    days: u32,
}

impl Model for Period {
    ghost use Rattle.std.specs.Prelude.{◌≤◌};
    ghost use Rattle.calendar_dates.specs.Dates.{AllDates};
    ghost use Rattle.calendar_period.specs.Period.{PeriodDays};

    ghost Value = { PeriodDays };

    ghost view = { λ period. record { first = period.first; days = period.days } };

    ghost invariant = { λ period. (period.days ≤ 1_461) × AllDates period.days period.first };

    ghost inverse = { λ period. record { first = period.first; days = period.days } };
}

impl Period {
    // Question 8: the period from one day to another, or the refusal.
    #[tactic(auto, unfolding(crate::specs::Period::period_question, crate::specs::Period::days_of))]
    pub fn between(first: CalendarDay, last: CalendarDay) -> Result<Period, Refusal>
        ensures { result ≡ answered (period_question first last) (period_days first last) }
    {
        let from = first.day_number();
        let to = last.day_number();
        if to < from {
            return Err(Refusal::BadPeriod);
        }
        let days = to + 1 - from;
        if 1_461 < days {
            return Err(Refusal::BadPeriod);
        }
        Ok(Period::of_days(first, days))
    }

    // Questions 7 and 8.
    pub fn new(first: u32, last: u32) -> Result<Period, Refusal>
        ensures { result ≡ answered (period_check first last) (period_days (date_of first) (date_of last)) }
    {
        let from = date_in(first, 0)?;
        let to = date_in(last, 1)?;
        Period::between(from, to)
    }

    // The period of some days from a day on.
    // Kept: the two one by one, since here they become one value.
    pub fn of_days(first: CalendarDay, days: u32) -> Period
        requires few { days ≤ 1_461 }
        requires real { AllDates days first }
        ensures first { result.first ≡ first }
        ensures days { result.days ≡ days }
    {
        Period { first, days }
    }

    pub fn first(self) -> CalendarDay
        ensures { result ≡ self.first }
    {
        self.first
    }

    // Kept: what the invariant says is promised here and below, since callers see the value alone.
    pub fn days(self) -> u32
        ensures same { result ≡ self.days }
        ensures few { self.days ≤ 1_461 }
        ensures real { AllDates self.days self.first }
    {
        self.days
    }

    // Its days, one after the other.
    pub fn dates(self) -> Days
        ensures same { result ≡ dates_from self.days self.first }
        ensures few { self.days ≤ 1_461 }
        ensures real { AllDates self.days self.first }
    {
        Days::new(self)
    }

    // The number of its values.
    // Kept: a `for`: as a chain of `map` and `sum` over `dates` it leaves two goals more to answer, on what the iterator yields.
    pub fn value_count(self) -> usize
        ensures { result ≡ value_count_of_days self.days self.first }
    {
        let mut values = 0;
        for day in self.dates() {
            values += calendar_days::clock_of(day).value_count() as usize;
        }
        values
    }
}
