// The adjacent reading periods of a span, one after the other.
ghost use Rattle.std.specs.Prelude.{◌≡◌, true};
ghost use Rattle.std.specs.Iterator.{YieldsFirst, item_count};
ghost use Rattle.refusal.specs.Questions.{Pass, answered};
ghost use Rattle.calendar_dates.specs.Dates.{date_of, is_date};
ghost use Rattle.calendar_period.specs.Period.{period_check};
ghost use Rattle.calendar_reading_periods.specs.ReadingPeriods.{first_dates_question};
ghost use Rattle.calendar_reading_periods.specs.Inside.{FirstDates, PeriodsLeft, number_after, periods_of};

use crate::first_dates_question;
use calendar_dates::{CalendarDay, Date};
use calendar_period::Period;
use refusal::Refusal;
use std::marker::Model;

// The first dates of the periods that are still to come, and the span's last date.
#[derive(Drop)]
pub struct Periods<'a> {
    starts: &'a [u32],
    last: u32,
}

impl<'a> Model for Periods<'a> {
    ghost use Rattle.std.specs.Prelude.{List};
    ghost use Rattle.calendar_period.specs.Period.{PeriodDays};
    ghost use Rattle.calendar_reading_periods.specs.Inside.{PeriodsLeft, periods_of};

    ghost Value = { List PeriodDays };

    ghost view = { λ periods. periods_of periods.last periods.starts.now };

    ghost invariant = { λ periods. PeriodsLeft periods.last periods.starts.now };
}

impl<'a> Periods<'a> {
    // Question 18, inside a span whose own questions passed: the periods, or the refusal.
    // Kept: the span's two dates as numbers, since question 18 compares numbers, and a `Period` has no number of its last date.
    pub fn new(first: u32, last: u32, starts: &'a [u32]) -> Result<Periods<'a>, Refusal>
        requires { period_check first last ≡ Pass }
        ensures { result ≡ answered (first_dates_question first last starts.now) (periods_of last starts.now) }
    {
        first_dates_question(first, last, starts)?;
        Ok(Periods::of_first_dates(starts, last))
    }

    // The periods of first dates that rise inside a span of at most 1,461 days, whose last date is given: no question is asked.
    // Kept: the two one by one, since here they become one value.
    pub fn of_first_dates(starts: &'a [u32], last: u32) -> Periods<'a>
        requires { PeriodsLeft last starts.now }
        ensures { result ≡ periods_of last starts.now }
    {
        Periods { starts, last }
    }
}

// The number of the day after a period: that of the next first date, or of the day after the span.
// Kept: the two one by one, and no method: in a contract a Periods is the list of its periods, which does not tell the span's last date where
// none is left.
fn number_after(later: &[u32], last: u32) -> u32
    requires last_value { is_date (date_of last) ≡ true }
    requires dates { FirstDates last later.now }
    ensures { result ≡ number_after last later.now }
{
    match later {
        [next, ..] => CalendarDay::new(Date::from(*next)).day_number(),
        [] => CalendarDay::new(Date::from(last)).day_number() + 1,
    }
}

impl<'a> Iterator for Periods<'a> {
    type Item = Period;

    ghost next_gives = { YieldsFirst (λ periods. periods) };

    ghost remaining = { item_count (λ periods. periods) };

    fn next(&mut self) -> Option<Period> {
        let (&start, later) = self.starts.split_first()?;
        self.starts = later;
        let first = CalendarDay::new(Date::from(start));
        let days = number_after(later, self.last) - first.day_number();
        Some(Period::of_days(first, days))
    }
}
