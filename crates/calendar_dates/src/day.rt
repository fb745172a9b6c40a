// A date of the span with its weekday and its t, from which the next day's follow.
ghost use Rattle.std.specs.Prelude.{◌≡◌, true, ◌+◌, ◌-◌, ◌≤◌};
ghost use Rattle.calendar_dates.specs.Dates.{number_of, is_date, days_of_months, day_of_year, days_of_years, day_number, weekday_of, next_day};

use crate::Date;
use std::marker::Model;

// In a contract it is its date alone: weekday and t are that date's own.
#[derive(Clone, Copy)]
pub struct CalendarDay {
    date: Date,
    weekday: u32,
    t: u32,
}

impl Model for CalendarDay {
    ghost use Rattle.std.specs.Prelude.{◌≡◌, true};
    ghost use Rattle.calendar_dates.specs.declared.Date.{Date};
    ghost use Rattle.calendar_dates.specs.Dates.{is_date, day_of_year, weekday_of};

    ghost Value = { Date };

    ghost view = { λ day. day.date };

    ghost invariant = { λ day. (is_date day.date ≡ true) × (day.weekday ≡ weekday_of day.date) × (day.t ≡ day_of_year day.date) };

    ghost inverse = { λ date. record { date = date; weekday = weekday_of date; t = day_of_year date } };
}

// t, counted from 1 January.
// Kept: a `for`: a chain of `map` and `sum` was proved too, and is no plainer: its proof wants more lemmas, on what the months of a range
// add up to.
fn day_of_year(date: Date) -> u32
    requires { is_date date ≡ true }
    ensures { result ≡ day_of_year date }
{
    let mut days = 0;
    for month in 1..date.month {
        days += crate::month_length(date.year, month);
    }
    days + date.day
}

// Days since 1 January 1996, of a year's day t: of each four years the first has the leap day.
fn days_since_1996(year: u32, t: u32) -> u32
    requires { (1996 ≤ year) × (year ≤ 2099) × (1 ≤ t) × (t ≤ 366) }
    ensures { result ≡ days_of_years (year - 1996) + (t - 1) }
{
    let years = year - 1996;
    years * 365 + (years + 3) / 4 + (t - 1)
}

impl CalendarDay {
    pub fn new(date: Date) -> CalendarDay
        requires { is_date date ≡ true }
        ensures { result ≡ date }
    {
        let t = day_of_year(date);
        let number = days_since_1996(date.year, t);
        CalendarDay {
            date,
            weekday: number % 7 + 1,
            t,
        }
    }

    pub fn date(self) -> Date
        ensures same { result ≡ self }
        ensures real { is_date self ≡ true }
    {
        self.date
    }

    // 1 Monday to 7 Sunday.
    // Kept: a number and no enum: it is counted on modulo 7, and document 01 gives it as 1 Monday to 7 Sunday.
    pub fn weekday(self) -> u32
        ensures { result ≡ weekday_of self }
    {
        self.weekday
    }

    // t, counted from 1 January.
    pub fn day_of_year(self) -> u32
        ensures value { result ≡ day_of_year self }
        ensures in_year { (1 ≤ result) × (result ≤ 366) }
    {
        self.t
    }

    // The number yyyymmdd.
    // Kept: a method and no From: a day has two numbers, this one and `day_number`.
    pub fn number(self) -> u32
        ensures { result ≡ number_of self }
    {
        self.date.year * 10_000 + self.date.month * 100 + self.date.day
    }

    // Days since 1 January 1996.
    pub fn day_number(self) -> u32
        ensures same { result ≡ day_number self }
        ensures real { is_date self ≡ true }
    {
        days_since_1996(self.date.year, self.t)
    }

    // The date, weekday and t of the day after, neither of the two counted anew. After the span's last day comes 1 January 2100, which
    // is no CalendarDay.
    // Kept: three values, since the day after the span's last is no value of the type.
    pub fn day_after(self) -> (Date, u32, u32)
        ensures { result ≡ (next_day self, weekday_of (next_day self), day_of_year (next_day self)) }
    {
        let date = self.date.next_day();
        let t = match (date.month, date.day) {
            (1, 1) => 1,
            _ => self.t + 1,
        };
        (date, self.weekday % 7 + 1, t)
    }

    // The day after, where it is of the span.
    pub fn following(self) -> CalendarDay
        requires { is_date (next_day self) ≡ true }
        ensures { result ≡ next_day self }
    {
        let (date, weekday, t) = self.day_after();
        CalendarDay { date, weekday, t }
    }
}
