// Dates of the span 1996-01-01 to 2099-12-31, their day numbers and weekdays (document 01, "Calendar").
#![tactic(auto)]

mod day;

ghost use Rattle.std.specs.Prelude.{◌≡◌, true, ◌≤◌, Some};
ghost use Rattle.calendar_dates.specs.Dates.{date_of, date_display, month_length, is_date, next_day};

pub use day::CalendarDay;
use std::fmt;

// Three numbers, as a number yyyymmdd has them; `is_date` says whether they are a date of the span.
#[derive(Clone, Copy, Debug, PartialEq, Eq, PartialOrd, Ord)]
pub struct Date {
    pub year: u32,
    pub month: u32,
    pub day: u32,
}

// The one table of month lengths: date checks and day numbers both go by it.
const MONTH_LENGTHS: [u32; 12] = [31, 28, 31, 30, 31, 30, 31, 31, 30, 31, 30, 31];

// The days of a month, 29 for February of a leap year.
#[tactic(auto, unfolding(crate::specs::Dates::month_length, crate::specs::Dates::leap_days))]
pub fn month_length(year: u32, month: u32) -> u32
    requires { (1 ≤ month) × (month ≤ 12) }
    ensures { result ≡ month_length year month }
{
    let length = MONTH_LENGTHS[(month - 1) as usize];
    if month == 2 && year % 4 == 0 {
        length + 1
    } else {
        length
    }
}

// A number yyyymmdd taken apart: any number has its parts.
impl From<u32> for Date {
    ghost from_gives = { λ number date. date ≡ date_of number };

    fn from(number: u32) -> Date {
        Date {
            year: number / 10_000,
            month: number / 100 % 100,
            day: number % 100,
        }
    }
}

// As yyyy-mm-dd.
impl fmt::Display for Date {
    ghost output = { λ date. Some (date_display date) };

    fn fmt<W: fmt::Write>(&self, f: &mut fmt::Formatter<W>) -> fmt::Result {
        write!(f, "{:04}-{:02}-{:02}", self.year, self.month, self.day)
    }
}

impl Date {
    // Whether it is a date of the span.
    #[tactic(auto, unfolding(crate::specs::Dates::is_date))]
    pub fn is_date(self) -> bool
        ensures { result ≡ is_date self }
    {
        matches!(self.year, 1996..=2099)
            && matches!(self.month, 1..=12)
            && 1 <= self.day
            && self.day <= month_length(self.year, self.month)
    }

    // The day after; of the span's last day it is the day after the span.
    #[tactic(auto, using(crate::proofs::Dates::parts), unfolding(crate::specs::Dates::next_day))]
    pub fn next_day(self) -> Date
        requires { is_date self ≡ true }
        ensures { result ≡ next_day self }
    {
        if self.day < month_length(self.year, self.month) {
            Date {
                day: self.day + 1,
                ..self
            }
        } else if self.month < 12 {
            Date {
                month: self.month + 1,
                day: 1,
                ..self
            }
        } else {
            Date {
                year: self.year + 1,
                month: 1,
                day: 1,
            }
        }
    }
}
