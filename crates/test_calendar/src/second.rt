// The second calendar. It has no table of month lengths and uses nothing of the crates of the calendar: a day is a year with
// t, the day of the year, and its weekday.
ghost use Rattle.std.specs.Prelude.{◌≤◌};

use call_day::DayReport;
use std::fmt;

// A day's figures, in the order of the enquiry's report: number and place are 0 when it is not refused.
// Kept: a struct of its own and numbers for season and day type, since what is printed of it is the test's own, and it is compared with a
// report, which has numbers for C.
#[derive(Clone, Copy, PartialEq, Eq)]
pub struct Figures {
    pub number: u32,
    pub place: usize,
    pub weekday: u32,
    pub t: u32,
    pub season: u32,
    pub day_type: u32,
    pub values: u32,
}

impl From<DayReport> for Figures {
    fn from(report: DayReport) -> Figures {
        Figures {
            number: report.number,
            place: report.place,
            weekday: report.weekday,
            t: report.t,
            season: report.season,
            day_type: report.day_type,
            values: report.value_count,
        }
    }
}

// Each figure after a space.
impl fmt::Display for Figures {
    fn fmt<W: fmt::Write>(&self, f: &mut fmt::Formatter<W>) -> fmt::Result {
        write!(
            f,
            " {} {} {} {}",
            self.number, self.place, self.weekday, self.t
        )?;
        write!(f, " {} {} {}", self.season, self.day_type, self.values)
    }
}

// The list of holidays that a day is asked about with.
#[derive(Clone, Copy)]
pub enum Listed {
    Nothing,
    // the day alone
    Day,
    // 24, 25, 26 and 31 December of the day's year
    YearEnd,
}

// The days of a year beyond 365.
pub fn leap_days(year: u32) -> u32
    ensures { result ≤ 1 }
{
    u32::from(year % 4 == 0)
}

// A day of the span: its year, the day of the year, and its weekday, 1 Monday to 7 Sunday.
#[derive(Clone, Copy)]
pub struct Day {
    pub year: u32,
    pub t: u32,
    pub weekday: u32,
    ghost in_span: { year ≤ 2099 },
    ghost in_year: { (1 ≤ t) × (t ≤ 366) },
}

impl Day {
    // What the report must be.
    pub fn figures(self, listed: Listed) -> Figures {
        Figures {
            number: 0,
            place: 0,
            weekday: self.weekday,
            t: self.t,
            season: self.season(),
            day_type: self.day_type(listed),
            values: self.values(),
        }
    }

    // The date as a number yyyymmdd. From March on each five months have 153 days: a date n days after 1 March lies m months
    // after March.
    // Kept: worked out from t by hand, since it is what the other calendar is compared with.
    pub fn date(self) -> u32 {
        let leap = leap_days(self.year);
        let month_and_day = if self.t <= 31 {
            100 + self.t
        } else if self.t <= 59 + leap {
            200 + (self.t - 31)
        } else {
            let n = self.t - 60 - leap;
            let m = (5 * n + 2) / 153;
            (m + 3) * 100 + (n - (153 * m + 2) / 5 + 1)
        };
        self.year * 10_000 + month_and_day
    }

    // 1 winter, 2 summer, 3 transition. In a common year 21 March is day 80, 15 May 135, 14 September 257, 1 November 305.
    fn season(self) -> u32 {
        let leap = leap_days(self.year);
        if self.t < 80 + leap || 305 + leap <= self.t {
            1
        } else if 135 + leap <= self.t && self.t <= 257 + leap {
            2
        } else {
            3
        }
    }

    // Whether the list has the day. 24 December is the year's eighth day from the end, day 358 of a common year.
    fn is_listed(self, listed: Listed) -> bool {
        let leap = leap_days(self.year);
        match listed {
            Listed::Nothing => false,
            Listed::Day => true,
            Listed::YearEnd => {
                (358 + leap..=360 + leap).contains(&self.t) || self.t == 365 + leap
            }
        }
    }

    // 1 weekday, 2 Saturday, 3 Sunday: what is listed counts as Sunday, and on 24 and 31 December a weekday counts as Saturday.
    fn day_type(self, listed: Listed) -> u32 {
        let leap = leap_days(self.year);
        if self.is_listed(listed) || self.weekday == 7 {
            3
        } else if self.weekday == 6 || self.t == 358 + leap || self.t == 365 + leap {
            2
        } else {
            1
        }
    }

    // The clocks change on the Sunday among the last seven days of March, days 84 to 90 of a common year, and of October,
    // days 298 to 304.
    fn values(self) -> u32 {
        let leap = leap_days(self.year);
        if self.weekday == 7 && (84 + leap..=90 + leap).contains(&self.t) {
            92
        } else if self.weekday == 7 && (298 + leap..=304 + leap).contains(&self.t) {
            100
        } else {
            96
        }
    }
}
