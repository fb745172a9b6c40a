// The day enquiry: questions 7 and 9, and what documents 01 and 02 say of the day.
#![tactic(auto)]

ghost use Rattle.std.specs.Prelude.{◌≡◌, Some};
ghost use Rattle.call_day.specs.Enquiry.{describe, day_display, day_enquiry, reported};

use calendar_dates::CalendarDay;
use calendar_days::{DayType, Season};
use refusal::Refusal;
use std::fmt;

#[derive(Clone, Copy, Debug, PartialEq, Eq)]
pub struct Day {
    pub weekday: u32,
    pub t: u32,
    pub season: Season,
    pub day_type: DayType,
    pub value_count: u32,
}

// Weekday, t, season with day type, and value count.
impl fmt::Display for Day {
    ghost output = { λ day. Some (day_display day) };

    fn fmt<W: fmt::Write>(&self, f: &mut fmt::Formatter<W>) -> fmt::Result {
        let season = self.season;
        let day_type = self.day_type;
        write!(
            f,
            "{} {} {season}{day_type} {}",
            self.weekday, self.t, self.value_count
        )
    }
}

// The answer as document 01's numbers: number and place, 0 when accepted, and the day's numbers, 0 when refused.
#[repr(C)]
#[derive(Clone, Copy, Default)]
pub struct DayReport {
    pub number: u32,
    pub place: usize,
    pub weekday: u32,
    pub t: u32,
    pub season: u32,
    pub day_type: u32,
    pub value_count: u32,
}

// What documents 01 and 02 say of a day.
fn describe(day: CalendarDay, holidays: &[u32]) -> Day
    ensures { result ≡ describe day holidays.now }
{
    Day {
        weekday: day.weekday(),
        t: day.day_of_year(),
        season: calendar_days::season_of(day),
        day_type: calendar_days::day_type_of(day, holidays),
        value_count: calendar_days::clock_of(day).value_count(),
    }
}

// Describes the day of a date, or refuses by the first failing question.
#[tactic(auto, unfolding(crate::specs::Enquiry::day_enquiry))]
pub fn enquire(date: u32, holidays: &[u32]) -> Result<Day, Refusal>
    ensures value { result ≡ day_enquiry date holidays.now }
    ensures result_value { reported result ≡ reported (day_enquiry date holidays.now) }
{
    let day = calendar_period::date_in(date, 0)?;
    calendar_holidays::holidays_question(holidays)?;
    Ok(describe(day, holidays))
}

// The answer as document 01's numbers.
impl From<Result<Day, Refusal>> for DayReport {
    ghost from_gives = { λ answer report. report ≡ reported answer };

    fn from(answer: Result<Day, Refusal>) -> DayReport {
        match answer {
            Ok(day) => DayReport {
                weekday: day.weekday,
                t: day.t,
                season: day.season.digit(),
                day_type: day.day_type.digit(),
                value_count: day.value_count,
                ..DayReport::default()
            },
            Err(refusal) => DayReport {
                number: refusal.number(),
                place: refusal.place(),
                ..DayReport::default()
            },
        }
    }
}
