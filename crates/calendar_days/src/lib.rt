// What sort of day a date is: its season, its day type and its clock change (document 01, "Calendar", and document 02, (b) and (d)).
#![tactic(auto)]

ghost use Rattle.std.specs.Prelude.{◌≡◌, true, [], ◌∷◌, decimal, ◌≤◌, Some};
ghost use Rattle.calendar_dates.specs.Dates.{is_date, weekday_of};
ghost use Rattle.calendar_days.specs.Days.{season_letter, season_digit, day_type_digit};
ghost use Rattle.calendar_days.specs.Days.{month_day, from, to, season, is_eve, day_type_when, day_type, last_sunday, clock, value_count_under};

use calendar_dates::{CalendarDay, Date};
use std::fmt;

#[derive(Clone, Copy, Debug, PartialEq, Eq)]
pub enum Season {
    Winter,
    Summer,
    Transition,
}

// Kept: a `match` has each letter and digit beside its case, here and below: document 01 gives the seasons' letters and the day types'
// digits; it gives the seasons no digits, and those are our choice.
impl Season {
    // Its letter in a line of text.
    pub fn letter(self) -> u8
        ensures { result ≡ season_letter self }
    {
        match self {
            Season::Winter => b'W',
            Season::Summer => b'S',
            Season::Transition => b'T',
        }
    }

    // 1 winter, 2 summer, 3 transition: the order of the tables in the profile file.
    pub fn digit(self) -> u32
        ensures { result ≡ season_digit self }
    {
        match self {
            Season::Winter => 1,
            Season::Summer => 2,
            Season::Transition => 3,
        }
    }
}

// Its letter.
impl fmt::Display for Season {
    ghost output = { λ season. Some (season_letter season ∷ []) };

    fn fmt<W: fmt::Write>(&self, f: &mut fmt::Formatter<W>) -> fmt::Result {
        f.write_char(char::from(self.letter()))
    }
}

#[derive(Clone, Copy, Debug, PartialEq, Eq)]
pub enum DayType {
    Weekday,
    Saturday,
    Sunday,
}

impl DayType {
    // 1 weekday, 2 Saturday, 3 Sunday.
    pub fn digit(self) -> u32
        ensures { result ≡ day_type_digit self }
    {
        match self {
            DayType::Weekday => 1,
            DayType::Saturday => 2,
            DayType::Sunday => 3,
        }
    }
}

// Its digit.
impl fmt::Display for DayType {
    ghost output = { λ day_type. Some (decimal (day_type_digit day_type)) };

    fn fmt<W: fmt::Write>(&self, f: &mut fmt::Formatter<W>) -> fmt::Result {
        write!(f, "{}", self.digit())
    }
}

// A day's season and day type, which tell its table of values.
#[derive(Clone, Copy, Debug, PartialEq, Eq)]
pub struct DayKind {
    pub season: Season,
    pub day_type: DayType,
}

// What the clocks do in a day's third hour.
#[derive(Clone, Copy, Debug, PartialEq, Eq)]
pub enum Clock {
    Unchanged,
    Forward,
    Back,
}

// Two weekdays by their numbers.
const SATURDAY: u32 = 6;

const SUNDAY: u32 = 7;

// Whether a date is on or after that day and month of its year.
// Kept: two functions, here and below, since the paper says "from" and "to", and so do the definitions.
fn from(date: CalendarDay, day: u32, month: u32) -> bool
    requires { day ≤ 31 }
    ensures { result ≡ from date day month }
{
    let date = date.date();
    Date { month, day, ..date } <= date
}

// Whether a date is on or before that day and month of its year.
fn to(date: CalendarDay, day: u32, month: u32) -> bool
    requires { day ≤ 31 }
    ensures { result ≡ to date day month }
{
    let date = date.date();
    date <= Date { month, day, ..date }
}

// Source document 000, step 2, in its order.
#[tactic(auto, unfolding(crate::specs::Days::season))]
pub fn season_of(day: CalendarDay) -> Season
    ensures { result ≡ season day }
{
    // "Winter: 1.11.-20.03.": over New Year, so either of its two parts
    if from(day, 1, 11) || to(day, 20, 3) {
        return Season::Winter;
    }
    // "Sommer: 15.05.-14.09."
    if from(day, 15, 5) && to(day, 14, 9) {
        return Season::Summer;
    }
    // "Übergang: 21.03.-14.05. bzw. 15.09.-31.10.": what is left, by the theorem SeasonsSettled
    Season::Transition
}

// 24 and 31 December.
#[tactic(auto, unfolding(crate::specs::Days::is_eve))]
fn is_eve(date: Date) -> bool
    ensures { result ≡ is_eve date }
{
    date.month == 12 && matches!(date.day, 24 | 31)
}

// The day type, of a date whose weekday is known, and of which it is known whether it is a listed holiday. Any date has one, also one
// that is no date of the span and so no CalendarDay.
// Kept: a flag, as `is_listed` and `HolidaysAhead::lists` answer one; an enum of two cases would be made of it only to be matched on here.
// Date and weekday apart, since the promise is of any date.
#[tactic(auto, unfolding(crate::specs::Days::day_type_when))]
pub fn day_type_when(date: Date, weekday: u32, holiday: bool) -> DayType
    requires { weekday ≡ weekday_of date }
    ensures { result ≡ day_type_when date holiday }
{
    if weekday == SUNDAY || holiday {
        DayType::Sunday
    } else if is_eve(date) || weekday == SATURDAY {
        DayType::Saturday
    } else {
        DayType::Weekday
    }
}

// The day type, by the list of holidays.
pub fn day_type_of(day: CalendarDay, holidays: &[u32]) -> DayType
    ensures { result ≡ day_type day holidays.now }
{
    let holiday = calendar_holidays::is_listed(day.number(), holidays);
    day_type_when(day.date(), day.weekday(), holiday)
}

#[tactic(auto, using(calendar_dates::proofs::Dates::parts), unfolding(crate::specs::Days::last_sunday))]
fn is_last_sunday(day: CalendarDay) -> bool
    ensures { result ≡ last_sunday day }
{
    let date = day.date();
    day.weekday() == SUNDAY && calendar_dates::month_length(date.year, date.month) < date.day + 7
}

// What the clocks do.
#[tactic(auto, unfolding(crate::specs::Days::clock))]
pub fn clock_of(day: CalendarDay) -> Clock
    ensures { result ≡ clock day }
{
    match day.date().month {
        3 if is_last_sunday(day) => Clock::Forward,
        10 if is_last_sunday(day) => Clock::Back,
        _ => Clock::Unchanged,
    }
}

impl Clock {
    // How many values a day has.
    pub fn value_count(self) -> u32
        ensures { result ≡ value_count_under self }
    {
        match self {
            Clock::Unchanged => 96,
            Clock::Forward => 92,
            Clock::Back => 100,
        }
    }
}
