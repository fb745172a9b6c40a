// Reading periods inside a span, given by their first dates (document 02, (c)): questions 17 and 18, and the periods one after the other.
#![tactic(auto)]

mod adjacent;

ghost use Rattle.std.specs.Prelude.{◌≡◌, ◌<◌, length};
ghost use Rattle.calendar_reading_periods.specs.ReadingPeriods.{readings_question, first_date_question, first_dates_question};

pub use adjacent::Periods;
use calendar_dates::Date;
use refusal::Refusal;

// The most reading periods of a call.
pub const MOST_PERIODS: usize = 48;

// Question 17, of how many first dates and metered values there are.
#[tactic(auto, unfolding(crate::specs::ReadingPeriods::readings_question))]
pub fn readings_question(dates: usize, values: usize) -> Result<(), Refusal>
    ensures { result ≡ readings_question dates values }
{
    if !matches!(dates, 1..=MOST_PERIODS) || values != dates {
        return Err(Refusal::WrongReadings);
    }
    Ok(())
}

// Question 18, of one first date: the first one stands at the span's start, each later one behind the one before it.
// Kept: a date is given by its index, since a refusal names it by that; the span's dates as numbers, here and below, since the question
// compares numbers.
#[tactic(auto, unfolding(crate::specs::ReadingPeriods::first_date_question))]
fn first_date_question(first: u32, last: u32, starts: &[u32], index: usize) -> Result<(), Refusal>
    requires { index < length starts.now }
    ensures { result ≡ first_date_question first last starts.now index }
{
    let start = starts[index];
    let in_sequence = if index == 0 {
        start == first
    } else {
        starts[index - 1] < start
    };
    let passes = Date::from(start).is_date() && in_sequence && first <= start && start <= last;
    if !passes {
        return Err(Refusal::BadFirstDate(index));
    }
    Ok(())
}

// Question 18.
pub fn first_dates_question(first: u32, last: u32, starts: &[u32]) -> Result<(), Refusal>
    ensures { result ≡ first_dates_question first last starts.now }
{
    for index in 0..starts.len() {
        first_date_question(first, last, starts, index)?;
    }
    Ok(())
}
