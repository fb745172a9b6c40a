// The days of a period (document 01, "A period has 1 to 1,461 days"): questions 7 and 8, how many days and values a period has,
// and its days one after the other.
#![tactic(auto)]

mod days;
mod period;

ghost use Rattle.std.specs.Prelude.{◌≡◌};
ghost use Rattle.refusal.specs.Questions.{answered};
ghost use Rattle.calendar_dates.specs.Dates.{date_of};
ghost use Rattle.calendar_period.specs.Period.{date_question};

use calendar_dates::{CalendarDay, Date};
pub use days::Days;
pub use period::Period;
use refusal::Refusal;

// Question 7, of one date: the date, or the refusal.
// Kept: the place beside the number, since a refusal names it.
#[tactic(auto, unfolding(crate::specs::Period::date_question))]
pub fn date_in(number: u32, place: usize) -> Result<CalendarDay, Refusal>
    ensures { result ≡ answered (date_question number place) (date_of number) }
{
    let date = Date::from(number);
    if !date.is_date() {
        return Err(Refusal::BadDate(place));
    }
    Ok(CalendarDay::new(date))
}
