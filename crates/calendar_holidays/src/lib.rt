// The list of holidays: question 9, whether a date is listed, and the list gone through along with the days of a call.
#![tactic(auto)]

mod ahead;

ghost use Rattle.std.specs.Prelude.{◌≡◌, ◌<◌, ◌≤◌, ltb, length};
ghost use Rattle.std.specs.List.{prefix_len};
ghost use Rattle.calendar_holidays.specs.Holidays.{listed, holiday_question, holidays_question};
ghost use Rattle.calendar_holidays.specs.Inside.{entries_from};

pub use ahead::HolidaysAhead;
use calendar_dates::Date;
use refusal::Refusal;

// Whether a date, as a number, stands in the list.
pub fn is_listed(date: u32, holidays: &[u32]) -> bool
    ensures { result ≡ listed date holidays.now }
{
    holidays.contains(&date)
}

// How many entries a list begins with that are earlier than a date.
fn earlier_entries(holidays: &[u32], date: u32) -> usize
    ensures value { result ≡ prefix_len (λ entry. ltb entry date) holidays.now }
    ensures inside { result ≤ length holidays.now }
{
    holidays.iter().take_while(|entry| **entry < date).count()
}

// The entries from the first one on that is not earlier than a date.
pub fn entries_from(holidays: &[u32], date: u32) -> &[u32]
    ensures { result.now ≡ entries_from date holidays.now }
{
    &holidays[earlier_entries(holidays, date)..]
}

// Question 9, of one entry.
// Kept: an entry is given by its index, since a refusal names it by that.
#[tactic(auto, unfolding(crate::specs::Holidays::holiday_question))]
fn holiday_question(holidays: &[u32], index: usize) -> Result<(), Refusal>
    requires { index < length holidays.now }
    ensures { result ≡ holiday_question holidays.now index }
{
    let passes = index < 400
        && Date::from(holidays[index]).is_date()
        && (index == 0 || holidays[index - 1] < holidays[index]);
    if !passes {
        return Err(Refusal::BadHoliday(index));
    }
    Ok(())
}

// Question 9.
pub fn holidays_question(holidays: &[u32]) -> Result<(), Refusal>
    ensures { result ≡ holidays_question holidays.now }
{
    for index in 0..holidays.len() {
        holiday_question(holidays, index)?;
    }
    Ok(())
}
