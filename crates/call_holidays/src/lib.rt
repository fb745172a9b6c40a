// The holidays of a year (document 02, (a)): questions 14, 15 and 16, and the dates at the start of the lent list.
#![tactic(auto)]

ghost use Rattle.std.specs.Prelude.{◌≡◌, length};
ghost use Rattle.refusal.specs.Questions.{answered};
ghost use Rattle.call_holidays.specs.Holidays.{year_question, choice_question, list_question, holidays_answer, list_after, reported};

use calendar_movable_days::Year;
use refusal::Refusal;

// The answer in numbers: number and place, 0 when accepted, and the list's length, 0 when refused.
// Kept: C has a report by this name for this call and one for responses. One struct for both would stand in `refusal`, below the two, and
// its length would be dates in one call and bytes in the other.
#[repr(C)]
#[derive(Clone, Copy, Default)]
pub struct HolidaysReport {
    pub number: u32,
    pub place: usize,
    pub length: usize,
}

impl From<Result<usize, Refusal>> for HolidaysReport {
    ghost from_gives = { λ answer report. report ≡ reported answer };

    fn from(answer: Result<usize, Refusal>) -> HolidaysReport {
        match answer {
            Ok(length) => HolidaysReport {
                length,
                ..HolidaysReport::default()
            },
            Err(refusal) => HolidaysReport {
                number: refusal.number(),
                place: refusal.place(),
                ..HolidaysReport::default()
            },
        }
    }
}

// Question 14: the year, or the refusal.
// Kept: no TryFrom: Year stands in a crate below that knows no refusal.
#[tactic(auto, unfolding(crate::specs::Holidays::year_question))]
fn year_in(number: u32) -> Result<Year, Refusal>
    ensures { result ≡ answered (year_question number) number }
{
    if !matches!(number, 1996..=2099) {
        return Err(Refusal::BadYear);
    }
    Ok(Year::new(number))
}

// Question 15.
#[tactic(auto, unfolding(crate::specs::Holidays::choice_question))]
fn choice_question(choice: u8) -> Result<(), Refusal>
    ensures { result ≡ choice_question choice }
{
    if 63 < choice {
        return Err(Refusal::BadChoice);
    }
    Ok(())
}

// Question 16, of a lent list with `room` entries for the `needed` ones.
#[tactic(auto, unfolding(crate::specs::Holidays::list_question))]
fn list_question(needed: usize, room: usize) -> Result<(), Refusal>
    ensures { result ≡ list_question needed room }
{
    if room < needed {
        return Err(Refusal::ShortList(needed));
    }
    Ok(())
}

// Fills the first entries of `list` with the holidays of a year and keeps those beyond; a refusal changes nothing. Answers how many
// they are.
#[tactic(auto, using(crate::proofs::Questions::list_passed), unfolding(crate::specs::Holidays::holidays_answer, crate::specs::Holidays::list_after, crate::specs::Holidays::holidays_check))]
pub fn list_holidays(year: u32, choice: u8, list: &mut [u32]) -> Result<usize, Refusal>
    ensures value { result ≡ holidays_answer year choice (length list.old) }
    ensures result_value { reported result ≡ reported (holidays_answer year choice (length list.old)) }
    ensures list_after { list.new ≡ list_after year choice list.old }
{
    let year = year_in(year)?;
    choice_question(choice)?;
    let dates = calendar_year_list::year_holidays(year, choice);
    let needed = dates.len();
    list_question(needed, list.len())?;
    list[..needed].copy_from_slice(&dates);
    Ok(needed)
}
