// What expanding, the day page and the program are given (document 01): a request, and its questions 9 to 12.
#![tactic(auto)]

mod request;

ghost use Rattle.std.specs.Prelude.{◌≡◌};
ghost use Rattle.refusal.specs.Questions.{room_question};
ghost use Rattle.calendar_period.specs.Period.{value_count_of_days};
ghost use Rattle.call_request.specs.Request.{use_question, carry_question, behind_period};

use calendar_period::Period;
use refusal::Refusal;
pub use request::Request;

// Question 10.
#[tactic(auto, unfolding(crate::specs::Request::use_question))]
pub fn use_question(yearly: u32) -> Result<(), Refusal>
    ensures { result ≡ use_question yearly }
{
    if carry::LARGEST_USE < yearly {
        return Err(Refusal::BadUse);
    }
    Ok(())
}

// Question 11.
#[tactic(auto, unfolding(crate::specs::Request::carry_question))]
fn carry_question(carry: u32) -> Result<(), Refusal>
    ensures { result ≡ carry_question carry }
{
    if carry::LARGEST_CARRY < carry {
        return Err(Refusal::BadCarry);
    }
    Ok(())
}

impl Request<'_> {
    // Questions 9 to 11.
    pub fn behind_period(self) -> Result<(), Refusal>
        ensures { result ≡ behind_period self.entry.holidays.now self.entry.yearly self.entry.carry }
    {
        calendar_holidays::holidays_question(self.holidays)?;
        use_question(self.yearly)?;
        carry_question(self.carry)
    }
}

// Question 12, of an output with `room` entries for the quarter hours of a period. One with 100 for each day is long enough for any
// days: only where it is shorter are their quarter hours counted.
pub fn room_question(period: Period, room: usize) -> Result<(), Refusal>
    ensures { result ≡ room_question (value_count_of_days period.days period.first) room }
{
    if period.days() as usize * 100 <= room {
        return Ok(());
    }
    refusal::room_question(period.value_count(), room)
}
