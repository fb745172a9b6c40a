// The opening of a request (document 01): questions 1 to 8, and 1 to 11, the group found, the days counted.
#![tactic(auto)]

ghost use Rattle.std.specs.Prelude.{◌+◌, ◌≤◌, ◌≡◌, [], length, IfOk};
ghost use Rattle.refusal.specs.Questions.{answered, ◌then◌};
ghost use Rattle.calendar_period.specs.Period.{period_check};
ghost use Rattle.file_layout.specs.Header.{layout_of, profile_length};
ghost use Rattle.call_request.specs.Request.{asked, ahead_of_period, request_check};
ghost use Rattle.call_open.specs.Inside.{opening_of, opening};

use calendar_period::Period;
use call_request::Request;
use refusal::Refusal;

// What the questions found: where the group's code stands in the file (as `file_group::find` gives it), and the period.
#[derive(Clone, Copy)]
pub struct Opening {
    pub at: usize,
    pub period: Period,
}

// Questions 1 to 8: the file, the group and the period.
// Kept: one by one what two sorts of requests have in common, the calls' and the deliveries', for the reason at `call_deliveries::Readings`.
pub fn open_period(file: &[u8], group: u8, first: u32, last: u32) -> Result<Opening, Refusal>
    ensures value { result ≡ answered
        (ahead_of_period file.now group then period_check first last)
        (opening_of file.now group first last) }
    ensures inside { IfOk result (λ o. o.at + profile_length (layout_of file.now) ≤ length file.now) }
{
    let at = file_group::find_checked(file, group)?;
    let period = Period::new(first, last)?;
    Ok(Opening { at, period })
}

// Questions 1 to 11: all that is asked of a request but the length of its output.
pub fn open(request: Request) -> Result<Opening, Refusal>
    ensures value { result ≡ answered (request_check (asked request.entry [])) (opening (asked request.entry [])) }
    ensures inside { IfOk result (λ o. o.at + profile_length (layout_of request.entry.file.now) ≤ length request.entry.file.now) }
{
    let opening = open_period(request.file, request.group, request.first, request.last)?;
    request.behind_period()?;
    Ok(opening)
}
