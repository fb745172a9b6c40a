// The text that the program prints for an input (document 01, "The program"), put on a page that has room for any.
#![tactic(auto)]

ghost use Rattle.text.specs.Inside.{Put, Room};
ghost use Rattle.program_input.specs.Input.{request_in};
ghost use Rattle.program_answer.specs.Accepted.{page_length};
ghost use Rattle.program_answer.specs.Inside.{lines_of};
ghost use Rattle.program_text.specs.Printed.{printed};

use call_request::Request;
use program_input::Input;
use text::Page;

// Answers the request that an input holds.
#[tactic(auto, using(crate::proofs::CutList::lines_whole))]
fn answer(input: &Input, page: &mut Page)
    requires { Room page_length page.old }
    ensures { Put (lines_of (request_in input.now)) page.old page.new }
{
    let head = input.head();
    let holidays = input.holidays();
    let request = Request {
        file: input.file(),
        group: head.group,
        first: head.first,
        last: head.last,
        holidays: &holidays,
        yearly: head.yearly,
        carry: 0,
    };
    program_answer::put_answer(request, page);
}

// Puts the text.
// Kept: a `match`, since a refusal is put on the page and passed on to no one.
#[tactic(auto, unfolding(crate::specs::Printed::printed, program_answer::specs::Answer::lines_for))]
pub fn put_text(bytes: &[u8], page: &mut Page)
    requires { Room page_length page.old }
    ensures { Put (printed bytes.now) page.old page.new }
{
    match Input::new(bytes) {
        Ok(input) => answer(&input, page),
        Err(refusal) => program_refusal::put_refused_line(refusal, page),
    }
}
