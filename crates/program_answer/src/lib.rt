// The lines that answer a request (document 01, "The program"): those of its days and the last one, or the refusal.
#![tactic(auto)]

ghost use Rattle.std.specs.Prelude.{[]};
ghost use Rattle.call_request.specs.Request.{asked};
ghost use Rattle.text.specs.Inside.{Put, Room};
ghost use Rattle.program_answer.specs.Accepted.{page_length};
ghost use Rattle.program_answer.specs.Inside.{lines_of};

use call_request::Request;
use series::Basis;
use text::Page;
use text_program_lines::ProgramLine;

// Puts the lines of a request: those of its days and the last one, or the refusal.
// Kept: that a page has room is asked by each function that puts text, since it is true of a page only until text is put on it; a `match`,
// since a refusal is put on the page and passed on to no one.
#[tactic(auto, unfolding(crate::specs::Answer::lines_for))]
pub fn put_answer(request: Request, page: &mut Page)
    requires { Room page_length page.old }
    ensures { Put (lines_of (asked request.entry [])) page.old page.new }
{
    let opening = match call_open::open(request) {
        Ok(opening) => opening,
        Err(refusal) => return program_refusal::put_refused_line(refusal, page),
    };
    let period = opening.period;
    let values = file_read::table_at(request.file, opening.at);
    let basis = Basis::new(&values, request.group, request.holidays);
    let totals = text_listing::list_days::<ProgramLine>(
        &basis,
        period,
        request.yearly,
        request.carry,
        page,
    );
    text_program_lines::put_last_line(period.days(), totals, page);
}
