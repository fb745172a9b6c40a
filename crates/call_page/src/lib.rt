// The day page (document 02, (e)): a line of fixed width for each day of a period, and a last line with their sums, on a lent page.
// The file is checked once, no figure is stored, nothing is allocated, and nothing is copied but the group's values and one day's powers.
#![tactic(auto)]

ghost use Rattle.std.specs.Prelude.{◌≡◌};
ghost use Rattle.call_request.specs.Request.{asked};
ghost use Rattle.call_page.specs.Page.{page_question, Prints};

use call_expansion::Expansion;
use call_request::Request;
use refusal::Refusal;
use series::Basis;
use text::Page;
use text_page_lines::PageLine;

// Question 19, of a page with `room` bytes for the lines of some days and the last one.
#[tactic(auto, unfolding(crate::specs::Page::page_question))]
fn page_question(days: u32, room: usize) -> Result<(), Refusal>
    ensures { result ≡ page_question days room }
{
    let needed = text_page_lines::LINE_LENGTH * (days as usize + 1);
    if room < needed {
        return Err(Refusal::ShortPage(needed));
    }
    Ok(())
}

// Fills the page from its start with the lines of the period's days and the last one, and keeps what is beyond; a refusal changes
// nothing. Answers what expanding answers.
pub fn day_page(request: Request, page: &mut [u8]) -> Expansion
    ensures { Prints (asked request.entry page.old) result page.new }
{
    let opening = call_open::open(request)?;
    page_question(opening.period.days(), page.len())?;
    let values = file_read::table_at(request.file, opening.at);
    let basis = Basis::new(&values, request.group, request.holidays);
    let mut lines = Page { bytes: page, at: 0 };
    let totals = text_listing::list_days::<PageLine>(
        &basis,
        opening.period,
        request.yearly,
        request.carry,
        &mut lines,
    );
    text_page_lines::put_last_line(totals, &mut lines);
    Ok(totals)
}
