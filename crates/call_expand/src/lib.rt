// Expanding (document 01, "Series and carry" and questions 1 to 12): a period's series in the lent output.
// The file is checked once, nothing is allocated, and nothing is copied but the group's values and one day's powers.
#![tactic(auto)]

ghost use Rattle.call_request.specs.Request.{asked};
ghost use Rattle.call_expand.specs.Expanding.{Expands};

use call_expansion::Expansion;
use call_request::Request;
use series::Basis;

// Fills the output from its start with the figures of the period's quarter hours and keeps what is beyond; a refusal changes
// nothing.
pub fn expand(request: Request, out: &mut [u32]) -> Expansion
    ensures { Expands (asked request.entry out.old) result out.new }
{
    let opening = call_open::open(request)?;
    call_request::room_question(opening.period, out.len())?;
    let values = file_read::table_at(request.file, opening.at);
    let basis = Basis::new(&values, request.group, request.holidays);
    let made = series::expand_days(&basis, opening.period, request.yearly, request.carry, out);
    Ok(made)
}
