// The line of a refusal (document 01, "The program"), put on a lent page.
#![tactic(auto)]

ghost use Rattle.text.specs.Inside.{Put, Room};
ghost use Rattle.program_refusal.specs.Refused.{refused_line};

use refusal::Refusal;
use text::Page;

// Puts the line of a refusal, of at most 50 bytes: 7 for the word, two fields of 21, 1 LF.
// Kept: number and place by `text`, and not by Refusal's Display, since a `write!` to a page is not known to succeed.
pub fn put_refused_line(refusal: Refusal, page: &mut Page)
    requires { Room 50 page.old }
    ensures { Put (refused_line refusal) page.old page.new }
{
    page.put_word(b"refused");
    text_fields::put_field(refusal.number() as u64, page);
    text_fields::put_field(refusal.place() as u64, page);
    page.put_byte(text::LINE_FEED);
}
