// Fields of a line (document 01, "The program"), put on a lent page: a number behind a space, and the day type.
#![tactic(auto)]

mod day_line;

ghost use Rattle.text.specs.Inside.{Put, Room};
ghost use Rattle.std.specs.Prelude.{◌≡◌};
ghost use Rattle.text_fields.specs.Fields.{day_type_text, field};

use calendar_days::DayKind;
pub use day_line::{DayEntry, DayLine};
use text::Page;

// Puts the season letter and the day digit.
// Kept: the Display of both writes to a formatter, and a `write!` to a page is not known to succeed.
pub fn put_day_type(kind: DayKind, page: &mut Page)
    requires { Room 2 page.old }
    ensures { Put (day_type_text kind) page.old page.new }
{
    page.put_byte(kind.season.letter());
    page.put_byte(b'0' + kind.day_type.digit() as u8);
}

// Puts a space and a number.
pub fn put_field(n: u64, page: &mut Page)
    requires { Room 21 page.old }
    ensures { Put (field n) page.old page.new }
{
    page.put_byte(text::SPACE);
    page.put_decimal(n);
}
