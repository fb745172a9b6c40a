// The text of the program's lines (document 01, "The program"), put on a lent page.
#![tactic(auto)]

ghost use Rattle.std.specs.Prelude.{◌<◌};
ghost use Rattle.text.specs.Inside.{Put, Room};
ghost use Rattle.text_fields.specs.Inside.{row_in};
ghost use Rattle.text_program_lines.specs.Lines.{day_line, last_line};
ghost use Rattle.text_program_lines.specs.Lengths.{day-line-short};

use carry::Totals;
use text::Page;
use text_fields::{DayEntry, DayLine};

// The program's form of a day's line.
#[derive(Clone, Copy)]
pub struct ProgramLine;

impl DayLine for ProgramLine {
    ghost line = { day_line };

    ghost longest = { 39 };

    // Of at most 39 bytes: 10 date, 3 day type, 4 count, 21 Wh (a number has at most 20 digits), 1 LF.
    fn put(entry: &DayEntry, page: &mut Page)
        requires count_bound { entry.now.count < 1_000 }
        requires room { Room 39 page.old }
        ensures { Put (day_line entry.now.kind (row_in entry.now)) page.old page.new }
    {
        page.put_date(entry.day);
        page.put_byte(text::SPACE);
        text_fields::put_day_type(entry.kind, page);
        text_fields::put_field(entry.count as u64, page);
        text_fields::put_field(entry.watt_hours, page);
        page.put_byte(text::LINE_FEED);
    }

    ghost within = { λ kind row few small. day-line-short kind row few };
}

// Puts the last line, of at most 90 bytes: 5 for the word, four fields of 21, 1 LF.
pub fn put_last_line(days: u32, t: Totals, page: &mut Page)
    requires { Room 90 page.old }
    ensures { Put (last_line days t) page.old page.new }
{
    page.put_word(b"total");
    text_fields::put_field(days as u64, page);
    text_fields::put_field(t.count as u64, page);
    text_fields::put_field(t.total, page);
    text_fields::put_field(t.carry as u64, page);
    page.put_byte(text::LINE_FEED);
}
