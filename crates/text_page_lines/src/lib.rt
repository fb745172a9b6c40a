// The text of the day page's lines (document 02, (e)), put on a lent page. Each has 38 bytes.
#![tactic(auto)]

ghost use Rattle.std.specs.Prelude.{◌≡◌, ◌+◌, ◌^◌, ◌<◌};
ghost use Rattle.text.specs.Inside.{Put, Room};
ghost use Rattle.text_fields.specs.Inside.{row_in};
ghost use Rattle.text_page_lines.specs.PageLines.{day_type_width, count_width, watt_hours_width, line_length, day_page_line, last_page_line};
ghost use Rattle.text_page_lines.specs.Inside.{amounts};
ghost use Rattle.text_page_lines.specs.Lengths.{within-line};

use carry::Totals;
use text::Page;
use text_fields::{DayEntry, DayLine};

// The length of a line.
pub const LINE_LENGTH: usize = 38;

// Puts the two numbers of a line, behind its day type: a space, the count, a space, the Wh and LF.
// Kept: count and Wh one by one, with their bounds, here and below: a day's line has them in a DayEntry, the last one in a carry::Totals.
fn put_amounts(count: usize, watt_hours: u64, page: &mut Page)
    requires count_bound { count < 10 ^ count_width }
    requires watt_hours_bound { watt_hours < 10 ^ watt_hours_width }
    requires room { Room 25 page.old }
    ensures put { Put (amounts count watt_hours) page.old page.new }
    ensures behind { page.new.at ≡ page.old.at + 25 }
{
    page.put_byte(text::SPACE);
    text_columns::put_right_aligned(count as u64, 6, page);
    page.put_byte(text::SPACE);
    text_columns::put_right_aligned(watt_hours, 16, page);
    page.put_byte(text::LINE_FEED);
}

// The day page's form of a day's line.
#[derive(Clone, Copy)]
pub struct PageLine;

impl DayLine for PageLine {
    ghost line = { day_page_line };

    ghost longest = { line_length day_type_width };

    fn put(entry: &DayEntry, page: &mut Page)
        requires count_bound { entry.now.count < 10 ^ count_width }
        requires watt_hours_bound { entry.now.watt_hours < 10 ^ watt_hours_width }
        requires room { Room (line_length day_type_width) page.old }
        ensures put { Put (day_page_line entry.now.kind (row_in entry.now)) page.old page.new }
        ensures behind { page.new.at ≡ page.old.at + line_length day_type_width }
    {
        page.put_date(entry.day);
        page.put_byte(text::SPACE);
        text_fields::put_day_type(entry.kind, page);
        put_amounts(entry.count, entry.watt_hours, page);
    }

    ghost within = { within-line };
}

// Puts the last line.
pub fn put_last_line(t: Totals, page: &mut Page)
    requires count_bound { t.count < 10 ^ count_width }
    requires total_bound { t.total < 10 ^ watt_hours_width }
    requires room { Room (line_length day_type_width) page.old }
    ensures { Put (last_page_line t) page.old page.new }
{
    page.put_word(b"total");
    text_columns::put_spaces(5, page);
    page.put_byte(text::SPACE);
    page.put_word(b"--");
    put_amounts(t.count, t.total, page);
}
