// The lines of days: what a line is made from, and the forms that it has.
ghost use Rattle.std.specs.Prelude.{ℕ, ◌^◌, ◌≤◌, ◌<◌, List, length};
ghost use Rattle.calendar_days.specs.declared.DayKind.{DayKind};
ghost use Rattle.series_rows.specs.Rows.{Row};
ghost use Rattle.text.specs.Inside.{Put, Room};
ghost use Rattle.text_fields.specs.Inside.{row_in};

use calendar_dates::CalendarDay;
use calendar_days::DayKind;
use text::Page;

// A day of a listing: its date, its season and day type, and what its figures come to.
#[derive(Clone, Copy)]
pub struct DayEntry {
    pub day: CalendarDay,
    pub kind: DayKind,
    pub count: usize,
    pub watt_hours: u64,
}

// A form of a day's line: its text, which has at most `longest` bytes.
pub trait DayLine {
    ghost line: { DayKind → Row → List ℕ };

    ghost longest: { ℕ };

    // Puts the line of a day.
    // Kept: the bounds of count and Wh are asked here and not held by `DayEntry`, since each form asks its own: the program's a count
    // below 1,000 and any Wh, the page's what its two columns hold.
    fn put(entry: &DayEntry, page: &mut Page)
        requires count_bound { entry.now.count < 1_000 }
        requires watt_hours_bound { entry.now.watt_hours < 10 ^ 16 }
        requires room { Room longest page.old }
        ensures { Put (line entry.now.kind (row_in entry.now)) page.old page.new };

    ghost within: { (kind : DayKind) (row : Row) → row.count < 1_000 → row.watt_hours < 10 ^ 16 → length (line kind row) ≤ longest };
}
