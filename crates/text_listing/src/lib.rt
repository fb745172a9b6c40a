// A line for each day of a period, put on a lent page one after the other, in the program's form (document 01, "The program") or in
// the day page's (document 02, (e)).
#![tactic(auto)]

ghost use Rattle.std.specs.Prelude.{◌*◌};
ghost use Rattle.series.specs.Inside.{InRange};
ghost use Rattle.text.specs.Inside.{Room};
ghost use Rattle.text_listing.specs.Inside.{Listed};

use calendar_period::Period;
use carry::Totals;
use series::Basis;
use text::Page;
use text_fields::{DayEntry, DayLine};

// Works a period out day by day, puts a line for each day in a form, and answers what the days come to.
// Kept: yearly use and carry as two arguments, and the use beside the basis, for the reasons at `series::expand_day`.
pub fn list_days<L: DayLine>(
    basis: &Basis,
    period: Period,
    yearly: u32,
    carry: u32,
    page: &mut Page,
) -> Totals
    requires in_range { InRange yearly carry }
    requires room { Room (L.longest * period.days) page.old }
    ensures { Listed L.line L.longest basis.now yearly carry period.days period.first
        page.old result page.new }
{
    let mut so_far = Totals {
        carry,
        ..Totals::default()
    };
    for (day, kind) in basis.days(period) {
        let today = series_totals::total_of_kind(basis, day, kind, yearly, so_far.carry);
        let entry = DayEntry {
            day,
            kind,
            count: today.count,
            watt_hours: today.total,
        };
        L::put(&entry, page);
        so_far = so_far.and(today);
    }
    so_far
}
