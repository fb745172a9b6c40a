// Series and carry (document 01): a period's figures, day by day, with the carry handed from day to day.
#![tactic(auto)]

mod basis;
mod kinds;

ghost use Rattle.std.specs.Prelude.{◌≡◌, ◌≤◌, length};
ghost use Rattle.calendar_days.specs.Days.{day_kind};
ghost use Rattle.carry.specs.Energy.{powers};
ghost use Rattle.day_powers.specs.DayQuarters.{day_quarters};
ghost use Rattle.series.specs.Inside.{InRange, Filled};
ghost use Rattle.series.specs.Series.{quarters_of_days};

pub use basis::{Basis, powers_on};
use calendar_dates::CalendarDay;
use calendar_days::DayKind;
use calendar_period::Period;
use carry::Totals;
pub use kinds::KindDays;

// Stores one day's figures at the start of the output. A function of its own keeps its loops fast.
// Kept: yearly use and carry as two arguments, for the reason at `carry_quotients::carry_by_quotients`, here and below; the use beside the
// basis, which says what the quarter hours are, whatever is used in them; a day and its kind as the iterator gives them.
#[inline(never)]
fn expand_day(
    basis: &Basis,
    day: CalendarDay,
    kind: DayKind,
    yearly: u32,
    carry: u32,
    out: &mut [u32],
) -> Totals
    requires own_kind { kind ≡ day_kind day basis.now.holidays }
    requires in_range { InRange yearly carry }
    requires room { length (powers (day_quarters basis.now day)) ≤ length out.old }
    ensures { Filled yearly (powers (day_quarters basis.now day)) carry out.old result out.new }
{
    let clock = calendar_days::clock_of(day);
    let carried = carry_day::carry_day(basis.powers(day, kind), clock, yearly, carry, out);
    Totals {
        count: clock.value_count() as usize,
        total: carried.total,
        carry: carried.carry,
    }
}

// Stores the figures of a period from the start of the output on.
// Kept: a loop here, in `series_totals` and in `text_listing`: a common one would take what a day does as a closure, with its promise; and a
// day's function here and in `series_totals`, since only this one stores.
pub fn expand_days(
    basis: &Basis,
    period: Period,
    yearly: u32,
    carry: u32,
    out: &mut [u32],
) -> Totals
    requires in_range { InRange yearly carry }
    requires room { length (quarters_of_days (day_quarters basis.now) period.days period.first) ≤ length out.old }
    ensures { Filled yearly (powers (quarters_of_days (day_quarters basis.now) period.days period.first)) carry out.old result out.new }
{
    let mut so_far = Totals {
        carry,
        ..Totals::default()
    };
    for (day, kind) in basis.days(period) {
        let at = so_far.count;
        let today = expand_day(basis, day, kind, yearly, so_far.carry, &mut out[at..]);
        so_far = so_far.and(today);
    }
    so_far
}
