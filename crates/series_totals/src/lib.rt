// Series and carry (document 01): what days come to, where no figure is stored, with the carry handed from day to day.
#![tactic(auto)]

ghost use Rattle.std.specs.Prelude.{◌≡◌, ◌*◌, ◌^◌, ◌≤◌};
ghost use Rattle.calendar_days.specs.Days.{day_kind};
ghost use Rattle.carry.specs.Energy.{powers};
ghost use Rattle.day_powers.specs.DayQuarters.{day_quarters};
ghost use Rattle.series.specs.Inside.{InRange, comes_to};
ghost use Rattle.series.specs.Series.{quarters_of_days};

use calendar_dates::CalendarDay;
use calendar_days::DayKind;
use calendar_period::Period;
use carry::Totals;
use series::Basis;

// A day worked out, none of its figures stored: its season and day type, and what its figures come to.
#[derive(Clone, Copy, Debug, PartialEq, Eq)]
pub struct DayTotals {
    pub kind: DayKind,
    pub totals: Totals,
}

// Works one day out.
// Kept: yearly use and carry as two arguments, and the use beside the basis, for the reasons at `series::expand_day`, here and below.
pub fn total_day(basis: &Basis, day: CalendarDay, yearly: u32, carry: u32) -> DayTotals
    requires { InRange yearly carry }
    ensures { result ≡ record {
      kind = day_kind day basis.now.holidays;
      totals = comes_to yearly (powers (day_quarters basis.now day)) carry;
    } }
{
    let kind = basis.kind_on(day);
    DayTotals {
        kind,
        totals: total_of_kind(basis, day, kind, yearly, carry),
    }
}

// What one day comes to whose kind is known, as it is of the days of a period, for which the holidays are gone through once.
// Kept: a day with its kind, for the reason at `series::expand_day`.
pub fn total_of_kind(
    basis: &Basis,
    day: CalendarDay,
    kind: DayKind,
    yearly: u32,
    carry: u32,
) -> Totals
    requires own_kind { kind ≡ day_kind day basis.now.holidays }
    requires in_range { InRange yearly carry }
    ensures { result ≡ comes_to yearly (powers (day_quarters basis.now day)) carry }
{
    let clock = calendar_days::clock_of(day);
    let carried = carry_total::total_day(basis.powers(day, kind), clock, yearly, carry);
    Totals {
        count: clock.value_count() as usize,
        total: carried.total,
        carry: carried.carry,
    }
}

// What a period comes to, begun with a carry: at most 10^9 Wh in each of the quarter hours of 1,461 days.
pub fn total_days(basis: &Basis, period: Period, yearly: u32, carry: u32) -> Totals
    requires { InRange yearly carry }
    ensures value { result ≡ comes_to yearly (powers (quarters_of_days (day_quarters basis.now) period.days period.first)) carry }
    ensures small { result.total ≤ 146_100 * 10 ^ 9 }
{
    let mut so_far = Totals {
        carry,
        ..Totals::default()
    };
    for (day, kind) in basis.days(period) {
        let today = total_of_kind(basis, day, kind, yearly, so_far.carry);
        so_far = so_far.and(today);
    }
    so_far
}
