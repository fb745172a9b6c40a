// What quarter hours are made from: a group's values, its code and the list of holidays.
ghost use Rattle.std.specs.Prelude.{◌≡◌, ◌≤◌, ℕ, get_or};
ghost use Rattle.refusal.specs.Questions.{Pass};
ghost use Rattle.calendar_dates.specs.Dates.{day_of_year, AllDates};
ghost use Rattle.calendar_days.specs.Days.{day_kind};
ghost use Rattle.calendar_holidays.specs.Holidays.{holidays_question};
ghost use Rattle.calendar_period.specs.Period.{dates_from};
ghost use Rattle.dynamisation.specs.Dynamisation.{F};
ghost use Rattle.day_powers.specs.DayTable.{day_table_at, day_table_of};
ghost use Rattle.day_powers.specs.DayQuarters.{basis};
ghost use Rattle.day_powers.specs.Inside.{powers_by};
ghost use Rattle.series.specs.Inside.{GroupValues, with_kinds};

use crate::KindDays;
use calendar_dates::CalendarDay;
use calendar_days::DayKind;
use calendar_holidays::HolidaysAhead;
use calendar_period::Period;
use std::marker::Model;

// In a contract it is the record of the three: the values are a group's, and the list is in order.
#[derive(Drop)]
pub struct Basis<'a> {
    values: &'a [u16],
    group: u8,
    holidays: &'a [u32],
}

impl<'a> Model for Basis<'a> {
    ghost use Rattle.std.specs.Prelude.{◌≡◌};
    ghost use Rattle.refusal.specs.Questions.{Pass};
    ghost use Rattle.calendar_holidays.specs.Holidays.{holidays_question};
    ghost use Rattle.day_powers.specs.DayQuarters.{Basis as Made, basis};
    ghost use Rattle.series.specs.Inside.{GroupValues};

    ghost Value = { Made };

    ghost view = { λ b. basis b.values.now b.group b.holidays.now };

    ghost invariant = { λ b. GroupValues b.values.now × (holidays_question b.holidays.now ≡ Pass) };
}

impl<'a> Basis<'a> {
    // Kept: the three one by one, since here they become one value.
    pub fn new(values: &'a [u16], group: u8, holidays: &'a [u32]) -> Basis<'a>
        requires group_values { GroupValues values.now }
        requires in_order { holidays_question holidays.now ≡ Pass }
        ensures { result ≡ basis values.now group holidays.now }
    {
        Basis {
            values,
            group,
            holidays,
        }
    }

    // The days of a period, each with its season and day type.
    #[tactic(auto, using(crate::proofs::DaysWithKinds::not_falling))]
    pub fn days(&self, period: Period) -> KindDays<'a>
        ensures value { result ≡ with_kinds self.now.holidays (dates_from period.days period.first) }
        ensures group_values { GroupValues self.now.values }
        ensures few { period.days ≤ 1_461 }
        ensures real { AllDates period.days period.first }
    {
        KindDays::new(period.dates(), HolidaysAhead::new(self.holidays))
    }

    // A day's season and day type.
    pub fn kind_on(&self, day: CalendarDay) -> DayKind
        ensures { result ≡ day_kind day self.now.holidays }
    {
        DayKind {
            season: calendar_days::season_of(day),
            day_type: calendar_days::day_type_of(day, self.holidays),
        }
    }

    // The powers of a day of a kind, before the clock change.
    // Kept: a day and its kind one by one, as the iterator gives them.
    pub fn powers(&self, day: CalendarDay, kind: DayKind) -> [u32; 96]
        ensures value { result ≡ powers_by (F self.now.group (day_of_year day)) (day_table_at (day_table_of kind) self.now.values) }
        ensures small { (i : ℕ) → get_or result i 0 ≤ 40_000 }
        ensures group_values { GroupValues self.now.values }
    {
        powers_on(self.values, self.group, day, kind)
    }
}

// The same of a group's values alone, for who has no list of holidays.
// Kept: values and group one by one, since a Basis has a list too, which is not asked for here.
#[inline(always)]
pub fn powers_on(values: &[u16], group: u8, day: CalendarDay, kind: DayKind) -> [u32; 96]
    requires { GroupValues values.now }
    ensures value { result ≡ powers_by (F group (day_of_year day)) (day_table_at (day_table_of kind) values.now) }
    ensures small { (i : ℕ) → get_or result i 0 ≤ 40_000 }
{
    let table = day_powers::day_table_index(kind.season, kind.day_type);
    day_powers::powers_of(
        values,
        table,
        dynamisation::factor(group, day.day_of_year()),
    )
}
