// The days of a period, each with its season and day type.
ghost use Rattle.std.specs.Prelude.{◌≡◌};
ghost use Rattle.std.specs.Iterator.{YieldsFirst, item_count};
ghost use Rattle.calendar_days.specs.Days.{season, day_type_when};
ghost use Rattle.series.specs.Inside.{with_kinds, DatesNotFalling};

use calendar_dates::CalendarDay;
use calendar_days::DayKind;
use calendar_holidays::HolidaysAhead;
use calendar_period::Days;
use std::marker::Model;

// In a contract it is the list of the dates that are left, each with its kind. No date is earlier than one before it, so that the
// holidays are gone through once.
#[derive(Drop)]
pub struct KindDays<'a> {
    dates: Days,
    ahead: HolidaysAhead<'a>,
}

impl<'a> Model for KindDays<'a> {
    ghost use Rattle.std.specs.Prelude.{List};
    ghost use Rattle.calendar_dates.specs.declared.Date.{Date};
    ghost use Rattle.calendar_days.specs.declared.DayKind.{DayKind};
    ghost use Rattle.series.specs.Inside.{with_kinds, DatesNotFalling};

    ghost Value = { List (Date × DayKind) };

    ghost view = { λ days. with_kinds days.ahead days.dates };

    ghost invariant = { λ days. DatesNotFalling days.dates };
}

impl<'a> KindDays<'a> {
    pub(crate) fn new(dates: Days, ahead: HolidaysAhead<'a>) -> KindDays<'a>
        requires { DatesNotFalling dates }
        ensures { result ≡ with_kinds ahead.entry dates }
    {
        KindDays { dates, ahead }
    }
}

impl<'a> Iterator for KindDays<'a> {
    type Item = (CalendarDay, DayKind);

    ghost next_gives = { YieldsFirst (λ days. days) };

    ghost remaining = { item_count (λ days. days) };

    #[inline(always)]
    #[tactic(auto, using(crate::proofs::DaysWithKinds::first_day))]
    fn next(&mut self) -> Option<(CalendarDay, DayKind)> {
        let day = self.dates.next()?;
        let holiday = self.ahead.lists(day.number());
        let kind = DayKind {
            season: calendar_days::season_of(day),
            day_type: calendar_days::day_type_when(day.date(), day.weekday(), holiday),
        };
        Some((day, kind))
    }
}
