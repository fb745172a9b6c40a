// The days of a period, one after the other.
ghost use Rattle.std.specs.Prelude.{◌≡◌};
ghost use Rattle.std.specs.Iterator.{YieldsFirst, item_count};
ghost use Rattle.calendar_dates.specs.Dates.{AllDates};
ghost use Rattle.calendar_period.specs.Period.{dates_from};

use crate::Period;
use calendar_dates::CalendarDay;
use std::marker::Model;

// The day that comes next, where `left` days are left.
#[derive(Drop)]
pub struct Days {
    day: CalendarDay,
    left: u32,
}

impl Model for Days {
    ghost use Rattle.std.specs.Prelude.{List};
    ghost use Rattle.calendar_dates.specs.declared.Date.{Date};
    ghost use Rattle.calendar_dates.specs.Dates.{AllDates};
    ghost use Rattle.calendar_period.specs.Period.{dates_from};

    ghost Value = { List Date };

    ghost view = { λ days. dates_from days.left days.day };

    ghost invariant = { λ days. AllDates days.left days.day };
}

impl Days {
    pub(crate) fn new(period: Period) -> Days
        ensures { result ≡ dates_from period.days period.first }
    {
        Days {
            day: period.first(),
            left: period.days(),
        }
    }
}

impl Iterator for Days {
    type Item = CalendarDay;

    ghost next_gives = { YieldsFirst (λ dates. dates) };

    ghost remaining = { item_count (λ dates. dates) };

    // A day after is worked out only where one is left: after the span's last day there is none.
    fn next(&mut self) -> Option<CalendarDay> {
        if self.left == 0 {
            return None;
        }
        let day = self.day;
        self.left -= 1;
        if 0 < self.left {
            self.day = day.following();
        }
        Some(day)
    }
}
