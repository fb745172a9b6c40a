// The holidays that fall on another date each year (document 02, (a)): Easter, the dates that are counted from it, and the Day of
// Repentance.
#![tactic(auto)]

ghost use Rattle.std.specs.Prelude.{◌≡◌, ◌≤◌};
ghost use Rattle.calendar_dates.specs.Dates.{number_of};
ghost use Rattle.calendar_movable_days.specs.Counted.{on, march_day};
ghost use Rattle.calendar_movable_days.specs.Easter.{easter_day};
ghost use Rattle.calendar_movable_days.specs.Repentance.{repentance};
ghost use Rattle.calendar_movable_days.specs.Inside.{InSpan, UpToJune};

use std::marker::Model;

// A year of the span. In a contract it is its number.
#[derive(Clone, Copy)]
pub struct Year {
    number: u32,
}

impl Model for Year {
    ghost use Rattle.std.specs.Prelude.{ℕ};
    ghost use Rattle.calendar_movable_days.specs.Inside.{InSpan};

    ghost Value = { ℕ };

    ghost view = { λ year. year.number };

    ghost invariant = { λ year. InSpan year.number };

    ghost inverse = { λ number. record { number = number } };
}

impl Year {
    pub fn new(number: u32) -> Year
        requires { InSpan number }
        ensures { result ≡ number }
    {
        Year { number }
    }

    // The date, as a number, of a month's day.
    pub fn date(self, month: u32, day: u32) -> u32
        requires { (month ≤ 12) × (day ≤ 31) }
        ensures { result ≡ number_of (on self month day) }
    {
        self.number * 10_000 + month * 100 + day
    }

    // Easter as a day of March, by a formula for the years of the span, in which the two corrections do not change.
    pub fn easter_day(self) -> u32
        ensures same { result ≡ easter_day self }
        ensures span { InSpan self }
        ensures range { (23 ≤ result) × (result ≤ 56) }
    {
        let year = self.number;
        let cycle = year % 19;
        let behind = (19 * cycle + 24) % 30;
        let full_moon = 21 + behind - (behind + cycle / 11) / 29;
        full_moon + 7 - (year + year / 4 + full_moon + 1) % 7
    }

    // The date, as a number, of a day of March that is counted on to the end of June.
    #[tactic(auto, using(crate::proofs::MarchDays::march, crate::proofs::MarchDays::april, crate::proofs::MarchDays::may, crate::proofs::MarchDays::june))]
    pub fn march_date(self, day: u32) -> u32
        requires { UpToJune day }
        ensures { result ≡ number_of (march_day self day) }
    {
        match day {
            ..=31 => self.date(3, day),
            ..=61 => self.date(4, day - 31),
            ..=92 => self.date(5, day - 61),
            _ => self.date(6, day - 92),
        }
    }

    // The Day of Repentance, by a formula for the years of the span.
    pub fn repentance_date(self) -> u32
        ensures { result ≡ number_of (repentance self) }
    {
        let year = self.number;
        year * 10_000 + 1122 - (year + year / 4 + 6) % 7
    }
}
