// The holidays that the days of a call come to, one day after the other.
ghost use Rattle.std.specs.Prelude.{◌≡◌, ℕ, ◌≤◌, length};
ghost use Rattle.refusal.specs.Questions.{Pass};
ghost use Rattle.calendar_holidays.specs.Holidays.{listed, holidays_question};

use std::marker::Model;

// The entries of a list in order that no day so far has passed, so that a day need not look from the list's start.
#[derive(Drop)]
pub struct HolidaysAhead<'a> {
    ahead: &'a [u32],
}

impl<'a> Model for HolidaysAhead<'a> {
    ghost use Rattle.std.specs.Prelude.{List, ℕ};
    ghost use Rattle.std.specs.List.Sorted.{IsStrictlyIncreasing};

    ghost Value = { List ℕ };

    ghost view = { λ holidays. holidays.ahead.now };

    ghost invariant = { λ holidays. IsStrictlyIncreasing holidays.ahead.now };
}

impl<'a> HolidaysAhead<'a> {
    #[tactic(auto, using(crate::proofs::Holidays::rises))]
    pub fn new(holidays: &'a [u32]) -> HolidaysAhead<'a>
        requires { holidays_question holidays.now ≡ Pass }
        ensures { result ≡ holidays.now }
    {
        HolidaysAhead { ahead: holidays }
    }

    // Whether a date is listed. What is listed of later dates stays; an earlier date is not to be asked for any more.
    pub fn lists(&mut self, date: u32) -> bool
        ensures now { result ≡ listed date self.old }
        ensures later { (later : ℕ) → date ≤ later → listed later self.new ≡ listed later self.old }
    {
        self.ahead = crate::entries_from(self.ahead, date);
        match self.ahead {
            [next, ..] => *next == date,
            [] => false,
        }
    }
}
