// What a check answers (document 01, "The questions, first "no" counts"), and document 01's number and place for it.
#![tactic(auto)]

ghost use Rattle.std.specs.Prelude.{◌≡◌, Some};
ghost use Rattle.refusal.specs.Questions.{refusal_number, refusal_place, refusal_display, reported, room_question};

use std::error::Error;
use std::fmt;

// The question that did not pass, with its place where document 01 or 02 names one.
#[derive(Clone, Copy, Debug, PartialEq, Eq)]
pub enum Refusal {
    NoMark,
    WrongVersion,
    WrongLength,
    BadCode(usize),
    BadValue(usize),
    NoGroup(usize),
    BadDate(usize),
    BadPeriod,
    BadHoliday(usize),
    BadUse,
    BadCarry,
    ShortOutput(usize),
    BadInput,
    BadYear,
    BadChoice,
    ShortList(usize),
    WrongReadings,
    BadFirstDate(usize),
    ShortPage(usize),
}

// A verdict in document 01's numbers.
// Kept: this and each call's report have number and place for themselves, as C's structs have them.
#[repr(C)]
#[derive(Clone, Copy, Default)]
pub struct CheckReport {
    pub number: u32,
    pub place: usize,
}

impl Refusal {
    // The number of the question that did not pass.
    // Kept: a `match`, here and below, has each number beside its question, as documents 01 and 02 count them; of an enum whose cases hold
    // places `as` gives none.
    pub fn number(self) -> u32
        ensures { result ≡ refusal_number self }
    {
        match self {
            Refusal::NoMark => 1,
            Refusal::WrongVersion => 2,
            Refusal::WrongLength => 3,
            Refusal::BadCode(_) => 4,
            Refusal::BadValue(_) => 5,
            Refusal::NoGroup(_) => 6,
            Refusal::BadDate(_) => 7,
            Refusal::BadPeriod => 8,
            Refusal::BadHoliday(_) => 9,
            Refusal::BadUse => 10,
            Refusal::BadCarry => 11,
            Refusal::ShortOutput(_) => 12,
            Refusal::BadInput => 13,
            Refusal::BadYear => 14,
            Refusal::BadChoice => 15,
            Refusal::ShortList(_) => 16,
            Refusal::WrongReadings => 17,
            Refusal::BadFirstDate(_) => 18,
            Refusal::ShortPage(_) => 19,
        }
    }

    // Its place, 0 where none is named.
    pub fn place(self) -> usize
        ensures { result ≡ refusal_place self }
    {
        match self {
            Refusal::BadCode(at) => at,
            Refusal::BadValue(at) => at,
            Refusal::NoGroup(which) => which,
            Refusal::BadDate(which) => which,
            Refusal::BadHoliday(index) => index,
            Refusal::BadFirstDate(index) => index,
            Refusal::ShortOutput(needed) => needed,
            Refusal::ShortList(needed) => needed,
            Refusal::ShortPage(needed) => needed,
            Refusal::NoMark
            | Refusal::WrongVersion
            | Refusal::WrongLength
            | Refusal::BadPeriod
            | Refusal::BadUse
            | Refusal::BadCarry
            | Refusal::BadInput
            | Refusal::BadYear
            | Refusal::BadChoice
            | Refusal::WrongReadings => 0,
        }
    }
}

// The number and the place, as the program's line of a refusal has them.
impl fmt::Display for Refusal {
    ghost output = { λ refusal. Some (refusal_display refusal) };

    fn fmt<W: fmt::Write>(&self, f: &mut fmt::Formatter<W>) -> fmt::Result {
        write!(f, "{} {}", self.number(), self.place())
    }
}

impl Error for Refusal {}

// The verdict in document 01's numbers: number and place, both 0 when all pass.
impl From<Result<(), Refusal>> for CheckReport {
    ghost from_gives = { λ v r. r ≡ reported v };

    fn from(verdict: Result<(), Refusal>) -> CheckReport {
        match verdict {
            Ok(()) => CheckReport::default(),
            Err(refusal) => CheckReport {
                number: refusal.number(),
                place: refusal.place(),
            },
        }
    }
}

// Question 12, of lent memory with `room` entries for the `needed` ones.
// Kept: questions 16 and 19 are asked by such an `if` of their own, in their calls; a common one would take the refusal's constructor.
pub fn room_question(needed: usize, room: usize) -> Result<(), Refusal>
    ensures { result ≡ room_question needed room }
{
    if room < needed {
        return Err(Refusal::ShortOutput(needed));
    }
    Ok(())
}
