// The public holidays of a year (document 02, (a)): the list, from the seventeen days in the calendar's order.
#![tactic(auto)]

ghost use Rattle.std.specs.Prelude.{◌≡◌, ◌≤◌, length};
ghost use Rattle.calendar_movable_days.specs.Inside.{InSpan};
ghost use Rattle.calendar_public_holidays.specs.YearHolidays.{in_order, year_holidays};
ghost use Rattle.calendar_year_list.specs.Inside.{regional, calendar_days, wanted, NotFalling};

use arrayvec::ArrayVec;
use calendar_movable_days::Year;

// The most days that a year's list can have.
pub const MOST_DAYS: usize = 17;

// A regional day is wanted where its bit, the last one of this number, is 1.
// Kept: the bits of a byte, since a choice of regional days is one byte of the C interface, with a bit for each of them.
fn regional(bits: u8, date: u32) -> Option<u32>
    ensures { result ≡ regional bits date }
{
    (bits % 2 == 1).then_some(date)
}

// The seventeen days in the calendar's order, each as its date or, where it is not wanted, as `None`.
#[tactic(auto, unfolding(crate::specs::Inside::calendar_days))]
fn calendar_days(year: Year, choice: u8) -> [Option<u32>; MOST_DAYS]
    ensures same { result ≡ calendar_days year choice }
    ensures span { InSpan year }
{
    let easter = year.easter_day();
    [
        // New Year, Epiphany
        Some(year.date(1, 1)),
        regional(choice, year.date(1, 6)),
        // Good Friday, Easter Sunday, Easter Monday
        Some(year.march_date(easter - 2)),
        Some(year.march_date(easter)),
        Some(year.march_date(easter + 1)),
        // 1 May, Ascension, Whit Sunday, Whit Monday, Corpus Christi
        Some(year.date(5, 1)),
        Some(year.march_date(easter + 39)),
        Some(year.march_date(easter + 49)),
        Some(year.march_date(easter + 50)),
        regional(choice / 2, year.march_date(easter + 60)),
        // Assumption, 3 October, Reformation Day, All Saints', the Day of Repentance
        regional(choice / 4, year.date(8, 15)),
        Some(year.date(10, 3)),
        regional(choice / 8, year.date(10, 31)),
        regional(choice / 16, year.date(11, 1)),
        regional(choice / 32, year.repentance_date()),
        // 25 and 26 December
        Some(year.date(12, 25)),
        Some(year.date(12, 26)),
    ]
}

// The dates of the days that are wanted, in order, each once. Asked of the caller: among the dates that are wanted none comes before an
// earlier one.
#[tactic(auto, using(crate::proofs::Gathering::not_wanted, crate::proofs::Gathering::one_wanted, crate::proofs::Gathering::none_left, crate::proofs::Gathering::last_put, crate::proofs::Gathering::appended_in_order))]
fn wanted_dates(days: &[Option<u32>]) -> ArrayVec<u32, MOST_DAYS>
    requires few { length days.now ≤ 17 }
    requires not_falling { NotFalling (wanted days.now) }
    ensures { result.items ≡ in_order (wanted days.now) }
{
    let mut dates = ArrayVec::new();
    let mut last = None;
    for day in days {
        if let Some(date) = day
            && last != Some(*date)
        {
            dates.push(*date);
            last = Some(*date);
        }
    }
    dates
}

// The holiday list of a year.
#[tactic(auto, using(crate::proofs::Calendar::calendar_order, crate::proofs::Chosen::wanted_list))]
pub fn year_holidays(year: Year, choice: u8) -> ArrayVec<u32, MOST_DAYS>
    ensures { result.items ≡ year_holidays year choice }
{
    wanted_dates(&calendar_days(year, choice))
}
