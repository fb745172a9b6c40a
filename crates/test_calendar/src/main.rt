// A second calendar against `call_day`, over every day from 1996-01-01 to 2099-12-31: with no list of holidays, with a list that has
// the day alone, and with one that has 24, 25, 26 and 31 December of its year. Each day whose figures differ is written as a line,
// then how many agree. The file stdout has the lines to expect.
#![tactic(auto)]

mod second;

ghost use Rattle.std.specs.Prelude.{◌≤◌};

use call_day::DayReport;
use second::{Day, Figures, Listed};
use std::io;

fn main(rt: HostRuntime) -> io::Result<()> {
    compare_span(&rt, Listed::Nothing)?;
    println!(rt; " days agree with no list")?;
    compare_span(&rt, Listed::Day)?;
    println!(rt; " days agree with the day listed")?;
    compare_span(&rt, Listed::YearEnd)?;
    println!(rt; " days agree with 24, 25, 26 and 31 December listed")
}

// Writes how many days agree, of how many, and leaves the rest of the line to its caller. The weekday is counted on from 1 January
// 1996, a Monday.
fn compare_span(rt: &HostRuntime, listed: Listed) -> io::Result<()> {
    let mut weekday = 1;
    let mut days: u32 = 0;
    let mut agree: u32 = 0;
    for year in 1996..2100 {
        for t in 1..=365 + second::leap_days(year) {
            if agrees(rt, Day { year, t, weekday }, listed)? {
                agree += 1;
            }
            days += 1;
            weekday = weekday % 7 + 1;
        }
    }
    print!(rt; "{agree} of {days}")
}

// Whether the day's figures agree; where they do not, a line has the date, the enquiry's figures and the second calendar's.
fn agrees(rt: &HostRuntime, day: Day, listed: Listed) -> io::Result<bool> {
    let date = day.date();
    let answered = enquired(date, day.year, listed);
    let expected = day.figures(listed);
    if answered != expected {
        println!(rt; "{date}{answered}, not{expected}")?;
    }
    Ok(answered == expected)
}

// What `call_day` answers with the list.
// Kept: the list is made here, and the second calendar says by itself whether it has a day, since the one is compared with the other.
fn enquired(date: u32, year: u32, listed: Listed) -> Figures
    requires { year ≤ 2099 }
{
    // the year as yyyy0000, so that month and day are added to it
    let start = year * 10_000;
    match listed {
        Listed::Nothing => with_list(date, &[]),
        Listed::Day => with_list(date, &[date]),
        Listed::YearEnd => with_list(
            date,
            &[start + 1224, start + 1225, start + 1226, start + 1231],
        ),
    }
}

fn with_list(date: u32, holidays: &[u32]) -> Figures {
    Figures::from(DayReport::from(call_day::enquire(date, holidays)))
}
