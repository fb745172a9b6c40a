// The day enquiry at work: for each date below a line with the date, its weekday, t, season with day type, and value count, or the
// refusal.
use calendar_dates::Date;
use std::io;

// The federal holidays of 2000, of source document 000.
const HOLIDAYS: [u32; 11] = [
    20000101, 20000421, 20000423, 20000424, 20000501, 20000601, 20000611, 20000612, 20001003,
    20001225, 20001226,
];

// A list that has 24 and 31 December, as a works agreement may make them full holidays: they count as Sunday then.
const AGREED: [u32; 5] = [19991224, 19991225, 19991226, 19991231, 20001224];

// A list that is refused: its second entry is not later than the first.
const REPEATED: [u32; 3] = [20000101, 20000101, 20000421];

// The dates asked about with the federal holidays, which have no 24 or 31 December: those two count as Saturday unless they are
// Sundays. The last two dates are refused: 2000-02-30 is no date, and 2100-01-01 lies outside the span.
const DATES: [u32; 19] = [
    20000101, 20000229, 20000320, 20000321, 20000325, 20000326, 20000514, 20000515, 20000914,
    20000915, 20001029, 20001031, 20001101, 20001224, 20001231, 19991224, 19991231, 20000230,
    21000101,
];

// The dates asked about with the works agreement's list.
const AGREED_DATES: [u32; 5] = [19991223, 19991224, 19991225, 19991231, 20001224];

pub fn show(rt: &HostRuntime) -> io::Result<()> {
    for date in DATES {
        show_day(rt, date, &HOLIDAYS)?;
    }
    for date in AGREED_DATES {
        show_day(rt, date, &AGREED)?;
    }
    show_day(rt, 20000101, &REPEATED)
}

// One line.
fn show_day(rt: &HostRuntime, number: u32, holidays: &[u32]) -> io::Result<()> {
    let date = Date::from(number);
    match call_day::enquire(number, holidays) {
        Ok(day) => println!(rt; "{date} {day}"),
        Err(refusal) => println!(rt; "{date} refused {refusal}"),
    }
}
