// The rows that source document 000 prints for January and June 2000: each table's powers against the figures that `call_expand`
// makes of a file with the paper's values, and the households' factors against `dynamisation`. So date, holidays, season,
// day type, place in the file, factor, power and scaling are all tested. Each cell that differs is written as a line,
// then how many of the table agree. The file stdout has the lines to expect: of Abb. 6 two powers for which the paper took the
// factor before its rounding, and the regional row of day 174, where the paper printed the row of day 172 again.
#![tactic(auto)]

mod file;
mod households;
mod rows;
mod trade;

ghost use Rattle.std.specs.Prelude.{◌≤◌, IfOk};

use call_request::Request;
use rows::{COLUMNS, ROWS, Row, Table};
use std::{fmt, io};

// Whose figures a table's powers are compared with, and how many units of a figure make a tenth of a watt. For 40,000 kWh a
// year a figure is Q * 40,000 / 40,000, so it is Q, and its unit is a tenth of a watt.
#[derive(Clone, Copy)]
pub struct Scale {
    pub group: u8,
    pub yearly: u32,
    pub unit: u64,
    ghost some: { 1 ≤ unit },
    ghost few: { unit ≤ 1000 },
}

fn main(rt: HostRuntime) -> io::Result<()> {
    let mut file = [0u8; file::LENGTH];
    file::make(&rt, &mut file)?;
    trade::compare_values(&rt, &file)?;
    households::compare_factors(&rt)?;
    households::compare_powers(&rt, &file)?;
    trade::compare_scaled(&rt, &file)
}

// How many of a table's powers agree. The values P are those that the file has for the same rows.
pub fn compare(
    rt: &HostRuntime,
    file: &[u8; file::LENGTH],
    scale: Scale,
    values: &Table,
    printed: &Table,
) -> io::Result<u32> {
    let mut agree: u32 = 0;
    for (row, (values, printed)) in ROWS.iter().zip(values.iter().zip(printed)) {
        let mut figures = [0u32; 96];
        expand_row(rt, file, scale, row, &mut figures)?;
        agree += compare_row(rt, row.t, scale, values, &figures, printed)?;
    }
    Ok(agree)
}

fn compare_row(
    rt: &HostRuntime,
    t: u32,
    scale: Scale,
    values: &[u16; 8],
    figures: &[u32; 96],
    printed: &[u16; 8],
) -> io::Result<u32>
    ensures { IfOk result (λ n. n ≤ 8) }
{
    let mut agree: u32 = 0;
    for (column, (value, printed)) in COLUMNS.iter().zip(values.iter().zip(printed)) {
        let ours = scale.power(figures[column.position]);
        let cell = Cell {
            t,
            quarters: column.position + 1,
            value: *value,
        };
        agree += u32::from(agrees(rt, &cell, ours, u64::from(*printed))?);
    }
    Ok(agree)
}

// Whether a number agrees with the printed one. Where it does not, a line has what the number is of and both; none where none is printed.
// Kept: 0 and no Option where none is printed: a table would have `Some` around each of its other cells.
pub fn agrees<T: fmt::Display>(
    rt: &HostRuntime,
    subject: &T,
    ours: u64,
    printed: u64,
) -> io::Result<bool> {
    if printed == 0 {
        return Ok(false);
    }
    if ours != printed {
        println!(rt; "{subject} {ours} {printed}")?;
    }
    Ok(ours == printed)
}

// A quarter hour of a table: its day, how many quarter hours of the day are over with it, and its value P.
#[derive(Clone, Copy)]
struct Cell {
    t: u32,
    quarters: usize,
    value: u16,
}

// The day, the time and P.
impl fmt::Display for Cell {
    fn fmt<W: fmt::Write>(&self, f: &mut fmt::Formatter<W>) -> fmt::Result {
        let hours = self.quarters / 4;
        let minutes = self.quarters % 4 * 15;
        write!(f, "{} {hours:02}:{minutes:02} {}", self.t, self.value)
    }
}

impl Scale {
    // The power of a figure in tenths of a watt, rounded half up.
    fn power(self, figure: u32) -> u64 {
        (u64::from(figure) + self.unit / 2) / self.unit
    }
}

// The figures of a row's day. A refusal is written, and the figures stay 0, so that the row's cells differ.
fn expand_row(
    rt: &HostRuntime,
    file: &[u8],
    scale: Scale,
    row: &Row,
    figures: &mut [u32],
) -> io::Result<()> {
    let holidays: &[u32] = if row.regional {
        &rows::REGIONAL_HOLIDAYS
    } else {
        &rows::HOLIDAYS
    };
    let request = Request {
        file,
        group: scale.group,
        first: row.date,
        last: row.date,
        holidays,
        yearly: scale.yearly,
        carry: 0,
    };
    // Kept: a refusal is printed, since it is no error of input and output, which `?` could pass on.
    if let Err(refusal) = call_expand::expand(request, figures) {
        println!(rt; "refused {refusal}")?;
    }
    Ok(())
}
