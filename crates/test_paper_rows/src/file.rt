// The profile file, with H0 and G0.
ghost use Rattle.std.specs.Prelude.{◌≤◌};

use crate::rows::{COLUMNS, ROWS, Table};
use crate::{households, trade};
use std::io;

pub const LENGTH: usize = 3464;

pub fn make(rt: &HostRuntime, file: &mut [u8; LENGTH]) -> io::Result<()> {
    let mut values = [0u16; 1728];
    fill(rt, &mut values, 0, &households::VALUES)?;
    fill(rt, &mut values, 864, &trade::VALUES)?;
    // Kept: a refusal is printed, since it is no error of input and output, which `?` could pass on.
    if let Err(refusal) = file_write::write(&[0, 1], &values, file) {
        println!(rt; "refused {refusal}")?;
    }
    Ok(())
}

// The values of all rows into the group that starts at `start`. Those of the other quarter hours stay 0.
// Kept: places in the values, here and below, since a line names the one at fault.
fn fill(rt: &HostRuntime, values: &mut [u16; 1728], start: usize, table: &Table) -> io::Result<()>
    requires { start ≤ 864 }
{
    for (row, cells) in ROWS.iter().zip(table) {
        for (column, cell) in COLUMNS.iter().zip(cells) {
            put(rt, values, start + row.start + column.position, *cell)?;
        }
    }
    Ok(())
}

// The value of a row and column. Rows of one day table have to agree: where they do not, a line has the place.
fn put(rt: &HostRuntime, values: &mut [u16; 1728], at: usize, value: u16) -> io::Result<()>
    requires { at ≤ 1727 }
{
    let before = values[at];
    if before != 0 && before != value {
        println!(rt; "value {at} is not as in the rows above")?;
    }
    values[at] = value;
    Ok(())
}
