// Expanding at work on document 01's example: a shop (G0), 1,000 kWh a year, 25 and 26 March 2000. Each day by itself with the carry
// handed on, then both in one call: for each call a line with its dates, then count, Wh and carry, or the refusal. The last call's
// output is too short.
use calendar_dates::Date;
use call_request::Request;
use std::io;

pub fn show(rt: &HostRuntime, file: &[u8]) -> io::Result<()> {
    let mut figures = [0u32; 188];
    let carry = expand(rt, file, 20000325, 20000325, 0, &mut figures)?;
    expand(rt, file, 20000326, 20000326, carry, &mut figures)?;
    expand(rt, file, 20000325, 20000326, 0, &mut figures)?;
    expand(rt, file, 20000325, 20000327, 0, &mut figures)?;
    Ok(())
}

// Expands a period, writes its line, and answers the carry to begin the next call with: the last one, or the same after a refusal.
fn expand(
    rt: &HostRuntime,
    file: &[u8],
    first: u32,
    last: u32,
    carry: u32,
    figures: &mut [u32],
) -> io::Result<u32> {
    let request = Request {
        file,
        group: 1,
        first,
        last,
        holidays: &[],
        yearly: 1_000,
        carry,
    };
    let answer = call_expand::expand(request, figures);
    let from = Date::from(first);
    let to = Date::from(last);
    match answer {
        Ok(totals) => {
            let count = totals.count;
            let watt_hours = totals.total;
            let left = totals.carry;
            println!(rt; "{from} {to} {count} {watt_hours} {left}")?;
            Ok(left)
        }
        Err(refusal) => {
            println!(rt; "{from} {to} refused {refusal}")?;
            Ok(carry)
        }
    }
}
