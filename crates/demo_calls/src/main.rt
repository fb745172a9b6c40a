// Calling the library from a Rattle program: the day enquiry, locating a group, then expanding. The file stdout has the lines to
// expect.
#![tactic(auto)]

mod days;
mod located;
mod two_days;

use std::io;

fn main(rt: HostRuntime) -> io::Result<()> {
    days::show(&rt)?;
    // a shop's file: G0, whose every value is 1001
    let mut file = [0u8; 1735];
    // Kept: a refusal is printed, since it is no error of input and output, which `?` could pass on.
    if let Err(refusal) = file_write::write(&[1], &[1001; 864], &mut file) {
        return println!(rt; "refused {refusal}");
    }
    located::show(&rt, &file)?;
    two_days::show(&rt, &file)
}
