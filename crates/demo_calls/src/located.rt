// Locating at work: the value bytes of a group as a part of the file itself. For each group a line with its code, how many bytes were
// located, and the first two of them: 1001 is 3 × 256 + 233.
use std::io;

// Group 2 is not in the file, and has the part of length zero.
pub fn show(rt: &HostRuntime, file: &[u8]) -> io::Result<()> {
    for group in [1, 2] {
        show_group(rt, file, group)?;
    }
    Ok(())
}

// Kept: file and group apart, as `file_locate::locate` takes them.
fn show_group(rt: &HostRuntime, file: &[u8], group: u8) -> io::Result<()> {
    let part = file_locate::locate(file, group);
    let length = part.len();
    match part {
        [first, second, ..] => println!(rt; "{group} {length} {first} {second}"),
        _ => println!(rt; "{group} {length}"),
    }
}
