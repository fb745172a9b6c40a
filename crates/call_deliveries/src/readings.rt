// What a call is given but its output: the lent file, the wanted group, the whole span's first and last date, the first dates of the
// reading periods, their metered kWh, the holiday list and the yearly use A in kWh.
// Kept: no struct of what it has in common with `Request`: the calls would read its parts one step deeper, and C's arguments would be put into
// two structs.
#[derive(Clone, Copy)]
pub struct Readings<'a> {
    pub file: &'a [u8],
    pub group: u8,
    pub first: u32,
    pub last: u32,
    pub starts: &'a [u32],
    pub metered: &'a [u32],
    pub holidays: &'a [u32],
    pub yearly: u32,
}
