// What a call of expanding is given but its output: the lent file, the wanted group, first and last date, the holiday list, the yearly
// use A in kWh and the carry.
#[derive(Clone, Copy)]
pub struct Request<'a> {
    pub file: &'a [u8],
    pub group: u8,
    pub first: u32,
    pub last: u32,
    pub holidays: &'a [u32],
    pub yearly: u32,
    pub carry: u32,
}
