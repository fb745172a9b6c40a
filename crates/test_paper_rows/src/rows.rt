// The rows and columns that the tables share.
ghost use Rattle.std.specs.Prelude.{◌≤◌, ◌<◌};

// The holidays of all regions, and with them those of the regional rows.
pub const HOLIDAYS: [u32; 2] = [20000101, 20000612];

pub const REGIONAL_HOLIDAYS: [u32; 4] = [20000101, 20000106, 20000612, 20000622];

// A table of the paper: 20 rows of 8 columns.
// Kept: each table by itself beside the rows, as the paper prints it, so that it can be read against the page.
pub type Table = [[u16; 8]; 20];

// A row: its date, with the date's day of the year, and where its day table starts in its group. Days 6 and 174 have a second row,
// for the regions where they are holidays.
#[derive(Clone, Copy)]
pub struct Row {
    pub date: u32,
    pub t: u32,
    // Kept: a place and no DayKind, since the places in the file are among what is tested
    pub start: usize,
    // Kept: a flag and no list of holidays, which is the same in eighteen of twenty rows
    pub regional: bool,
    ghost in_year: { (1 ≤ t) × (t ≤ 366) },
    ghost inside: { start ≤ 480 },
}

const WINTER_WEEKDAY: usize = 0;

const WINTER_SUNDAY: usize = 192;

const SUMMER_WEEKDAY: usize = 288;

const SUMMER_SATURDAY: usize = 384;

const SUMMER_SUNDAY: usize = 480;

// Days 1 to 7 and 164 to 174 of 2000.
pub const ROWS: [Row; 20] = [
    Row {
        date: 20000101,
        t: 1,
        start: WINTER_SUNDAY,
        regional: false,
    },
    Row {
        date: 20000102,
        t: 2,
        start: WINTER_SUNDAY,
        regional: false,
    },
    Row {
        date: 20000103,
        t: 3,
        start: WINTER_WEEKDAY,
        regional: false,
    },
    Row {
        date: 20000104,
        t: 4,
        start: WINTER_WEEKDAY,
        regional: false,
    },
    Row {
        date: 20000105,
        t: 5,
        start: WINTER_WEEKDAY,
        regional: false,
    },
    Row {
        date: 20000106,
        t: 6,
        start: WINTER_WEEKDAY,
        regional: false,
    },
    Row {
        date: 20000106,
        t: 6,
        start: WINTER_SUNDAY,
        regional: true,
    },
    Row {
        date: 20000107,
        t: 7,
        start: WINTER_WEEKDAY,
        regional: false,
    },
    Row {
        date: 20000612,
        t: 164,
        start: SUMMER_SUNDAY,
        regional: false,
    },
    Row {
        date: 20000613,
        t: 165,
        start: SUMMER_WEEKDAY,
        regional: false,
    },
    Row {
        date: 20000614,
        t: 166,
        start: SUMMER_WEEKDAY,
        regional: false,
    },
    Row {
        date: 20000615,
        t: 167,
        start: SUMMER_WEEKDAY,
        regional: false,
    },
    Row {
        date: 20000616,
        t: 168,
        start: SUMMER_WEEKDAY,
        regional: false,
    },
    Row {
        date: 20000617,
        t: 169,
        start: SUMMER_SATURDAY,
        regional: false,
    },
    Row {
        date: 20000618,
        t: 170,
        start: SUMMER_SUNDAY,
        regional: false,
    },
    Row {
        date: 20000619,
        t: 171,
        start: SUMMER_WEEKDAY,
        regional: false,
    },
    Row {
        date: 20000620,
        t: 172,
        start: SUMMER_WEEKDAY,
        regional: false,
    },
    Row {
        date: 20000621,
        t: 173,
        start: SUMMER_WEEKDAY,
        regional: false,
    },
    Row {
        date: 20000622,
        t: 174,
        start: SUMMER_WEEKDAY,
        regional: false,
    },
    Row {
        date: 20000622,
        t: 174,
        start: SUMMER_SUNDAY,
        regional: true,
    },
];

// A column: the position of its quarter hour in the day. The columns are 0:15 to 1:00 and 8:15 to 9:00.
#[derive(Clone, Copy)]
pub struct Column {
    pub position: usize,
    ghost early: { position < 36 },
}

pub const COLUMNS: [Column; 8] = [
    Column { position: 0 },
    Column { position: 1 },
    Column { position: 2 },
    Column { position: 3 },
    Column { position: 32 },
    Column { position: 33 },
    Column { position: 34 },
    Column { position: 35 },
];
