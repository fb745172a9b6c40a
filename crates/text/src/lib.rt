// Text (document 01, "The program"): numbers and dates put into a lent page, one behind the other.
#![tactic(auto)]

ghost use Rattle.std.specs.Prelude.{◌≡◌, [], ◌∷◌, ◌<◌, length};
ghost use Rattle.text.specs.Inside.{Put, Room, last_digits};
ghost use Rattle.text.specs.Text.{decimal_text, two_digits, date_text};

use calendar_dates::CalendarDay;

pub const SPACE: u8 = b' ';

pub const HYPHEN: u8 = b'-';

pub const LINE_FEED: u8 = b'\n';

// A lent page, and the place behind what was put into it so far.
#[derive(Drop)]
pub struct Page<'a> {
    pub bytes: &'a mut [u8],
    pub at: usize,
}

// Kept: numbers and dates are put by hand. With an `impl fmt::Write for Page`, `write!` is known to have put a text only where it
// answers Ok; that it does so where there is room stayed open.
impl<'a> Page<'a> {
    // Puts one byte.
    pub fn put_byte(&mut self, byte: u8)
        requires { Room 1 self.old }
        ensures { Put (byte ∷ []) self.old self.new }
    {
        self.bytes[self.at] = byte;
        self.at += 1;
    }

    // Puts a word.
    pub fn put_word(&mut self, word: &[u8])
        requires { Room (length word.now) self.old }
        ensures { Put word.now self.old self.new }
    {
        let end = self.at + word.len();
        self.bytes[self.at..end].copy_from_slice(word);
        self.at = end;
    }

    // Puts two digits of a number below 100.
    pub fn put_two_digits(&mut self, n: u32)
        requires n_bound { n < 100 }
        requires room { Room 2 self.old }
        ensures { Put (two_digits n) self.old self.new }
    {
        self.put_byte(b'0' + (n / 10) as u8);
        self.put_byte(b'0' + (n % 10) as u8);
    }

    // Puts the last digits of a number, as many as `places` says.
    pub fn put_last_digits(&mut self, n: u64, places: usize)
        requires { Room places self.old }
        ensures { Put (last_digits places n) self.old self.new }
    {
        let end = self.at + places;
        write_digits(n, &mut self.bytes[self.at..end]);
        self.at = end;
    }

    // Puts a number in decimal.
    pub fn put_decimal(&mut self, n: u64)
        requires { Room 20 self.old }
        ensures { Put (decimal_text n) self.old self.new }
    {
        self.put_last_digits(n, digit_count(n));
    }

    // Puts a date as yyyy-mm-dd.
    pub fn put_date(&mut self, day: CalendarDay)
        requires { Room 10 self.old }
        ensures { Put (date_text day) self.old self.new }
    {
        let date = day.date();
        self.put_two_digits(date.year / 100);
        self.put_two_digits(date.year % 100);
        self.put_byte(HYPHEN);
        self.put_two_digits(date.month);
        self.put_byte(HYPHEN);
        self.put_two_digits(date.day);
    }
}

// How many digits a number has in decimal.
#[tactic(auto, using(crate::proofs::Text::places_more), unfolding(crate::specs::Text::digits))]
pub fn digit_count(n: u64) -> usize
    ensures { result ≡ length (decimal_text n) }
{
    match n {
        0 => 1,
        _ => n.ilog10() as usize + 1,
    }
}

// Writes the last digits of a number, as many as there are places.
// Kept: each place by its number, since after `iter_mut().rev()` a proof knows nothing of what was written.
fn write_digits(n: u64, places: &mut [u8])
    ensures { places.new ≡ last_digits (length places.old) n }
{
    let mut rest = n;
    for place in (0..places.len()).rev() {
        places[place] = b'0' + (rest % 10) as u8;
        rest /= 10;
    }
}
