// Fields of a fixed width (document 02, (e)), put on a lent page.
#![tactic(auto)]

ghost use Rattle.std.specs.Prelude.{◌≡◌, ◌+◌, ◌^◌, ◌≤◌, ◌<◌};
ghost use Rattle.text.specs.Inside.{Put, Room};
ghost use Rattle.text_columns.specs.Columns.{spaces, right_aligned};

use text::Page;

// Puts spaces, as many as `n` says.
pub fn put_spaces(n: usize, page: &mut Page)
    requires { Room n page.old }
    ensures { Put (spaces n) page.old page.new }
{
    let end = page.at + n;
    page.bytes[page.at..end].fill(text::SPACE);
    page.at = end;
}

// Puts a number right-aligned in a field that is wide enough for it.
pub fn put_right_aligned(n: u64, width: usize, page: &mut Page)
    requires le_width { 1 ≤ width }
    requires n_bound { n < 10 ^ width }
    requires width_in_bounds { Room width page.old }
    ensures put { Put (right_aligned width n) page.old page.new }
    ensures behind { page.new.at ≡ page.old.at + width }
{
    let places = text::digit_count(n);
    put_spaces(width - places, page);
    page.put_last_digits(n, places);
}
