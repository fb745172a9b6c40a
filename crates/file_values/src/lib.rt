// Question 5: are all values of a profile file at most 20,000?
#![tactic(auto)]

ghost use Rattle.std.specs.Prelude.{◌≡◌, ◌+◌, ◌*◌, ◌/◌, ◌≤◌, leb, length};
ghost use Rattle.refusal.specs.declared.Refusal.TheVariants.{BadValue};
ghost use Rattle.refusal.specs.Questions.{ask};
ghost use Rattle.file_layout.specs.Header.{profile_length};
ghost use Rattle.file_layout.specs.Inside.{LaidOut};
ghost use Rattle.file_values.specs.Values.{profile_values_question, values_question};
ghost use Rattle.file_values.specs.Inside.{UpperBytes};

use file_layout::{HEADER_LENGTH, Layout};
use refusal::Refusal;

// The highest value that is accepted.
pub const HIGHEST_VALUE: u16 = 20_000;

// A value with this upper byte or a lower one is accepted, whatever its lower byte: 77 × 256 + 255 is below 20,000.
const SAFE_UPPER_BYTE: u16 = 77;

// Question 5, of a value that stands at `at` in a file, or is to stand there.
// Kept: the place beside the value, since a refusal names it.
pub fn value_question(value: u16, at: usize) -> Result<(), Refusal>
    ensures { result ≡ ask (leb value 20_000) (BadValue at) }
{
    if HIGHEST_VALUE < value {
        return Err(Refusal::BadValue(at));
    }
    Ok(())
}

// The upper bytes of some values, joined bit by bit: the answer's lower byte is at least each of them. Two bytes are read as one
// number, lower byte first, so that the compiler joins many at once.
fn upper_bytes(values: &[u8]) -> u16
    ensures { UpperBytes values.now (length values.now / 2) result }
{
    values.chunks_exact(2).fold(0, |joined, value| {
        joined | u16::from_le_bytes([value[0], value[1]])
    })
}

// Question 5, of the profile at `at`.
// Kept: the place beside the file, and no part of it, since a refusal names the place in the whole file; a function of its own beside that of
// `file_write_values`: bytes are lent here and values there, and each looks ahead in its own way.
fn profile_values_question(layout: Layout, file: &[u8], at: usize) -> Result<(), Refusal>
    requires { at + profile_length layout ≤ length file.now }
    ensures { result ≡ profile_values_question layout file.now at }
{
    let start = at + layout.before;
    let values = &file[start..start + layout.entries * 2];
    if upper_bytes(values) % 256 <= SAFE_UPPER_BYTE {
        return Ok(());
    }
    for k in 0..layout.entries {
        let place = start + k * 2;
        value_question(big_endian::word_at(file, place), place)?;
    }
    Ok(())
}

// Question 5.
// Kept: the layout beside the file, here and above: a ProfileFile has the header's layout alone. check_file asks under that one, but what is
// promised holds under any layout that the file's length fits, and a promise is not made less.
pub fn values_question(layout: Layout, file: &[u8]) -> Result<(), Refusal>
    requires { LaidOut layout file.now }
    ensures { result ≡ values_question layout file.now }
{
    for k in 0..layout.count {
        profile_values_question(layout, file, HEADER_LENGTH + k * layout.profile_length())?;
    }
    Ok(())
}
