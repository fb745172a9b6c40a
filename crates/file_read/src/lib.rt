// Reading a group into a lent table: questions 1 to 6 and 12.
#![tactic(auto)]

ghost use Rattle.std.specs.Prelude.{◌≡◌, ◌+◌, ◌*◌, ◌≤◌, length};
ghost use Rattle.big_endian.specs.Inside.{words_of};
ghost use Rattle.refusal.specs.Questions.{reported};
ghost use Rattle.file_layout.specs.Header.{layout_of, profile_length};
ghost use Rattle.file_layout.specs.Inside.{value_bytes};
ghost use Rattle.file_read.specs.Reading.{read_check, table_after};

use file_layout::PROFILE_VALUES;
use refusal::Refusal;

// Fills a table with the values of a part that has as many.
fn fill(part: &[u8], table: &mut [u16])
    requires { length part.now ≡ length table.old * 2 }
    ensures { table.new ≡ words_of part.now }
{
    // Kept: each value by its number, since of what is written through a zip with iter_mut a proof knows the length alone.
    for (i, entry) in table.iter_mut().enumerate() {
        *entry = big_endian::word_at(part, i * 2);
    }
}

// The values of the profile whose code stands at `at`, by value.
// Kept: the place beside the file, for the reason at `file_group::find`.
#[tactic(auto, using(file_layout::proofs::Header::value_bytes_long), unfolding(file_layout::specs::Header::layout_of))]
pub fn table_at(file: &[u8], at: usize) -> [u16; 864]
    requires { at + profile_length (layout_of file.now) ≤ length file.now }
    ensures { result ≡ words_of (value_bytes file.now at) }
{
    let mut values = [0; PROFILE_VALUES];
    fill(file_layout::value_bytes(file, at), &mut values);
    values
}

// Fills the first entries of `table` with the group's values and keeps those beyond; a refusal changes nothing.
// Kept: file and group apart, as they come one by one over the C interface.
pub fn read(file: &[u8], group: u8, table: &mut [u16]) -> Result<(), Refusal>
    ensures value { result ≡ read_check file.now group (length table.old) }
    ensures result_value { reported result ≡ reported (read_check file.now group (length table.old)) }
    ensures table_after { table.new ≡ table_after file.now group table.old }
{
    let at = file_group::find_checked(file, group)?;
    let part = file_layout::value_bytes(file, at);
    let count = part.len() / 2;
    refusal::room_question(count, table.len())?;
    fill(part, &mut table[..count]);
    Ok(())
}
