// Writing a profile file (document 01, "The profile file"): codes and values into a lent buffer.
#![tactic(auto)]

ghost use Rattle.std.specs.Prelude.{◌≡◌, [], ◌∷◌, ◌++◌, ◌+◌, ◌*◌, ◌≤◌, length};
ghost use Rattle.std.proofs.lemmas.List.Edits.{sets};
ghost use Rattle.big_endian.specs.BigEndian.{bytes_of};
ghost use Rattle.refusal.specs.Questions.{reported};
ghost use Rattle.file_layout.specs.Header.{mark};
ghost use Rattle.file_written.specs.Written.{profiles_of};
ghost use Rattle.file_write_check.specs.WriteCheck.{write_check};
ghost use Rattle.file_write.specs.Buffer.{buffer_after};

use file_layout::{HEADER_LENGTH, MARK, PROFILE_LENGTH, PROFILE_VALUES, VERSION};
use file_write_check::Profiles;
use refusal::Refusal;

// Mark, version and count.
fn put_header(profiles: Profiles, buffer: &mut [u8])
    requires { 6 ≤ length buffer.old }
    ensures { buffer.new ≡ sets buffer.old 0 (mark ++ (bytes_of (1 ∷ []) ++ (length profiles.entry.codes.now ∷ []))) }
{
    buffer[..3].copy_from_slice(&MARK);
    big_endian::put_word(VERSION, buffer, 3);
    buffer[5] = profiles.codes.len() as u8;
}

// A profile's values, into a part that has just their bytes.
fn put_values(values: &[u16], part: &mut [u8])
    requires { length part.old ≡ length values.now * 2 }
    ensures { part.new ≡ bytes_of values.now }
{
    // Kept: a place for each value by its number, since of what is written through chunks_exact_mut a proof knows the length alone.
    for (i, value) in values.iter().enumerate() {
        big_endian::put_word(*value, part, i * 2);
    }
}

// The profiles, after the header.
// Kept: a place in the buffer for each profile by its number, for the reason in `put_values`.
fn put_profiles(profiles: Profiles, buffer: &mut [u8])
    requires { 6 + length profiles.codes.now * 1729 ≤ length buffer.old }
    ensures { buffer.new ≡ sets buffer.old 6 (profiles_of 864 profiles.entry.codes.now profiles.entry.values.now) }
{
    let parts = profiles.values.chunks_exact(PROFILE_VALUES);
    for (i, (code, part)) in profiles.codes.iter().zip(parts).enumerate() {
        let at = HEADER_LENGTH + i * PROFILE_LENGTH;
        buffer[at] = *code;
        put_values(part, &mut buffer[at + 1..at + PROFILE_LENGTH]);
    }
}

// Fills the first bytes of `buffer` with the file and keeps those beyond; a refusal changes nothing.
// Kept: codes and values apart, as they come one by one over the C interface.
pub fn write(codes: &[u8], values: &[u16], buffer: &mut [u8]) -> Result<(), Refusal>
    ensures value { result ≡ write_check codes.now values.now (length buffer.old) }
    ensures result_value { reported result ≡ reported (write_check codes.now values.now (length buffer.old)) }
    ensures buffer_after { buffer.new ≡ buffer_after codes.now values.now buffer.old }
{
    let profiles = file_write_check::check_profiles(codes, values, buffer.len())?;
    put_header(profiles, buffer);
    put_profiles(profiles, buffer);
    Ok(())
}
