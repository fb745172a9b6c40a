// Writing's questions 3, 4, 5 and 12. Nothing is written before all have passed, so 4 and 5 are asked of the lent codes and
// values, and shown to be the reader's questions of the file to be written.
#![tactic(auto)]

mod profiles;

ghost use Rattle.std.specs.Prelude.{◌≡◌, Err, MatchResult};
ghost use Rattle.refusal.specs.Questions.{Pass};
ghost use Rattle.file_layout.specs.Header.{layout_of};
ghost use Rattle.file_check.specs.Check.{codes_question};
ghost use Rattle.file_written.specs.Written.{written};
ghost use Rattle.file_write_check.specs.WriteCheck.{write_check};

use file_layout::PROFILE_LENGTH;
pub use profiles::Profiles;
use refusal::Refusal;

// Question 4, of the file to be written.
fn codes_question(profiles: Profiles) -> Result<(), Refusal>
    ensures { result ≡ codes_question (layout_of (written profiles.entry.codes.now profiles.entry.values.now)) (written profiles.entry.codes.now profiles.entry.values.now) }
{
    file_check::codes_question(profiles.codes.iter().copied(), PROFILE_LENGTH)
}

// All of writing's questions, and what is to be written where they passed.
#[tactic(auto, unfolding(crate::specs::WriteCheck::write_check))]
pub fn check_profiles<'a>(
    codes: &'a [u8],
    values: &'a [u16],
    room: usize,
) -> Result<Profiles<'a>, Refusal>
    ensures { MatchResult result
        (λ profiles. (write_check codes.now values.now room ≡ Pass) × (profiles.codes ≡ codes.entry) × (profiles.values ≡ values.entry))
        (λ refusal. write_check codes.now values.now room ≡ Err refusal) }
{
    let profiles = Profiles::new(codes, values)?;
    codes_question(profiles)?;
    file_write_values::values_question(profiles.values)?;
    refusal::room_question(profiles.file_length(), room)?;
    Ok(profiles)
}

// The same without what is to be written, for who asks writing's questions and writes nothing.
// Kept: codes and values apart, here and above, as they come one by one over the C interface.
pub fn write_check(codes: &[u8], values: &[u16], room: usize) -> Result<(), Refusal>
    ensures { result ≡ write_check codes.now values.now room }
{
    check_profiles(codes, values, room)?;
    Ok(())
}
