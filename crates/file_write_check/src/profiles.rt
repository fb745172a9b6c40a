// What is to be written, once question 3 passed: codes, and values for each of them.
ghost use Rattle.file_write_check.specs.Inside.{Amounts};

use file_layout::{HEADER_LENGTH, MOST_PROFILES, PROFILE_LENGTH, PROFILE_VALUES};
use refusal::Refusal;

#[derive(Clone, Copy)]
pub struct Profiles<'a> {
    pub codes: &'a [u8],
    pub values: &'a [u16],
    pub ghost amounts: { Amounts codes.now values.now },
}

impl<'a> Profiles<'a> {
    ghost use Rattle.std.specs.Prelude.{◌≡◌, Err, MatchResult, length};
    ghost use Rattle.refusal.specs.Questions.{Pass};
    ghost use Rattle.file_written.specs.Written.{written};
    ghost use Rattle.file_write_check.specs.WriteCheck.{amount_question};

    // Question 3.
    // Kept: codes and values apart, as they come one by one over the C interface; together they are a Profiles once this has passed.
    #[tactic(auto, using(crate::proofs::Passed::amounts), unfolding(crate::specs::WriteCheck::amount_question))]
    pub fn new(codes: &'a [u8], values: &'a [u16]) -> Result<Profiles<'a>, Refusal>
        ensures { MatchResult result
            (λ profiles. (amount_question codes.now values.now ≡ Pass) × (profiles.codes ≡ codes.entry) × (profiles.values ≡ values.entry))
            (λ refusal. amount_question codes.now values.now ≡ Err refusal) }
    {
        if codes.is_empty()
            || MOST_PROFILES < codes.len()
            || values.len() != codes.len() * PROFILE_VALUES
        {
            return Err(Refusal::WrongLength);
        }
        Ok(Profiles { codes, values })
    }

    // The bytes of the file to be written.
    pub fn file_length(self) -> usize
        ensures { result ≡ length (written self.entry.codes.now self.entry.values.now) }
    {
        HEADER_LENGTH + self.codes.len() * PROFILE_LENGTH
    }
}
