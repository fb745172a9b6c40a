// Questions 1 to 5: is this a profile file? Question 4 is here; everything is asked in the order of document 01.
#![tactic(auto)]

ghost use Rattle.std.specs.Prelude.{◌≡◌, ◌&&◌, List, ℕ, ◌<◌, leb, None, Err, MatchResult};
ghost use Rattle.std.specs.Iterator.{AlwaysYields, UpTo};
ghost use Rattle.refusal.specs.declared.Refusal.TheVariants.{BadCode};
ghost use Rattle.refusal.specs.Questions.{ask, Pass, reported};
ghost use Rattle.file_layout.specs.Header.{header_length, layout_of};
ghost use Rattle.file_check.specs.Inside.{is_above, codes_asked};
ghost use Rattle.file_check.specs.Check.{codes_question, file_check};

use file_layout::{HEADER_LENGTH, ProfileFile};
use refusal::Refusal;

// The highest group code.
const HIGHEST_CODE: u8 = 10;

// Question 4, of a code that stands at `at` in a file, or is to stand there, with the code before it where there is one.
// Kept: the place beside the code, since a refusal names it.
pub fn code_question(before: Option<u8>, code: u8, at: usize) -> Result<(), Refusal>
    ensures { result ≡ ask (leb code 10 && is_above before code) (BadCode at) }
{
    if HIGHEST_CODE < code || before.is_some_and(|before| code <= before) {
        return Err(Refusal::BadCode(at));
    }
    Ok(())
}

// Question 4, of codes that stand `apart` bytes from one another in a file, or are to stand there, the first one behind the header: in the
// definitions `codes_asked` of them, which `codes_question` comes to of a file's own.
pub fn codes_question<I: Iterator<Item = u8> + Drop>(codes: I, apart: usize) -> Result<(), Refusal>
    requires can { I.can_next codes }
    requires few { UpTo (I.remaining codes) 255 }
    requires near { apart < 65_536 }
    ensures { (all : List ℕ) → AlwaysYields I.next_gives (λ code. code) codes all → result ≡ codes_asked apart None header_length all }
{
    let mut before = None;
    for (k, code) in codes.enumerate() {
        code_question(before, code, HEADER_LENGTH + k * apart)?;
        before = Some(code);
    }
    Ok(())
}

// Question 4, of a file.
fn file_codes_question(file: ProfileFile) -> Result<(), Refusal>
    ensures { result ≡ codes_question (layout_of file.entry.bytes.now) file.entry.bytes.now }
{
    let layout = file.layout();
    let codes = (0..layout.count).map(|k| file.bytes[HEADER_LENGTH + k * layout.profile_length()]);
    codes_question(codes, layout.profile_length())
}

// Questions 1 to 5. `result_value` says the same by number and place, as C reports it.
#[tactic(auto, unfolding(crate::specs::Check::file_check))]
pub fn check_file(bytes: &[u8]) -> Result<ProfileFile<'_>, Refusal>
    ensures value { MatchResult result
        (λ file. (file_check bytes.now ≡ Pass) × (file.bytes ≡ bytes.entry))
        (λ refusal. file_check bytes.now ≡ Err refusal) }
    ensures result_value { MatchResult result
        (λ file. reported (file_check bytes.now) ≡ reported Pass)
        (λ refusal. reported (file_check bytes.now) ≡ reported (Err refusal)) }
{
    let file = ProfileFile::new(bytes)?;
    file_codes_question(file)?;
    file_values::values_question(file.layout(), bytes)?;
    Ok(file)
}
