// The header of a profile file: mark, version and count, how the profiles lie, and questions 1 to 3.
#![tactic(auto)]

ghost use Rattle.std.specs.Prelude.{◌≡◌, ◌+◌, ◌≤◌, ◌<◌, length};
ghost use Rattle.file_layout.specs.Header.{header_length, layout_of, profile_length, mark_question, version_question, length_question, header_check};
ghost use Rattle.file_layout.specs.Inside.{Sound, ValueBytesOf};

use refusal::Refusal;

mod file;

pub use file::ProfileFile;

// The mark that the reader compares and the writer writes.
pub const MARK: [u8; 3] = *b"SLP";

// The version that is read and written.
pub const VERSION: u16 = 1;

// The bytes of mark, version and count.
pub const HEADER_LENGTH: usize = 6;

// The most profiles that a file has.
pub const MOST_PROFILES: usize = 11;

// The values of a profile of version 1, and its bytes: a code and the values.
pub const PROFILE_VALUES: usize = 864;

pub const PROFILE_LENGTH: usize = 1 + PROFILE_VALUES * 2;

// How the profiles of a file lie: their count, and of each the bytes before its values and the number of its values.
#[derive(Clone, Copy, Debug, PartialEq, Eq)]
pub struct Layout {
    pub count: usize,
    pub before: usize,
    pub entries: usize,
}

impl Layout {
    // The bytes of one profile.
    pub fn profile_length(self) -> usize
        requires { Sound self }
        ensures { result ≡ profile_length self }
    {
        self.before + self.entries * 2
    }
}

// What the header says of the profiles.
#[tactic(auto, unfolding(crate::specs::Header::layout_of))]
pub fn layout_of(file: &[u8]) -> Layout
    requires { header_length ≤ length file.now }
    ensures { (result ≡ layout_of file.now) × (result.count < 256) }
{
    Layout {
        count: usize::from(file[5]),
        before: 1,
        entries: PROFILE_VALUES,
    }
}

// Question 1.
#[tactic(auto, unfolding(crate::specs::Header::mark_question))]
fn mark_question(file: &[u8]) -> Result<(), Refusal>
    ensures { result ≡ mark_question file.now }
{
    if file.len() < HEADER_LENGTH || !file.starts_with(&MARK) {
        return Err(Refusal::NoMark);
    }
    Ok(())
}

// Question 2.
#[tactic(auto, unfolding(crate::specs::Header::version_question))]
fn version_question(file: &[u8]) -> Result<(), Refusal>
    requires { header_length ≤ length file.now }
    ensures { result ≡ version_question file.now }
{
    if big_endian::word_at(file, 3) != VERSION {
        return Err(Refusal::WrongVersion);
    }
    Ok(())
}

// Question 3.
// Kept: the layout beside the file: a file and a layout that it fits are a ProfileFile once this has passed.
#[tactic(auto, unfolding(crate::specs::Header::length_question))]
fn length_question(layout: Layout, file: &[u8]) -> Result<(), Refusal>
    requires { Sound layout }
    ensures { result ≡ length_question layout file.now }
{
    if layout.count < 1
        || MOST_PROFILES < layout.count
        || file.len() != HEADER_LENGTH + layout.count * layout.profile_length()
    {
        return Err(Refusal::WrongLength);
    }
    Ok(())
}

// Questions 1 to 3.
#[tactic(auto, using(crate::proofs::Header::header_long, crate::proofs::Header::sound), unfolding(crate::specs::Header::header_check))]
pub fn header_questions(file: &[u8]) -> Result<(), Refusal>
    ensures { result ≡ header_check file.now }
{
    mark_question(file)?;
    version_question(file)?;
    length_question(layout_of(file), file)
}

// The value bytes of the profile whose code stands at `at`.
// Kept: the place beside the file, for the reason at `file_group::find`.
pub fn value_bytes(file: &[u8], at: usize) -> &[u8]
    requires { at + profile_length (layout_of file.now) ≤ length file.now }
    ensures { ValueBytesOf file.entry at result }
{
    let layout = layout_of(file);
    let start = at + layout.before;
    let end = start + layout.entries * 2;
    &file[start..end]
}
