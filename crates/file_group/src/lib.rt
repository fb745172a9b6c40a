// A wanted group of a profile file (document 01): question 6, and where the group's code stands.
#![tactic(auto)]

ghost use Rattle.std.specs.Prelude.{◌≡◌, ◌+◌, ◌≤◌, length, IfOk};
ghost use Rattle.refusal.specs.Questions.{answered, reported};
ghost use Rattle.file_layout.specs.Header.{layout_of, profile_length};
ghost use Rattle.file_group.specs.Group.{group_offset, group_question, check};

use file_layout::{HEADER_LENGTH, ProfileFile};
use refusal::Refusal;

// Question 6: where the group's code stands. A refusal names `place`.
// Kept: a place beside the file, here and in all that is found by this, with the bound that it keeps: a type of both would have to promise the
// lent pointer, since locating hands out the caller's own memory, and no answer that holds it would be an equation of values.
pub fn find(file: ProfileFile, group: u8, place: usize) -> Result<usize, Refusal>
    ensures value { result ≡ answered (group_question file.entry.bytes.now group place) (group_offset file.entry.bytes.now group) }
    ensures inside { IfOk result (λ at. at + profile_length (layout_of file.entry.bytes.now) ≤ length file.entry.bytes.now) }
{
    let layout = file.layout();
    (0..layout.count)
        .map(|k| HEADER_LENGTH + k * layout.profile_length())
        .find(|at| file.bytes[*at] == group)
        .ok_or(Refusal::NoGroup(place))
}

// Questions 1 to 6: where the group's code stands, in any file.
// Kept: file and group apart: each of its callers has them one by one, and a struct of the two would be made for this call alone.
pub fn find_checked(file: &[u8], group: u8) -> Result<usize, Refusal>
    ensures value { result ≡ answered (check file.now group) (group_offset file.now group) }
    ensures inside { IfOk result (λ at. at + profile_length (layout_of file.now) ≤ length file.now) }
{
    find(file_check::check_file(file)?, group, 0)
}

// The check beside locating: questions 1 to 6.
// Kept: file and group apart, as they come one by one over the C interface.
pub fn check(file: &[u8], group: u8) -> Result<(), Refusal>
    ensures value { result ≡ check file.now group }
    ensures result_value { reported result ≡ reported (check file.now group) }
{
    find_checked(file, group)?;
    Ok(())
}
