// Writing's question 5, asked of the lent values before anything is written, and shown to be the reader's of the file to be written.
#![tactic(auto)]

ghost use Rattle.std.specs.Prelude.{◌≡◌, List, ℕ, ◌*◌, ◌%◌, ◌≤◌, length, max};
ghost use Rattle.std.specs.List.{fold};
ghost use Rattle.big_endian.specs.BigEndian.{words_from};
ghost use Rattle.refusal.specs.Questions.{ask_each};
ghost use Rattle.file_layout.specs.Header.{layout_of};
ghost use Rattle.file_values.specs.Values.{value_question, values_question};
ghost use Rattle.file_written.specs.Written.{written};

use file_layout::{HEADER_LENGTH, PROFILE_LENGTH, PROFILE_VALUES};
use file_values::HIGHEST_VALUE;
use refusal::Refusal;

// The highest of some values, 0 where there is none. No value ends it early, so that the compiler compares many at once.
fn highest_value(values: &[u16]) -> u16
    ensures { result ≡ fold max 0 values.now }
{
    values.iter().fold(0, |highest, value| highest.max(*value))
}

// Question 5, of a profile's values, in a file that has them from `at` on.
// Kept: the place beside the values, since a refusal names it and the values do not say where they are to stand; a function of its own, for
// the reason at that of `file_values`.
fn profile_values_question(values: &[u16], at: usize) -> Result<(), Refusal>
    requires { (length values.now ≤ 3456) × (at ≤ 100_000) }
    ensures { (file : List ℕ) → words_from file (length values.now) at ≡ values.now →
        result ≡ ask_each (value_question file) 2 (length values.now) at }
{
    if highest_value(values) <= HIGHEST_VALUE {
        return Ok(());
    }
    for (i, value) in values.iter().enumerate() {
        file_values::value_question(*value, at + i * 2)?;
    }
    Ok(())
}

// Question 5, of the file to be written, whatever its codes are.
pub fn values_question(values: &[u16]) -> Result<(), Refusal>
    requires most { length values.now ≤ 9504 }
    requires whole { length values.now % 864 ≡ 0 }
    ensures { (codes : List ℕ) → length values.now ≡ length codes * 864 →
        result ≡ values_question (layout_of (written codes values.now)) (written codes values.now) }
{
    for (k, part) in values.chunks_exact(PROFILE_VALUES).enumerate() {
        profile_values_question(part, HEADER_LENGTH + k * PROFILE_LENGTH + 1)?;
    }
    Ok(())
}
