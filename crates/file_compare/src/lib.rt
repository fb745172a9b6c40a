// Comparing two groups of a file: questions 1 to 6, and whether all their values agree.
#![tactic(auto)]

ghost use Rattle.std.specs.Prelude.{◌≡◌};
ghost use Rattle.file_compare.specs.Comparing.{comparison, reported};

use refusal::Refusal;

// Whether all values of two groups agree.
#[derive(Clone, Copy, Debug, PartialEq, Eq)]
pub enum Likeness {
    Alike,
    Different,
}

// The answer in numbers: number and place are 0 when the groups were compared.
#[repr(C)]
#[derive(Clone, Copy, Default)]
pub struct ComparisonReport {
    pub number: u32,
    pub place: usize,
    pub alike: u32,
}

// Alike exactly when all values of the two groups agree.
// Kept: file and groups apart, as they come one by one over the C interface.
#[tactic(auto, unfolding(crate::specs::Comparing::comparison))]
pub fn compare(bytes: &[u8], first: u8, second: u8) -> Result<Likeness, Refusal>
    ensures value { result ≡ comparison bytes.now first second }
    ensures result_value { reported result ≡ reported (comparison bytes.now first second) }
{
    let file = file_check::check_file(bytes)?;
    let one = file_layout::value_bytes(bytes, file_group::find(file, first, 0)?);
    let other = file_layout::value_bytes(bytes, file_group::find(file, second, 1)?);
    if one == other {
        Ok(Likeness::Alike)
    } else {
        Ok(Likeness::Different)
    }
}

// The answer in numbers: 1 for alike, 0 for different and on a refusal.
impl From<Result<Likeness, Refusal>> for ComparisonReport {
    ghost from_gives = { λ a r. r ≡ reported a };

    fn from(answer: Result<Likeness, Refusal>) -> ComparisonReport {
        match answer {
            Ok(Likeness::Alike) => ComparisonReport {
                alike: 1,
                ..ComparisonReport::default()
            },
            Ok(Likeness::Different) => ComparisonReport::default(),
            Err(refusal) => ComparisonReport {
                number: refusal.number(),
                place: refusal.place(),
                ..ComparisonReport::default()
            },
        }
    }
}
