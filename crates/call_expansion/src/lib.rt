// What expanding answers (document 01, "Series and carry"), and the answer as document 01's numbers.
#![tactic(auto)]

ghost use Rattle.std.specs.Prelude.{◌≡◌};
ghost use Rattle.call_expansion.specs.Answered.{reported};

use carry::Totals;
use refusal::Refusal;

// Count, total and last carry, or the first question that did not pass.
pub type Expansion = Result<Totals, Refusal>;

// The answer as document 01's numbers: number and place, 0 when accepted, and count, total and carry, 0 when refused.
#[repr(C)]
#[derive(Clone, Copy, Default)]
pub struct ExpansionReport {
    pub number: u32,
    pub place: usize,
    pub count: usize,
    pub total: u64,
    pub carry: u32,
}

impl From<Expansion> for ExpansionReport {
    ghost from_gives = { λ answer report. report ≡ reported answer };

    fn from(answer: Expansion) -> ExpansionReport {
        match answer {
            Ok(totals) => ExpansionReport {
                count: totals.count,
                total: totals.total,
                carry: totals.carry,
                ..ExpansionReport::default()
            },
            Err(refusal) => ExpansionReport {
                number: refusal.number(),
                place: refusal.place(),
                ..ExpansionReport::default()
            },
        }
    }
}
