// Series and carry (document 01): what a run of quarter hours makes of powers, a yearly use and a carry. Definitions, the totals of
// a run, and the laws that expanding stands on: joining two runs, and how far a run's sum lies from its exact energy.
#![tactic(auto)]

ghost use Rattle.std.specs.Prelude.{◌≡◌, ◌+◌, ◌^◌, ◌<◌};
ghost use Rattle.carry.specs.Totals.{together};

// The largest yearly use, in kWh.
pub const LARGEST_USE: u32 = 1_000_000_000;

// The largest carry.
pub const LARGEST_CARRY: u32 = 39_999;

// What some quarter hours come to: their count, the sum of their figures in Wh, and the carry that they leave.
#[derive(Clone, Copy, Debug, Default, PartialEq, Eq)]
pub struct Totals {
    pub count: usize,
    pub total: u64,
    pub carry: u32,
}

impl Totals {
    // What these quarter hours and those after them come to. The carry is the one that the later ones leave.
    pub fn and(self, next: Totals) -> Totals
        requires count { self.count + next.count < 2 ^ 64 }
        requires total { self.total + next.total < 2 ^ 64 }
        ensures { result ≡ together self next }
    {
        Totals {
            count: self.count + next.count,
            total: self.total + next.total,
            carry: next.carry,
        }
    }
}
