// Series and carry (document 01): the sum of one day's figures, and the carry that they leave, with no figure stored. The sum of the
// day's powers, after the clock change, times the yearly use, plus the first carry, is 40,000 times the sum of the figures, plus the last
// carry. That carry is below 40,000: so of a division by 40,000 the sum of the figures is the quotient, and the last carry the remainder.
#![tactic(auto)]

ghost use Rattle.std.specs.Prelude.{◌≡◌, ◌≤◌, length, sum};
ghost use Rattle.carry_quotients.specs.Inside.{SmallPowers};
ghost use Rattle.carry_total.specs.Inside.{DayTotal};

use calendar_days::Clock;
use carry_quotients::Carried;

// The sum of a range's powers.
fn sum_of(powers: &[u32]) -> u64
    requires { length powers.now ≤ 96 }
    ensures { result ≡ sum powers.now }
{
    powers.iter().map(|power| *power as u64).sum()
}

// The sum of the day's figures, and the carry that they leave.
// Kept: yearly use and carry as two arguments, and the bounds, for the reason at `carry_quotients::carry_by_quotients`; powers and clock one
// by one, as `carry_day` has them.
pub fn total_day(powers: [u32; 96], clock: Clock, yearly: u32, carry: u32) -> Carried
    requires { SmallPowers powers yearly carry }
    ensures { DayTotal powers clock yearly carry result }
{
    let (first, second) = carry_day::ranges_of(&powers, clock);
    let energy = (sum_of(first) + sum_of(second)) * yearly as u64 + carry as u64;
    Carried {
        total: energy / 40_000,
        carry: (energy % 40_000) as u32,
    }
}
