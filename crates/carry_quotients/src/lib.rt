// Series and carry (document 01): powers made into whole watt hours with a carry.
#![tactic(auto)]

ghost use Rattle.std.specs.Prelude.{◌≡◌, ◌+◌, ◌*◌, ◌≤◌, ◌++◌, drop, length};
ghost use Rattle.lists.specs.Lists.{sum};
ghost use Rattle.carry_quotients.specs.Inside.{SmallPowers, RangeCarried, growths, Growing};

// What some quarter hours come to: the sum of their figures in Wh, and the carry that they leave.
// Kept: no count beside them, as carry::Totals has, since a range has as many figures as powers, and the day's count is its clock's.
#[derive(Clone, Copy, Debug, Default, PartialEq, Eq)]
pub struct Carried {
    pub total: u64,
    pub carry: u32,
}

// Adds up the powers, each times `factor`, from `first` on, and stores at the start of `out` what each adds to the sum's quotient by
// UNIT, which is above `first`. Answers the last sum. Only the addition needs what the turn before worked out.
// Kept: a place for each figure by its number, since of what is written through a zip with iter_mut a proof knows the length alone.
pub fn store_growths<const UNIT: u64>(
    powers: &[u32],
    factor: u64,
    first: u64,
    out: &mut [u32],
) -> u64
    requires growing { Growing UNIT factor powers.now first }
    requires room { length powers.now ≤ length out.old }
    ensures sum { result ≡ first + sum powers.now * factor }
    ensures growths { out.new ≡ growths UNIT factor powers.now first ++ drop (length powers.now) out.old }
{
    let mut sum = first;
    let mut total: u64 = 0;
    for (i, power) in powers.iter().enumerate() {
        sum += *power as u64 * factor;
        let next = sum / UNIT;
        out[i] = (next - total) as u32;
        total = next;
    }
    sum
}

// Stores the figures of a range of a day's positions. A figure is the growth of the quotient of the sum so far: that is the
// document's carry step.
// Kept: yearly use and carry are two arguments, since the one is a whole call's and the other is handed on from range to range. A type for
// a range's powers, at most 96 and each at most 40,000, would be made in two functions (`carry_day::carry_day` and `carry_day::ranges_of`)
// and opened in three (here, in `carry_parts` and in `carry_total`), and each contract would still ask the bounds of use and carry.
pub fn carry_by_quotients(powers: &[u32], yearly: u32, carry: u32, out: &mut [u32]) -> Carried
    requires small_powers { SmallPowers powers.now yearly carry }
    requires in_day { length powers.now ≤ 96 }
    requires room { length powers.now ≤ length out.old }
    ensures { RangeCarried powers.now yearly carry out.old result out.new }
{
    let sum = store_growths::<40_000>(powers, yearly as u64, carry as u64, out);
    Carried {
        total: sum / 40_000,
        carry: (sum % 40_000) as u32,
    }
}
