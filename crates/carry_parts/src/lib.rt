// The figures of `carry_quotients` for a yearly use of at most 500,000 kWh, with the sums kept in parts of 1/2^38 Wh.
#![tactic(auto)]

ghost use Rattle.std.specs.Prelude.{◌≤◌, length};
ghost use Rattle.carry_quotients.specs.Inside.{SmallPowers, RangeCarried};

use carry_quotients::Carried;

// 2^38: the parts of a watt hour in which `carry_by_parts` adds up.
const PARTS: u64 = 274_877_906_944;

// The same as `carry_by_quotients` for a yearly use of at most 500,000 kWh, with which a day's sum in parts fits 64 bits. The carry,
// and what a power of 0.1 W comes to in a quarter hour, are turned into parts, rounded up: a range's sum is then too large by less
// than 1/40,000 Wh, which changes no quotient, and a division by 2^38 is a shift.
// Kept: yearly use and carry as two arguments, and the bounds, for the reason at `carry_quotients::carry_by_quotients`; and a function of its
// own, over the same loop, since it rounds up where that one is exact: it asks for a smaller yearly use, and its figures are right for
// another reason.
pub fn carry_by_parts(powers: &[u32], yearly: u32, carry: u32, out: &mut [u32]) -> Carried
    requires small_powers { SmallPowers powers.now yearly carry }
    requires in_day { length powers.now ≤ 96 }
    requires room { length powers.now ≤ length out.old }
    requires yearly_bound { yearly ≤ 500_000 }
    ensures { RangeCarried powers.now yearly carry out.old result out.new }
{
    let scaled = (yearly as u64 * PARTS + 39_999) / 40_000;
    let first = (carry as u64 * PARTS + 39_999) / 40_000;
    let sum = carry_quotients::store_growths::<PARTS>(powers, scaled, first, out);
    Carried {
        total: sum / PARTS,
        carry: (sum % PARTS * 40_000 / PARTS) as u32,
    }
}
