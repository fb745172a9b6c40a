// Dynamisation (document 01): the factor of a day and the power that it makes of a profile's value.
// Only our own crates call these: t is the calendar's day of the year, p and f are a checked file's value and a factor
// of this crate.
#![tactic(auto)]

ghost use Rattle.std.specs.Prelude.{◌≡◌, ◌≤◌};
ghost use Rattle.dynamisation.specs.Dynamisation.{X, F, Q};
ghost use Rattle.polynomial.specs.Inside.{Day};

use polynomial::Coefficients;

// 2^30: the parts of 1 in which a power is worked out.
const SCALE: u64 = 1_073_741_824;

// The households' polynomial: the coefficients for t^4 down to t^0, in units of 10^-12.
const HOUSEHOLDS: Coefficients = Coefficients {
    t4: -392,
    t3: 320_000,
    t2: -70_200_000,
    t1: 2_100_000_000,
    t0: 1_240_000_000_000,
};

// X of a group by its code: households (code 0) are dynamised, the other groups are not.
// Kept: a group is the code of a profile, a byte of the file: all that is asked of it here is whether it is 0, so no enum is plainer.
#[tactic(auto, using(crate::proofs::Households::households, crate::proofs::Households::others))]
fn exact_factor(group: u8, t: u32) -> i64
    requires { Day t }
    ensures { result ≡ X group t }
{
    if group == 0 {
        polynomial::sum(HOUSEHOLDS, t)
    } else {
        1_000_000_000_000
    }
}

// The factor F in units of 1/10,000. X is above 0, so half of 10^8 and a division round it half up.
pub fn factor(group: u8, t: u32) -> u32
    requires { Day t }
    ensures { result ≡ F group t }
{
    let x = exact_factor(group, t) as u64;
    ((x + 50_000_000) / 100_000_000) as u32
}

// The power Q in tenths of a watt, from a profile's value P and a factor F. A factor of 1 leaves the value as it is, which spares
// the groups without dynamisation a multiplication for each quarter hour. Any other is first turned into parts of 1/2^30, rounded
// up, which the compiler does once for all values of a day: P times that is above P × F / 10,000 by less than 1/10,000, which
// changes no quotient, and a division by 2^30 is a shift.
#[tactic(auto, using(crate::proofs::Scaled::by_one, crate::proofs::Scaled::product_small, crate::proofs::Scaled::scaled_power))]
pub fn power(p: u32, f: u32) -> u32
    requires { (p ≤ 20_000) × (f ≤ 20_000) }
    ensures { result ≡ Q p f }
{
    if f == 10_000 {
        return p;
    }
    let scaled = ((f as u64 * SCALE + 9_999) / 10_000) as u32;
    ((p as u64 * scaled as u64 + SCALE / 2) / SCALE) as u32
}
