// The polynomial as a file of version 2 has it (document 02, (f)): five binary64 numbers. Which numbers are allowed, and the whole
// numbers that they are.
#![tactic(auto)]

mod allowed;

ghost use Rattle.std.specs.Prelude.{◌≡◌, ◌^◌, ◌≤◌, from_bits};
ghost use Rattle.std.specs.Float.{binary64};
ghost use Rattle.polynomial.specs.Polynomial.{implied};
ghost use Rattle.polynomial_binary64.specs.Binary64.{allowed, coefficients_of, binary64_of};
ghost use Rattle.polynomial_binary64.specs.Inside.{InRange};

pub use allowed::AllowedPolynomial;
use polynomial::Coefficients;

// The five coefficients, for t^4 down to t^0, in units of 10^-12.
#[repr(C)]
#[derive(Clone, Copy)]
pub struct Polynomial {
    pub t4: f64,
    pub t3: f64,
    pub t2: f64,
    pub t1: f64,
    pub t0: f64,
}

// The question of `is_allowed`, of a number from -2^63 to below 2^63. Zero passes at once. Otherwise x is
// taken without its fraction: as a binary64 number that has the bits of x only where x is a whole number and not negative zero.
fn is_allowed_in_range(x: f64, most: u64) -> bool
    requires { InRange x most }
    ensures { result ≡ allowed most x }
{
    let pattern = f64::to_bits(x);
    if pattern == 0 {
        return true;
    }
    let whole = std::num::truncating_f64_to_i64(x);
    if whole.unsigned_abs() > most {
        return false;
    }
    let back = f64::to_bits(whole as f64);
    back == pattern
}

// Whether x is a whole number, not negative zero, and in size at most `most`. A NaN fails the first comparison.
pub fn is_allowed(x: f64, most: u64) -> bool
    requires { most ≤ 2 ^ 53 }
    ensures { result ≡ allowed most x }
{
    if x >= -9223372036854775808.0 && x < 9223372036854775808.0 {
        return is_allowed_in_range(x, most);
    }
    false
}

// The same of a bit pattern. Above the pattern of infinity, the sign aside, all are NaNs.
pub fn is_allowed_pattern(bits: u64, most: u64) -> bool
    requires { most ≤ 2 ^ 53 }
    ensures { result ≡ allowed most (from_bits binary64 bits) }
{
    if bits == 0 {
        return true;
    }
    if bits % 0x8000_0000_0000_0000 > 0x7ff0_0000_0000_0000 {
        return false;
    }
    is_allowed(f64::from_bits(bits), most)
}

// The coefficients as whole numbers.
impl From<AllowedPolynomial> for Coefficients {
    ghost from_gives = { λ p c. c ≡ coefficients_of p.polynomial };

    fn from(p: AllowedPolynomial) -> Coefficients {
        let p = p.polynomial;
        Coefficients {
            t4: p.t4 as i64,
            t3: p.t3 as i64,
            t2: p.t2 as i64,
            t1: p.t1 as i64,
            t0: p.t0 as i64,
        }
    }
}

// The polynomial of a group by its code, in a file that has none: households (code 0) are dynamised, the other groups are not.
pub fn implied(code: u8) -> Polynomial
    ensures { result ≡ binary64_of (implied code) }
{
    if code == 0 {
        Polynomial {
            t4: -392.0,
            t3: 320_000.0,
            t2: -70_200_000.0,
            t1: 2_100_000_000.0,
            t0: 1_240_000_000_000.0,
        }
    } else {
        Polynomial {
            t4: 0.0,
            t3: 0.0,
            t2: 0.0,
            t1: 0.0,
            t0: 1_000_000_000_000.0,
        }
    }
}
