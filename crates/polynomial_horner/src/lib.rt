// Question 21's evaluation of a file's polynomial (document 02, (f)): in floats, by Horner's rule, which loses nothing.
#![tactic(auto)]

ghost use Rattle.std.specs.Prelude.{◌≡◌, true, T};
ghost use Rattle.std.specs.Float.{binary64};
ghost use Rattle.std.specs.Float.Ieee.{in_signed};
ghost use Rattle.polynomial.specs.Inside.{Day};
ghost use Rattle.polynomial.specs.Polynomial.{X, in_range, usable};
ghost use Rattle.polynomial_binary64.specs.Binary64.{whole, coefficients_of};
ghost use Rattle.polynomial_horner.specs.Horner.{horner};
ghost use Rattle.polynomial_horner.specs.Inside.{Constant};

use polynomial_binary64::{AllowedPolynomial, Polynomial};

// X of the day t, by Horner's rule: the sum so far times t, and the next coefficient added.
pub fn horner(p: Polynomial, t: u32) -> f64
    ensures { result ≡ horner p t }
{
    let day = t as f64;
    (((p.t4 * day + p.t3) * day + p.t2) * day + p.t1) * day + p.t0
}

// Whether the whole number x is from 0 to 2 × 10^12.
fn in_range(x: f64) -> bool
    requires { T (in_signed binary64 63 x) }
    ensures { result ≡ in_range (whole x) }
{
    (0.0 <= x) & (x <= 2_000_000_000_000.0)
}

// Whether X is in range on the day t.
fn day_in_range(p: AllowedPolynomial, t: u32) -> bool
    requires { Day t }
    ensures { result ≡ in_range (X (coefficients_of p.polynomial) t) }
{
    in_range(horner(p.polynomial, t))
}

// Whether X is in range on each of the 366 days.
// Kept: a loop and no `all`, which would end at the first day out of range, so that the compiler could not take several days at once; a
// `fold` wants a lemma more.
fn every_day_in_range(p: AllowedPolynomial) -> bool
    ensures { result ≡ usable (coefficients_of p.polynomial) }
{
    let mut passed = true;
    for t in 1..=366 {
        passed &= day_in_range(p, t);
    }
    passed
}

// Whether the coefficients of t are all 0.
fn is_constant(p: AllowedPolynomial) -> bool
    ensures { result ≡ true → Constant (coefficients_of p.polynomial) }
{
    let p = p.polynomial;
    (p.t4 == 0.0) & (p.t3 == 0.0) & (p.t2 == 0.0) & (p.t1 == 0.0)
}

// Question 21: whether X is from 0 to 2 × 10^12 on all 366 days. A constant polynomial is asked once.
pub fn is_usable(p: AllowedPolynomial) -> bool
    ensures { result ≡ usable (coefficients_of p.polynomial) }
{
    if is_constant(p) {
        return in_range(p.polynomial.t0);
    }
    every_day_in_range(p)
}
