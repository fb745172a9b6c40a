// The dynamisation's polynomial of the day of the year (document 01, "Dynamisation"; document 02, (f)): its coefficients as whole
// numbers, and its value X.
#![tactic(auto)]

ghost use Rattle.std.specs.Prelude.{◌≡◌};
ghost use Rattle.polynomial.specs.Polynomial.{X, Limited};
ghost use Rattle.polynomial.specs.Inside.{Day};

// The five coefficients, for t^4 down to t^0, in units of 10^-12.
// Kept: no type parameter for the number: document 01 asks for a struct of five f64 beside the i64 polynomial ("Forms by place"), and no
// function of either would be written for both.
#[derive(Clone, Copy, Debug, PartialEq, Eq)]
pub struct Coefficients {
    pub t4: i64,
    pub t3: i64,
    pub t2: i64,
    pub t1: i64,
    pub t0: i64,
}

// X of a day, in units of 10^-12: the signed sum.
// Kept: t is a number with its bound beside it, here, in `dynamisation` and in `polynomial_horner`: none of them uses the calendar, whose
// `CalendarDay::day_of_year` promises the bound. A type for t would spare a clause in each of four functions; it would be made wherever a
// factor is asked for and in `polynomial_horner::every_day_in_range`, and opened in two, here and in `polynomial_horner::day_in_range`.
pub fn sum(c: Coefficients, t: u32) -> i64
    requires limited { Limited c }
    requires day { Day t }
    ensures { result ≡ X c t }
{
    let t = t as i64;
    c.t4 * t * t * t * t + c.t3 * t * t * t + c.t2 * t * t + c.t1 * t + c.t0
}
