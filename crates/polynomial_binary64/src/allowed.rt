// A polynomial that passed the question of its coefficients.
ghost use Rattle.polynomial_binary64.specs.Binary64.{Allowed};

use crate::Polynomial;

// Each coefficient is a whole number, not negative zero, and within its limit.
#[derive(Clone, Copy)]
pub struct AllowedPolynomial {
    pub polynomial: Polynomial,
    ghost allowed: { Allowed polynomial },
}
