ghost use Rattle.std.specs.Prelude.{◌≡◌, true};
ghost use Rattle.cx_code.specs.Arithmetic.{divides, quotient, remainder, is_within};
ghost use Rattle.cx_arithmetic.specs.Outcome.{outcome};

use crate::range::{are_within, is_within};
use cx_code::{Kind, Scalar};

/// There is a quotient, and it is of the type.
#[inline]
fn divides(scalar: Scalar, x: i128, y: i128) -> bool
    requires { is_within scalar x ≡ true }
    ensures { result ≡ divides scalar x y }
{
    y != 0 && is_within(scalar, x / y)
}

/// `x` divided by `y`, both of the type `scalar`, rounded towards 0 ([expr.mul]). `Division` where `y`
/// is 0 or the quotient isn't of the type, `Mixed` where an operand isn't.
#[inline]
pub fn quotient(scalar: Scalar, x: i128, y: i128) -> Result<i128, Kind>
    ensures { outcome result ≡ quotient scalar x y }
{
    if !are_within(scalar, x, y) {
        return Err(Kind::Mixed);
    }
    if !divides(scalar, x, y) {
        return Err(Kind::Division);
    }
    Ok(x / y)
}

/// What is left of `x` when it is divided by `y`, both of the type `scalar`; it has the sign of `x`
/// ([expr.mul]). `Division` where `y` is 0 or the quotient isn't of the type, `Mixed` where an operand
/// isn't.
#[inline]
pub fn remainder(scalar: Scalar, x: i128, y: i128) -> Result<i128, Kind>
    ensures { outcome result ≡ remainder scalar x y }
{
    if !are_within(scalar, x, y) {
        return Err(Kind::Mixed);
    }
    if !divides(scalar, x, y) {
        return Err(Kind::Division);
    }
    Ok(x % y)
}
