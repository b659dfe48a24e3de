ghost use Rattle.std.specs.Prelude.{◌≡◌};
ghost use Rattle.cx_code.specs.Arithmetic.{negated, logical_not, sum, difference, product};
ghost use Rattle.cx_arithmetic.specs.Outcome.{outcome};

use crate::range::{are_within, fitted, is_within};
use cx_code::{Kind, Scalar};

/// The negative of a number `x` of the type `scalar` ([expr.unary.op]): modulo 2 ^ n where the type is
/// unsigned. `Overflow` where it isn't of the type, `Mixed` where `x` isn't.
#[inline(always)]
pub fn negated(scalar: Scalar, x: i128) -> Result<i128, Kind>
    ensures { outcome result ≡ negated scalar x }
{
    if !is_within(scalar, x) {
        return Err(Kind::Mixed);
    }
    fitted(scalar, -x)
}

/// 1 where the number `x` of the type `scalar` is 0, else 0 ([expr.unary.op]). `Mixed` where `x` isn't
/// of the type.
#[inline(always)]
pub fn logical_not(scalar: Scalar, x: i128) -> Result<i128, Kind>
    ensures { outcome result ≡ logical_not scalar x }
{
    if !is_within(scalar, x) {
        return Err(Kind::Mixed);
    }
    Ok(i128::from(x == 0))
}

/// `x` plus `y`, both of the type `scalar` ([expr.add]): modulo 2 ^ n where the type is unsigned.
/// `Overflow` where the sum isn't of the type, `Mixed` where an operand isn't.
#[inline(always)]
pub fn sum(scalar: Scalar, x: i128, y: i128) -> Result<i128, Kind>
    ensures { outcome result ≡ sum scalar x y }
{
    if !are_within(scalar, x, y) {
        return Err(Kind::Mixed);
    }
    fitted(scalar, x + y)
}

/// `x` less `y`, both of the type `scalar` ([expr.add]): modulo 2 ^ n where the type is unsigned.
/// `Overflow` where the difference isn't of the type, `Mixed` where an operand isn't.
#[inline(always)]
pub fn difference(scalar: Scalar, x: i128, y: i128) -> Result<i128, Kind>
    ensures { outcome result ≡ difference scalar x y }
{
    if !are_within(scalar, x, y) {
        return Err(Kind::Mixed);
    }
    fitted(scalar, x - y)
}

/// `x` times `y`, both of the type `scalar` ([expr.mul]): modulo 2 ^ n where the type is unsigned.
/// `Overflow` where the product isn't of the type, `Mixed` where an operand isn't.
#[inline(always)]
pub fn product(scalar: Scalar, x: i128, y: i128) -> Result<i128, Kind>
    ensures { outcome result ≡ product scalar x y }
{
    if !are_within(scalar, x, y) {
        return Err(Kind::Mixed);
    }
    match scalar {
        Scalar::UnsignedLongLong => Ok(i128::from((x as u64).wrapping_mul(y as u64))),
        _ => fitted(scalar, x * y),
    }
}
