ghost use Rattle.std.specs.Prelude.{◌≡◌};
ghost use Rattle.cx_code.specs.Arithmetic.{complement, both_bits, either_bits, different_bits};
ghost use Rattle.cx_arithmetic.specs.Outcome.{outcome};

use crate::range::{are_within, fitted, is_within};
use cx_code::{Kind, Scalar};

/// The number with each bit of `x` turned ([expr.unary.op]): modulo 2 ^ n where the type `scalar` is
/// unsigned. `Overflow` where it isn't of the type, as for a `bool`, and `Mixed` where `x` isn't.
#[inline(always)]
pub fn complement(scalar: Scalar, x: i128) -> Result<i128, Kind>
    ensures { outcome result ≡ complement scalar x }
{
    if !is_within(scalar, x) {
        return Err(Kind::Mixed);
    }
    fitted(scalar, !x)
}

/// The number with the bits that `x` and `y`, both of the type `scalar`, have in common
/// ([expr.bit.and]). `Mixed` where an operand isn't of the type.
#[inline(always)]
pub fn both_bits(scalar: Scalar, x: i128, y: i128) -> Result<i128, Kind>
    ensures { outcome result ≡ both_bits scalar x y }
{
    if !are_within(scalar, x, y) {
        return Err(Kind::Mixed);
    }
    Ok(x & y)
}

/// The number with the bits that `x` or `y`, both of the type `scalar`, has ([expr.or]). `Mixed` where
/// an operand isn't of the type.
#[inline(always)]
pub fn either_bits(scalar: Scalar, x: i128, y: i128) -> Result<i128, Kind>
    ensures { outcome result ≡ either_bits scalar x y }
{
    if !are_within(scalar, x, y) {
        return Err(Kind::Mixed);
    }
    Ok(x | y)
}

/// The number with the bits that exactly one of `x` and `y`, both of the type `scalar`, has
/// ([expr.xor]). `Mixed` where an operand isn't of the type.
#[inline(always)]
pub fn different_bits(scalar: Scalar, x: i128, y: i128) -> Result<i128, Kind>
    ensures { outcome result ≡ different_bits scalar x y }
{
    if !are_within(scalar, x, y) {
        return Err(Kind::Mixed);
    }
    Ok(x ^ y)
}
