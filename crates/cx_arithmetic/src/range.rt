ghost use Rattle.std.specs.Prelude.{◌≡◌, ◌&&◌};
ghost use Rattle.cx_code.specs.Arithmetic.{least, greatest, is_within, fitted};
ghost use Rattle.cx_arithmetic.specs.Outcome.{outcome};

use crate::conversion::convert_number;
use cx_code::{Kind, Scalar};

/// The least number of a type.
#[inline(always)]
fn least(scalar: Scalar) -> i128
    ensures { result ≡ least scalar }
{
    match scalar {
        Scalar::Char => -0x80,
        Scalar::Int => -0x8000_0000,
        Scalar::LongLong => -0x8000_0000_0000_0000,
        Scalar::Bool | Scalar::Unsigned | Scalar::UnsignedLongLong => 0,
    }
}

/// The greatest number of a type.
#[inline(always)]
fn greatest(scalar: Scalar) -> i128
    ensures { result ≡ greatest scalar }
{
    match scalar {
        Scalar::Bool => 1,
        Scalar::Char => 0x7f,
        Scalar::Int => 0x7fff_ffff,
        Scalar::Unsigned => 0xffff_ffff,
        Scalar::LongLong => 0x7fff_ffff_ffff_ffff,
        Scalar::UnsignedLongLong => 0xffff_ffff_ffff_ffff,
    }
}

/// A number is one of the type.
#[inline(always)]
pub fn is_within(scalar: Scalar, n: i128) -> bool
    ensures { result ≡ is_within scalar n }
{
    least(scalar) <= n && n <= greatest(scalar)
}

/// Both numbers are of the type.
#[inline(always)]
pub fn are_within(scalar: Scalar, x: i128, y: i128) -> bool
    ensures { result ≡ (is_within scalar x && is_within scalar y) }
{
    is_within(scalar, x) && is_within(scalar, y)
}

/// A result as a number of its type: modulo 2 ^ n where the type is `unsigned` or
/// `unsigned long long` ([basic.fundamental]), else it must be in range ([expr.pre]).
#[inline(always)]
pub fn fitted(scalar: Scalar, n: i128) -> Result<i128, Kind>
    ensures { outcome result ≡ fitted scalar n }
{
    match scalar {
        Scalar::Unsigned | Scalar::UnsignedLongLong => Ok(convert_number(scalar, n)),
        _ if is_within(scalar, n) => Ok(n),
        _ => Err(Kind::Overflow),
    }
}
