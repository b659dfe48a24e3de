ghost use Rattle.std.specs.Prelude.{◌≡◌, true, false, pos, ◌<◌, ◌≤◌, unsigned_abs, MatchOption, IfSome};
ghost use Rattle.cx_code.specs.Arithmetic.{bit_count, shifts, shifted_left, shifted_right};
ghost use Rattle.cx_arithmetic.specs.Outcome.{outcome};

use crate::conversion::convert_number;
use crate::range::is_within;
use cx_code::{Kind, Scalar};

/// How many bits a number of the type has.
fn bit_count(scalar: Scalar) -> u32
    ensures value { pos result ≡ bit_count scalar }
    ensures bound { result ≤ 64 }
{
    match scalar {
        Scalar::Bool => 1,
        Scalar::Char => 8,
        Scalar::Int | Scalar::Unsigned => 32,
        Scalar::LongLong | Scalar::UnsignedLongLong => 64,
    }
}

/// The amount of a shift, where it isn't negative and is less than the width.
#[inline]
fn shift_amount(scalar: Scalar, amount: i128) -> Option<u32>
    ensures shifts { MatchOption result (shifts scalar amount ≡ false) (λ k. shifts scalar amount ≡ true) }
    ensures value { IfSome result (λ k. k ≡ unsigned_abs amount) }
    ensures bound { IfSome result (λ k. k < 64) }
{
    if amount >= 0 && amount < i128::from(bit_count(scalar)) {
        Some(amount as u32)
    } else {
        None
    }
}

/// `x`, of the type `scalar`, times 2 to the power `amount`, modulo 2 ^ n ([expr.shift]). `amount` is a
/// number of any type. `Shift` where it is negative or not below the width of the type, `Mixed` where
/// `x` isn't of the type.
#[inline]
pub fn shifted_left(scalar: Scalar, x: i128, amount: i128) -> Result<i128, Kind>
    ensures { outcome result ≡ shifted_left scalar x amount }
{
    if !is_within(scalar, x) {
        return Err(Kind::Mixed);
    }
    match shift_amount(scalar, amount) {
        Some(amount) => Ok(convert_number(scalar, x << amount)),
        None => Err(Kind::Shift),
    }
}

/// `x`, of the type `scalar`, divided by 2 to the power `amount` and rounded down ([expr.shift]).
/// `amount` is a number of any type. `Shift` where it is negative or not below the width of the type,
/// `Mixed` where `x` isn't of the type.
#[inline]
pub fn shifted_right(scalar: Scalar, x: i128, amount: i128) -> Result<i128, Kind>
    ensures { outcome result ≡ shifted_right scalar x amount }
{
    if !is_within(scalar, x) {
        return Err(Kind::Mixed);
    }
    match shift_amount(scalar, amount) {
        Some(amount) => Ok(x >> amount),
        None => Err(Kind::Shift),
    }
}
