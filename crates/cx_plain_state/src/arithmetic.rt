ghost use Rattle.std.specs.Prelude.{◌≡◌, ◌<◌, ◌^◌, ◌*ℤ◌, pos, unsigned_abs, int_div, int_rem, IfSome, MatchOption, true, false};
ghost use Rattle.cx_core.specs.Number.{division, shift, binary_number, unary_number};
ghost use Rattle.cx_plain_state.specs.Arithmetic.{is_undefined_quotient, is_shift, left, right};

use crate::number::{arithmetic, bits, is_signed, least, modulo, of_bits, truth_number, width};
use cx_code::Kind;
use cx_core::{BinaryOperator, IntegerType, UnaryOperator};

/// Whether a quotient is undefined [expr.mul].
fn is_undefined(of: IntegerType, x: i128, y: i128) -> bool
    ensures { result ≡ is_undefined_quotient of x y }
{
    y == 0 || is_signed(of) && x == least(of) && y == -1
}

/// A quotient; none where it isn't an `i128`.
fn quotient(of: IntegerType, x: i128, y: i128) -> Option<Result<i128, Kind>>
    ensures { IfSome result (λ r. r ≡ division of x y (int_div x y)) }
{
    if is_undefined(of, x, y) {
        return Some(Err(Kind::Division));
    }
    Some(Ok(x.checked_div(y)?))
}

/// A remainder; none where it can't be computed as an `i128`.
fn remainder(of: IntegerType, x: i128, y: i128) -> Option<Result<i128, Kind>>
    ensures { IfSome result (λ r. r ≡ division of x y (int_rem x y)) }
{
    if is_undefined(of, x, y) {
        return Some(Err(Kind::Division));
    }
    Some(Ok(x.checked_rem(y)?))
}

/// The amount of a shift, where it is neither negative nor as great as the width of the type.
fn amount(of: IntegerType, y: i128) -> Option<u32>
    ensures shifts { MatchOption result (is_shift of y ≡ false) (λ n. is_shift of y ≡ true) }
    ensures value { IfSome result (λ n. n ≡ unsigned_abs y) }
    ensures bound { IfSome result (λ n. n < 64) }
{
    if y >= 0 && y < i128::from(width(of)) {
        Some(y as u32)
    } else {
        None
    }
}

/// A number times a power of two; none where it isn't an `i128`.
fn scaled(x: i128, n: u32) -> Option<i128>
    requires { n < 64 }
    ensures { IfSome result (λ y. y ≡ (x *ℤ pos (2 ^ n))) }
{
    x.checked_mul(1 << n)
}

/// A number shifted to the left [expr.shift]; none where it can't be computed as an `i128`.
fn shifted_left(of: IntegerType, x: i128, y: i128) -> Option<Result<i128, Kind>>
    ensures { IfSome result (λ r. r ≡ shift of y (left of x)) }
{
    match amount(of, y) {
        Some(n) => Some(Ok(modulo(of, scaled(x, n)?))),
        None => Some(Err(Kind::Shift)),
    }
}

/// A number shifted to the right, rounded down.
fn shifted_right(of: IntegerType, x: i128, y: i128) -> Result<i128, Kind>
    ensures { result ≡ shift of y (right x) }
{
    match amount(of, y) {
        Some(n) => Ok(x.div_euclid(1 << n)),
        None => Err(Kind::Shift),
    }
}

/// What an operator with two operands computes; none where a number on the way isn't an `i128`.
pub(crate) fn binary_number(
    operator: BinaryOperator,
    of: IntegerType,
    x: i128,
    y: i128,
) -> Option<Result<i128, Kind>>
    ensures { IfSome result (λ r. r ≡ binary_number operator of x y) }
{
    match operator {
        BinaryOperator::Multiply => Some(arithmetic(of, x.checked_mul(y)?)),
        BinaryOperator::Divide => quotient(of, x, y),
        BinaryOperator::Remainder => remainder(of, x, y),
        BinaryOperator::Add => Some(arithmetic(of, x.checked_add(y)?)),
        BinaryOperator::Subtract => Some(arithmetic(of, x.checked_sub(y)?)),
        BinaryOperator::ShiftLeft => shifted_left(of, x, y),
        BinaryOperator::ShiftRight => Some(shifted_right(of, x, y)),
        BinaryOperator::Less => Some(Ok(truth_number(x < y))),
        BinaryOperator::Greater => Some(Ok(truth_number(y < x))),
        BinaryOperator::LessEqual => Some(Ok(truth_number(x <= y))),
        BinaryOperator::GreaterEqual => Some(Ok(truth_number(y <= x))),
        BinaryOperator::Equal => Some(Ok(truth_number(x == y))),
        BinaryOperator::NotEqual => Some(Ok(truth_number(x != y))),
        BinaryOperator::BitAnd => Some(Ok(of_bits(of, bits(of, x) & bits(of, y)))),
        BinaryOperator::BitXor => Some(Ok(of_bits(of, bits(of, x) ^ bits(of, y)))),
        BinaryOperator::BitOr => Some(Ok(of_bits(of, bits(of, x) | bits(of, y)))),
    }
}

/// What an operator with one operand computes; none where a number on the way isn't an `i128`.
pub(crate) fn unary_number(
    operator: UnaryOperator,
    of: IntegerType,
    x: i128,
) -> Option<Result<i128, Kind>>
    ensures { IfSome result (λ r. r ≡ unary_number operator of x) }
{
    match operator {
        UnaryOperator::Minus => Some(arithmetic(of, 0i128.checked_sub(x)?)),
        UnaryOperator::Not => Some(Ok(truth_number(x == 0))),
        UnaryOperator::Complement => Some(Ok(modulo(of, (-1i128).checked_sub(x)?))),
    }
}
