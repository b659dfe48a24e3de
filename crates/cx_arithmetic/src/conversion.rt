ghost use Rattle.std.specs.Prelude.{◌≡◌, Some, None, if◌then◌else◌, pos, ◌^◌, unsigned_abs};
ghost use Rattle.std.specs.Int.{w8, w32, w64, int_rem_euclid};
ghost use Rattle.cx_code.specs.Arithmetic.{wrapped, number_as, value_as, is_int};

use cx_code::{Scalar, Value};

/// A number as one of a type: modulo 2 ^ n, and as a `bool` by being not 0.
#[inline(always)]
pub fn convert_number(scalar: Scalar, n: i128) -> i128
    ensures { result ≡ number_as scalar n }
{
    match scalar {
        Scalar::Bool => i128::from(n != 0),
        Scalar::Char => i128::from(wrap_char(n)),
        Scalar::Int => i128::from(wrap_int(n)),
        Scalar::Unsigned => n.rem_euclid(0x1_0000_0000),
        Scalar::LongLong => i128::from(wrap_long_long(n)),
        Scalar::UnsignedLongLong => n.rem_euclid(0x1_0000_0000_0000_0000),
    }
}

fn wrap_char(n: i128) -> i8
    ensures { result ≡ wrapped w8 (2 ^ 8) n }
{
    low_8(n).cast_signed()
}

fn wrap_int(n: i128) -> i32
    ensures { result ≡ wrapped w32 (2 ^ 32) n }
{
    low_32(n).cast_signed()
}

fn wrap_long_long(n: i128) -> i64
    ensures { result ≡ wrapped w64 (2 ^ 64) n }
{
    low_64(n).cast_signed()
}

fn low_8(n: i128) -> u8
    ensures { result ≡ unsigned_abs (int_rem_euclid n (pos (2 ^ 8))) }
{
    n.rem_euclid(0x100).unsigned_abs() as u8
}

fn low_32(n: i128) -> u32
    ensures { result ≡ unsigned_abs (int_rem_euclid n (pos (2 ^ 32))) }
{
    n.rem_euclid(0x1_0000_0000).unsigned_abs() as u32
}

fn low_64(n: i128) -> u64
    ensures { result ≡ unsigned_abs (int_rem_euclid n (pos (2 ^ 64))) }
{
    n.rem_euclid(0x1_0000_0000_0000_0000).unsigned_abs() as u64
}

/// A value as a number of the type `scalar` ([conv.integral], [conv.bool]): modulo 2 ^ n, and to `bool`
/// by being not 0 or not null. `None` for a pointer where the type isn't `bool`.
#[inline(always)]
pub fn convert(scalar: Scalar, value: Value) -> Option<i128>
    ensures { result ≡ value_as scalar value }
{
    match (value, scalar) {
        (Value::Number(n), _) => Some(convert_number(scalar, n)),
        (Value::Address(_, _), Scalar::Bool) => Some(1),
        (Value::Null, Scalar::Bool) => Some(0),
        _ => None,
    }
}

/// A number as an `int`. `None` where it is out of its range. (This project's own.)
#[inline(always)]
pub fn int_value(n: i128) -> Option<i32>
    ensures { result ≡ (if is_int n then Some n else None) }
{
    if n >= -2147483648 && n <= 2147483647 {
        Some(n as i32)
    } else {
        None
    }
}
