ghost use Rattle.std.specs.Prelude.{◌≡◌, ◌≤◌, ◌^◌, pos, unsigned_abs};
ghost use Rattle.std.specs.Int.{int_rem_euclid};
ghost use Rattle.cx_core.specs.Number.{width, is_signed, least, greatest, in_range, bits, of_bits, modulo, converted_number, promoted, arithmetic, truth_number};

use cx_code::Kind;
use cx_core::IntegerType;

/// How many bits a number of the type has.
pub(crate) fn width(of: IntegerType) -> u32
    ensures value { result ≡ width of }
    ensures bound { result ≤ 64 }
{
    match of {
        IntegerType::Bool => 1,
        IntegerType::Char => 8,
        IntegerType::Int | IntegerType::Unsigned => 32,
        IntegerType::LongLong | IntegerType::UnsignedLongLong => 64,
    }
}

pub(crate) fn is_signed(of: IntegerType) -> bool
    ensures { result ≡ is_signed of }
{
    match of {
        IntegerType::Char | IntegerType::Int | IntegerType::LongLong => true,
        IntegerType::Bool | IntegerType::Unsigned | IntegerType::UnsignedLongLong => false,
    }
}

/// The least number of the type.
pub(crate) fn least(of: IntegerType) -> i128
    ensures { result ≡ least of }
{
    match of {
        IntegerType::Char => -0x80,
        IntegerType::Int => -0x8000_0000,
        IntegerType::LongLong => -0x8000_0000_0000_0000,
        IntegerType::Bool | IntegerType::Unsigned | IntegerType::UnsignedLongLong => 0,
    }
}

/// The greatest number of the type.
fn greatest(of: IntegerType) -> i128
    ensures { result ≡ greatest of }
{
    match of {
        IntegerType::Bool => 1,
        IntegerType::Char => 0x7f,
        IntegerType::Int => 0x7fff_ffff,
        IntegerType::Unsigned => 0xffff_ffff,
        IntegerType::LongLong => 0x7fff_ffff_ffff_ffff,
        IntegerType::UnsignedLongLong => 0xffff_ffff_ffff_ffff,
    }
}

/// Whether a number is one of the type.
pub(crate) fn in_range(of: IntegerType, n: i128) -> bool
    ensures { result ≡ in_range of n }
{
    least(of) <= n && n <= greatest(of)
}

fn low_1(n: i128) -> u64
    ensures { result ≡ unsigned_abs (int_rem_euclid n (pos (2 ^ 1))) }
{
    n.rem_euclid(2).unsigned_abs() as u64
}

fn low_8(n: i128) -> u64
    ensures { result ≡ unsigned_abs (int_rem_euclid n (pos (2 ^ 8))) }
{
    n.rem_euclid(0x100).unsigned_abs() as u64
}

fn low_32(n: i128) -> u64
    ensures { result ≡ unsigned_abs (int_rem_euclid n (pos (2 ^ 32))) }
{
    n.rem_euclid(0x1_0000_0000).unsigned_abs() as u64
}

fn low_64(n: i128) -> u64
    ensures { result ≡ unsigned_abs (int_rem_euclid n (pos (2 ^ 64))) }
{
    n.rem_euclid(0x1_0000_0000_0000_0000).unsigned_abs() as u64
}

/// The bits of a number, as a number from 0.
pub(crate) fn bits(of: IntegerType, n: i128) -> u64
    ensures { result ≡ bits of n }
{
    match of {
        IntegerType::Bool => low_1(n),
        IntegerType::Char => low_8(n),
        IntegerType::Int | IntegerType::Unsigned => low_32(n),
        IntegerType::LongLong | IntegerType::UnsignedLongLong => low_64(n),
    }
}

/// Two to the number of bits of the type.
fn modulus(of: IntegerType) -> i128
    ensures { result ≡ pos (2 ^ width of) }
{
    match of {
        IntegerType::Bool => 2,
        IntegerType::Char => 0x100,
        IntegerType::Int | IntegerType::Unsigned => 0x1_0000_0000,
        IntegerType::LongLong | IntegerType::UnsignedLongLong => 0x1_0000_0000_0000_0000,
    }
}

/// The number of the type that has these bits.
pub(crate) fn of_bits(of: IntegerType, bits: u64) -> i128
    ensures { result ≡ of_bits of bits }
{
    let n = i128::from(bits);
    if n <= greatest(of) {
        n
    } else {
        n - modulus(of)
    }
}

pub(crate) fn modulo(of: IntegerType, n: i128) -> i128
    ensures { result ≡ modulo of n }
{
    of_bits(of, bits(of, n))
}

pub(crate) fn truth_number(truth: bool) -> i128
    ensures { result ≡ truth_number truth }
{
    i128::from(truth)
}

/// A number converted to the type [conv.integral], [conv.bool].
pub(crate) fn converted_number(of: IntegerType, n: i128) -> i128
    ensures { result ≡ converted_number of n }
{
    match of {
        IntegerType::Bool => truth_number(n != 0),
        _ => modulo(of, n),
    }
}

/// The type that a number of the type is promoted to [conv.prom].
pub(crate) fn promoted(of: IntegerType) -> IntegerType
    ensures { result ≡ promoted of }
{
    match of {
        IntegerType::Bool | IntegerType::Char => IntegerType::Int,
        _ => of,
    }
}

pub(crate) fn arithmetic(of: IntegerType, n: i128) -> Result<i128, Kind>
    ensures { result ≡ arithmetic of n }
{
    if in_range(of, n) {
        return Ok(n);
    }
    if is_signed(of) {
        return Err(Kind::Overflow);
    }
    Ok(modulo(of, n))
}
