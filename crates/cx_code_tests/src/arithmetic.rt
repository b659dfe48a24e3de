use cx_arithmetic::{
    both_bits, complement, convert, difference, different_bits, either_bits, equal_values,
    int_value, logical_not, negated, product, quotient, remainder, shifted_left, shifted_right,
    sum,
};
use cx_code::{Kind, Scalar, Value};

const INT_MIN: i128 = -0x8000_0000;

const UNSIGNED_LONG_LONG_MAX: i128 = 0xffff_ffff_ffff_ffff;

#[derive(Drop)]
struct Expression {
    shown: &'static str,
    computed: Result<i128, Kind>,
    wanted: Result<i128, Kind>,
}

fn row(
    shown: &'static str,
    computed: Result<i128, Kind>,
    wanted: Result<i128, Kind>,
) -> Expression {
    Expression {
        shown,
        computed,
        wanted,
    }
}

#[test]
fn sums_and_products_follow_the_standard(rt: HostRuntime) {
    let rows = [
        row(
            "INT_MAX + 1",
            sum(Scalar::Int, 0x7fff_ffff, 1),
            Err(Kind::Overflow),
        ),
        row(
            "1u - 2u",
            difference(Scalar::Unsigned, 1, 2),
            Ok(0xffff_ffff),
        ),
        row(
            "-INT_MIN",
            negated(Scalar::Int, INT_MIN),
            Err(Kind::Overflow),
        ),
        row("-1u", negated(Scalar::Unsigned, 1), Ok(0xffff_ffff)),
        row("!7", logical_not(Scalar::Int, 7), Ok(0)),
        row(
            "INT_MIN * -1",
            product(Scalar::Int, INT_MIN, -1),
            Err(Kind::Overflow),
        ),
        row(
            "ULLONG_MAX * ULLONG_MAX",
            product(
                Scalar::UnsignedLongLong,
                UNSIGNED_LONG_LONG_MAX,
                UNSIGNED_LONG_LONG_MAX,
            ),
            Ok(1),
        ),
        row(
            "an int out of range",
            sum(Scalar::Int, 0x8000_0000, 0),
            Err(Kind::Mixed),
        ),
    ];
    for expression in &rows {
        assert_eq!(rt;
            expression.computed,
            expression.wanted,
            "{}",
            expression.shown
        );
    }
}

#[test]
fn divisions_shifts_and_bits_follow_the_standard(rt: HostRuntime) {
    let rows = [
        row("-7 / 2", quotient(Scalar::Int, -7, 2), Ok(-3)),
        row("-7 % 2", remainder(Scalar::Int, -7, 2), Ok(-1)),
        row(
            "INT_MIN / -1",
            quotient(Scalar::Int, INT_MIN, -1),
            Err(Kind::Division),
        ),
        row(
            "INT_MIN % -1",
            remainder(Scalar::Int, INT_MIN, -1),
            Err(Kind::Division),
        ),
        row(
            "1 / 0",
            quotient(Scalar::Unsigned, 1, 0),
            Err(Kind::Division),
        ),
        row("-1 >> 1", shifted_right(Scalar::Int, -1, 1), Ok(-1)),
        row("3 << 31", shifted_left(Scalar::Int, 3, 31), Ok(INT_MIN)),
        row(
            "1 << 32",
            shifted_left(Scalar::Int, 1, 32),
            Err(Kind::Shift),
        ),
        row("~0", complement(Scalar::Int, 0), Ok(-1)),
        row("~0u", complement(Scalar::Unsigned, 0), Ok(0xffff_ffff)),
        row("-2 & 7", both_bits(Scalar::Int, -2, 7), Ok(6)),
        row("-2 | 7", either_bits(Scalar::Int, -2, 7), Ok(-1)),
        row("-2 ^ 7", different_bits(Scalar::Int, -2, 7), Ok(-7)),
    ];
    for expression in &rows {
        assert_eq!(rt;
            expression.computed,
            expression.wanted,
            "{}",
            expression.shown
        );
    }
}

#[test]
fn values_are_converted_and_compared(rt: HostRuntime) {
    let number = Value::Number(255);
    assert_eq!(rt; convert(Scalar::Char, number), Some(-1));
    assert_eq!(rt; convert(Scalar::Bool, number), Some(1));
    assert_eq!(rt;
        convert(Scalar::Unsigned, Value::Number(-1)),
        Some(0xffff_ffff)
    );
    assert_eq!(rt; convert(Scalar::Bool, Value::Null), Some(0));
    assert_eq!(rt; convert(Scalar::Int, Value::Null), None);
    assert_eq!(rt; int_value(INT_MIN), Some(i32::MIN));
    assert_eq!(rt; int_value(0x8000_0000), None);
    assert_eq!(rt;
        equal_values(Value::Address(1, 2), Value::Address(1, 3)),
        Some(false)
    );
    assert_eq!(rt; equal_values(Value::Null, Value::Null), Some(true));
    assert_eq!(rt; equal_values(number, Value::Null), None);
}
