ghost use Rattle.std.specs.Prelude.{◌≡◌};
ghost use Rattle.cx_code.specs.Arithmetic.{equal_values};

use cx_code::Value;

/// Whether two values are equal ([expr.eq]): numbers by their value, pointers by the object and the
/// leaf. `None` where they can't be compared: a number with a pointer.
#[inline(always)]
pub fn equal_values(a: Value, b: Value) -> Option<bool>
    ensures { result ≡ equal_values a b }
{
    match (a, b) {
        (Value::Number(x), Value::Number(y)) => Some(x == y),
        (Value::Address(number, leaf), Value::Address(other, place)) => {
            Some(number == other && leaf == place)
        }
        (Value::Address(_, _), Value::Null) | (Value::Null, Value::Address(_, _)) => Some(false),
        (Value::Null, Value::Null) => Some(true),
        _ => None,
    }
}
