ghost use Rattle.std.specs.Prelude.{◌≡◌, ◌==◌, ◌≤◌, ◌+◌, ◌-◌, ◌*◌, true, nat_le, if◌then◌else◌, Some, None};
ghost use Rattle.cx_typed.specs.Typed.{greatest_int};
ghost use Rattle.cx_front.specs.Literal.{char_value, decimal_value, escaped, int_value, is_decimal, is_digits};

/// The value of a decimal literal without a suffix, if the bytes are one of type `int` [lex.icon].
pub fn int_value(bytes: &[u8]) -> Option<u32>
    ensures { result ≡ int_value bytes.now }
{
    if is_decimal(bytes) {
        small_value(bytes)
    } else {
        None
    }
}

/// Whether bytes are a decimal literal without a suffix.
fn is_decimal(bytes: &[u8]) -> bool
    ensures { result ≡ is_decimal bytes.now }
{
    match bytes {
        [] => false,
        [b'0'] => true,
        [b'0', ..] => false,
        _ => is_digits(bytes),
    }
}

/// Whether bytes are digits, with at most one `'` between two.
fn is_digits(bytes: &[u8]) -> bool
    ensures { result ≡ is_digits true bytes.now }
{
    let mut opened = true;
    for byte in bytes {
        if byte.is_ascii_digit() {
            opened = false;
        } else if *byte == b'\'' && !opened {
            opened = true;
        } else {
            return false;
        }
    }
    !opened
}

/// The value of the digits of a decimal literal, if it is at most 2147483647.
fn small_value(bytes: &[u8]) -> Option<u32>
    ensures { result ≡ (if nat_le (decimal_value bytes.now) greatest_int then Some (decimal_value bytes.now) else None) }
{
    let mut value = 0u64;
    for byte in bytes {
        value = with_digit(value, *byte);
        if value > 2147483647 {
            return None;
        }
    }
    Some(value as u32)
}

/// A value of digits with one more digit behind it, or with a `'`.
fn with_digit(value: u64, byte: u8) -> u64
    requires { value ≤ 2147483647 }
    ensures { result ≡ (if byte == 39 then value else value * 10 + (byte - 48)) }
{
    match byte {
        b'\'' => value,
        _ => value * 10 + u64::from(byte.saturating_sub(b'0')),
    }
}

/// The value of a character literal, if it is one that is built: a byte or an escape between its quotes [lex.ccon].
pub fn char_value(bytes: &[u8]) -> Option<u8>
    ensures { result ≡ char_value bytes.now }
{
    match bytes {
        [_, byte, _] => plain_value(*byte),
        [_, _, byte, _] => escaped(*byte),
        _ => None,
    }
}

/// The value of a byte in quotes, if it is one of ASCII.
fn plain_value(byte: u8) -> Option<u8>
    ensures { result ≡ (if nat_le byte 127 then Some byte else None) }
{
    if byte <= 127 { Some(byte) } else { None }
}

/// The byte that an escape stands for, by the byte behind the backslash.
fn escaped(byte: u8) -> Option<u8>
    ensures { result ≡ escaped byte }
{
    match byte {
        b'n' => Some(b'\n'),
        b't' => Some(b'\t'),
        b'r' => Some(b'\r'),
        b'0' => Some(0),
        b'\\' | b'\'' | b'"' => Some(byte),
        _ => None,
    }
}
