ghost use Rattle.std.specs.Prelude.{◌≡◌};
ghost use Rattle.cx_lexer.specs.Bytes.{is_blank, is_decimal_digit, is_printable, is_splice_blank, starts_name, continues_name, is_letter_of};

#[tactic(auto, unfolding(crate::specs::Bytes::is_decimal_digit))]
pub fn is_decimal_digit(byte: u8) -> bool
    ensures { result ≡ is_decimal_digit byte }
{
    b'0' <= byte && byte <= b'9'
}

/// A letter or an underscore.
#[tactic(auto, unfolding(crate::specs::Bytes::starts_name))]
pub fn starts_name(byte: u8) -> bool
    ensures { result ≡ starts_name byte }
{
    (b'a' <= byte && byte <= b'z') || (b'A' <= byte && byte <= b'Z') || byte == b'_'
}

pub fn continues_name(byte: u8) -> bool
    ensures { result ≡ continues_name byte }
{
    starts_name(byte) || is_decimal_digit(byte)
}

#[tactic(auto, unfolding(crate::specs::Bytes::is_printable))]
pub fn is_printable(byte: u8) -> bool
    ensures { result ≡ is_printable byte }
{
    b' ' <= byte && byte <= b'~'
}

/// A blank between tokens.
#[tactic(auto, unfolding(crate::specs::Bytes::is_blank))]
pub fn is_blank(byte: u8) -> bool
    ensures { result ≡ is_blank byte }
{
    byte == b' ' || byte == b'\t' || byte == b'\r' || byte == b'\n'
}

const VERTICAL_TAB: u8 = 11;

const FORM_FEED: u8 = 12;

/// A blank between the backslash and the newline of a line splice.
#[tactic(auto, unfolding(crate::specs::Bytes::is_splice_blank))]
pub fn is_splice_blank(byte: u8) -> bool
    ensures { result ≡ is_splice_blank byte }
{
    byte == b' ' || byte == b'\t' || byte == VERTICAL_TAB || byte == FORM_FEED || byte == b'\r'
}

/// The letter `small` in either case.
pub fn is_letter_of(small: u8, byte: u8) -> bool
    ensures { result ≡ is_letter_of small byte }
{
    byte == small || u16::from(byte) + 32 == u16::from(small)
}
