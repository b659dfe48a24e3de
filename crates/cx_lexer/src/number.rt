ghost use Rattle.std.specs.Prelude.{◌≡◌, ◌<◌, ◌≤◌, ◌+◌, ◌*◌, ◌^◌, length, IsTrue, slice_index, MatchOption};
ghost use Rattle.cx_lexer.specs.Bytes.{is_letter_of};
ghost use Rattle.cx_lexer.specs.Number.{ends, digit_value, is_digit, is_u, is_ll, is_suffix, base_of, value_of, has_u, has_ll, is_too_wide, runs_on};
ghost use Rattle.cx_lexer.specs.Scan.{suffix_length, digit_length, tail_length, has_prefix, zero_tail_length, number_length};

use crate::bytes::{continues_name, is_letter_of};

/// The value of a digit in bases up to 16; what is no digit in any of them has 16.
#[tactic(auto, unfolding(crate::specs::Number::digit_value))]
fn digit_value(byte: u8) -> u8
    ensures { result ≡ digit_value byte }
{
    if b'0' <= byte && byte <= b'9' {
        byte - b'0'
    } else if b'a' <= byte && byte <= b'f' {
        byte - b'a' + 10
    } else if b'A' <= byte && byte <= b'F' {
        byte - b'A' + 10
    } else {
        16
    }
}

fn is_digit(base: u8, byte: u8) -> bool
    ensures { result ≡ is_digit base byte }
{
    digit_value(byte) < base
}

#[tactic(auto, unfolding(crate::specs::Number::is_u))]
fn is_u(byte: u8) -> bool
    ensures { result ≡ is_u byte }
{
    is_letter_of(b'u', byte)
}

/// Two letters l in one case.
#[tactic(auto, unfolding(crate::specs::Number::is_ll))]
fn is_ll(first: u8, second: u8) -> bool
    ensures { result ≡ is_ll first second }
{
    is_letter_of(b'l', first) && first == second
}

/// Whether the bytes are a suffix: none, u, ll, ull or llu.
#[tactic(auto, unfolding(crate::specs::Number::is_suffix))]
fn is_suffix(bytes: &[u8]) -> bool
    ensures { result ≡ is_suffix bytes.now }
{
    match bytes {
        [] => true,
        [a] => is_u(*a),
        [a, b] => is_ll(*a, *b),
        [a, b, c] => (is_u(*a) && is_ll(*b, *c)) || (is_ll(*a, *b) && is_u(*c)),
        _ => false,
    }
}

/// The length of the longest suffix at the front.
#[tactic(auto, using(crate::proofs::Numbers::suffix_within), unfolding(crate::specs::Scan::suffix_length))]
fn suffix_length(rest: &[u8]) -> usize
    ensures length { result ≡ suffix_length rest.now }
    ensures within { result ≤ length rest.now }
{
    if rest.len() >= 3 && is_suffix(&rest[..3]) {
        3
    } else if rest.len() >= 2 && is_suffix(&rest[..2]) {
        2
    } else if rest.len() >= 1 && is_suffix(&rest[..1]) {
        1
    } else {
        0
    }
}

/// The length of the next digit with the quote before it, if there is one; 0 where no digit comes.
#[tactic(auto, using(crate::proofs::Numbers::digit_within), unfolding(crate::specs::Scan::digit_length))]
fn digit_length(base: u8, rest: &[u8]) -> usize
    ensures length { result ≡ digit_length base rest.now }
    ensures within { result ≤ length rest.now }
{
    if rest.len() >= 1 && is_digit(base, rest[0]) {
        1
    } else if rest.len() >= 2 && rest[0] == b'\'' && is_digit(base, rest[1]) {
        2
    } else {
        0
    }
}

/// How many bytes at the front belong to a number behind its first digit.
fn tail_length(base: u8, rest: &[u8]) -> usize
    ensures length { result ≡ tail_length base rest.now }
    ensures within { result ≤ length rest.now }
{
    let mut at = 0;
    let mut step = digit_length(base, rest);
    while step > 0 {
        at += step;
        step = digit_length(base, &rest[at..]);
    }
    at + suffix_length(&rest[at..])
}

/// Whether a letter of a prefix and a digit of its base stand at the front.
#[tactic(auto, unfolding(crate::specs::Scan::has_prefix))]
fn has_prefix(letter: u8, base: u8, rest: &[u8]) -> bool
    ensures { result ≡ has_prefix letter base rest.now }
{
    rest.len() >= 2 && is_letter_of(letter, rest[0]) && is_digit(base, rest[1])
}

/// How many bytes at the front belong to a number behind its zero.
#[tactic(auto, unfolding(crate::specs::Scan::zero_tail_length, crate::specs::Scan::has_prefix))]
fn zero_tail_length(rest: &[u8]) -> usize
    ensures length { result ≡ zero_tail_length rest.now }
    ensures within { result ≤ length rest.now }
{
    if has_prefix(b'x', 16, rest) {
        2 + tail_length(16, &rest[2..])
    } else if has_prefix(b'b', 2, rest) {
        2 + tail_length(2, &rest[2..])
    } else {
        tail_length(8, rest)
    }
}

/// The length of the number at the front.
#[tactic(auto, unfolding(crate::specs::Scan::number_length))]
pub fn number_length(rest: &[u8]) -> usize
    requires { 0 < length rest.now }
    ensures length { result ≡ number_length rest.now }
    ensures within { result ≤ length rest.now }
{
    if rest[0] == b'0' {
        1 + zero_tail_length(&rest[1..])
    } else {
        1 + tail_length(10, &rest[1..])
    }
}

/// The base of a number.
#[tactic(auto, unfolding(crate::specs::Number::base_of))]
fn base_of(number: &[u8]) -> u8
    ensures base { result ≡ base_of number.now }
    ensures some { 0 < result }
    ensures small { result ≤ 16 }
{
    match number {
        [b'0', letter, ..] if is_letter_of(b'x', *letter) => 16,
        [b'0', letter, ..] if is_letter_of(b'b', *letter) => 2,
        [b'0', ..] => 8,
        _ => 10,
    }
}

#[tactic(auto, unfolding(crate::specs::Number::has_u))]
fn has_u(number: &[u8]) -> bool
    ensures { result ≡ has_u number.now }
{
    number.iter().any(|byte| is_u(*byte))
}

#[tactic(auto, unfolding(crate::specs::Number::has_ll))]
fn has_ll(number: &[u8]) -> bool
    ensures { result ≡ has_ll number.now }
{
    number.iter().any(|byte| is_letter_of(b'l', *byte))
}

/// A value with one more digit, if 64 bits hold it.
fn next_value(base: u8, value: u64, digit: u8) -> Option<u64>
    ensures { MatchOption result (2 ^ 64 ≤ value * base + digit) (λ next. next ≡ value * base + digit) }
{
    value
        .checked_mul(u64::from(base))?
        .checked_add(u64::from(digit))
}

/// The value of a number's digits, if 64 bits hold it.
fn value_of(base: u8, number: &[u8]) -> Option<u64>
    requires base { base ≡ base_of number.now }
    requires some { 0 < base }
    ensures { MatchOption result (2 ^ 64 ≤ value_of number.now) (λ value. value ≡ value_of number.now) }
{
    let mut value: u64 = 0;
    for byte in number {
        let digit = digit_value(*byte);
        if digit < base {
            let Some(next) = next_value(base, value, digit) else {
                return None;
            };
            value = next;
        }
    }
    Some(value)
}

/// Whether no type that a number of this form may have holds its value.
#[tactic(auto, unfolding(crate::specs::Number::is_too_wide))]
pub fn is_too_wide(number: &[u8]) -> bool
    ensures { result ≡ is_too_wide number.now }
{
    let base = base_of(number);
    let greatest = if has_u(number) || (!has_ll(number) && base != 10) {
        u64::MAX
    } else {
        i64::MAX as u64
    };
    match value_of(base, number) {
        Some(value) => value > greatest,
        None => true,
    }
}

/// Whether C++ would go on with the number at the byte behind it.
#[tactic(auto, unfolding(crate::specs::Number::runs_on))]
pub fn runs_on(number: &[u8], after: &[u8]) -> bool
    ensures { result ≡ runs_on number.now after.now }
{
    match after {
        [] => false,
        [byte, ..] => {
            continues_name(*byte)
                || *byte == b'.'
                || ((*byte == b'+' || *byte == b'-') && base_of(number) == 16 && ends_in_e(number))
        }
    }
}

/// Whether the last byte is one of the two cases of the letter e.
fn ends_in_e(number: &[u8]) -> bool
    ensures { result ≡ ends (is_letter_of 101) number.now }
{
    match number {
        [.., last] => is_letter_of(b'e', *last),
        [] => false,
    }
}
