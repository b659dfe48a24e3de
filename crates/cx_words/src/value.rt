ghost use Rattle.std.specs.Prelude.{◌≡◌, ◌&&◌, nat_le};
ghost use Rattle.std.specs.List.{list_all};
ghost use Rattle.cx_words.specs.Value.{is_name, is_decimal, number_in, semantic_in};

use cx_code::Semantic;

/// Whether a word names something: it isn't empty, and has bytes from 33 to 126 only.
pub fn is_name(word: &str) -> bool
    ensures { result ≡ is_name word.now }
{
    !word.is_empty() && is_printable(word.as_bytes())
}

fn is_printable(bytes: &[u8]) -> bool
    ensures { result ≡ list_all (λ byte. nat_le 33 byte && nat_le byte 126) bytes.now }
{
    bytes.iter().all(|byte| *byte >= 33 && *byte <= 126)
}

/// The number that a word is, if it is a decimal one from 1 to the greatest.
pub fn number_in(most: u32, word: &str) -> Option<u32>
    ensures { result ≡ number_in most word.now }
{
    if !is_decimal(word.as_bytes()) {
        return None;
    }
    match word.parse::<u32>() {
        Ok(number) if number <= most => Some(number),
        Ok(_) => None,
        Err(_) => None,
    }
}

/// Whether a word is digits alone, the first of which is no zero.
fn is_decimal(bytes: &[u8]) -> bool
    ensures { result ≡ is_decimal bytes.now }
{
    match bytes {
        [] => false,
        [first, ..] => *first != b'0' && is_digits(bytes),
    }
}

fn is_digits(bytes: &[u8]) -> bool
    ensures { result ≡ list_all (λ byte. nat_le 48 byte && nat_le byte 57) bytes.now }
{
    bytes.iter().all(|byte| *byte >= b'0' && *byte <= b'9')
}

/// The semantic that a word names.
pub fn semantic_in(word: &str) -> Option<Semantic>
    ensures { result ≡ semantic_in word.now }
{
    match word {
        "ignore" => Some(Semantic::Ignore),
        "observe" => Some(Semantic::Observe),
        "enforce" => Some(Semantic::Enforce),
        "quick_enforce" => Some(Semantic::QuickEnforce),
        _ => None,
    }
}
