ghost use Rattle.std.specs.Prelude.{◌≡◌, bytes_eq};
ghost use Rattle.std.specs.Map.{lookup};
ghost use Rattle.cx_marks.specs.Words.{word_of, punct_of};

use cx_syntax::{Punct, Word};

static WORDS: [(&[u8], Word); 32] = [
    (b"bool", Word::Bool),
    (b"break", Word::Break),
    (b"catch", Word::Catch),
    (b"char", Word::Char),
    (b"class", Word::Class),
    (b"const", Word::Const),
    (b"continue", Word::Continue),
    (b"contract_assert", Word::ContractAssert),
    (b"else", Word::Else),
    (b"explicit", Word::Explicit),
    (b"extern", Word::Extern),
    (b"false", Word::False),
    (b"for", Word::For),
    (b"if", Word::If),
    (b"inline", Word::Inline),
    (b"int", Word::Int),
    (b"long", Word::Long),
    (b"noexcept", Word::Noexcept),
    (b"nullptr", Word::Nullptr),
    (b"private", Word::Private),
    (b"public", Word::Public),
    (b"return", Word::Return),
    (b"static_cast", Word::StaticCast),
    (b"struct", Word::Struct),
    (b"this", Word::This),
    (b"throw", Word::Throw),
    (b"true", Word::True),
    (b"try", Word::Try),
    (b"unsigned", Word::Unsigned),
    (b"virtual", Word::Virtual),
    (b"void", Word::Void),
    (b"while", Word::While),
];

static PUNCTS: [(&[u8], Punct); 50] = [
    (b"{", Punct::OpenBrace),
    (b"}", Punct::CloseBrace),
    (b"(", Punct::OpenParen),
    (b")", Punct::CloseParen),
    (b"[", Punct::OpenBracket),
    (b"]", Punct::CloseBracket),
    (b";", Punct::Semicolon),
    (b":", Punct::Colon),
    (b"::", Punct::Scope),
    (b",", Punct::Comma),
    (b".", Punct::Dot),
    (b"->", Punct::Arrow),
    (b"?", Punct::Question),
    (b"+", Punct::Plus),
    (b"-", Punct::Minus),
    (b"*", Punct::Star),
    (b"/", Punct::Slash),
    (b"%", Punct::Percent),
    (b"&", Punct::And),
    (b"|", Punct::Or),
    (b"^", Punct::Xor),
    (b"~", Punct::Tilde),
    (b"!", Punct::Not),
    (b"=", Punct::Assign),
    (b"==", Punct::Equal),
    (b"!=", Punct::NotEqual),
    (b"<", Punct::Less),
    (b">", Punct::Greater),
    (b"<=", Punct::LessEqual),
    (b">=", Punct::GreaterEqual),
    (b"<<", Punct::ShiftLeft),
    (b">>", Punct::ShiftRight),
    (b"&&", Punct::Both),
    (b"||", Punct::Either),
    (b"++", Punct::Increment),
    (b"--", Punct::Decrement),
    (b"+=", Punct::PlusAssign),
    (b"-=", Punct::MinusAssign),
    (b"*=", Punct::StarAssign),
    (b"/=", Punct::SlashAssign),
    (b"%=", Punct::PercentAssign),
    (b"&=", Punct::AndAssign),
    (b"|=", Punct::OrAssign),
    (b"^=", Punct::XorAssign),
    (b"<<=", Punct::ShiftLeftAssign),
    (b">>=", Punct::ShiftRightAssign),
    (b"<=>", Punct::Spaceship),
    (b"...", Punct::Ellipsis),
    (b".*", Punct::DotStar),
    (b"->*", Punct::ArrowStar),
];

/// The keyword of these bytes.
#[tactic(auto, unfolding(crate::specs::Words::words))]
pub fn word_of(bytes: &[u8]) -> Word
    ensures { result ≡ word_of bytes.now }
{
    match entry_of(&WORDS, bytes) {
        Some(word) => word,
        None => Word::Unused,
    }
}

/// The operator or punctuator of these bytes.
#[tactic(auto, unfolding(crate::specs::Words::puncts))]
pub fn punct_of(bytes: &[u8]) -> Punct
    ensures { result ≡ punct_of bytes.now }
{
    match entry_of(&PUNCTS, bytes) {
        Some(punct) => punct,
        None => Punct::ArrowStar,
    }
}

// The entry of a table at these bytes.
fn entry_of<T: Copy>(table: &[(&[u8], T)], bytes: &[u8]) -> Option<T>
    ensures { result ≡ lookup (λ k. bytes_eq k.now bytes.now) table.now }
{
    for (spelling, entry) in table {
        if *spelling == bytes {
            return Some(*entry);
        }
    }
    None
}
