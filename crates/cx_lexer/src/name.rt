ghost use Rattle.std.specs.Prelude.{◌≡◌};
ghost use Rattle.std.specs.List.{prefix_len};
ghost use Rattle.cx_lexer.specs.Bytes.{continues_name};
ghost use Rattle.cx_lexer.specs.Name.{is_word};

use crate::bytes::continues_name;
use crate::table::is_in_table;

/// How many bytes at the front can stand in a name.
pub fn name_length(rest: &[u8]) -> usize
    ensures { result ≡ prefix_len continues_name rest.now }
{
    rest.iter()
        .take_while(|byte| continues_name(**byte))
        .count()
}

static WORDS: [&[u8]; 93] = [
    b"alignas",
    b"alignof",
    b"and",
    b"and_eq",
    b"asm",
    b"auto",
    b"bitand",
    b"bitor",
    b"bool",
    b"break",
    b"case",
    b"catch",
    b"char",
    b"char8_t",
    b"char16_t",
    b"char32_t",
    b"class",
    b"compl",
    b"concept",
    b"const",
    b"consteval",
    b"constexpr",
    b"constinit",
    b"const_cast",
    b"continue",
    b"contract_assert",
    b"co_await",
    b"co_return",
    b"co_yield",
    b"decltype",
    b"default",
    b"delete",
    b"do",
    b"double",
    b"dynamic_cast",
    b"else",
    b"enum",
    b"explicit",
    b"export",
    b"extern",
    b"false",
    b"float",
    b"for",
    b"friend",
    b"goto",
    b"if",
    b"inline",
    b"int",
    b"long",
    b"mutable",
    b"namespace",
    b"new",
    b"noexcept",
    b"not",
    b"not_eq",
    b"nullptr",
    b"operator",
    b"or",
    b"or_eq",
    b"private",
    b"protected",
    b"public",
    b"register",
    b"reinterpret_cast",
    b"requires",
    b"return",
    b"short",
    b"signed",
    b"sizeof",
    b"static",
    b"static_assert",
    b"static_cast",
    b"struct",
    b"switch",
    b"template",
    b"this",
    b"thread_local",
    b"throw",
    b"true",
    b"try",
    b"typedef",
    b"typeid",
    b"typename",
    b"union",
    b"unsigned",
    b"using",
    b"virtual",
    b"void",
    b"volatile",
    b"wchar_t",
    b"while",
    b"xor",
    b"xor_eq",
];

/// Whether a name is a word of C++.
pub fn is_word(name: &[u8]) -> bool
    ensures { result ≡ is_word name.now }
{
    is_in_table(&WORDS, name)
}
