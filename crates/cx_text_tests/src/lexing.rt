use cx_lexer::{LexFault, lex, one_reading, text_of};
use cx_syntax::TokenKind;
use cx_syntax::TokenKind::{Char, Name, Number, Punct, Text, Word};
use std::alloc::Global;
use std::process::Abort;
use std::test::Fail;

/// A text and its tokens: class, first byte, first byte behind.
type Row = (&'static [u8], &'static [(TokenKind, u32, u32)]);

static TOKENS: [Row; 76] = [
    (b"", &[]),
    (b" \t\r\n", &[]),
    (
        b"int main(){}",
        &[
            (Word, 0, 3),
            (Name, 4, 8),
            (Punct, 8, 9),
            (Punct, 9, 10),
            (Punct, 10, 11),
            (Punct, 11, 12),
        ],
    ),
    (b"_", &[(Name, 0, 1)]),
    (b"_a9Z Z", &[(Name, 0, 4), (Name, 5, 6)]),
    (
        b"whil while while_ While",
        &[(Name, 0, 4), (Word, 5, 10), (Name, 11, 17), (Name, 18, 23)],
    ),
    (
        b"contract_assert(x<3);",
        &[
            (Word, 0, 15),
            (Punct, 15, 16),
            (Name, 16, 17),
            (Punct, 17, 18),
            (Number, 18, 19),
            (Punct, 19, 20),
            (Punct, 20, 21),
        ],
    ),
    (
        b"pre post std::contracts",
        &[
            (Name, 0, 3),
            (Name, 4, 8),
            (Name, 9, 12),
            (Punct, 12, 14),
            (Name, 14, 23),
        ],
    ),
    (
        b"alignas xor_eq char8_t co_yield and",
        &[
            (Word, 0, 7),
            (Word, 8, 14),
            (Word, 15, 22),
            (Word, 23, 31),
            (Word, 32, 35),
        ],
    ),
    (
        b"reinterpret_cast<int>",
        &[
            (Word, 0, 16),
            (Punct, 16, 17),
            (Word, 17, 20),
            (Punct, 20, 21),
        ],
    ),
    (b"0", &[(Number, 0, 1)]),
    (b"00 017", &[(Number, 0, 2), (Number, 3, 6)]),
    (b"0'7", &[(Number, 0, 3)]),
    (b"7 90", &[(Number, 0, 1), (Number, 2, 4)]),
    (b"1'000'000", &[(Number, 0, 9)]),
    (b"0x1F 0Xab", &[(Number, 0, 4), (Number, 5, 9)]),
    (b"0xF'f", &[(Number, 0, 5)]),
    (b"0b101 0B1'0", &[(Number, 0, 5), (Number, 6, 11)]),
    (
        b"1u 1U 1ll 1LL",
        &[
            (Number, 0, 2),
            (Number, 3, 5),
            (Number, 6, 9),
            (Number, 10, 13),
        ],
    ),
    (
        b"1ull 1uLL 1Ull 1ULL",
        &[
            (Number, 0, 4),
            (Number, 5, 9),
            (Number, 10, 14),
            (Number, 15, 19),
        ],
    ),
    (
        b"1llu 1llU 1LLu 1LLU",
        &[
            (Number, 0, 4),
            (Number, 5, 9),
            (Number, 10, 14),
            (Number, 15, 19),
        ],
    ),
    (
        b"0u 0x1ull 0b1LL",
        &[(Number, 0, 2), (Number, 3, 9), (Number, 10, 15)],
    ),
    (b"9223372036854775807", &[(Number, 0, 19)]),
    (b"9223372036854775808u", &[(Number, 0, 20)]),
    (b"18446744073709551615u", &[(Number, 0, 21)]),
    (b"0xffffffffffffffff", &[(Number, 0, 18)]),
    (b"0x7fffffffffffffffll", &[(Number, 0, 20)]),
    (b"01777777777777777777777", &[(Number, 0, 23)]),
    (b"1+2", &[(Number, 0, 1), (Punct, 1, 2), (Number, 2, 3)]),
    (b"0x1e +2", &[(Number, 0, 4), (Punct, 5, 6), (Number, 6, 7)]),
    (b"0x1f+2", &[(Number, 0, 4), (Punct, 4, 5), (Number, 5, 6)]),
    (b"0x1eu-2", &[(Number, 0, 5), (Punct, 5, 6), (Number, 6, 7)]),
    (b"1'a'", &[(Number, 0, 1), (Char, 1, 4)]),
    (b"0'1 '1'", &[(Number, 0, 3), (Char, 4, 7)]),
    (b"0'8'", &[(Number, 0, 1), (Char, 1, 4)]),
    (
        b"'a'' ''\"''~'",
        &[(Char, 0, 3), (Char, 3, 6), (Char, 6, 9), (Char, 9, 12)],
    ),
    (
        b"'\\n''\\0''\\\\''\\'''\\\"'",
        &[
            (Char, 0, 4),
            (Char, 4, 8),
            (Char, 8, 12),
            (Char, 12, 16),
            (Char, 16, 20),
        ],
    ),
    (b"\"\"", &[(Text, 0, 2)]),
    (b"\"a\"\"b\"", &[(Text, 0, 3), (Text, 3, 6)]),
    (b"\"//\" \"/*\"", &[(Text, 0, 4), (Text, 5, 9)]),
    (b"\"\\n\\t\\r\\\\\\'\\\"\"", &[(Text, 0, 14)]),
    (b"\"\\0\" \"\\08\"", &[(Text, 0, 4), (Text, 5, 10)]),
    (b"\"\\0\\0\"", &[(Text, 0, 6)]),
    (b"\"\x01\xff\r\t\x00\"", &[(Text, 0, 7)]),
    (b"\"it's\"", &[(Text, 0, 6)]),
    (b"u8\"x\"", &[(Name, 0, 2), (Text, 2, 5)]),
    (
        b"{}()[];,?~",
        &[
            (Punct, 0, 1),
            (Punct, 1, 2),
            (Punct, 2, 3),
            (Punct, 3, 4),
            (Punct, 4, 5),
            (Punct, 5, 6),
            (Punct, 6, 7),
            (Punct, 7, 8),
            (Punct, 8, 9),
            (Punct, 9, 10),
        ],
    ),
    (
        b": :: :::",
        &[(Punct, 0, 1), (Punct, 2, 4), (Punct, 5, 7), (Punct, 7, 8)],
    ),
    (
        b". .. ....",
        &[
            (Punct, 0, 1),
            (Punct, 2, 3),
            (Punct, 3, 4),
            (Punct, 5, 8),
            (Punct, 8, 9),
        ],
    ),
    (
        b".** ->* ->=",
        &[
            (Punct, 0, 2),
            (Punct, 2, 3),
            (Punct, 4, 7),
            (Punct, 8, 10),
            (Punct, 10, 11),
        ],
    ),
    (
        b"<=>> <==",
        &[(Punct, 0, 3), (Punct, 3, 4), (Punct, 5, 7), (Punct, 7, 8)],
    ),
    (
        b"<<=>>=<<\n>>>",
        &[
            (Punct, 0, 3),
            (Punct, 3, 6),
            (Punct, 6, 8),
            (Punct, 9, 11),
            (Punct, 11, 12),
        ],
    ),
    (
        b"<:: <:",
        &[(Punct, 0, 1), (Punct, 1, 3), (Punct, 4, 5), (Punct, 5, 6)],
    ),
    (
        b"&&&\n|||=&=",
        &[
            (Punct, 0, 2),
            (Punct, 2, 3),
            (Punct, 4, 6),
            (Punct, 6, 8),
            (Punct, 8, 10),
        ],
    ),
    (
        b"+++\n---=",
        &[(Punct, 0, 2), (Punct, 2, 3), (Punct, 4, 6), (Punct, 6, 8)],
    ),
    (
        b"===\n!=!",
        &[(Punct, 0, 2), (Punct, 2, 3), (Punct, 4, 6), (Punct, 6, 7)],
    ),
    (
        b"*=/=%=^=%:",
        &[
            (Punct, 0, 2),
            (Punct, 2, 4),
            (Punct, 4, 6),
            (Punct, 6, 8),
            (Punct, 8, 9),
            (Punct, 9, 10),
        ],
    ),
    (b"a/==", &[(Name, 0, 1), (Punct, 1, 3), (Punct, 3, 4)]),
    (b"a//b\nc", &[(Name, 0, 1), (Name, 5, 6)]),
    (b"//", &[]),
    (b"// no end \\", &[]),
    (b"// a \\ b\nx", &[(Name, 9, 10)]),
    (b"///* x\n*/", &[(Punct, 7, 8), (Punct, 8, 9)]),
    (b"a/**/b", &[(Name, 0, 1), (Name, 5, 6)]),
    (b"/*/ */x", &[(Name, 6, 7)]),
    (b"/* /* */*/", &[(Punct, 8, 9), (Punct, 9, 10)]),
    (b"/***/x", &[(Name, 5, 6)]),
    (b"/* // */x", &[(Name, 8, 9)]),
    (b"/* *\\ \n*/x", &[(Name, 9, 10)]),
    (b"/* *a\\\n/ */", &[]),
    (b"/*\\\n/ */", &[]),
    (b"/* *\\\nx/ */", &[]),
    (b"/* *\\ a\n/ */", &[]),
    (b"/ / *", &[(Punct, 0, 1), (Punct, 2, 3), (Punct, 4, 5)]),
    (b"a.5", &[(Name, 0, 1), (Punct, 1, 2), (Number, 2, 3)]),
    (b"x\r\ny", &[(Name, 0, 1), (Name, 3, 4)]),
];

static FAULTS: [(&[u8], LexFault); 60] = [
    (b"@", LexFault::BadByte(0)),
    (b"a#", LexFault::BadByte(1)),
    (b"$x", LexFault::BadByte(0)),
    (b"`", LexFault::BadByte(0)),
    (b"a\\\nb", LexFault::BadByte(1)),
    (b"\x00", LexFault::BadByte(0)),
    (b"x\x7f", LexFault::BadByte(1)),
    (b"\x80", LexFault::BadByte(0)),
    (b" \x0b", LexFault::BadByte(1)),
    (b"\x0c", LexFault::BadByte(0)),
    (b"08", LexFault::BadByte(1)),
    (b"078", LexFault::BadByte(2)),
    (b"0x", LexFault::BadByte(1)),
    (b"0xg", LexFault::BadByte(1)),
    (b"0b", LexFault::BadByte(1)),
    (b"0b2", LexFault::BadByte(1)),
    (b"0b12", LexFault::BadByte(3)),
    (b"0x'1'", LexFault::BadByte(1)),
    (b"1a", LexFault::BadByte(1)),
    (b"1_", LexFault::BadByte(1)),
    (b"1.5", LexFault::BadByte(1)),
    (b"1e5", LexFault::BadByte(1)),
    (b"1lL", LexFault::BadByte(1)),
    (b"1ul", LexFault::BadByte(2)),
    (b"1lu", LexFault::BadByte(1)),
    (b"1ullu", LexFault::BadByte(4)),
    (b"0x1e+2", LexFault::BadByte(4)),
    (b"0xE-1", LexFault::BadByte(3)),
    (b"// a \\\nint x;", LexFault::BadByte(0)),
    (b"x // a \\ \t\x0b\x0c\r\n", LexFault::BadByte(2)),
    (b"/* *\\\n/ */", LexFault::BadByte(0)),
    (b"y/* **\\ \n\\\n/ */", LexFault::BadByte(1)),
    (b"int x;\n/* open", LexFault::OpenComment(7)),
    (b"/*", LexFault::OpenComment(0)),
    (b"/*/", LexFault::OpenComment(0)),
    (b"/* *\\\n/", LexFault::OpenComment(0)),
    (b"1'", LexFault::OpenText(1)),
    (b"1''2", LexFault::OpenText(1)),
    (b"''", LexFault::OpenText(0)),
    (b"0'1'1'", LexFault::OpenText(5)),
    (b"'ab'", LexFault::OpenText(0)),
    (b"'\\'", LexFault::OpenText(0)),
    (b"'\\x'", LexFault::OpenText(0)),
    (b"'\t'", LexFault::OpenText(0)),
    (b"'\x7f'", LexFault::OpenText(0)),
    (b"\"a", LexFault::OpenText(0)),
    (b"a\"b\n\"", LexFault::OpenText(1)),
    (b"\"\\012\"", LexFault::OpenText(0)),
    (b"\"\\07\"", LexFault::OpenText(0)),
    (b"\"\\a\"", LexFault::OpenText(0)),
    (b"\"\\\n\"", LexFault::OpenText(0)),
    (b"\"\\\"", LexFault::OpenText(0)),
    (b"9223372036854775808", LexFault::TooWide(0)),
    (b"x=18446744073709551616u", LexFault::TooWide(2)),
    (b"0xffffffffffffffffll", LexFault::TooWide(0)),
    (b"9223372036854775808LL", LexFault::TooWide(0)),
    (b"0x10000000000000000", LexFault::TooWide(0)),
    (b"02000000000000000000000", LexFault::TooWide(0)),
    (b"99999999999999999999x", LexFault::TooWide(0)),
    (b"a @ \"", LexFault::BadByte(2)),
];

// The tests go over what these give, so that no proof reads the tables.
fn tokens() -> &'static [Row] {
    &TOKENS
}

fn faults() -> &'static [(&'static [u8], LexFault)] {
    &FAULTS
}

fn compare(rt: &impl Abort, alloc: Global, row: &Row) -> Result<(), Fail> {
    let (text, want) = *row;
    assert!(rt; text.len() < 100);
    let tokens = match lex(alloc, text) {
        Ok(tokens) => tokens,
        Err(fault) => {
            assert!(rt; false, "{text:?}: {fault}");
            return Err(fault.into());
        }
    };
    let found = tokens.items();
    assert_eq!(rt; found.len(), want.len(), "{text:?}");
    for (token, (kind, start, end)) in found.iter().zip(want) {
        assert_eq!(rt; token.kind, *kind, "{text:?}");
        assert_eq!(rt; token.start, *start, "{text:?}");
        assert_eq!(rt; token.end, *end, "{text:?}");
    }
    Ok(())
}

fn compare_fault(rt: &impl Abort, alloc: Global, text: &[u8], want: LexFault) {
    assert!(rt; text.len() < 100);
    match lex(alloc, text) {
        Ok(_) => assert!(rt; false, "{text:?}"),
        Err(fault) => assert_eq!(rt; fault, want, "{text:?}"),
    }
}

#[test]
fn texts_have_these_tokens(rt: HostRuntime) -> Result<(), Fail> {
    for row in tokens() {
        compare(&rt, rt.alloc(), row)?;
    }
    Ok(())
}

#[test]
fn texts_have_these_faults(rt: HostRuntime) {
    for (text, fault) in faults() {
        compare_fault(&rt, rt.alloc(), text, *fault);
    }
}

#[test]
fn a_name_has_at_most_1024_bytes(rt: HostRuntime) -> Result<(), Fail> {
    let name = [b'a'; 1025];
    let tokens = lex(rt.alloc(), &name[1..])?;
    assert_eq!(rt; tokens.items().len(), 1);
    assert_eq!(rt; tokens.items()[0].end, 1024);
    match lex(rt.alloc(), &name) {
        Ok(_) => assert!(rt; false),
        Err(fault) => assert_eq!(rt; fault, LexFault::LongName(0, 1025)),
    }
    Ok(())
}

#[test]
fn a_token_has_its_bytes(rt: HostRuntime) -> Result<(), Fail> {
    one_reading();
    let text = b"return answer;";
    let tokens = lex(rt.alloc(), text)?;
    assert_eq!(rt; tokens.items().len(), 3);
    let name = tokens.items()[1];
    assert!(rt; name.start <= name.end && name.end <= 14);
    assert_eq!(rt; text_of(text, &name), b"answer".as_slice());
    Ok(())
}

#[test]
fn faults_are_told(rt: HostRuntime) -> Result<(), Fail> {
    let alloc = rt.alloc();
    assert_eq!(rt;
        format!(in alloc; "{}", LexFault::OutOfMemory)?.as_str(),
        "out of memory"
    );
    assert_eq!(rt;
        format!(in alloc; "{}", LexFault::BadByte(3))?.as_str(),
        "X1 at byte 3"
    );
    assert_eq!(rt;
        format!(in alloc; "{}", LexFault::OpenComment(0))?.as_str(),
        "X2 at byte 0"
    );
    assert_eq!(rt;
        format!(in alloc; "{}", LexFault::OpenText(7))?.as_str(),
        "X3 at byte 7"
    );
    assert_eq!(rt;
        format!(in alloc; "{}", LexFault::TooWide(12))?.as_str(),
        "X4 at byte 12"
    );
    assert_eq!(rt;
        format!(in alloc; "{}", LexFault::LongName(5, 1025))?.as_str(),
        "a name of 1025 bytes at byte 5"
    );
    Ok(())
}
