use cx_marks::{Spelled, marks_of};
use cx_syntax::{Mark, Punct, TokenKind, Word};
use std::alloc::Global;
use std::test::Fail;

fn name(bytes: &[u8]) -> Spelled {
    Spelled {
        kind: TokenKind::Name,
        bytes,
    }
}

fn word(bytes: &[u8]) -> Spelled {
    Spelled {
        kind: TokenKind::Word,
        bytes,
    }
}

fn punct(bytes: &[u8]) -> Spelled {
    Spelled {
        kind: TokenKind::Punct,
        bytes,
    }
}

// A ; class A ; struct pre ; A pre post std :: contracts
#[test]
fn a_name_is_a_class_name_from_its_class_on(rt: HostRuntime) -> Result<(), Fail> {
    let unit = [
        name(b"A"),
        punct(b";"),
        word(b"class"),
        name(b"A"),
        punct(b";"),
        word(b"struct"),
        name(b"pre"),
        name(b"A"),
        name(b"pre"),
        name(b"post"),
        word(b"struct"),
        name(b"std"),
        punct(b"::"),
        name(b"contracts"),
    ];
    let marks = marks_of(rt.alloc(), unit.as_slice())?;
    let wanted = [
        Mark::Name(3),
        Mark::Punct(Punct::Semicolon),
        Mark::Word(Word::Class),
        Mark::Class(3),
        Mark::Punct(Punct::Semicolon),
        Mark::Word(Word::Struct),
        Mark::Class(1),
        Mark::Class(3),
        Mark::Class(1),
        Mark::Name(2),
        Mark::Word(Word::Struct),
        Mark::Std,
        Mark::Punct(Punct::Scope),
        Mark::Name(0),
    ];
    assert_eq!(rt; marks.as_slice(), wanted.as_slice());
    Ok(())
}

#[test]
fn words_and_operators_go_by_their_spelling(rt: HostRuntime) -> Result<(), Fail> {
    let unit = [
        word(b"static_cast"),
        punct(b"<"),
        word(b"unsigned"),
        punct(b">"),
        Spelled {
            kind: TokenKind::Number,
            bytes: b"7",
        },
        Spelled {
            kind: TokenKind::Char,
            bytes: b"'a'",
        },
        Spelled {
            kind: TokenKind::Text,
            bytes: b"\"class\"",
        },
        punct(b">>="),
        punct(b"->*"),
        word(b"while"),
        word(b"goto"),
        word(b"contract_assert"),
    ];
    let marks = marks_of(rt.alloc(), unit.as_slice())?;
    let wanted = [
        Mark::Word(Word::StaticCast),
        Mark::Punct(Punct::Less),
        Mark::Word(Word::Unsigned),
        Mark::Punct(Punct::Greater),
        Mark::Number,
        Mark::Char,
        Mark::Text,
        Mark::Punct(Punct::ShiftRightAssign),
        Mark::Punct(Punct::ArrowStar),
        Mark::Word(Word::While),
        Mark::Word(Word::Unused),
        Mark::Word(Word::ContractAssert),
    ];
    assert_eq!(rt; marks.as_slice(), wanted.as_slice());
    Ok(())
}
