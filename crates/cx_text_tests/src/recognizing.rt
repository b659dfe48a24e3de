use cx_parser::{ParseFault, recognize};
use cx_syntax::{Mark, Punct, Word, mark};
use std::alloc::{AllocError, Global};
use std::test::Fail;

// `x`, `y` and `f` are names, `T` is a class name; `'` is a character literal and `"` a string literal.
fn mark_of(word: &str) -> Mark {
    match word {
        "(" => Mark::Punct(Punct::OpenParen),
        ")" => Mark::Punct(Punct::CloseParen),
        "{" => Mark::Punct(Punct::OpenBrace),
        "}" => Mark::Punct(Punct::CloseBrace),
        ";" => Mark::Punct(Punct::Semicolon),
        ":" => Mark::Punct(Punct::Colon),
        "::" => Mark::Punct(Punct::Scope),
        "," => Mark::Punct(Punct::Comma),
        "." => Mark::Punct(Punct::Dot),
        "->" => Mark::Punct(Punct::Arrow),
        "?" => Mark::Punct(Punct::Question),
        "+" => Mark::Punct(Punct::Plus),
        "-" => Mark::Punct(Punct::Minus),
        "*" => Mark::Punct(Punct::Star),
        "&" => Mark::Punct(Punct::And),
        "=" => Mark::Punct(Punct::Assign),
        "==" => Mark::Punct(Punct::Equal),
        "<" => Mark::Punct(Punct::Less),
        ">" => Mark::Punct(Punct::Greater),
        "++" => Mark::Punct(Punct::Increment),
        "~" => Mark::Punct(Punct::Tilde),
        "..." => Mark::Punct(Punct::Ellipsis),
        "<<" => Mark::Punct(Punct::ShiftLeft),
        "||" => Mark::Punct(Punct::Either),
        "&&" => Mark::Punct(Punct::Both),
        "!" => Mark::Punct(Punct::Not),
        "bool" => Mark::Word(Word::Bool),
        "break" => Mark::Word(Word::Break),
        "catch" => Mark::Word(Word::Catch),
        "char" => Mark::Word(Word::Char),
        "class" => Mark::Word(Word::Class),
        "const" => Mark::Word(Word::Const),
        "continue" => Mark::Word(Word::Continue),
        "contract_assert" => Mark::Word(Word::ContractAssert),
        "else" => Mark::Word(Word::Else),
        "explicit" => Mark::Word(Word::Explicit),
        "extern" => Mark::Word(Word::Extern),
        "false" => Mark::Word(Word::False),
        "for" => Mark::Word(Word::For),
        "if" => Mark::Word(Word::If),
        "inline" => Mark::Word(Word::Inline),
        "int" => Mark::Word(Word::Int),
        "long" => Mark::Word(Word::Long),
        "noexcept" => Mark::Word(Word::Noexcept),
        "nullptr" => Mark::Word(Word::Nullptr),
        "private" => Mark::Word(Word::Private),
        "public" => Mark::Word(Word::Public),
        "return" => Mark::Word(Word::Return),
        "static_cast" => Mark::Word(Word::StaticCast),
        "struct" => Mark::Word(Word::Struct),
        "this" => Mark::Word(Word::This),
        "throw" => Mark::Word(Word::Throw),
        "true" => Mark::Word(Word::True),
        "try" => Mark::Word(Word::Try),
        "unsigned" => Mark::Word(Word::Unsigned),
        "virtual" => Mark::Word(Word::Virtual),
        "void" => Mark::Word(Word::Void),
        "while" => Mark::Word(Word::While),
        "std" => Mark::Std,
        "1" => Mark::Number,
        "'" => Mark::Char,
        "\"" => Mark::Text,
        "contracts" => Mark::Name(mark::CONTRACTS),
        "pre" => Mark::Name(mark::PRE),
        "post" => Mark::Name(mark::POST),
        "x" => Mark::Name(10),
        "y" => Mark::Name(11),
        "f" => Mark::Name(12),
        "T" => Mark::Class(13),
        "CLASS_PRE" => Mark::Class(mark::PRE),
        "CLASS_CONTRACTS" => Mark::Class(mark::CONTRACTS),
        _ => Mark::Word(Word::Unused),
    }
}

// The marks of a text with a blank between every two.
fn marks_of(alloc: Global, text: &str) -> Result<Vec<Mark>, Fail> {
    let mut marks = Vec::new(alloc);
    let mut word = String::new(alloc);
    for c in text.chars() {
        if c == ' ' {
            marks.push(mark_of(word.as_str()))?;
            word = String::new(alloc);
        } else {
            word.push(c)?;
        }
    }
    if !word.is_empty() {
        marks.push(mark_of(word.as_str()))?;
    }
    Ok(marks)
}

fn fault_of(alloc: Global, text: &str) -> Result<Option<usize>, Fail> {
    let marks = marks_of(alloc, text)?;
    match recognize(alloc, marks.as_slice()) {
        Ok(_) => Ok(None),
        Err(ParseFault::SyntaxAt(place)) => Ok(Some(place)),
        Err(ParseFault::OutOfMemory) => Err(Fail::from(AllocError)),
    }
}

// The text stands in `void f() { .. }`; the place is counted from its own first token.
fn fault_in_body(alloc: Global, text: &str) -> Result<Option<usize>, Fail> {
    let mut unit = String::from_str(alloc, "void f ( ) { ")?;
    unit.push_str(text)?;
    unit.push_str(" }")?;
    match fault_of(alloc, unit.as_str())? {
        Some(place) => Ok(place.checked_sub(5)),
        None => Ok(None),
    }
}

/// A text with a syntax fault, and its place, counted from the text's first token.
#[derive(Clone, Copy)]
struct Faulty<'a> {
    text: &'a str,
    place: usize,
}

#[test]
fn statements_are_accepted(rt: HostRuntime) -> Result<(), Fail> {
    let texts = [
        ";",
        "{ }",
        "x ;",
        "int x = 1 ;",
        "int x ;",
        "T x ( T ( ) ) ;",
        "T x ( T ( ) , 1 ) ;",
        "const int * const * & x = y ;",
        "unsigned long long x = 1 ;",
        "unsigned int x = 1 ;",
        "long long x = 1 ;",
        "if ( x ) if ( y ) ; else ;",
        "while ( x = y ) ;",
        "for ( ; ; ) ;",
        "for ( int x = 1 ; x ; ++ x ) ;",
        "for ( x ; ; x ) y ;",
        "return ;",
        "return x ;",
        "break ;",
        "continue ;",
        "throw ;",
        "throw T ( 1 ) ;",
        "try { } catch ( ... ) { } catch ( const T & x ) { } catch ( int ) { }",
        "contract_assert ( x ? y : x ) ;",
        "( T ( 1 ) ) ;",
        "std :: f ( \" ) + 1 = y ;",
        "std :: contracts :: f x ;",
        "std :: CLASS_CONTRACTS :: f & x = y ;",
        "x = std :: contracts :: f :: y ;",
        "x = x ? x = y : y = x ;",
        "x . f ( x , y ) -> f ++ ;",
        "static_cast < const T * > ( this ) ;",
        "* x = & y + - x * 1 << ! y ;",
        "x = bool ( x || y && true == false ) ;",
        "x = ' + nullptr ;",
        "pre ( x ) ;",
        "f ( std :: contracts ) ;",
    ];
    for text in texts {
        assert_eq!(rt; fault_in_body(rt.alloc(), text)?, None, "{text}");
    }
    Ok(())
}

#[test]
fn items_are_accepted(rt: HostRuntime) -> Result<(), Fail> {
    let texts = [
        "",
        "class T ;",
        "struct T { } ;",
        "struct T { public : int x ; private : T & x ; } ;",
        "class T { T ( int x ) noexcept pre ( x ) : x ( x ) , y ( ) { } explicit T ( const T & ) ; virtual ~ T ( ) ; ~ T ( ) { } } ;",
        "class T { int f ( int , T x ) const noexcept post ( x : x ) post ( x + y ) ; T f ( ) { } virtual T * f ( ) ; } ;",
        "int x ; bool y = true ; int y = - 1 ; char x = ' ;",
        "extern T * x ;",
        "inline int f ( ) { } T f ( ) ; T * f ( int ) noexcept ;",
        "int T :: f ( ) const { } T T :: f ( T ) { }",
        "T :: T ( ) : x ( ) , y ( 1 ) { } inline T :: T ( ) noexcept { } T :: ~ T ( ) { }",
        "int f ( ) CLASS_PRE ( x ) ; int f ( ) pre ( x ) pre ( y ) post ( x ) { }",
        "int pre ( int post ) pre ( pre ) post ( post : post ) ;",
        "void f ( const std :: contracts :: f & x ) ;",
    ];
    for text in texts {
        assert_eq!(rt; fault_of(rt.alloc(), text)?, None, "{text}");
    }
    Ok(())
}

#[test]
fn a_fault_in_a_statement_is_told_at_its_token(rt: HostRuntime) -> Result<(), Fail> {
    let rows = [
        Faulty {
            text: "T x ( ) ;",
            place: 3,
        },
        Faulty {
            text: "T ( 1 ) ;",
            place: 1,
        },
        Faulty {
            text: "unsigned ( x ) ;",
            place: 1,
        },
        Faulty {
            text: "long x ;",
            place: 1,
        },
        Faulty {
            text: "f ( x , ) ;",
            place: 4,
        },
        Faulty {
            text: "f ( , ) ;",
            place: 2,
        },
        Faulty {
            text: "if ( x ) return 1 ; else else return 1 ;",
            place: 8,
        },
        Faulty {
            text: "else ;",
            place: 0,
        },
        Faulty {
            text: "int * * * * * * * * * x ;",
            place: 9,
        },
        Faulty {
            text: "return 1",
            place: 2,
        },
        Faulty {
            text: "contract_assert ( x = y ) ;",
            place: 3,
        },
        Faulty {
            text: "for ( T ( 1 ) ; ; ) ;",
            place: 3,
        },
        Faulty {
            text: "for ( ; ) ;",
            place: 3,
        },
        Faulty {
            text: "for ( ; ; ; ) ;",
            place: 4,
        },
        Faulty {
            text: "try { } ;",
            place: 3,
        },
        Faulty {
            text: "try ; catch",
            place: 1,
        },
        Faulty {
            text: "catch ( ... ) { }",
            place: 0,
        },
        Faulty {
            text: "x ++ y ;",
            place: 2,
        },
        Faulty {
            text: "x = ;",
            place: 2,
        },
        Faulty {
            text: "x ? y ;",
            place: 3,
        },
        Faulty {
            text: "std :: contracts ;",
            place: 3,
        },
        Faulty {
            text: "std ( ) ;",
            place: 1,
        },
        Faulty {
            text: "std :: T ( ) ;",
            place: 2,
        },
        Faulty {
            text: "class T ;",
            place: 0,
        },
        Faulty {
            text: "int T ;",
            place: 1,
        },
        Faulty {
            text: "const x ;",
            place: 1,
        },
        Faulty {
            text: "int const x ;",
            place: 1,
        },
        Faulty {
            text: "x . T ;",
            place: 2,
        },
        Faulty {
            text: "static_cast < x > ( y ) ;",
            place: 2,
        },
        Faulty {
            text: "static_cast < int > x ;",
            place: 4,
        },
        Faulty {
            text: "goto ;",
            place: 0,
        },
        Faulty {
            text: "while ( int x ) ;",
            place: 3,
        },
        Faulty {
            text: "return x y ;",
            place: 2,
        },
        Faulty {
            text: "int x = 1 , y ;",
            place: 4,
        },
    ];
    for row in rows {
        assert_eq!(rt;
            fault_in_body(rt.alloc(), row.text)?,
            Some(row.place),
            "{}",
            row.text
        );
    }
    Ok(())
}

#[test]
fn a_fault_in_an_item_is_told_at_its_token(rt: HostRuntime) -> Result<(), Fail> {
    let rows = [
        Faulty {
            text: "class std",
            place: 1,
        },
        Faulty {
            text: "class T",
            place: 2,
        },
        Faulty {
            text: "class T { int x ; }",
            place: 7,
        },
        Faulty {
            text: "inline int x ;",
            place: 3,
        },
        Faulty {
            text: "inline ;",
            place: 1,
        },
        Faulty {
            text: "int T :: f ( ) ;",
            place: 6,
        },
        Faulty {
            text: "int T :: f ( ) const",
            place: 7,
        },
        Faulty {
            text: "T :: T ( ) ;",
            place: 5,
        },
        Faulty {
            text: "T :: f ( )",
            place: 2,
        },
        Faulty {
            text: "T :: ~ T ( x",
            place: 5,
        },
        Faulty {
            text: "int x = - true ;",
            place: 4,
        },
        Faulty {
            text: "int x = x ;",
            place: 3,
        },
        Faulty {
            text: "int x = 1 + 1 ;",
            place: 4,
        },
        Faulty {
            text: "int f ( ) pre x",
            place: 5,
        },
        Faulty {
            text: "int f ( ) pre ( x = y ) ;",
            place: 7,
        },
        Faulty {
            text: "int f ( ) post ( x : x : x ) ;",
            place: 9,
        },
        Faulty {
            text: "int f ( int x , ) ;",
            place: 6,
        },
        Faulty {
            text: "int f ( ) const ;",
            place: 4,
        },
        Faulty {
            text: "int f ( ) noexcept noexcept ;",
            place: 5,
        },
        Faulty {
            text: "int",
            place: 1,
        },
        Faulty {
            text: "}",
            place: 0,
        },
        Faulty {
            text: ";",
            place: 0,
        },
        Faulty {
            text: "extern x ;",
            place: 1,
        },
        Faulty {
            text: "extern int x = 1 ;",
            place: 3,
        },
        Faulty {
            text: "class T { explicit int x ; } ;",
            place: 4,
        },
        Faulty {
            text: "class T { virtual int x ; } ;",
            place: 6,
        },
        Faulty {
            text: "class T { ~ f ( ) ; } ;",
            place: 4,
        },
        Faulty {
            text: "class T { ~ T ( int ) ; } ;",
            place: 6,
        },
        Faulty {
            text: "class T { T ( ) : { } } ;",
            place: 7,
        },
        Faulty {
            text: "class T { public ; } ;",
            place: 4,
        },
        Faulty {
            text: "class T { int x = 1 ; } ;",
            place: 5,
        },
        Faulty {
            text: "int f ( void x ) { } goto",
            place: 8,
        },
    ];
    for row in rows {
        assert_eq!(rt;
            fault_of(rt.alloc(), row.text)?,
            Some(row.place),
            "{}",
            row.text
        );
    }
    Ok(())
}
