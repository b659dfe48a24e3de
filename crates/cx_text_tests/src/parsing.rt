use cx_parser::ParseFault;
use cx_syntax::tree::{Expr, Item, Stmt, Tail, UnitTree};
use cx_syntax::{Mark, Punct, Word};
use cx_tree::parse;
use std::alloc::{AllocError, Global};
use std::test::Fail;

// `a` to `d` are names, and `T` is a class name.
fn mark_of(word: &str) -> Mark {
    match word {
        "(" => Mark::Punct(Punct::OpenParen),
        ")" => Mark::Punct(Punct::CloseParen),
        "{" => Mark::Punct(Punct::OpenBrace),
        "}" => Mark::Punct(Punct::CloseBrace),
        ";" => Mark::Punct(Punct::Semicolon),
        "-" => Mark::Punct(Punct::Minus),
        "*" => Mark::Punct(Punct::Star),
        "<" => Mark::Punct(Punct::Less),
        "==" => Mark::Punct(Punct::Equal),
        "if" => Mark::Word(Word::If),
        "else" => Mark::Word(Word::Else),
        "void" => Mark::Word(Word::Void),
        "a" => Mark::Name(10),
        "b" => Mark::Name(11),
        "c" => Mark::Name(12),
        "d" => Mark::Name(13),
        "T" => Mark::Class(14),
        _ => Mark::Word(Word::Unused),
    }
}

// The marks of a text with a blank between every two.
fn marks_of(alloc: Global, text: &str) -> Result<Vec<Mark>, Fail> {
    let mut marks = Vec::new(alloc);
    let mut word = String::new(alloc);
    for c in text.chars() {
        if c == ' ' {
            marks.push(mark_of(word.as_str()))?;
            word = String::new(alloc);
        } else {
            word.push(c)?;
        }
    }
    if !word.is_empty() {
        marks.push(mark_of(word.as_str()))?;
    }
    Ok(marks)
}

fn tree_of(alloc: Global, text: &str) -> Result<Result<UnitTree, usize>, Fail> {
    let marks = marks_of(alloc, text)?;
    // The texts of this file are short.
    if marks.len() > 100 {
        return Err(Fail::from(AllocError));
    }
    match parse(alloc, marks.as_slice()) {
        Ok(tree) => Ok(Ok(tree)),
        Err(ParseFault::SyntaxAt(place)) => Ok(Err(place)),
        Err(ParseFault::OutOfMemory) => Err(Fail::from(AllocError)),
    }
}

// The first statement of the first item's body.
fn first_statement(tree: &UnitTree) -> Option<&Stmt> {
    match tree.items.first() {
        Some(
            Item::Function {
                tail: Tail::Defined(body),
                ..
            },
        ) => body.statements.first(),
        _ => None,
    }
}

// The place of the operator that binds last.
fn top_operator(statement: Option<&Stmt>) -> Option<u32> {
    match statement {
        Some(
            Stmt::Evaluate {
                value: Expr::Binary { operator, .. },
                ..
            },
        ) => Some(*operator),
        _ => None,
    }
}

// The places of the inner `if` and of its `else`, where an `if` without `else` holds one with it.
fn inner_branches(statement: Option<&Stmt>) -> Option<(u32, u32)> {
    match statement {
        Some(Stmt::Branch { body, .. }) => match &**body {
            Stmt::Branches { at, other, .. } => Some((*at, *other)),
            _ => None,
        },
        _ => None,
    }
}

#[test]
fn the_operator_that_binds_last_is_on_top(rt: HostRuntime) -> Result<(), Fail> {
    let rows = [
        ("void a ( ) { a - b - c ; }", 8),
        ("void a ( ) { a < b == c ; }", 8),
        ("void a ( ) { a == b < c ; }", 6),
        ("void a ( ) { a - b * c ; }", 6),
    ];
    for (text, place) in rows {
        let found = match tree_of(rt.alloc(), text)? {
            Ok(tree) => top_operator(first_statement(&tree)),
            Err(_) => None,
        };
        assert_eq!(rt; found, Some(place), "{text}");
    }
    Ok(())
}

#[test]
fn an_else_belongs_to_the_nearest_if(rt: HostRuntime) -> Result<(), Fail> {
    let text = "void a ( ) { if ( a ) if ( b ) c ; else d ; }";
    let found = match tree_of(rt.alloc(), text)? {
        Ok(tree) => inner_branches(first_statement(&tree)),
        Err(_) => None,
    };
    assert_eq!(rt; found, Some((9, 15)));
    Ok(())
}

#[test]
fn an_empty_unit_has_no_items_and_a_fault_has_its_place(rt: HostRuntime) -> Result<(), Fail> {
    let rows = [
        ("", Ok(0)),
        ("void a ( ) ; void b ( ) { }", Ok(2)),
        ("void a ( ) { T ( b ) ; }", Err(6)),
        ("void a ( ) { a - ; }", Err(7)),
        ("void a ( ) {", Err(5)),
    ];
    for (text, wanted) in rows {
        let found = match tree_of(rt.alloc(), text)? {
            Ok(tree) => Ok(tree.items.len()),
            Err(place) => Err(place),
        };
        assert_eq!(rt; found, wanted, "{text}");
    }
    Ok(())
}
