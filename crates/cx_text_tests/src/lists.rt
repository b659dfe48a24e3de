use cx_syntax::{Items, Punct, Token, TokenKind};
use std::test::Fail;

#[test]
fn a_list_keeps_its_items_in_order(rt: HostRuntime) -> Result<(), Fail> {
    let name = Token {
        kind: TokenKind::Name,
        start: 0,
        end: 3,
    };
    let punct = Token {
        kind: TokenKind::Punct,
        start: 3,
        end: 4,
    };
    let mut tokens = Items::new(rt.alloc());
    tokens.push(name)?;
    tokens.push(punct)?;
    assert_eq!(rt; tokens.items(), [name, punct].as_slice());
    Ok(())
}
