//! Where tokens stand.

use salt_ast::TokenKind;
use salt_parse::{ParseErr, tokens};
use std::test::Fail;

#[test]
fn places_of_tokens(rt: HostRuntime) -> Result<(), Fail> {
    let found = tokens(rt.alloc(), b"a<=12 'b''c'")?;
    let mut places = Vec::new(rt.alloc());
    for token in found.as_slice() {
        places.push((token.kind, token.at, token.len))?;
    }
    let wanted = [
        (TokenKind::Word, 0, 1),
        (TokenKind::Sign, 1, 2),
        (TokenKind::Int, 3, 2),
        (TokenKind::Text, 6, 6),
    ];
    assert_eq!(rt; places.as_slice(), &wanted[..]);
    assert_eq!(rt; tokens(rt.alloc(), b"a # b").err(), Some(ParseErr::Syntax));
    Ok(())
}
