use super::*;
use sb_lex::TokenKind;
use sqlite_items::Items;
use std::alloc::{AllocError, Global};
use std::test::Fail;

fn lexeme(alloc: Global, kind: TokenKind, value: &[u8]) -> Result<Lexeme, AllocError> {
    Ok(Lexeme {
        kind,
        value: Items::from_slice(alloc, value)?,
        start: 0,
        end: 0,
    })
}

#[test]
fn words_in_either_case(rt: HostRuntime) -> Result<(), Fail> {
    let word = lexeme(rt.alloc(), TokenKind::Word, b"cReAtE")?;
    assert!(rt; is(Fixed::Create, &word));
    assert!(rt; !is(Fixed::Alter, &word));
    let quoted = lexeme(rt.alloc(), TokenKind::Quoted, b"CREATE")?;
    assert!(rt; !is(Fixed::Create, &quoted));
    Ok(())
}
