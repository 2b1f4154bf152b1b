use super::*;
use std::test::Fail;

/// Each token's kind and place.
fn places(tokens: &[Token], out: &mut Vec<(TokenKind, usize, usize)>) -> Result<(), Fail> {
    for t in tokens {
        out.push((t.kind, t.start, t.end)).map_err(|_| "memory")?;
    }
    Ok(())
}

#[test]
fn tokens_are_as_long_as_they_can_be(rt: HostRuntime) -> Result<(), Fail> {
    let mut found = Vec::new(rt.alloc());
    let text = "0xABC 0x1<>a--b\n@@R N'x''y'/*/**/*/n'' 0X1f [a]]b]\"c\"\"\"@1@ _$#@";
    places(tokens(rt.alloc(), text)?.as_slice(), &mut found)?;
    let wanted = [
        (TokenKind::Binary, 0, 4),
        (TokenKind::Word, 4, 5),
        (TokenKind::Binary, 6, 8),
        (TokenKind::Number, 8, 9),
        (TokenKind::Sign, 9, 11),
        (TokenKind::Word, 11, 12),
        (TokenKind::Variable, 16, 19),
        (TokenKind::Text, 20, 27),
        (TokenKind::Word, 35, 36),
        (TokenKind::Text, 36, 38),
        (TokenKind::Number, 39, 40),
        (TokenKind::Word, 40, 43),
        (TokenKind::Bracketed, 44, 50),
        (TokenKind::Quoted, 50, 55),
        (TokenKind::Variable, 55, 58),
        (TokenKind::Word, 59, 63),
    ];
    assert!(rt; found.as_slice() == wanted.as_slice());
    Ok(())
}

#[test]
fn each_sign_and_blank(rt: HostRuntime) -> Result<(), Fail> {
    let mut found = Vec::new(rt.alloc());
    places(
        tokens(rt.alloc(), "(),.;=<>< \t>\n+-*")?.as_slice(),
        &mut found,
    )?;
    let mut at = 0;
    for (kind, start, end) in &found {
        assert!(rt; *kind == TokenKind::Sign && at <= *start && *start < *end);
        at = *end;
    }
    assert_eq!(rt; found.len(), 12);
    assert_eq!(rt; at, 16);
    Ok(())
}

#[test]
fn unlexed_places(rt: HostRuntime) -> Result<(), Fail> {
    let table = [
        ("a N'b''c", 2),
        ("a n'b''c", 3),
        ("a /* /* */", 2),
        ("a\r\n", 1),
        ("[a]]", 0),
        ("x \"y", 2),
        ("1/2", 1),
        ("-- fine\n \u{e9}", 9),
        ("'\u{e9}' !", 5),
        ("/*/", 0),
    ];
    for (text, place) in &table {
        let text: &str = *text;
        assert!(rt;
            tokens(rt.alloc(), text) == Err(LexRefused::Unlexed { at: *place }),
            "{text}"
        );
    }
    Ok(())
}

#[test]
fn tokens_before_an_unlexed_place(rt: HostRuntime) -> Result<(), Fail> {
    let found = cut(rt.alloc(), "SET @a /**/ = 'b")?;
    assert_eq!(rt; found.tokens.len(), 3);
    assert_eq!(rt; found.unlexed, Some(14));
    let whole = cut(rt.alloc(), " -- nothing")?;
    assert_eq!(rt; whole.tokens.len(), 0);
    assert_eq!(rt; whole.unlexed, None);
    Ok(())
}
