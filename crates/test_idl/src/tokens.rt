// What the tokens of a text are, by examples of the language.
use idl_lexer::{TokenKind, lex, number_of};
use std::alloc::Global;
use std::process::Abort;
use std::test::Fail;

fn assert_tokens(
    rt: &impl Abort,
    alloc: Global,
    text: &[u8],
    expected: &[(TokenKind, &[u8])],
) -> Result<(), Fail> {
    let tokens = lex(alloc, text)?;
    assert_eq!(rt; tokens.count() as usize, expected.len());
    for token in 0..tokens.count() {
        let Some((kind, octets)) = expected.get(token as usize) else {
            return Err("too many tokens".into());
        };
        assert_eq!(rt; tokens.kind(token), *kind);
        assert_eq!(rt; tokens.text(token), *octets);
    }
    Ok(())
}

#[test]
fn cuts_an_operation(rt: HostRuntime) -> Result<(), Fail> {
    let text = b"void f([in] long a[]); /* x */";
    assert_tokens(
        &rt,
        rt.alloc(),
        text,
        &[
            (TokenKind::Word, b"void"),
            (TokenKind::Word, b"f"),
            (TokenKind::Mark, b"("),
            (TokenKind::Mark, b"["),
            (TokenKind::Word, b"in"),
            (TokenKind::Mark, b"]"),
            (TokenKind::Word, b"long"),
            (TokenKind::Word, b"a"),
            (TokenKind::Mark, b"["),
            (TokenKind::Mark, b"]"),
            (TokenKind::Mark, b")"),
            (TokenKind::Mark, b";"),
        ],
    )?;
    let tokens = lex(rt.alloc(), text)?;
    assert_eq!(rt; tokens.count(), 12);
    assert_eq!(rt; tokens.at(1), 5);
    assert_eq!(rt; tokens.at(12), 30);
    Ok(())
}

#[test]
fn numbers_have_values(rt: HostRuntime) {
    for (text, value) in [
        (b"7".as_slice(), Some(7)),
        (b"18446744073709551615", Some(u64::MAX)),
        (b"0X000000000000000000aB", Some(171)),
        (b"012", None),
    ] {
        assert_eq!(rt; number_of(text), value);
    }
}
