//! Tokens of sources, and first lexical faults. More texts are cases (`docs/CASES.md`).

use safl_text::{Key, LexErr, Sym, Token, TokenKind, lex};
use safl_word::limits::SOURCE_MAX;
use safl_word::{Fault, Rule};
use std::process::Abort;
use std::test::Fail;

fn has_kinds(
    rt: &(impl Abort + AllocGlobal),
    source: &[u8],
    kinds: &[TokenKind],
) -> Result<(), Fail> {
    assert!(rt; source.len() <= SOURCE_MAX);
    let tokens = lex(rt.alloc(), source)?;
    assert_eq!(rt; tokens.len(), kinds.len());
    for (token, kind) in tokens.iter().zip(kinds) {
        assert_eq!(rt; token.kind, *kind);
    }
    Ok(())
}

fn has_fault(rt: &(impl Abort + AllocGlobal), source: &[u8], rule: Rule, place: u32) {
    assert!(rt; source.len() <= SOURCE_MAX);
    let refused = lex(rt.alloc(), source).err();
    assert_eq!(rt; refused, Some(LexErr::Refused(Fault::new(rule, place))));
}

#[test]
fn tokens_of_every_kind(rt: HostRuntime) -> Result<(), Fail> {
    has_kinds(&rt, b"", &[])?;
    has_kinds(&rt, b"// to the end \x80\xff", &[])?;
    has_kinds(&rt, b"8'd256", &[TokenKind::Sized(8, 256)])?;
    has_kinds(
        &rt,
        b"8'hFf0g 8'b12",
        &[
            TokenKind::Sized(8, 4080),
            TokenKind::Name,
            TokenKind::Sized(8, 1),
            TokenKind::Num(2),
        ],
    )?;
    has_kinds(
        &rt,
        b"and andy let",
        &[
            TokenKind::Key(Key::And),
            TokenKind::Name,
            TokenKind::Key(Key::Let),
        ],
    )?;
    has_kinds(
        &rt,
        b"<<=>>==>!=",
        &[
            TokenKind::Sym(Sym::ShiftLeft),
            TokenKind::Sym(Sym::Arrow),
            TokenKind::Sym(Sym::GreaterEqual),
            TokenKind::Sym(Sym::Arrow),
            TokenKind::Sym(Sym::NotEqual),
        ],
    )
}

#[test]
fn a_token_after_a_comment(rt: HostRuntime) -> Result<(), Fail> {
    let tokens = lex(rt.alloc(), b"// \xff\n_a1\r")?;
    assert_eq!(rt;
        tokens.as_slice(),
        [Token {
            start: 5,
            stop: 8,
            kind: TokenKind::Name
        }]
        .as_slice()
    );
    Ok(())
}

#[test]
fn the_first_fault(rt: HostRuntime) {
    has_fault(&rt, b"a / b", Rule::E01, 2);
    has_fault(
        &rt,
        b"x a2345678901234567890123456789012345678901234567890123456789012345",
        Rule::E03,
        2,
    );
}
