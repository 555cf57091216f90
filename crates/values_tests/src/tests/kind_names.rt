//! The names of kinds: those of upstream's variants, of a word that of its kind.

use ecma_syntax::{AssignOp, BinOpToken, Word};
use ecma_token::TokenKind;
use std::alloc::Global;
use std::process::Abort;
use std::test::Fail;

fn assert_name(rt: &impl Abort, alloc: Global, kind: TokenKind, want: &str) -> Result<(), Fail> {
    assert_eq!(rt; kind.to_string(alloc)?.as_str(), want);
    Ok(())
}

const KINDS: &[(TokenKind, &str)] = &[
    (TokenKind::Arrow, "Arrow"),
    (TokenKind::Hash, "Hash"),
    (TokenKind::At, "At"),
    (TokenKind::Dot, "Dot"),
    (TokenKind::DotDotDot, "DotDotDot"),
    (TokenKind::Bang, "Bang"),
    (TokenKind::LParen, "LParen"),
    (TokenKind::RParen, "RParen"),
    (TokenKind::LBracket, "LBracket"),
    (TokenKind::RBracket, "RBracket"),
    (TokenKind::LBrace, "LBrace"),
    (TokenKind::RBrace, "RBrace"),
    (TokenKind::Semi, "Semi"),
    (TokenKind::Comma, "Comma"),
    (TokenKind::BackQuote, "BackQuote"),
    (TokenKind::Template, "Template"),
    (TokenKind::Colon, "Colon"),
    (TokenKind::BinOp(BinOpToken::Div), "BinOp"),
    (TokenKind::AssignOp(AssignOp::DivAssign), "AssignOp"),
    (TokenKind::DollarLBrace, "DollarLBrace"),
    (TokenKind::QuestionMark, "QuestionMark"),
    (TokenKind::PlusPlus, "PlusPlus"),
    (TokenKind::MinusMinus, "MinusMinus"),
    (TokenKind::Tilde, "Tilde"),
    (TokenKind::Str, "Str"),
    (TokenKind::Regex, "Regex"),
    (TokenKind::Num, "Num"),
    (TokenKind::BigInt, "BigInt"),
    (TokenKind::JSXName, "JSXName"),
    (TokenKind::JSXText, "JSXText"),
    (TokenKind::JSXTagStart, "JSXTagStart"),
    (TokenKind::JSXTagEnd, "JSXTagEnd"),
    (TokenKind::Shebang, "Shebang"),
    (TokenKind::Error, "Error"),
];

#[test]
fn kinds_display_their_names(rt: HostRuntime) -> Result<(), Fail> {
    for (kind, want) in KINDS {
        assert_name(&rt, rt.alloc(), *kind, want)?;
    }
    Ok(())
}

const WORDS: &[(&str, &str)] = &[
    ("if", "Keyword"),
    ("let", "Keyword"),
    ("null", "Null"),
    ("true", "True"),
    ("false", "False"),
    ("of", "Ident"),
    ("a", "Ident"),
];

#[test]
fn words_display_their_kinds(rt: HostRuntime) -> Result<(), Fail> {
    for (text, want) in WORDS {
        let kind = TokenKind::Word(Word::from_str(*text).kind());
        assert_name(&rt, rt.alloc(), kind, want)?;
    }
    Ok(())
}
