//! The debug text of a token of each variant.

use super::{assert_debug_text, owned, span};
use ecma_span::Atom;
use ecma_syntax::{AssignOp, BinOpToken, Word};
use ecma_token::{Error, Radix, SyntaxError, Token, TokenKind};
use std::alloc::{AllocError, Global};
use std::process::Abort;
use std::test::Fail;

const PUNCTUATORS: &[(TokenKind, &str)] = &[
    (TokenKind::Arrow, "=>"),
    (TokenKind::Hash, "#"),
    (TokenKind::At, "@"),
    (TokenKind::Dot, "."),
    (TokenKind::DotDotDot, "..."),
    (TokenKind::Bang, "!"),
    (TokenKind::LParen, "("),
    (TokenKind::RParen, ")"),
    (TokenKind::LBracket, "["),
    (TokenKind::RBracket, "]"),
    (TokenKind::LBrace, "{"),
    (TokenKind::RBrace, "}"),
    (TokenKind::Semi, ";"),
    (TokenKind::Comma, ","),
    (TokenKind::BackQuote, "`"),
    (TokenKind::Colon, ":"),
    (TokenKind::DollarLBrace, "${"),
    (TokenKind::QuestionMark, "?"),
    (TokenKind::PlusPlus, "++"),
    (TokenKind::MinusMinus, "--"),
    (TokenKind::Tilde, "~"),
    (TokenKind::JSXTagStart, "< (jsx tag start)"),
    (TokenKind::JSXTagEnd, "> (jsx tag end)"),
    (TokenKind::BinOp(BinOpToken::ZeroFillRShift), ">>>"),
    (TokenKind::AssignOp(AssignOp::NullishAssign), "??="),
];

// The token of this kind, where the kind says all of it.
fn punctuator(kind: TokenKind) -> Option<Token<'static>> {
    match kind {
        TokenKind::Arrow => Some(Token::Arrow),
        TokenKind::Hash => Some(Token::Hash),
        TokenKind::At => Some(Token::At),
        TokenKind::Dot => Some(Token::Dot),
        TokenKind::DotDotDot => Some(Token::DotDotDot),
        TokenKind::Bang => Some(Token::Bang),
        TokenKind::LParen => Some(Token::LParen),
        TokenKind::RParen => Some(Token::RParen),
        TokenKind::LBracket => Some(Token::LBracket),
        TokenKind::RBracket => Some(Token::RBracket),
        TokenKind::LBrace => Some(Token::LBrace),
        TokenKind::RBrace => Some(Token::RBrace),
        TokenKind::Semi => Some(Token::Semi),
        TokenKind::Comma => Some(Token::Comma),
        TokenKind::BackQuote => Some(Token::BackQuote),
        TokenKind::Colon => Some(Token::Colon),
        TokenKind::DollarLBrace => Some(Token::DollarLBrace),
        TokenKind::QuestionMark => Some(Token::QuestionMark),
        TokenKind::PlusPlus => Some(Token::PlusPlus),
        TokenKind::MinusMinus => Some(Token::MinusMinus),
        TokenKind::Tilde => Some(Token::Tilde),
        TokenKind::JSXTagStart => Some(Token::JSXTagStart),
        TokenKind::JSXTagEnd => Some(Token::JSXTagEnd),
        TokenKind::BinOp(operator) => Some(Token::BinOp(operator)),
        TokenKind::AssignOp(operator) => Some(Token::AssignOp(operator)),
        _ => None,
    }
}

fn assert_punctuator(
    rt: &impl Abort,
    alloc: Global,
    kind: TokenKind,
    want: &str,
) -> Result<(), Fail> {
    match punctuator(kind) {
        Some(token) => assert_debug_text(rt, alloc, token, want),
        None => panic!(rt; "no punctuator"),
    }
}

#[test]
fn debug_texts_of_punctuators(rt: HostRuntime) -> Result<(), Fail> {
    for (kind, want) in PUNCTUATORS {
        assert_punctuator(&rt, rt.alloc(), *kind, want)?;
    }
    Ok(())
}

// A word or a literal whose texts are borrowed: a table cannot hold the tokens themselves, since its proof would go
// through the end of each of them.
#[derive(Clone, Copy)]
enum Borrowed {
    Word(&'static str),
    Str(&'static str, &'static str),
    Regex(&'static str, &'static str),
    BigInt(&'static str, &'static str),
    JSXName(&'static str),
    JSXText(&'static str, &'static str),
    Shebang(&'static str),
}

impl Borrowed {
    fn token(self) -> Token<'static> {
        match self {
            Borrowed::Word(text) => Token::Word(Word::from_str(text)),
            Borrowed::Str(value, raw) => Token::Str {
                value: Atom::from(value),
                raw: Atom::from(raw),
            },
            Borrowed::Regex(body, flags) => Token::Regex(Atom::from(body), Atom::from(flags)),
            Borrowed::BigInt(digits, raw) => Token::BigInt {
                raw: Atom::from(raw),
                radix: Radix::Decimal,
                digits: Atom::from(digits),
            },
            Borrowed::JSXName(name) => Token::JSXName {
                name: Atom::from(name),
            },
            Borrowed::JSXText(value, raw) => Token::JSXText {
                value: Atom::from(value),
                raw: Atom::from(raw),
            },
            Borrowed::Shebang(text) => Token::Shebang(Atom::from(text)),
        }
    }
}

const BORROWED: &[(Borrowed, &str)] = &[
    (Borrowed::Word("instanceof"), "instanceof"),
    (Borrowed::Word("null"), "null"),
    (Borrowed::Word("type"), "type"),
    (Borrowed::Word("x"), "x"),
    (Borrowed::Str("a", "'a'"), "string literal (a, 'a')"),
    (Borrowed::Regex("[/]+", "gu"), "regexp literal ([/]+, gu)"),
    (Borrowed::BigInt("10", "10n"), "bigint literal (10, 10n)"),
    (Borrowed::JSXName("a-b"), "jsx name (a-b)"),
    (Borrowed::JSXText("<", "&lt;"), "jsx text (&lt;)"),
    (Borrowed::Shebang("/bin/node"), "#!"),
];

#[test]
fn debug_texts_of_words_and_literals(rt: HostRuntime) -> Result<(), Fail> {
    for (borrowed, want) in BORROWED {
        assert_debug_text(&rt, rt.alloc(), borrowed.token(), want)?;
    }
    Ok(())
}

fn template<'a>(alloc: Global) -> Result<Token<'a>, AllocError> {
    let cooked = owned(alloc, "a\n")?;
    Ok(Token::Template {
        raw: Atom::from("a\\n"),
        cooked: Ok(cooked),
    })
}

fn refused_template<'a>(alloc: Global) -> Result<Token<'a>, AllocError> {
    let refused = Error::new(alloc, span(1, 10), SyntaxError::InvalidStrEscape)?;
    Ok(Token::Template {
        raw: Atom::from("\\u{}"),
        cooked: Err(refused),
    })
}

fn separated_number<'a>(alloc: Global) -> Result<Token<'a>, AllocError> {
    let digits = owned(alloc, "10")?;
    Ok(Token::Num {
        raw: Atom::from("0b1_0"),
        radix: Radix::Binary,
        digits,
        whole: Some(2),
    })
}

fn unexpected_nul<'a>(alloc: Global) -> Result<Token<'a>, AllocError> {
    let unexpected = SyntaxError::UnexpectedChar { c: '\0' };
    Ok(Token::Error(Error::new(alloc, span(0, 0), unexpected)?))
}

#[test]
fn debug_texts_of_templates(rt: HostRuntime) -> Result<(), Fail> {
    let alloc = rt.alloc();
    assert_debug_text(&rt, alloc, template(alloc)?, "template token (a\\n)")?;
    assert_debug_text(
        &rt,
        alloc,
        refused_template(alloc)?,
        "template token (\\u{})",
    )
}

#[test]
fn debug_text_of_a_number_with_a_separator(rt: HostRuntime) -> Result<(), Fail> {
    let alloc = rt.alloc();
    assert_debug_text(
        &rt,
        alloc,
        separated_number(alloc)?,
        "numeric literal (0b1_0)",
    )
}

#[test]
fn debug_text_of_an_error(rt: HostRuntime) -> Result<(), Fail> {
    let alloc = rt.alloc();
    let want = "<lexing error: Unexpected character '\\0'>";
    assert_debug_text(&rt, alloc, unexpected_nul(alloc)?, want)
}
