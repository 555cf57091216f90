//! Which kinds may stand before an expression, begin one, and follow `let`.

use ecma_syntax::{AssignOp, BinOpToken, Word};
use ecma_token::TokenKind;

/// Whether the kind answers so: before an expression, at its beginning, behind `let` (whatever the mode).
fn answers(kind: TokenKind, before: bool, starts: bool, follows: bool) -> bool {
    kind.before_expr() == before
        && kind.starts_expr() == starts
        && kind.follows_keyword_let(false) == follows
        && kind.follows_keyword_let(true) == follows
}

/// All keywords, then the literal words, then names.
const WORDS: &[(&str, bool, bool, bool)] = &[
    ("await", true, true, true),
    ("break", false, false, false),
    ("case", true, false, false),
    ("catch", false, false, false),
    ("continue", false, false, false),
    ("debugger", false, false, false),
    ("default", true, false, false),
    ("do", true, false, false),
    ("else", true, false, false),
    ("finally", false, false, false),
    ("for", false, false, false),
    ("function", false, true, false),
    ("if", false, false, false),
    ("return", true, false, false),
    ("switch", false, false, false),
    ("throw", true, true, false),
    ("try", false, false, false),
    ("var", false, false, false),
    ("let", false, false, true),
    ("const", false, false, false),
    ("while", false, false, false),
    ("with", false, false, false),
    ("new", true, true, false),
    ("this", false, true, false),
    ("super", false, true, false),
    ("class", false, true, false),
    ("extends", true, false, false),
    ("export", false, false, false),
    ("import", false, true, false),
    ("yield", true, true, true),
    ("in", true, false, false),
    ("instanceof", true, false, false),
    ("typeof", true, true, false),
    ("void", true, true, false),
    ("delete", true, true, false),
    ("null", false, true, false),
    ("true", false, true, false),
    ("false", false, true, false),
    ("of", false, true, true),
    ("async", false, true, true),
    ("enum", false, true, true),
    ("static", false, true, true),
    ("x", false, true, true),
    ("$", false, true, true),
];

#[test]
fn words(rt: HostRuntime) {
    for (text, before, starts, follows) in WORDS {
        let kind = TokenKind::Word(Word::from_str(*text).kind());
        assert!(rt; answers(kind, *before, *starts, *follows));
    }
}

const KINDS: &[(TokenKind, bool, bool, bool)] = &[
    (TokenKind::Arrow, true, false, false),
    (TokenKind::Hash, false, false, false),
    (TokenKind::At, false, false, false),
    (TokenKind::Dot, false, false, false),
    (TokenKind::DotDotDot, true, false, false),
    (TokenKind::Bang, true, true, false),
    (TokenKind::LParen, true, true, false),
    (TokenKind::RParen, false, false, false),
    (TokenKind::LBracket, true, true, true),
    (TokenKind::RBracket, false, false, false),
    (TokenKind::LBrace, true, true, true),
    (TokenKind::RBrace, false, false, false),
    (TokenKind::Semi, true, false, false),
    (TokenKind::Comma, true, false, false),
    (TokenKind::BackQuote, false, true, false),
    (TokenKind::Template, false, false, false),
    (TokenKind::Colon, true, false, false),
    (TokenKind::DollarLBrace, true, true, false),
    (TokenKind::QuestionMark, true, false, false),
    (TokenKind::PlusPlus, true, true, false),
    (TokenKind::MinusMinus, true, true, false),
    (TokenKind::Tilde, true, true, false),
    (TokenKind::Str, false, true, false),
    (TokenKind::Regex, false, true, false),
    (TokenKind::Num, false, true, false),
    (TokenKind::BigInt, false, true, false),
    (TokenKind::JSXName, false, false, false),
    (TokenKind::JSXText, true, false, false),
    (TokenKind::JSXTagStart, false, true, false),
    (TokenKind::JSXTagEnd, false, false, false),
    (TokenKind::Shebang, false, false, false),
    (TokenKind::Error, false, false, false),
];

#[test]
fn kinds_of_their_own(rt: HostRuntime) {
    for (kind, before, starts, follows) in KINDS {
        assert!(rt; answers(*kind, *before, *starts, *follows));
    }
}

/// An expression may follow each of them, and begin with a sign.
const OPERATORS: &[(BinOpToken, bool)] = &[
    (BinOpToken::EqEq, false),
    (BinOpToken::NotEq, false),
    (BinOpToken::EqEqEq, false),
    (BinOpToken::NotEqEq, false),
    (BinOpToken::Lt, false),
    (BinOpToken::LtEq, false),
    (BinOpToken::Gt, false),
    (BinOpToken::GtEq, false),
    (BinOpToken::LShift, false),
    (BinOpToken::RShift, false),
    (BinOpToken::ZeroFillRShift, false),
    (BinOpToken::Add, true),
    (BinOpToken::Sub, true),
    (BinOpToken::Mul, false),
    (BinOpToken::Div, false),
    (BinOpToken::Mod, false),
    (BinOpToken::BitOr, false),
    (BinOpToken::BitXor, false),
    (BinOpToken::BitAnd, false),
    (BinOpToken::Exp, false),
    (BinOpToken::LogicalOr, false),
    (BinOpToken::LogicalAnd, false),
    (BinOpToken::NullishCoalescing, false),
];

#[test]
fn operators(rt: HostRuntime) {
    for (operator, starts) in OPERATORS {
        assert!(rt; answers(TokenKind::BinOp(*operator), true, *starts, false));
    }
}

const ASSIGNMENTS: &[AssignOp] = &[
    AssignOp::Assign,
    AssignOp::AddAssign,
    AssignOp::SubAssign,
    AssignOp::MulAssign,
    AssignOp::DivAssign,
    AssignOp::ModAssign,
    AssignOp::LShiftAssign,
    AssignOp::RShiftAssign,
    AssignOp::ZeroFillRShiftAssign,
    AssignOp::BitOrAssign,
    AssignOp::BitXorAssign,
    AssignOp::BitAndAssign,
    AssignOp::ExpAssign,
    AssignOp::AndAssign,
    AssignOp::OrAssign,
    AssignOp::NullishAssign,
];

#[test]
fn assignments(rt: HostRuntime) {
    for operator in ASSIGNMENTS {
        assert!(rt; answers(TokenKind::AssignOp(*operator), true, false, false));
    }
}
