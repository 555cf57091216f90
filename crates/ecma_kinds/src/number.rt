//! Kinds of tokens as numbers, for callers that know no enums.
ghost use Rattle.std.specs.Prelude.{◌≡◌};
ghost use Rattle.ecma_kinds.specs.KindNumbers as spec;

use ecma_token_kind::TokenKind;
use ecma_word::{AssignOp, BinOpToken, IdentKind, Keyword, KnownIdent, WordKind};

fn keyword_number(keyword: Keyword) -> u16
    ensures { result ≡ spec.keyword_number keyword }
{
    match keyword {
        Keyword::Await => 128,
        Keyword::Break => 129,
        Keyword::Case => 130,
        Keyword::Catch => 131,
        Keyword::Continue => 132,
        Keyword::Debugger => 133,
        Keyword::Default_ => 134,
        Keyword::Do => 135,
        Keyword::Else => 136,
        Keyword::Finally => 137,
        Keyword::For => 138,
        Keyword::Function => 139,
        Keyword::If => 140,
        Keyword::Return => 141,
        Keyword::Switch => 142,
        Keyword::Throw => 143,
        Keyword::Try => 144,
        Keyword::Var => 145,
        Keyword::Let => 146,
        Keyword::Const => 147,
        Keyword::While => 148,
        Keyword::With => 149,
        Keyword::New => 150,
        Keyword::This => 151,
        Keyword::Super => 152,
        Keyword::Class => 153,
        Keyword::Extends => 154,
        Keyword::Export => 155,
        Keyword::Import => 156,
        Keyword::Yield => 157,
        Keyword::In => 158,
        Keyword::InstanceOf => 159,
        Keyword::TypeOf => 160,
        Keyword::Void => 161,
        Keyword::Delete => 162,
    }
}

fn name_number(name: KnownIdent) -> u16
    ensures { result ≡ spec.name_number name }
{
    match name {
        KnownIdent::Abstract => 256,
        KnownIdent::As => 257,
        KnownIdent::Async => 258,
        KnownIdent::From => 259,
        KnownIdent::Of => 260,
        KnownIdent::Type_ => 261,
        KnownIdent::Global => 262,
        KnownIdent::Static => 263,
        KnownIdent::Using => 264,
        KnownIdent::Readonly => 265,
        KnownIdent::Unique => 266,
        KnownIdent::Keyof => 267,
        KnownIdent::Declare => 268,
        KnownIdent::Enum => 269,
        KnownIdent::Is => 270,
        KnownIdent::Infer => 271,
        KnownIdent::Symbol => 272,
        KnownIdent::Undefined => 273,
        KnownIdent::Interface => 274,
        KnownIdent::Implements => 275,
        KnownIdent::Asserts => 276,
        KnownIdent::Require => 277,
        KnownIdent::Get => 278,
        KnownIdent::Set => 279,
        KnownIdent::Any => 280,
        KnownIdent::Intrinsic => 281,
        KnownIdent::Unknown => 282,
        KnownIdent::String => 283,
        KnownIdent::Object => 284,
        KnownIdent::Number => 285,
        KnownIdent::Bigint => 286,
        KnownIdent::Boolean => 287,
        KnownIdent::Never => 288,
        KnownIdent::Assert => 289,
        KnownIdent::Namespace => 290,
        KnownIdent::Accessor => 291,
        KnownIdent::Meta => 292,
        KnownIdent::Target => 293,
        KnownIdent::Satisfies => 294,
        KnownIdent::Package => 295,
        KnownIdent::Protected => 296,
        KnownIdent::Private => 297,
        KnownIdent::Public => 298,
    }
}

fn operator_number(op: BinOpToken) -> u16
    ensures { result ≡ spec.operator_number op }
{
    match op {
        BinOpToken::EqEq => 64,
        BinOpToken::NotEq => 65,
        BinOpToken::EqEqEq => 66,
        BinOpToken::NotEqEq => 67,
        BinOpToken::Lt => 68,
        BinOpToken::LtEq => 69,
        BinOpToken::Gt => 70,
        BinOpToken::GtEq => 71,
        BinOpToken::LShift => 72,
        BinOpToken::RShift => 73,
        BinOpToken::ZeroFillRShift => 74,
        BinOpToken::Add => 75,
        BinOpToken::Sub => 76,
        BinOpToken::Mul => 77,
        BinOpToken::Div => 78,
        BinOpToken::Mod => 79,
        BinOpToken::BitOr => 80,
        BinOpToken::BitXor => 81,
        BinOpToken::BitAnd => 82,
        BinOpToken::Exp => 83,
        BinOpToken::LogicalOr => 84,
        BinOpToken::LogicalAnd => 85,
        BinOpToken::NullishCoalescing => 86,
    }
}

fn assignment_number(op: AssignOp) -> u16
    ensures { result ≡ spec.assignment_number op }
{
    match op {
        AssignOp::Assign => 96,
        AssignOp::AddAssign => 97,
        AssignOp::SubAssign => 98,
        AssignOp::MulAssign => 99,
        AssignOp::DivAssign => 100,
        AssignOp::ModAssign => 101,
        AssignOp::LShiftAssign => 102,
        AssignOp::RShiftAssign => 103,
        AssignOp::ZeroFillRShiftAssign => 104,
        AssignOp::BitOrAssign => 105,
        AssignOp::BitXorAssign => 106,
        AssignOp::BitAndAssign => 107,
        AssignOp::ExpAssign => 108,
        AssignOp::AndAssign => 109,
        AssignOp::OrAssign => 110,
        AssignOp::NullishAssign => 111,
    }
}

fn word_number(word: WordKind) -> u16
    ensures { result ≡ spec.word_number word }
{
    match word {
        WordKind::Keyword(keyword) => keyword_number(keyword),
        WordKind::Null => 192,
        WordKind::True => 193,
        WordKind::False => 194,
        WordKind::Ident(IdentKind::Other) => 195,
        WordKind::Ident(IdentKind::Known(name)) => name_number(name),
    }
}

/// The number of a kind: one of its own for each kind ([`laws::kinds_are_told_apart`](crate::laws::kinds_are_told_apart)), of the
/// table of this project (`specs/KindNumbers.antt`). Operators between operands begin at 64, assignments at 96, keywords at 128,
/// `null`, `true`, `false` and names that are not known at 192, known names at 256.
pub fn kind_number(kind: TokenKind) -> u16
    ensures { result ≡ spec.kind_number kind }
{
    match kind {
        TokenKind::Word(word) => word_number(word),
        TokenKind::BinOp(op) => operator_number(op),
        TokenKind::AssignOp(op) => assignment_number(op),
        TokenKind::Arrow => 0,
        TokenKind::Hash => 1,
        TokenKind::At => 2,
        TokenKind::Dot => 3,
        TokenKind::DotDotDot => 4,
        TokenKind::Bang => 5,
        TokenKind::LParen => 6,
        TokenKind::RParen => 7,
        TokenKind::LBracket => 8,
        TokenKind::RBracket => 9,
        TokenKind::LBrace => 10,
        TokenKind::RBrace => 11,
        TokenKind::Semi => 12,
        TokenKind::Comma => 13,
        TokenKind::BackQuote => 14,
        TokenKind::Template => 15,
        TokenKind::Colon => 16,
        TokenKind::DollarLBrace => 17,
        TokenKind::QuestionMark => 18,
        TokenKind::PlusPlus => 19,
        TokenKind::MinusMinus => 20,
        TokenKind::Tilde => 21,
        TokenKind::Str => 22,
        TokenKind::Regex => 23,
        TokenKind::Num => 24,
        TokenKind::BigInt => 25,
        TokenKind::JSXName => 26,
        TokenKind::JSXText => 27,
        TokenKind::JSXTagStart => 28,
        TokenKind::JSXTagEnd => 29,
        TokenKind::Shebang => 30,
        TokenKind::Error => 31,
    }
}
