//! Kinds of tokens by their numbers.
ghost use Rattle.std.specs.Prelude.{◌≡◌};
ghost use Rattle.ecma_stored.specs.KindsAt as spec;

use ecma_token::TokenKind;
use ecma_word::{AssignOp, BinOpToken, IdentKind, Keyword, KnownIdent, WordKind};

/// The kind of this number: a keyword; the last one for numbers of none.
fn keyword_at(number: u32) -> Keyword
    ensures { result ≡ spec.keyword_at number }
{
    match number {
        128 => Keyword::Await,
        129 => Keyword::Break,
        130 => Keyword::Case,
        131 => Keyword::Catch,
        132 => Keyword::Continue,
        133 => Keyword::Debugger,
        134 => Keyword::Default_,
        135 => Keyword::Do,
        136 => Keyword::Else,
        137 => Keyword::Finally,
        138 => Keyword::For,
        139 => Keyword::Function,
        140 => Keyword::If,
        141 => Keyword::Return,
        142 => Keyword::Switch,
        143 => Keyword::Throw,
        144 => Keyword::Try,
        145 => Keyword::Var,
        146 => Keyword::Let,
        147 => Keyword::Const,
        148 => Keyword::While,
        149 => Keyword::With,
        150 => Keyword::New,
        151 => Keyword::This,
        152 => Keyword::Super,
        153 => Keyword::Class,
        154 => Keyword::Extends,
        155 => Keyword::Export,
        156 => Keyword::Import,
        157 => Keyword::Yield,
        158 => Keyword::In,
        159 => Keyword::InstanceOf,
        160 => Keyword::TypeOf,
        161 => Keyword::Void,
        _ => Keyword::Delete,
    }
}

/// The kind of this number: a name that is known; the last one for numbers of none.
fn name_at(number: u32) -> KnownIdent
    ensures { result ≡ spec.name_at number }
{
    match number {
        256 => KnownIdent::Abstract,
        257 => KnownIdent::As,
        258 => KnownIdent::Async,
        259 => KnownIdent::From,
        260 => KnownIdent::Of,
        261 => KnownIdent::Type_,
        262 => KnownIdent::Global,
        263 => KnownIdent::Static,
        264 => KnownIdent::Using,
        265 => KnownIdent::Readonly,
        266 => KnownIdent::Unique,
        267 => KnownIdent::Keyof,
        268 => KnownIdent::Declare,
        269 => KnownIdent::Enum,
        270 => KnownIdent::Is,
        271 => KnownIdent::Infer,
        272 => KnownIdent::Symbol,
        273 => KnownIdent::Undefined,
        274 => KnownIdent::Interface,
        275 => KnownIdent::Implements,
        276 => KnownIdent::Asserts,
        277 => KnownIdent::Require,
        278 => KnownIdent::Get,
        279 => KnownIdent::Set,
        280 => KnownIdent::Any,
        281 => KnownIdent::Intrinsic,
        282 => KnownIdent::Unknown,
        283 => KnownIdent::String,
        284 => KnownIdent::Object,
        285 => KnownIdent::Number,
        286 => KnownIdent::Bigint,
        287 => KnownIdent::Boolean,
        288 => KnownIdent::Never,
        289 => KnownIdent::Assert,
        290 => KnownIdent::Namespace,
        291 => KnownIdent::Accessor,
        292 => KnownIdent::Meta,
        293 => KnownIdent::Target,
        294 => KnownIdent::Satisfies,
        295 => KnownIdent::Package,
        296 => KnownIdent::Protected,
        297 => KnownIdent::Private,
        _ => KnownIdent::Public,
    }
}

/// The kind of this number: an operator; the last one for numbers of none.
fn operator_at(number: u32) -> BinOpToken
    ensures { result ≡ spec.operator_at number }
{
    match number {
        64 => BinOpToken::EqEq,
        65 => BinOpToken::NotEq,
        66 => BinOpToken::EqEqEq,
        67 => BinOpToken::NotEqEq,
        68 => BinOpToken::Lt,
        69 => BinOpToken::LtEq,
        70 => BinOpToken::Gt,
        71 => BinOpToken::GtEq,
        72 => BinOpToken::LShift,
        73 => BinOpToken::RShift,
        74 => BinOpToken::ZeroFillRShift,
        75 => BinOpToken::Add,
        76 => BinOpToken::Sub,
        77 => BinOpToken::Mul,
        78 => BinOpToken::Div,
        79 => BinOpToken::Mod,
        80 => BinOpToken::BitOr,
        81 => BinOpToken::BitXor,
        82 => BinOpToken::BitAnd,
        83 => BinOpToken::Exp,
        84 => BinOpToken::LogicalOr,
        85 => BinOpToken::LogicalAnd,
        _ => BinOpToken::NullishCoalescing,
    }
}

/// The kind of this number: an assignment; the last one for numbers of none.
fn assignment_at(number: u32) -> AssignOp
    ensures { result ≡ spec.assignment_at number }
{
    match number {
        96 => AssignOp::Assign,
        97 => AssignOp::AddAssign,
        98 => AssignOp::SubAssign,
        99 => AssignOp::MulAssign,
        100 => AssignOp::DivAssign,
        101 => AssignOp::ModAssign,
        102 => AssignOp::LShiftAssign,
        103 => AssignOp::RShiftAssign,
        104 => AssignOp::ZeroFillRShiftAssign,
        105 => AssignOp::BitOrAssign,
        106 => AssignOp::BitXorAssign,
        107 => AssignOp::BitAndAssign,
        108 => AssignOp::ExpAssign,
        109 => AssignOp::AndAssign,
        110 => AssignOp::OrAssign,
        _ => AssignOp::NullishAssign,
    }
}

/// The kind of this number: a kind without parts; the last one for numbers of none.
fn plain_at(number: u32) -> TokenKind
    ensures { result ≡ spec.plain_at number }
{
    match number {
        0 => TokenKind::Arrow,
        1 => TokenKind::Hash,
        2 => TokenKind::At,
        3 => TokenKind::Dot,
        4 => TokenKind::DotDotDot,
        5 => TokenKind::Bang,
        6 => TokenKind::LParen,
        7 => TokenKind::RParen,
        8 => TokenKind::LBracket,
        9 => TokenKind::RBracket,
        10 => TokenKind::LBrace,
        11 => TokenKind::RBrace,
        12 => TokenKind::Semi,
        13 => TokenKind::Comma,
        14 => TokenKind::BackQuote,
        15 => TokenKind::Template,
        16 => TokenKind::Colon,
        17 => TokenKind::DollarLBrace,
        18 => TokenKind::QuestionMark,
        19 => TokenKind::PlusPlus,
        20 => TokenKind::MinusMinus,
        21 => TokenKind::Tilde,
        22 => TokenKind::Str,
        23 => TokenKind::Regex,
        24 => TokenKind::Num,
        25 => TokenKind::BigInt,
        26 => TokenKind::JSXName,
        27 => TokenKind::JSXText,
        28 => TokenKind::JSXTagStart,
        29 => TokenKind::JSXTagEnd,
        30 => TokenKind::Shebang,
        _ => TokenKind::Error,
    }
}

/// The kind of a word of this number.
fn word_at(number: u32) -> WordKind
    ensures { result ≡ spec.word_at number }
{
    match number {
        192 => WordKind::Null,
        193 => WordKind::True,
        194 => WordKind::False,
        195 => WordKind::Ident(IdentKind::Other),
        _ if number < 192 => WordKind::Keyword(keyword_at(number)),
        _ => WordKind::Ident(IdentKind::Known(name_at(number))),
    }
}

/// The kind of this number; another one for numbers of none.
pub(crate) fn kind_at(number: u32) -> TokenKind
    ensures { result ≡ spec.kind_at number }
{
    if number < 64 {
        plain_at(number)
    } else if number < 96 {
        TokenKind::BinOp(operator_at(number))
    } else if number < 128 {
        TokenKind::AssignOp(assignment_at(number))
    } else {
        TokenKind::Word(word_at(number))
    }
}
