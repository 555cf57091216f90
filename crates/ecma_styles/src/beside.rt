//! What stands beside a token: questions of the kinds there.
ghost use Rattle.std.specs.Prelude.{◌≡◌};
ghost use Rattle.ecma_styles.specs.Beside as beside;
ghost use Rattle.ecma_styles.specs.Styles as style;

use ecma_role_table::frame::FrameKind;
use ecma_role_table::state::State;
use ecma_token::TokenKind;
use ecma_word::{BinOpToken, IdentKind, Keyword, KnownIdent, WordKind};

/// What stands beside a token, and what a track of the tokens expects there.
#[derive(Clone, Copy)]
pub struct Beside {
    /// What is expected before the token.
    pub before: State,
    /// What is expected behind it.
    pub behind: State,
    /// The innermost of what is open behind it.
    pub over: Option<FrameKind>,
    /// The kind of the token before that before.
    pub earlier: Option<TokenKind>,
    /// The kind of the token before.
    pub previous: Option<TokenKind>,
    /// Whether a line terminator comes before the token.
    pub flag: bool,
    /// The kind of the token behind, if no line terminator comes before that.
    pub next: Option<TokenKind>,
}

/// Whether it is a dot or `#`, behind which a property stands.
pub(crate) fn names_property(kind: Option<TokenKind>) -> bool
    ensures { result ≡ style.names_property kind }
{
    matches!(kind, Some(TokenKind::Dot | TokenKind::Hash))
}

pub(crate) fn is_dot(kind: Option<TokenKind>) -> bool
    ensures { result ≡ beside.is_dot kind }
{
    matches!(kind, Some(TokenKind::Dot))
}

pub(crate) fn is_colon(kind: Option<TokenKind>) -> bool
    ensures { result ≡ beside.is_colon kind }
{
    matches!(kind, Some(TokenKind::Colon))
}

pub(crate) fn is_question(kind: Option<TokenKind>) -> bool
    ensures { result ≡ beside.is_question kind }
{
    matches!(kind, Some(TokenKind::QuestionMark))
}

pub(crate) fn is_paren(kind: Option<TokenKind>) -> bool
    ensures { result ≡ beside.is_paren kind }
{
    matches!(kind, Some(TokenKind::LParen))
}

pub(crate) fn is_star(kind: Option<TokenKind>) -> bool
    ensures { result ≡ beside.is_star kind }
{
    matches!(kind, Some(TokenKind::BinOp(BinOpToken::Mul)))
}

pub(crate) fn is_text(kind: Option<TokenKind>) -> bool
    ensures { result ≡ beside.is_text kind }
{
    matches!(kind, Some(TokenKind::Str))
}

pub(crate) fn is_word(kind: Option<TokenKind>) -> bool
    ensures { result ≡ beside.is_word kind }
{
    matches!(kind, Some(TokenKind::Word(_)))
}

/// Whether it is a word that is not reserved.
pub(crate) fn is_ident(kind: Option<TokenKind>) -> bool
    ensures { result ≡ beside.is_ident kind }
{
    matches!(kind, Some(TokenKind::Word(WordKind::Ident(_))))
}

/// Whether it is this keyword.
pub(crate) fn is_class(kind: Option<TokenKind>) -> bool
    ensures { result ≡ beside.is_class kind }
{
    matches!(
        kind,
        Some(TokenKind::Word(WordKind::Keyword(Keyword::Class)))
    )
}

pub(crate) fn is_import(kind: Option<TokenKind>) -> bool
    ensures { result ≡ beside.is_import kind }
{
    matches!(
        kind,
        Some(TokenKind::Word(WordKind::Keyword(Keyword::Import)))
    )
}

pub(crate) fn is_typeof(kind: Option<TokenKind>) -> bool
    ensures { result ≡ beside.is_typeof kind }
{
    matches!(
        kind,
        Some(TokenKind::Word(WordKind::Keyword(Keyword::TypeOf)))
    )
}

/// Whether a class is named behind it.
pub(crate) fn names_class(kind: Option<TokenKind>) -> bool
    ensures { result ≡ beside.names_class kind }
{
    matches!(
        kind,
        Some(TokenKind::Word(WordKind::Keyword(Keyword::New | Keyword::Extends)))
    )
}

pub(crate) fn is_new(kind: Option<TokenKind>) -> bool
    ensures { result ≡ beside.is_new kind }
{
    matches!(kind, Some(TokenKind::Word(WordKind::Keyword(Keyword::New))))
}

/// Whether it is this known name.
pub(crate) fn is_as(kind: Option<TokenKind>) -> bool
    ensures { result ≡ beside.is_as kind }
{
    matches!(
        kind,
        Some(TokenKind::Word(WordKind::Ident(IdentKind::Known(KnownIdent::As))))
    )
}

pub(crate) fn is_from(kind: Option<TokenKind>) -> bool
    ensures { result ≡ beside.is_from kind }
{
    matches!(
        kind,
        Some(TokenKind::Word(WordKind::Ident(IdentKind::Known(KnownIdent::From))))
    )
}

pub(crate) fn is_is(kind: Option<TokenKind>) -> bool
    ensures { result ≡ beside.is_is kind }
{
    matches!(
        kind,
        Some(TokenKind::Word(WordKind::Ident(IdentKind::Known(KnownIdent::Is))))
    )
}

pub(crate) fn is_declare(kind: Option<TokenKind>) -> bool
    ensures { result ≡ beside.is_declare kind }
{
    matches!(
        kind,
        Some(TokenKind::Word(WordKind::Ident(IdentKind::Known(KnownIdent::Declare))))
    )
}

/// Whether a key begins with it, so that a word before it is none; a static block too.
pub(crate) fn begins_key(kind: Option<TokenKind>) -> bool
    ensures { result ≡ beside.begins_key kind }
{
    matches!(
        kind,
        Some(
            TokenKind::Word(_)
                | TokenKind::Str
                | TokenKind::Num
                | TokenKind::BigInt
                | TokenKind::LBracket
                | TokenKind::LBrace
                | TokenKind::Hash
                | TokenKind::BinOp(BinOpToken::Mul)
        )
    )
}

/// Whether the parameters of a method begin with it, or its type parameters.
pub(crate) fn begins_parameters(kind: Option<TokenKind>) -> bool
    ensures { result ≡ beside.begins_parameters kind }
{
    matches!(
        kind,
        Some(TokenKind::LParen | TokenKind::BinOp(BinOpToken::Lt))
    )
}

/// Whether a type begins with it, behind a word that changes types.
pub(crate) fn begins_type(kind: Option<TokenKind>) -> bool
    ensures { result ≡ beside.begins_type kind }
{
    matches!(
        kind,
        Some(TokenKind::Word(_) | TokenKind::LBracket | TokenKind::LBrace | TokenKind::LParen)
    )
}

/// Whether an async function begins with it, behind `async`: parentheses too, though a call of `async` has them.
pub(crate) fn begins_async(kind: Option<TokenKind>) -> bool
    ensures { result ≡ beside.begins_async kind }
{
    matches!(
        kind,
        Some(
            TokenKind::Word(WordKind::Ident(_) | WordKind::Keyword(Keyword::Function))
                | TokenKind::LParen
        )
    )
}

/// Whether it is what is imported, behind a word for how.
pub(crate) fn begins_import(kind: Option<TokenKind>) -> bool
    ensures { result ≡ beside.begins_import kind }
{
    match kind {
        Some(TokenKind::LBrace | TokenKind::BinOp(BinOpToken::Mul)) => true,
        _ => is_ident(kind) && !is_from(kind),
    }
}

/// Whether it is a word that is no operator.
pub(crate) fn is_declared(kind: Option<TokenKind>) -> bool
    ensures { result ≡ beside.is_declared kind }
{
    match kind {
        Some(TokenKind::Word(WordKind::Keyword(Keyword::In | Keyword::InstanceOf))) => false,
        Some(
            TokenKind::Word(
                WordKind::Ident(
                    IdentKind::Known(KnownIdent::As | KnownIdent::Satisfies | KnownIdent::Of),
                ),
            ),
        ) => false,
        _ => is_word(kind),
    }
}

/// Whether a key of an object, a member of a class or of an enumeration is read behind the token.
pub(crate) fn is_key(behind: State) -> bool
    ensures { result ≡ beside.is_key behind }
{
    matches!(
        behind,
        State::Key
            | State::KeyAsync
            | State::KeyCommaName
            | State::KeyCommaParameter
            | State::Member
            | State::MemberAsync
    )
}

/// Whether it is an object, in which a name alone is a key and its value.
pub(crate) fn is_object(over: Option<FrameKind>) -> bool
    ensures { result ≡ beside.is_object over }
{
    matches!(over, Some(FrameKind::Object | FrameKind::Candidate))
}

/// Whether it is the braces of a type.
pub(crate) fn is_type_brace(over: Option<FrameKind>) -> bool
    ensures { result ≡ beside.is_type_brace over }
{
    matches!(
        over,
        Some(FrameKind::InnerBrace | FrameKind::OuterBrace | FrameKind::Interface)
    )
}

/// Whether it is the parentheses of a type.
pub(crate) fn is_type_paren(over: Option<FrameKind>) -> bool
    ensures { result ≡ beside.is_type_paren over }
{
    matches!(
        over,
        Some(
            FrameKind::InnerParen
                | FrameKind::OuterParen
                | FrameKind::OuterPattern
                | FrameKind::OuterParameters
        )
    )
}

/// Whether it is the brackets of a type.
pub(crate) fn is_type_bracket(over: Option<FrameKind>) -> bool
    ensures { result ≡ beside.is_type_bracket over }
{
    matches!(
        over,
        Some(FrameKind::InnerBracket | FrameKind::OuterBracket)
    )
}
