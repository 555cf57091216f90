//! What an `import` is where a token stands.
ghost use Rattle.std.specs.Prelude.{◌≡◌};
ghost use Rattle.ecma_modules.specs.Regions as regions;

use ecma_module_table::part::{Part, Word};
use ecma_role_table::frame::FrameKind;
use ecma_role_table::state::State;
use ecma_state::Kept;
use ecma_token::TokenKind;
use ecma_word::{BinOpToken, IdentKind, Keyword, KnownIdent, WordKind};

/// What an `import` is where a token stands, as far as what is expected there says. Our own.
#[derive(Clone, Copy, Debug, PartialEq, Eq)]
pub enum Region {
    /// A declaration or an expression; also where nothing is known of what is expected.
    Code,
    /// The name of a member or of a key.
    Name,
    /// A type of TypeScript.
    Type,
    /// In the braces of a type: a type where the token before says so, else the name of a member.
    TypeBraces,
    /// Right in what may be type arguments: a type where the token before says so, else an expression, also behind a comma.
    Arguments,
}

/// A token, and what an `import` is where it stands.
#[derive(Clone, Copy, Debug, PartialEq, Eq)]
pub struct ModuleToken {
    pub kept: Kept,
    pub region: Region,
}

/// In brackets of a type, by the innermost.
fn in_type_brackets(top: Option<FrameKind>) -> Region
    ensures { result ≡ regions.in_type_brackets top }
{
    match top {
        Some(FrameKind::Interface | FrameKind::OuterBrace | FrameKind::InnerBrace) =>
            Region::TypeBraces,
        _ => Region::Type,
    }
}

/// In an expression, by the innermost bracket or mark.
fn in_expression(top: Option<FrameKind>) -> Region
    ensures { result ≡ regions.in_expression top }
{
    match top {
        Some(FrameKind::Candidate | FrameKind::AsyncCandidate) => Region::Arguments,
        _ => Region::Code,
    }
}

/// Whether the word is an operator of types that stands before them.
fn is_type_operator(word: WordKind) -> bool
    ensures { result ≡ regions.is_type_operator word }
{
    matches!(
        word,
        WordKind::Keyword(Keyword::TypeOf)
            | WordKind::Ident(IdentKind::Known(
                KnownIdent::Keyof | KnownIdent::Readonly | KnownIdent::Unique
            ),)
    )
}

/// Whether the word stands between types, or between a name and a type.
fn is_between_types(word: WordKind) -> bool
    ensures { result ≡ regions.is_between_types word }
{
    matches!(
        word,
        WordKind::Keyword(Keyword::Extends | Keyword::In)
            | WordKind::Ident(IdentKind::Known(KnownIdent::Is | KnownIdent::As))
    )
}

/// Whether a type comes behind a token of this kind in the braces of a type, and no name of a member.
fn begins_type(before: TokenKind) -> bool
    ensures { result ≡ regions.begins_type before }
{
    match before {
        TokenKind::Word(word) => is_type_operator(word) || is_between_types(word),
        TokenKind::BinOp(operator) => matches!(operator, BinOpToken::BitOr | BinOpToken::BitAnd),
        _ => matches!(
            before,
            TokenKind::Colon | TokenKind::Arrow | TokenKind::QuestionMark
        ),
    }
}

/// Whether a type comes behind a token of this kind in what may be type arguments: none compares or joins promises.
fn begins_argument(before: TokenKind) -> bool
    ensures { result ≡ regions.begins_argument before }
{
    match before {
        TokenKind::Word(word) => is_type_operator(word),
        TokenKind::BinOp(operator) => matches!(
            operator,
            BinOpToken::Lt | BinOpToken::BitOr | BinOpToken::BitAnd
        ),
        _ => false,
    }
}

impl Region {
    /// Whether the region of a token of this kind is asked for: of an `import` alone.
    #[inline]
    pub fn is_asked(kind: TokenKind) -> bool
        ensures { result ≡ regions.is_asked kind }
    {
        matches!(kind, TokenKind::Word(WordKind::Keyword(Keyword::Import)))
    }

    /// What an `import` is, by the state of a track behind it, and the innermost bracket that is open there, or mark.
    pub fn behind(state: State, top: Option<FrameKind>) -> Region
        ensures { result ≡ regions.region_behind state top }
    {
        match state {
            State::Member | State::Key => Region::Name,
            State::TypeOperand => Region::Type,
            State::TypeBrackets => in_type_brackets(top),
            State::ImportExpression => in_expression(top),
            _ => Region::Code,
        }
    }

    /// What an `import` is behind a token of this kind.
    fn word(self, before: TokenKind) -> Word
        ensures { result ≡ regions.word_behind self before }
    {
        match self {
            Region::Code => Word::Import,
            Region::Name => Word::Other,
            Region::Type => Word::ImportType,
            Region::TypeBraces => if begins_type(before) {
                Word::ImportType
            } else {
                Word::Other
            },
            Region::Arguments => if begins_argument(before) {
                Word::ImportType
            } else {
                Word::Import
            },
        }
    }
}

/// An `import` behind the token before, if there is one.
fn import_in(region: Region, before: Option<TokenKind>) -> Word
    ensures { result ≡ regions.import_in region before }
{
    match before {
        Some(kind) => region.word(kind),
        None => Word::Import,
    }
}

/// What a token is to imports and exports, behind the token before.
#[inline]
pub(crate) fn part_in(token: ModuleToken, before: Option<TokenKind>) -> Part
    ensures { result ≡ regions.part_in token before }
{
    match Part::of(token.kept.kind, token.kept.span) {
        Part::Word(Word::Import) => Part::Word(import_in(token.region, before)),
        part => part,
    }
}
