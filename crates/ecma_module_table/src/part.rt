//! What a token is to imports and exports.
ghost use Rattle.std.specs.Prelude.{◌≡◌, ◌-◌};
ghost use Rattle.ecma_module_table.specs.Parts as parts;

use ecma_span::Span;
use ecma_token_kind::TokenKind;
use ecma_word::{AssignOp, BinOpToken, IdentKind, Keyword, KnownIdent, WordKind};

/// A word; words between which no row tells are one.
#[derive(Clone, Copy, Debug, PartialEq, Eq)]
pub enum Word {
    Import,
    /// `import` where a type of TypeScript begins.
    ImportType,
    Export,
    Default,
    From,
    As,
    Type,
    With,
    Assert,
    Meta,
    Require,
    /// `declare`
    Declare,
    Abstract,
    Async,
    Namespace,
    Interface,
    Enum,
    Function,
    Class,
    /// `extends` or `implements`.
    Heritage,
    /// `var`, `let` or `const`.
    Variable,
    /// `in` or `instanceof`.
    Operator,
    /// Any other of five letters: where a row asks, only `defer` can stand there.
    OfFive,
    /// Any other of six letters: where a row asks, only `source` or `module` can stand there.
    OfSix,
    Other,
}

/// A token, as far as a row asks.
#[derive(Clone, Copy, Debug, PartialEq, Eq)]
pub enum Part {
    Word(Word),
    /// A string.
    Text,
    /// A number.
    Number,
    Paren,
    Brace,
    /// `[`
    Bracket,
    /// `${`
    Substitution,
    EndParen,
    EndBrace,
    EndBracket,
    Star,
    Comma,
    Semi,
    Colon,
    /// `=`
    Equals,
    /// `.` or `#`, behind which a name comes.
    Member,
    /// `...`
    Spread,
    At,
    Bang,
    /// `<`
    Less,
    /// So many of `>`.
    Greater(usize),
    Shebang,
    Other,
}

fn keyword_of(keyword: Keyword) -> Word
    ensures { result ≡ parts.keyword_of keyword }
{
    match keyword {
        Keyword::Import => Word::Import,
        Keyword::Export => Word::Export,
        Keyword::Default_ => Word::Default,
        Keyword::With => Word::With,
        Keyword::Function => Word::Function,
        Keyword::Class => Word::Class,
        Keyword::Extends => Word::Heritage,
        Keyword::Var | Keyword::Let | Keyword::Const => Word::Variable,
        Keyword::In | Keyword::InstanceOf => Word::Operator,
        _ => Word::Other,
    }
}

fn known_of(known: KnownIdent) -> Word
    ensures { result ≡ parts.known_of known }
{
    match known {
        KnownIdent::From => Word::From,
        KnownIdent::As => Word::As,
        KnownIdent::Type_ => Word::Type,
        KnownIdent::Assert => Word::Assert,
        KnownIdent::Meta => Word::Meta,
        KnownIdent::Require => Word::Require,
        KnownIdent::Declare => Word::Declare,
        KnownIdent::Abstract => Word::Abstract,
        KnownIdent::Async => Word::Async,
        KnownIdent::Namespace => Word::Namespace,
        KnownIdent::Interface => Word::Interface,
        KnownIdent::Enum => Word::Enum,
        KnownIdent::Implements => Word::Heritage,
        _ => Word::Other,
    }
}

/// A name that is no known one, by the bytes that it takes.
fn name_of(span: Span) -> Word
    ensures { result ≡ parts.name_of (span.hi.0 - span.lo.0) }
{
    match span.hi.0.saturating_sub(span.lo.0) {
        5 => Word::OfFive,
        6 => Word::OfSix,
        _ => Word::Other,
    }
}

fn word_of(kind: WordKind, span: Span) -> Word
    ensures { result ≡ parts.word_of kind span }
{
    match kind {
        WordKind::Keyword(keyword) => keyword_of(keyword),
        WordKind::Ident(IdentKind::Known(known)) => known_of(known),
        WordKind::Ident(IdentKind::Other) => name_of(span),
        _ => Word::Other,
    }
}

fn operator_of(operator: BinOpToken) -> Part
    ensures { result ≡ parts.operator_of operator }
{
    match operator {
        BinOpToken::Mul => Part::Star,
        BinOpToken::Lt => Part::Less,
        BinOpToken::Gt => Part::Greater(1),
        BinOpToken::RShift => Part::Greater(2),
        BinOpToken::ZeroFillRShift => Part::Greater(3),
        _ => Part::Other,
    }
}

impl Part {
    /// What a token of this kind is that lies there.
    pub fn of(kind: TokenKind, span: Span) -> Part
        ensures { result ≡ parts.part_of kind span }
    {
        match kind {
            TokenKind::Word(word) => Part::Word(word_of(word, span)),
            TokenKind::BinOp(operator) => operator_of(operator),
            TokenKind::AssignOp(AssignOp::Assign) => Part::Equals,
            TokenKind::Str => Part::Text,
            TokenKind::Num | TokenKind::BigInt => Part::Number,
            TokenKind::LParen => Part::Paren,
            TokenKind::LBrace => Part::Brace,
            TokenKind::LBracket => Part::Bracket,
            TokenKind::DollarLBrace => Part::Substitution,
            TokenKind::RParen => Part::EndParen,
            TokenKind::RBrace => Part::EndBrace,
            TokenKind::RBracket => Part::EndBracket,
            TokenKind::Comma => Part::Comma,
            TokenKind::Semi => Part::Semi,
            TokenKind::Colon => Part::Colon,
            TokenKind::Dot | TokenKind::Hash => Part::Member,
            TokenKind::DotDotDot => Part::Spread,
            TokenKind::At => Part::At,
            TokenKind::Bang => Part::Bang,
            TokenKind::Shebang => Part::Shebang,
            _ => Part::Other,
        }
    }

    /// Whether it closes brackets.
    pub fn closes(self) -> bool
        ensures { result ≡ parts.closes self }
    {
        matches!(self, Part::EndParen | Part::EndBrace | Part::EndBracket)
    }

    /// How many brackets are open behind this, where so many are before it.
    pub fn depth_behind(self, depth: usize) -> usize
        ensures { result ≡ parts.next_depth self depth }
    {
        match self {
            Part::Paren | Part::Brace | Part::Bracket | Part::Substitution => more(depth),
            Part::EndParen | Part::EndBrace | Part::EndBracket => depth.saturating_sub(1),
            _ => depth,
        }
    }
}

/// One more, up to the greatest number.
pub fn more(count: usize) -> usize
    ensures { result ≡ parts.more count }
{
    if count < usize::MAX { count + 1 } else { count }
}
