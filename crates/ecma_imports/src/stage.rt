//! The stages of an import.
ghost use Rattle.std.specs.Prelude.{◌≡◌, ◌<◌};
ghost use Rattle.ecma_imports.specs.Stages as table;

use ecma_syntax::{BinOpToken, IdentKind, Keyword, KnownIdent, WordKind};
use ecma_token::TokenKind;

/// What a token is to an import.
#[derive(Clone, Copy, PartialEq, Eq, Debug)]
pub(crate) enum Part {
    Import,
    Export,
    From,
    Type,
    /// Any other word.
    Word,
    /// A string.
    Text,
    Paren,
    Brace,
    /// `[` or `${`.
    Bracket,
    /// `)` or `]`.
    Closing,
    EndBrace,
    Star,
    Comma,
    /// `.` or `#`, behind which a name comes.
    Member,
    Other,
}

impl Part {
    fn of_word(kind: WordKind) -> Part
        ensures { result ≡ table.word_part kind }
    {
        match kind {
            WordKind::Keyword(Keyword::Import) => Part::Import,
            WordKind::Keyword(Keyword::Export) => Part::Export,
            WordKind::Ident(IdentKind::Known(KnownIdent::From)) => Part::From,
            WordKind::Ident(IdentKind::Known(KnownIdent::Type_)) => Part::Type,
            _ => Part::Word,
        }
    }

    /// What a token of this kind is.
    pub(crate) fn of(kind: TokenKind) -> Part
        ensures { result ≡ table.part_of kind }
    {
        match kind {
            TokenKind::Word(word) => Part::of_word(word),
            TokenKind::Str => Part::Text,
            TokenKind::LParen => Part::Paren,
            TokenKind::LBrace => Part::Brace,
            TokenKind::LBracket | TokenKind::DollarLBrace => Part::Bracket,
            TokenKind::RParen | TokenKind::RBracket => Part::Closing,
            TokenKind::RBrace => Part::EndBrace,
            TokenKind::Comma => Part::Comma,
            TokenKind::BinOp(BinOpToken::Mul) => Part::Star,
            TokenKind::Dot | TokenKind::Hash => Part::Member,
            _ => Part::Other,
        }
    }

    /// How many brackets are open behind this, where so many are before it.
    pub(crate) fn depth_behind(self, depth: usize) -> usize
        requires { depth < usize.MAX }
        ensures { result ≡ table.next_depth depth self }
    {
        match self {
            Part::Paren | Part::Brace | Part::Bracket => depth + 1,
            Part::Closing | Part::EndBrace => depth.saturating_sub(1),
            _ => depth,
        }
    }
}

/// What the tokens before say of an import.
#[derive(Clone, Copy, PartialEq, Eq, Debug)]
pub(crate) enum Stage {
    Nothing,
    /// Behind `.` or `#`.
    Member,
    /// Behind `import` at top level.
    Import,
    /// Behind `import` elsewhere.
    Inside,
    /// Behind `import(`.
    Call,
    /// Behind `export` at top level, or `export type`.
    Export,
    /// Among the names of an import or export.
    Names,
    /// Behind the braces round them.
    Closed,
    /// Behind `from`.
    From,
}

impl Stage {
    /// Behind a token of which the stage before says nothing.
    fn begun(top: bool, part: Part) -> Stage
        ensures { result ≡ table.begun top part }
    {
        match part {
            Part::Import => { if top { Stage::Import } else { Stage::Inside } }
            Part::Export if top => Stage::Export,
            Part::Member => Stage::Member,
            _ => Stage::Nothing,
        }
    }

    fn behind_import(part: Part) -> Stage
        ensures { result ≡ table.behind_import part }
    {
        match part {
            Part::Paren => Stage::Call,
            Part::From | Part::Type | Part::Word | Part::Brace | Part::Star => Stage::Names,
            _ => Stage::begun(true, part),
        }
    }

    fn behind_export(top: bool, part: Part) -> Stage
        ensures { result ≡ table.behind_export top part }
    {
        match part {
            Part::Brace | Part::Star => Stage::Names,
            Part::Type => Stage::Export,
            _ => Stage::begun(top, part),
        }
    }

    fn behind_name(part: Part) -> Stage
        ensures { result ≡ table.behind_name part }
    {
        match part {
            Part::From => Stage::From,
            Part::Type | Part::Word | Part::Text | Part::Comma | Part::Brace | Part::Star =>
                Stage::Names,
            _ => Stage::begun(true, part),
        }
    }

    fn among_names(depth: usize, part: Part) -> Stage
        ensures { result ≡ table.among_names depth part }
    {
        if depth == 0 {
            return Stage::behind_name(part);
        }
        if part == Part::EndBrace && depth == 1 {
            Stage::Closed
        } else {
            Stage::Names
        }
    }

    /// Behind a token so many brackets deep.
    pub(crate) fn next(self, depth: usize, part: Part) -> Stage
        ensures { result ≡ table.next_stage self depth part }
    {
        let top = depth == 0;
        match self {
            Stage::Nothing | Stage::Call => Stage::begun(top, part),
            Stage::Member if part == Part::Member => Stage::Member,
            Stage::Member => Stage::Nothing,
            Stage::Import => Stage::behind_import(part),
            Stage::Inside if part == Part::Paren => Stage::Call,
            Stage::Inside => Stage::begun(top, part),
            Stage::Export => Stage::behind_export(top, part),
            Stage::Names => Stage::among_names(depth, part),
            Stage::Closed | Stage::From if part == Part::From => Stage::From,
            Stage::Closed | Stage::From => Stage::begun(top, part),
        }
    }
}
