//! Pieces of a text.
ghost use Rattle.std.specs.Prelude.{◌≡◌, ◌++◌, OnOk};
ghost use Rattle.ecma_classes.specs.Classes.{pieces_over};

use ecma_place::Span;
use std::alloc::AllocError;

/// What a piece of a text is.
#[derive(Clone, Copy, Debug, PartialEq, Eq)]
pub enum Class {
    /// A token.
    Token,
    /// A comment that lies in no token.
    Comment,
    /// What lies in neither: white space, line terminators, and what the lexer passes without telling of it.
    Trivia,
}

/// A part of a text, and what it is.
#[derive(Clone, Copy, Debug, PartialEq, Eq)]
pub struct Piece {
    pub span: Span,
    pub class: Class,
}

/// Adds a piece over the span, unless that holds no byte.
pub(crate) fn push_over(pieces: &mut Vec<Piece>, class: Class, span: Span) -> Result<(), AllocError>
    ensures { OnOk result (pieces.new.items ≡ pieces.old.items ++ pieces_over class span) }
{
    if span.lo.0 < span.hi.0 {
        pieces.push(Piece { span, class })?;
    }
    Ok(())
}
