//! What is said of a part of a text.
ghost use Rattle.std.specs.Prelude.{◌<◌, ◌^◌};

use ecma_span::Span;

/// What is said of a part of a text.
#[derive(Drop)]
pub struct Mark {
    pub span: Span,
    /// The line of the place where the span begins, from 1.
    pub line: usize,
    /// Its column, from 1, in bytes.
    pub column: usize,
    /// What is said. A line feed in it is written as a space.
    pub message: String,
    ghost fits: { column < 2 ^ 64 },
}
