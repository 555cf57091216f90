//! A row: what is reported of a part of a text.

use ecma_span::{BytePos, Span};

/// What is reported of an import besides what all rows have.
#[derive(Clone, Copy, Debug, PartialEq, Eq)]
pub struct Imported {
    /// The phase up to which the module is brought, where it is not evaluated at once.
    pub phase: Option<&'static str>,
    /// Whether types alone are imported.
    pub is_type: bool,
    pub statement: Span,
    /// The braces of its attributes.
    pub attributes: Option<Span>,
}

/// What a token means, as a row tells it.
#[derive(Clone, Copy, Debug, PartialEq, Eq)]
pub enum Value<'r> {
    /// No more than its text says.
    Nothing,
    /// Of a string, or of the text of a template, what it stands for; of a word, its name.
    Text(&'r str),
    /// Of the text of a template that stands for nothing.
    Null,
    /// Of a number: its radix, its digits, and the number itself where it is told.
    Digits {
        radix: usize,
        digits: &'r str,
        exact: Option<usize>,
    },
    /// Of a regular expression.
    Expression {
        pattern: &'r str,
        flags: &'r str,
    },
}

/// What is reported of a part of a text besides what all rows have.
#[derive(Clone, Copy, Debug, PartialEq, Eq)]
pub enum More<'r> {
    Nothing,
    /// Of a token: whether a line terminator, or nothing, comes before it.
    LineBreak(bool),
    /// Of a token whose value is told: the same, and its value.
    Valued {
        line_break: bool,
        value: Value<'r>,
    },
    /// Of an error: its text is a message for people.
    Message,
    /// Of a comment: on which side of its token it is, and the token's place.
    Beside {
        side: &'static str,
        token: BytePos,
    },
    Import(Imported),
    /// Of an export: the name in the module, where it has one, and whether it is of a type.
    Export {
        local: Option<&'r str>,
        is_type: bool,
    },
}

/// What is reported of a part of a text.
#[derive(Clone, Copy)]
pub struct Row<'r> {
    pub kind: &'r str,
    pub span: Span,
    pub more: More<'r>,
    pub text: &'r str,
}
