//! What a reader found.
ghost use Rattle.std.specs.Prelude.{◌≡◌, ◌++◌, ◌∷◌, [], map, OnOk};
ghost use Rattle.ecma_token.specs.View.{kind_view};
ghost use Rattle.ecma_grammar.specs.Found.{fault_view};

use ecma_place::Span;
use ecma_token::{Error, SyntaxError};
use std::alloc::{AllocError, Global};

/// When a fault counts.
#[derive(Debug, Clone, Copy, PartialEq, Eq, Hash)]
pub enum Blame {
    /// Whatever the code is.
    Always,
    /// In strict code.
    Strict,
    /// In module code.
    Module,
}

/// What a reader found: a value, or why the text is refused.
#[derive(Drop)]
pub struct Found<'a, T> {
    /// The value, or the refusal.
    pub value: Result<T, Error<'a>>,
    /// What else is wrong, in the order in which it was found.
    pub faults: Vec<(Blame, Error<'a>)>,
    /// From the first character that was read to behind the last, in places.
    pub extent: Span,
    /// Whether a line terminator is in the text as itself.
    pub line_break: bool,
}

/// Adds a fault.
pub fn push_fault<'a>(
    alloc: Global,
    faults: &mut Vec<(Blame, Error<'a>)>,
    blame: Blame,
    span: Span,
    kind: SyntaxError<'a>,
) -> Result<(), AllocError>
    ensures { OnOk result (map fault_view faults.new.items ≡ map fault_view faults.old.items
        ++ record { blame = blame; error = record { kind = kind_view kind.entry; span = span } } ∷ []) }
{
    let error = Error::new(alloc, span, kind)?;
    faults.push((blame, error))?;
    Ok(())
}
