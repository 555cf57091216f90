//! The steps of the layer above.

use ecma_contexts::TokenContexts;
use ecma_syntax::Context;

/// A step of the layer above.
#[derive(Drop)]
pub enum Step {
    /// Reads the next token.
    Read,
    /// Sets the flags of the code that is being read.
    SetCtx(Context),
    /// Says whether an expression may begin.
    SetExprAllowed(bool),
    /// Puts other contexts in the place of those that enclose the place that is read.
    SetContexts(TokenContexts),
    /// Takes the innermost context away.
    PopContext,
    /// Has the next reads begin at the slash that was read last.
    Reread,
    /// Takes that back.
    Withdraw,
    /// Remembers all that the steps so far came to. Saves are numbered from 0, and stay.
    Save,
    /// Goes back to what the steps had come to at a save.
    Back(usize),
    /// Takes the errors that were recorded.
    TakeErrors,
}
