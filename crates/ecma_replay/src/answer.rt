//! What the steps of the layer above answer.

use ecma_state::error_list::ErrorList;
use ecma_token::TokenAndSpan;

/// What a step answers.
#[derive(Drop)]
pub enum Answer<'a> {
    /// The token that was read.
    Token(TokenAndSpan<'a>),
    /// A read came to the end.
    End,
    /// The step was taken, and there is nothing to answer.
    Done,
    /// The errors that were taken.
    Errors(ErrorList<'a>),
    /// The last answer was no slash, so that there is none to read again.
    NoSlash,
    /// There is no such save.
    NoSave,
    /// There is no context to take away.
    NoContext,
}
