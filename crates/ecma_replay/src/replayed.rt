//! What the steps of a replay came to.

use crate::answer::Answer;
use ecma_state::comments_buffer::BufferedComment;
use ecma_state::error_list::ErrorList;
use ecma_state::kept::Kept;

/// What the steps of a replay came to.
#[derive(Drop)]
pub struct Replay<'a> {
    /// One answer for each step.
    pub answers: Vec<Answer<'a>>,
    /// The tokens that are kept, in order: one that was read again takes the place of its slash.
    pub kept: Vec<Kept>,
    /// The errors that were recorded and not taken, in order.
    pub errors: ErrorList<'a>,
    /// The errors that wait until the code is known to be a module, in order.
    pub waiting: ErrorList<'a>,
    /// The comments, in the order in which they would be handed over, where the settings collect them.
    pub comments: Vec<BufferedComment<'a>>,
    /// Whether the last read that counts was the end.
    pub ended: bool,
}
