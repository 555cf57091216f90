//! Where a tracked lexer is.
ghost use Rattle.std.specs.Prelude.{◌≡◌, IfOk};

use ecma_checkpoint::Checkpoint;
use ecma_slashes::Decider;
use std::alloc::AllocError;
use std::marker::Model;

/// Where a [`Tracked`](crate::Tracked) is between two reads: where its lexer is, and what the tokens up to there lead to. It
/// holds no text. Our own.
pub struct TrackedCheckpoint {
    pub(crate) place: Checkpoint,
    pub(crate) decider: Decider<'static>,
    /// Whether memory was refused.
    pub(crate) refused: bool,
}

/// By hand, so that a function that drops one proves one call.
impl Drop for TrackedCheckpoint {
    fn drop(self) {
        let TrackedCheckpoint {
            place: _,
            decider: _,
            refused: _,
        } = self;
    }
}

impl Model for TrackedCheckpoint {
    ghost use Rattle.ecma_tracked.specs.Marked.{IsMarked, mark_view};
    ghost use Rattle.ecma_tracked.specs.Marks.{MarkValue};

    ghost Value = { MarkValue };

    ghost view = { mark_view };

    ghost invariant = { IsMarked };
}

impl TrackedCheckpoint {
    /// The same checkpoint. It does not allocate where [`Tracked::checkpoint`](crate::Tracked::checkpoint) there did not.
    ///
    /// # Errors
    ///
    /// `AllocError` where there is no memory for the contexts and the track.
    pub fn copy(&self) -> Result<TrackedCheckpoint, AllocError>
        ensures { IfOk result (λ c. c ≡ self.now) }
    {
        Ok(TrackedCheckpoint {
            place: self.place.copy()?,
            decider: self.decider.copy()?,
            refused: self.refused,
        })
    }
}
