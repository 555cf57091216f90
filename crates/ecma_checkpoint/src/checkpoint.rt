//! Where a lexer is between two reads, as plain data: no text, and no list but the contexts. Our own.
ghost use Rattle.std.specs.Prelude.{◌≡◌, ◌≤◌, ◌↔◌, Some, length, IsTrue, IfOk, IsOk};
ghost use Rattle.ecma_checkpoint.specs.Checkpoints.{ArePlaces, AreSlashes, Fits, Suits, Within};
ghost use Rattle.ecma_state.specs.Slashes.{StandsSlash};

use ecma_place::{BytePos, StringInput};
use ecma_state::state::State;
use ecma_syntax::Context;
use std::alloc::AllocError;
use std::marker::Model;

/// How many errors and comments a lexer keeps: going back cuts its lists to so many.
#[derive(Debug, Clone, Copy, PartialEq, Eq)]
pub struct Counts {
    pub recorded: usize,
    /// Of the errors that wait until the code is known to be a module.
    pub waiting: usize,
    pub comments: usize,
}

impl Counts {
    /// Whether there are so many of `counts`.
    fn are_within(self, counts: Counts) -> bool
        ensures { IsTrue result ↔ Within self counts }
    {
        self.recorded <= counts.recorded
            && self.waiting <= counts.waiting
            && self.comments <= counts.comments
    }
}

/// Where a lexer is between two reads. It names no text: [`Checkpoint::fits`] says whether it is one of a text.
#[derive(Drop)]
pub struct Checkpoint {
    /// The lexer's place.
    pub at: BytePos,
    pub context: Context,
    pub state: State,
    /// The slash that the next read begins at, where it reads again.
    pub reread: Option<BytePos>,
    pub counts: Counts,
    /// Whether an allocation failed.
    pub refused: bool,
}

impl Model for Checkpoint {
    ghost use Rattle.ecma_checkpoint.specs.Checkpoints.{CheckpointValue};

    ghost Value = { CheckpointValue };

    ghost view = { λ c. record { at = c.at; context = c.context; state = c.state; reread = c.reread; counts = c.counts; refused = c.refused } };
}

/// Whether a slash is at this place of the text, and no template was opened behind it.
fn stands_slash(input: &StringInput, opened: BytePos, slash: BytePos) -> bool
    ensures { IsTrue result ↔ StandsSlash input.now opened slash }
{
    if slash.0 < opened.0 || !input.has_place(slash) {
        return false;
    }
    match input.clone() {
        Ok(mut there) => {
            there.reset_to(slash);
            there.is_byte(b'/')
        }
        Err(_) => false,
    }
}

/// The same where there is such a place.
fn are_slashes(input: &StringInput, opened: BytePos, slash: Option<BytePos>) -> bool
    ensures { IsTrue result ↔ AreSlashes input.now opened slash }
{
    match slash {
        Some(slash) => stands_slash(input, opened, slash),
        None => true,
    }
}

/// Whether these are places of a text: a lexer is at `at`, and slashes are where they have to be, none of them before the
/// template that was opened last.
fn are_places(
    input: &StringInput,
    at: BytePos,
    opened: BytePos,
    reread: Option<BytePos>,
    answered: Option<BytePos>,
) -> bool
    ensures { IsTrue result ↔ ArePlaces input.now at opened reread answered }
{
    if !input.has_place(at) || opened.0 > at.0 {
        return false;
    }
    are_slashes(input, opened, reread) && are_slashes(input, opened, answered)
}

impl Checkpoint {
    /// Whether this may be a place of the text of `input`: its places are places of the text, slashes are where they have to
    /// be, and no template was opened behind the lexer's place.
    pub fn fits(&self, input: &StringInput) -> bool
        ensures { IsTrue result ↔ Fits self.now input.now }
    {
        let slash = self.state.seen.last_slash();
        are_places(input, self.at, self.state.opened, self.reread, slash)
    }

    /// Whether it is of a text that starts at this place.
    fn is_from(&self, start: BytePos) -> bool
        ensures { IsTrue result ↔ (self.now.state.start ≡ start) }
    {
        self.state.start == start
    }

    /// Whether there are as many errors and comments as it says.
    fn is_within(&self, counts: Counts) -> bool
        ensures { IsTrue result ↔ Within self.now.counts counts }
    {
        self.counts.are_within(counts)
    }

    /// Whether a lexer can go back to it that has this start place, so many errors and comments, and is in the text of `input`.
    pub fn suits(&self, start: BytePos, counts: Counts, input: &StringInput) -> bool
        ensures { IsTrue result ↔ Suits self.now start counts input.now }
    {
        self.is_from(start) && self.is_within(counts) && self.fits(input)
    }

    /// The same checkpoint, which does not allocate.
    ///
    /// # Errors
    ///
    /// `AllocError` as of [`State::copy`].
    pub fn copy(&self) -> Result<Checkpoint, AllocError>
        ensures same { IfOk result (λ c. c ≡ self.now) }
        ensures free { length self.now.state.contexts ≤ 128 → IsOk result }
    {
        Ok(Checkpoint {
            at: self.at,
            context: self.context,
            state: self.state.copy()?,
            reread: self.reread,
            counts: self.counts,
            refused: self.refused,
        })
    }
}
