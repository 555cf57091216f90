//! Where a lexer is, and going back to where it was. Our own.
ghost use Rattle.std.specs.Prelude.{◌≡◌, ◌≤◌, ◌↔◌, true, false, is_some, length, IfOk, IfSome, IsOk, IsTrue, OnErr};
ghost use Rattle.ecma_place.specs.Cursor.{IsWithin};
ghost use Rattle.ecma_state.specs.Session.{lexer_state};
ghost use Rattle.ecma_checkpoint.specs.Checkpoints.{Fits, GoesBack, checkpoint_of, counts_of, resumed, rewound};
ghost use Rattle.ecma_stream.specs.View.{cut_to};

use super::Lexer;
use ecma_checkpoint::{Checkpoint, Counts};
use ecma_place::StringInput;
use ecma_state::comments_buffer::CommentsBuffer;
use ecma_state::errors::ErrorLists;
use ecma_state::settings::Settings;
use ecma_state::state::State;
use std::alloc::{AllocError, Global};

impl<'a> Lexer<'a> {
    /// How many errors and comments there are.
    pub(super) fn counts(&self) -> Counts
        ensures { result ≡ counts_of (lexer_state self.now) }
    {
        Counts {
            recorded: self.errors.recorded.len(),
            waiting: self.errors.waiting.len(),
            comments: self.comments.len(),
        }
    }

    /// Keeps the first errors and comments, as many as this.
    pub(super) fn cut(&mut self, counts: Counts)
        ensures { self.new ≡ cut_to counts self.old }
    {
        self.errors.recorded.truncate(counts.recorded);
        self.errors.waiting.truncate(counts.waiting);
        self.comments.truncate(counts.comments);
    }

    /// Where this lexer is, which [`Lexer::rewind`] goes back to. It does not allocate, and takes as long whatever was read.
    ///
    /// # Errors
    ///
    /// `AllocError` as of [`State::copy`].
    pub fn checkpoint(&self) -> Result<Checkpoint, AllocError>
        ensures same { IfOk result (λ c. c ≡ checkpoint_of (lexer_state self.now)) }
        ensures goes { GoesBack (checkpoint_of (lexer_state self.now)) (lexer_state self.now) }
        ensures within { IsWithin self.now.input }
        ensures free { length self.now.state.contexts ≤ 128 → IsOk result }
    {
        let at = self.input.last_pos();
        Ok(Checkpoint {
            at,
            context: self.context,
            state: self.state.copy()?,
            reread: self.reread,
            counts: self.counts(),
            refused: self.refused,
        })
    }

    /// Whether this lexer can go back to a checkpoint.
    fn can_go_back(&self, to: &Checkpoint) -> bool
        ensures { IsTrue result ↔ GoesBack to.now (lexer_state self.now) }
    {
        to.suits(self.state.start, self.counts(), &self.input)
    }

    /// Goes back to a checkpoint, of which this is the state.
    #[tactic(auto, using(crate::proofs::CheckpointLemmas::take_view))]
    fn put_back(&mut self, to: &Checkpoint, state: State)
        requires goes { GoesBack to.now (lexer_state self.old) }
        requires state { state ≡ to.now.state }
        ensures { lexer_state self.new ≡ rewound to.now (lexer_state self.old) }
    {
        self.cut(to.counts);
        self.input.reset_to(to.at);
        self.context = to.context;
        self.state = state;
        self.reread = to.reread;
        self.refused = to.refused;
    }

    /// Goes back to a checkpoint: of the errors and the comments the first are kept, as many as there were. It does not
    /// allocate, and takes as long as it takes to drop the others.
    ///
    /// Where no errors and no comments were taken since, all that was read behind the checkpoint is undone, also an
    /// allocation failure. Those that were taken do not come back, and such as came behind them may stay in their places. It returns
    /// `false`, and nothing is changed, where there are fewer than there were, as where the lexer went further back in
    /// between, and where the checkpoint doesn't fit this lexer's text.
    ///
    /// # Errors
    ///
    /// `AllocError` as of [`State::copy`]. Nothing is then changed.
    pub fn rewind(&mut self, to: &Checkpoint) -> Result<bool, AllocError>
        ensures goes { IfOk result (λ went. IsTrue went ↔ GoesBack to.now (lexer_state self.old)) }
        ensures back { IfOk result (λ went. went ≡ true → lexer_state self.new ≡ rewound to.now (lexer_state self.old)) }
        ensures stays { IfOk result (λ went. went ≡ false → self.new ≡ self.old) }
        ensures err { OnErr result (self.new ≡ self.old) }
        ensures free { length to.now.state.contexts ≤ 128 → IsOk result }
    {
        if !self.can_go_back(to) {
            return Ok(false);
        }
        let state = to.state.copy()?;
        self.put_back(to, state);
        Ok(true)
    }
    /// A lexer that goes on from a checkpoint in the text of `input`, by these settings: with the checkpoint's place, flags,
    /// contexts and start place, and with no errors and no comments.
    ///
    /// Only the text of `input` matters, not the place in it: it may be the rest of the text that the checkpoint was made in,
    /// from the slash on that may be read again, where there is one, else from the checkpoint's place on. It returns `None` where
    /// the checkpoint does not fit the text ([`Checkpoint::fits`]). It does not allocate where at most 128 contexts are open. Our
    /// own.
    ///
    /// # Errors
    ///
    /// `AllocError` as of [`State::copy`].
    pub fn resume(
        alloc: Global,
        settings: &Settings,
        from: &Checkpoint,
        input: StringInput<'a>,
    ) -> Result<Option<Lexer<'a>>, AllocError>
        ensures goes { IfOk result (λ l. IsTrue (is_some l) ↔ Fits from.now input.entry) }
        ensures goes_on { IfOk result (λ l. IfSome l (λ l. lexer_state l ≡ resumed settings.now from.now input.entry)) }
        ensures free { length from.now.state.contexts ≤ 128 → IsOk result }
    {
        if !from.fits(&input) {
            return Ok(None);
        }
        let state = from.state.copy()?;
        Ok(Some(Lexer::going_on(alloc, settings, from, state, input)))
    }

    /// The same where the checkpoint fits the text, and this is its state.
    fn going_on(
        alloc: Global,
        settings: &Settings,
        from: &Checkpoint,
        state: State,
        input: StringInput<'a>,
    ) -> Lexer<'a>
        requires fits { Fits from.now input }
        requires state { state ≡ from.now.state }
        ensures { lexer_state result ≡ resumed settings.now from.now input.entry }
    {
        let mut there = input;
        there.reset_to(from.at);
        Lexer {
            alloc,
            settings: *settings,
            input: there,
            context: from.context,
            state,
            reread: from.reread,
            errors: ErrorLists::new(alloc),
            comments: CommentsBuffer::new(alloc),
            refused: from.refused,
        }
    }
}
