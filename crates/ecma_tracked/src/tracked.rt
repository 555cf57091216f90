//! A lexer together with what decides its slashes.
ghost use Rattle.std.specs.Prelude.{◌≡◌, ◌+◌, ◌<◌, ◌^◌, ◌↔◌, Err, [], alloc_error, false, is_some, length, option_map, true, IfOk, IsOk, IsTrue, OnOk, OnErr};
ghost use Rattle.std.specs.Str.{chars};
ghost use Rattle.ecma_place.specs.Cursor.{IsWithin};
ghost use Rattle.ecma_token.specs.View.{spanned_view};
ghost use Rattle.ecma_checkpoint.specs.Checkpoints.{GoesBack, checkpoint_of};
ghost use Rattle.ecma_state.specs.Run.{act_on, state_in};
ghost use Rattle.ecma_state.specs.Session.{Session, lexer_state, state_of};
ghost use Rattle.ecma_state.specs.declared.step.Step.{Step};
ghost use Rattle.ecma_state.specs.Ending.{most_tokens};
ghost use Rattle.ecma_stream.specs.View.{IsGivenAs};
ghost use Rattle.ecma_rewinding.specs.Rewinding.{GoesOn};
ghost use Rattle.ecma_slashes.specs.Known.{expected_by};
ghost use Rattle.ecma_slashes.specs.Rereads.{entered};
ghost use Rattle.ecma_tracked.specs.Marks.{back_to, mark_of};
ghost use Rattle.ecma_tracked.specs.States.{ReadsOn, tracked_of, tracked_state};

use crate::checkpoint::TrackedCheckpoint;
use ecma_place::{BytePos, StringInput};
use ecma_slashes::{Decider, Slashes, enter, read_deciding};
use ecma_state::Settings;
use ecma_stream::lexer::Lexer;
use ecma_stream::tokens::Tokens;
use ecma_syntax::Context;
use ecma_token::TokenAndSpan;
use std::alloc::{AllocError, Global};
use std::marker::Model;

/// Reads a text token by token with no parser above: a slash is read as a regular expression where the tokens before it
/// expect an operand ([`Slashes::ByRole`]). For those who look ahead, it is copied, and goes back to where it was. Our own.
pub struct Tracked<'a> {
    lexer: Lexer<'a>,
    decider: Decider<'static>,
    /// Whether memory was refused.
    refused: bool,
}

/// By hand, so that a function that drops one proves one call.
impl<'a> Drop for Tracked<'a> {
    fn drop(self) {
        let Tracked {
            lexer: _,
            decider: _,
            refused: _,
        } = self;
    }
}

impl<'a> Model for Tracked<'a> {
    ghost use Rattle.std.specs.Coded.{codes};
    ghost use denote.Signature.{static_lft};
    ghost use Rattle.ecma_token.specs.contracts.error.Error as e;
    ghost use Rattle.ecma_tracked.specs.States.{TrackedValue};

    ghost Value = { TrackedValue };

    ghost coded = { Prim.hlevel (codes, (e.the_row static_lft).coded) };

    ghost use Rattle.ecma_tracked.specs.Tracked.{IsTracked, tracked_view};

    ghost view = { tracked_view };

    ghost invariant = { IsTracked };
}

impl<'a> Tracked<'a> {
    /// Before the first token of a text that starts at a place, in a context, which does not allocate. The language of the
    /// settings, and whether the context is module code, also say what is expected behind tokens.
    ///
    /// The caller knows that the text fits its places ([`StringInput::fits`]).
    ///
    /// # Errors
    ///
    /// None: the answer is that of [`Tokens::set_ctx`], which has nothing to record.
    pub fn new(
        alloc: Global,
        settings: &Settings,
        context: Context,
        source: &'a str,
        start: BytePos,
    ) -> Result<Tracked<'a>, AllocError>
        requires { start.0 + length source.now < 2 ^ 32 }
        ensures shows { IfOk result (λ t. tracked_state t ≡ tracked_of (entered settings.now context record { start = start.0; text = chars source.now; at = 0 })) }
        ensures free { IsOk result }
    {
        let lexer = enter(alloc, settings, context, source, start)?;
        let decider = Decider::new(alloc, settings, &context, Slashes::ByRole);
        Ok(Tracked {
            lexer,
            decider,
            refused: false,
        })
    }

    /// The lexer: its flags, settings, place and errors.
    pub fn lexer(&self) -> &Lexer<'a>
        ensures { result.now ≡ self.now.lexer }
    {
        &self.lexer
    }

    /// The lexer, with what was recorded and collected.
    pub fn into_lexer(self) -> Lexer<'a>
        ensures { result ≡ self.entry.lexer }
    {
        let Tracked {
            lexer,
            decider: _,
            refused: _,
        } = self;
        lexer
    }

    /// Sets the flags of the code that is being read ([`Tokens::set_ctx`]). Module code stays such, and a script a script: the
    /// tokens before were taken for those of one.
    ///
    /// # Errors
    ///
    /// `AllocError` where there is no memory for the errors that waited. Nothing is then changed.
    pub fn set_ctx(&mut self, context: Context) -> Result<(), AllocError>
        requires { context.«module» ≡ self.old.lexer.context.«module» }
        ensures shows { (s : Session) → tracked_of s ≡ tracked_state self.old → OnOk result (tracked_state self.new ≡ tracked_of (act_on s (Step.SetCtx context))) }
        ensures ok { OnOk result (tracked_state self.new ≡ record (tracked_state self.old) { lexer = state_in context (lexer_state self.old.lexer) }) }
        ensures err { OnErr result (tracked_state self.new ≡ tracked_state self.old) }
        ensures outside { context.«module» ≡ false → IsOk result }
        ensures none_waiting { self.old.lexer.errors.waiting ≡ [] → IsOk result }
    {
        self.lexer.set_ctx(context)
    }

    /// Whether an operand is expected next, so that a slash there, with or without `=` behind it, begins a regular expression.
    ///
    /// # Errors
    ///
    /// `AllocError` where there is no memory for what the last token opens. It may be asked again.
    pub fn expects_operand(&mut self, is_assign: bool) -> Result<bool, AllocError>
        ensures told { IfOk result (λ expects. expects ≡ expected_by self.old.known is_assign) }
        ensures same { self.new ≡ self.old }
    {
        self.decider.expects_operand(is_assign)
    }

    /// Reads one token more into a slot that is kept, and answers whether there was one: nothing stands in the slot at the
    /// end.
    ///
    /// # Errors
    ///
    /// `AllocError` where there is no memory. Each later read answers the same and changes nothing, until it goes back to a
    /// checkpoint of before. Which token the slot then holds is not said, nor whether the slash was read.
    pub fn read_into(&mut self, slot: &mut Option<TokenAndSpan<'a>>) -> Result<bool, AllocError>
        // The steps of one token, from any session.
        ensures reads { (s : Session) → tracked_of s ≡ tracked_state self.old → OnOk result (ReadsOn s (option_map spanned_view slot.new) (tracked_state self.new)) }
        ensures told { IfOk result (λ more. more ≡ is_some slot.new) }
        // Each token leaves fewer that may come, so that a loop ends.
        ensures fewer { IfOk result (λ more. more ≡ true → most_tokens (lexer_state self.new.lexer) < most_tokens (lexer_state self.old.lexer)) }
        ensures going { OnOk result (self.new.refused ≡ false) }
        ensures refused { self.old.refused ≡ true → (result ≡ Err alloc_error) × (self.new ≡ self.old) }
        ensures refusal { OnErr result (self.new.refused ≡ true) }
        ensures given { OnErr result (IsGivenAs self.old.lexer self.new.lexer) }
        // So a checkpoint of before undoes it, as the law `rewinding_undoes` has it.
        ensures on { OnErr result (GoesOn (lexer_state self.old.lexer) (lexer_state self.new.lexer)) }
        // What is expected is then what was expected before.
        ensures expects_still { (s : Session) → tracked_of s ≡ tracked_state self.old → OnErr result (self.new.known ≡ self.old.known) }
    {
        if self.refused {
            return Err(AllocError);
        }
        match read_deciding(&mut self.lexer, slot, &mut self.decider) {
            Ok(_) => Ok(slot.is_some()),
            Err(refusal) => {
                self.refused = true;
                Err(refusal)
            }
        }
    }

    /// The next token, or nothing at the end.
    ///
    /// # Errors
    ///
    /// `AllocError` as of [`Tracked::read_into`].
    pub fn read(&mut self) -> Result<Option<TokenAndSpan<'a>>, AllocError>
        ensures reads { (s : Session) → tracked_of s ≡ tracked_state self.old → IfOk result (λ found. ReadsOn s (option_map spanned_view found) (tracked_state self.new)) }
        ensures fewer { IfOk result (λ found. is_some found ≡ true → most_tokens (lexer_state self.new.lexer) < most_tokens (lexer_state self.old.lexer)) }
        ensures refused { self.old.refused ≡ true → (result ≡ Err alloc_error) × (self.new ≡ self.old) }
        ensures refusal { OnErr result (self.new.refused ≡ true) }
        ensures given { OnErr result (IsGivenAs self.old.lexer self.new.lexer) }
        // So a checkpoint of before undoes it, as the law `rewinding_undoes` has it.
        ensures on { OnErr result (GoesOn (lexer_state self.old.lexer) (lexer_state self.new.lexer)) }
        ensures expects_still { (s : Session) → tracked_of s ≡ tracked_state self.old → OnErr result (self.new.known ≡ self.old.known) }
    {
        let mut slot = None;
        self.read_into(&mut slot)?;
        Ok(slot)
    }

    /// The same, with errors and comments of its own: what is read of it does not change this one. Where it goes back to where
    /// it was, [`Tracked::checkpoint`] costs less.
    ///
    /// # Errors
    ///
    /// `AllocError` where there is no memory for it.
    pub fn copy(&self) -> Result<Tracked<'a>, AllocError>
        ensures { IfOk result (λ copy. tracked_state copy ≡ tracked_state self.now) }
    {
        Ok(Tracked {
            lexer: self.lexer.copy()?,
            decider: self.decider.copy()?,
            refused: self.refused,
        })
    }

    /// Where this is, which [`Tracked::rewind`] goes back to. It takes as long whatever was read, and does not allocate where at
    /// most 128 contexts are open, and at most 64 frames enclosed the token that was read last.
    ///
    /// # Errors
    ///
    /// `AllocError` where there is no memory for the contexts and the track.
    pub fn checkpoint(&self) -> Result<TrackedCheckpoint, AllocError>
        ensures same { IfOk result (λ c. c ≡ mark_of (tracked_state self.now)) }
        // It can go back there, and so can what goes on from here.
        ensures goes { GoesBack (checkpoint_of (lexer_state self.now.lexer)) (lexer_state self.now.lexer) }
        ensures within { IsWithin self.now.lexer.input }
    {
        let refused = self.refused;
        Ok(TrackedCheckpoint {
            place: self.lexer.checkpoint()?,
            decider: self.decider.copy()?,
            refused,
        })
    }

    /// Goes back to a checkpoint: of the errors and the comments the first are kept, as many as there were. Where none were
    /// taken since, all that was read behind it is undone, also a refusal of memory, and reads go on as from there.
    ///
    /// The answer is `false`, and nothing is changed, where it can't be one of this text
    /// ([`Lexer::rewind`](ecma_stream::lexer::Lexer::rewind)).
    ///
    /// # Errors
    ///
    /// `AllocError` as of [`Tracked::checkpoint`]. Nothing is then changed.
    pub fn rewind(&mut self, to: &TrackedCheckpoint) -> Result<bool, AllocError>
        ensures goes { IfOk result (λ went. IsTrue went ↔ GoesBack to.now.place (lexer_state self.old.lexer)) }
        ensures back { IfOk result (λ went. went ≡ true → tracked_state self.new ≡ back_to to.now (tracked_state self.old)) }
        ensures stays { IfOk result (λ went. went ≡ false → self.new ≡ self.old) }
        ensures err { OnErr result (self.new ≡ self.old) }
    {
        let decider = to.decider.copy()?;
        if !self.lexer.rewind(&to.place)? {
            return Ok(false);
        }
        self.decider = decider;
        self.refused = to.refused;
        Ok(true)
    }
}

impl<'a> Iterator for Tracked<'a> {
    ghost use Rattle.ecma_tracked.specs.Items.{GivesItem, items_left};

    type Item = Result<TokenAndSpan<'a>, AllocError>;

    ghost next_gives = { GivesItem };

    ghost remaining = { items_left };

    /// The next token. A refusal of memory comes once, and nothing behind it. There are at most twice as many items as bytes that
    /// are left, and two.
    fn next(&mut self) -> Option<Result<TokenAndSpan<'a>, AllocError>> {
        if self.refused {
            return None;
        }
        match self.read() {
            Ok(Some(token)) => Some(Ok(token)),
            Ok(None) => None,
            Err(refusal) => Some(Err(refusal)),
        }
    }
}
