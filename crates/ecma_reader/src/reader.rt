//! A reader of a text, and what it leaves.
ghost use Rattle.std.specs.Prelude.{◌≡◌, ◌+◌, ◌<◌, ◌^◌, Err, List, None, Ok, [], alloc_error, drop, is_some, length, option_map, true, IfOk, IsOk, OnOk, OnErr};
ghost use Rattle.std.specs.Str.{chars};
ghost use Rattle.ecma_token.specs.View.{SpannedView, spanned_view};
ghost use Rattle.ecma_state.specs.Session.{Session, lexer_state, state_of};
ghost use Rattle.ecma_state.specs.Ending.{most_tokens};
ghost use Rattle.ecma_slashes.specs.Rereads.{SlashRule, entered, is_in_order, rule_of};
ghost use Rattle.ecma_reader.specs.Readers.{HasRead, IsReady, Leaves, Reads, Shows, expected_behind, one_if, tokens_by};

use ecma_place::BytePos;
use ecma_slashes::{Decider, Expected, Lexer, Slashes, enter, read_deciding};
use ecma_slot::Slot;
use ecma_state::Settings;
use ecma_state::comments_buffer::BufferedComment;
use ecma_state::error_list::ErrorList;
use ecma_syntax::Context;
use ecma_token::TokenAndSpan;
use std::alloc::{AllocError, Global};

/// Reads a text to its end with no parser above: each slash that [`Slashes`] names is read again as a regular expression,
/// whose token takes the place of the slash. Our own.
pub struct Reader<'a> {
    lexer: Lexer<'a>,
    decider: Decider<'a>,
    /// How many slashes were read again.
    rereads: usize,
    /// Whether an allocation failed.
    refused: bool,
}

/// By hand, so that a function that drops a reader proves one call.
impl<'a> Drop for Reader<'a> {
    fn drop(self) {
        let Reader {
            lexer: _,
            decider: _,
            rereads: _,
            refused: _,
        } = self;
    }
}

/// What a reader leaves besides the tokens.
#[derive(Drop)]
pub struct Outcome<'a> {
    /// The errors that were recorded, in order.
    pub errors: ErrorList<'a>,
    /// The errors that wait until the code is known to be a module, in order.
    pub waiting: ErrorList<'a>,
    /// The comments, where the settings collect them.
    pub comments: Vec<BufferedComment<'a>>,
    /// Whether the last read was the end.
    pub ended: bool,
    /// How many slashes were read again.
    pub rereads: usize,
}

/// So many slashes, and one more where it was read again.
fn counted(rereads: usize, again: bool) -> usize
    requires { rereads < 2 ^ 60 }
    ensures { result ≡ rereads + one_if again }
{
    if again { rereads + 1 } else { rereads }
}

impl<'a> Reader<'a> {
    /// A reader of a text that starts at a place, in a context.
    ///
    /// The caller knows that the text fits its places ([`StringInput::fits`](ecma_place::StringInput::fits)), and that the
    /// places of slashes ascend ([`ascend`](ecma_slashes::ascend)).
    ///
    /// # Errors
    ///
    /// None: the answer is that of [`enter`], which does not allocate.
    pub fn new(
        alloc: Global,
        settings: &Settings,
        context: Context,
        source: &'a str,
        start: BytePos,
        slashes: Slashes<'a>,
    ) -> Result<Reader<'a>, AllocError>
        requires fits { start.0 + length source.now < 2 ^ 32 }
        requires in_order { is_in_order (rule_of slashes) ≡ true }
        ensures shows { IfOk result (Shows (rule_of slashes.entry) (entered settings.now context record { start = start.0; text = chars source.now; at = 0 }) []) }
        ensures ready { IfOk result (λ reader. IsReady reader) }
        ensures free { IsOk result }
    {
        let lexer = enter(alloc, settings, context, source, start)?;
        let decider = Decider::new(alloc, settings, &context, slashes);
        Ok(Reader {
            lexer,
            decider,
            rereads: 0,
            refused: false,
        })
    }

    /// How many slashes were read again. Where places are named, all of them are met where this is as many at the end.
    pub fn rereads(&self) -> usize
        ensures { result ≡ self.now.rereads }
    {
        self.rereads
    }

    /// Reads one token more into a slot that is kept, and returns whether there was one: the slot is empty at the
    /// end.
    ///
    /// # Errors
    ///
    /// `AllocError` where allocation fails; each later read returns the same. Which token the slot then holds is not said.
    pub fn read_into(&mut self, slot: &mut Option<TokenAndSpan<'a>>) -> Result<bool, AllocError>
        requires ready { IsReady self.old }
        // Who has added something for each token so far, and adds it for one more, has it of all tokens at the end.
        ensures reads { (rule : SlashRule) (begin : Session) (tokens : List SpannedView) → Shows rule begin tokens self.old
            → IfOk result (λ more. Reads rule begin tokens (option_map spanned_view slot.new) more self.new) }
        ensures told { IfOk result (λ more. more ≡ is_some slot.new) }
        // Each token leaves fewer that may come, so that a loop ends.
        ensures fewer { IfOk result (λ more. more ≡ true → most_tokens (lexer_state self.new.lexer) < most_tokens (lexer_state self.old.lexer)) }
        ensures ready { IfOk result (λ more. more ≡ true → IsReady self.new) }
        ensures refused { self.old.refused ≡ true → (result ≡ Err alloc_error) × (self.new ≡ self.old) }
        ensures refusal { OnErr result (self.new.refused ≡ true) }
    {
        if self.refused {
            return Err(AllocError);
        }
        match read_deciding(&mut self.lexer, slot, &mut self.decider) {
            Ok(again) => {
                self.rereads = counted(self.rereads, again);
                Ok(slot.is_some())
            }
            Err(refusal) => {
                self.refused = true;
                Err(refusal)
            }
        }
    }

    /// What is expected behind the tokens so far; nothing is known of that where slashes are not named by role.
    ///
    /// # Errors
    ///
    /// `AllocError` where there is no memory for what the last token opens. Nothing is then changed, so that it may be asked
    /// again.
    pub fn expected(&mut self) -> Result<Option<Expected>, AllocError>
        ensures told { (rule : SlashRule) (begin : Session) (tokens : List SpannedView) → Shows rule begin tokens self.old
            → IfOk result (λ expected. expected ≡ expected_behind rule begin tokens) }
        ensures shows { (rule : SlashRule) (begin : Session) (tokens : List SpannedView) → Shows rule begin tokens self.old → Shows rule begin tokens self.new }
        ensures ready { IsReady self.old → IsReady self.new }
        ensures same { (lexer_state self.new.lexer ≡ lexer_state self.old.lexer) × (self.new.rereads ≡ self.old.rereads) × (self.new.refused ≡ self.old.refused) }
        ensures err { OnErr result (self.new ≡ self.old) }
    {
        self.decider.expected()
    }

    /// Copies of the comments so far that have their token, in order, but the first ones, as many as said: for who wants
    /// them while reading. A comment before a token that isn't read yet may not be among them.
    ///
    /// # Errors
    ///
    /// `AllocError` where allocation fails for them.
    pub fn comments_from(&self, first: usize) -> Result<Vec<BufferedComment<'a>>, AllocError>
        ensures { (s : Session) → lexer_state self.now.lexer ≡ state_of s → IfOk result (λ comments. comments.items ≡ drop first s.comments) }
    {
        self.lexer.comments_from(first)
    }

    /// Reads to the end, and returns how many tokens there were.
    ///
    /// # Errors
    ///
    /// `AllocError` as of [`Reader::read_into`].
    pub fn count_rest(&mut self) -> Result<usize, AllocError>
        requires ready { IsReady self.old }
        ensures count { (rule : SlashRule) (begin : Session) → Shows rule begin [] self.old → IfOk result (λ count. count ≡ length (tokens_by rule begin)) }
        ensures read { (rule : SlashRule) (begin : Session) → Shows rule begin [] self.old → OnOk result (HasRead rule begin self.new) }
        ensures refused { self.old.refused ≡ true → (result ≡ Err alloc_error) × (self.new ≡ self.old) }
        ensures refusal { OnErr result (self.new.refused ≡ true) }
    {
        let mut count = 0;
        let mut slot = Slot::new();
        'tokens: while self.read_into(&mut slot.token)? {
            count += 1;
        }
        Ok(count)
    }

    /// What is left besides the tokens that were read.
    pub fn finish(self) -> Outcome<'a>
        ensures left { (s : Session) → lexer_state self.entry.lexer ≡ state_of s → Leaves s result }
        ensures rereads { result.rereads ≡ self.entry.rereads }
    {
        let Reader {
            lexer,
            decider: _,
            rereads,
            refused: _,
        } = self;
        let (errors, comments, ended) = lexer.into_parts();
        Outcome {
            errors: errors.recorded,
            waiting: errors.waiting,
            comments,
            ended,
            rereads,
        }
    }
}

impl<'a> Iterator for Reader<'a> {
    ghost use Rattle.ecma_reader.specs.Items.{CanRead, GivesItem, items_left};

    type Item = Result<TokenAndSpan<'a>, AllocError>;

    ghost can_next = { CanRead };

    ghost next_gives = { GivesItem };

    ghost remaining = { items_left };

    /// The next token. `AllocError` comes once at most, and nothing behind it. There are at most twice as many items as bytes that
    /// are left, and two.
    fn next(&mut self) -> Option<Result<TokenAndSpan<'a>, AllocError>> {
        if self.refused {
            return None;
        }
        let mut slot = None;
        match self.read_into(&mut slot) {
            Ok(_) => as_item(slot),
            Err(refusal) => Some(Err(refusal)),
        }
    }
}

/// A token that was read, as an item.
fn as_item<'a>(slot: Option<TokenAndSpan<'a>>) -> Option<Result<TokenAndSpan<'a>, AllocError>>
    ensures { result ≡ option_map Ok slot.entry }
{
    match slot {
        Some(token) => Some(Ok(token)),
        None => None,
    }
}
