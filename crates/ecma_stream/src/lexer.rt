//! The lexer.
ghost use Rattle.std.specs.Prelude.{◌≡◌, ◌<◌, true, false, None, Err, alloc_error, Some, drop, is_some, length, map, option_map, IfOk, IsOk, OnOk, OnErr, []};
ghost use Rattle.ecma_syntax.specs.declared.settings.NumberRule.TheVariants.{Crate};
ghost use Rattle.ecma_token.specs.View.{error_view, spanned_view};
ghost use Rattle.ecma_dispatch.specs.Besides.{IsBeside, TakesNone, bare, seen_beside, state_taking};
ghost use Rattle.ecma_place.specs.Cursor.{rest};
ghost use Rattle.ecma_stream.specs.Giving.{back_at, Gives, IsBehindGap, IsRefused};
ghost use Rattle.ecma_stream.specs.View.{HasMore, IsGivenAs, drained};
ghost use Rattle.ecma_state.specs.Slashes.{IsAnswer, MayReread, slash_answered};
ghost use Rattle.ecma_state.specs.Session.{Session, kept_in, lexer_state, state_of};
ghost use Rattle.ecma_state.specs.declared.step.Step.{Step};
ghost use Rattle.ecma_state.specs.Run.{act, answer_in, is_free_read, mode_of, reading_of, start_of, state_allowing, state_behind, state_rereading, state_with_contexts};
ghost use Rattle.ecma_state.specs.Contexts.{innermost};
ghost use Rattle.ecma_state.specs.Errors.{errors_view};

mod arms;
mod checkpoint;
mod fork;
mod template;

use crate::hand_over::HandsOver;
use crate::tokens::Tokens;
use ecma_dispatch::read::{Besides, Reading, read_again, read_from};
use ecma_place::{BytePos, StringInput};
use ecma_reads::BlankGap;
use ecma_state::comments_buffer::{BufferedComment, CommentsBuffer};
use ecma_state::error_list::ErrorList;
use ecma_state::errors::ErrorLists;
use ecma_state::kept::Kept;
use ecma_state::mode::Mode;
use ecma_state::settings::Settings;
use ecma_state::state::State;
use ecma_state::token_contexts::TokenContexts;
use ecma_syntax::{Context, EsVersion, NumberRule, Syntax};
use ecma_token::{Error, TokenAndSpan};
use std::alloc::{AllocError, Global};
use std::marker::Model;
use std::mem;

/// Reads tokens from a text, one after another.
pub struct Lexer<'a> {
    alloc: Global,
    settings: Settings,
    input: StringInput<'a>,
    context: Context,
    state: State,
    /// The slash that the next read begins at, where it reads again.
    reread: Option<BytePos>,
    errors: ErrorLists<'a>,
    comments: CommentsBuffer<'a>,
    refused: bool,
}

impl<'a> Model for Lexer<'a> {
    ghost use Rattle.std.specs.Coded.{codes};
    ghost use denote.Signature.{static_lft};
    ghost use Rattle.ecma_token.specs.contracts.error.Error as e;
    ghost use Rattle.ecma_state.specs.Session.{LexerValue};

    ghost Value = { LexerValue };

    ghost coded = { Prim.hlevel (codes, (e.the_row static_lft).coded) };

    ghost use Rattle.ecma_stream.specs.View.{IsLexer, lexer_view};

    ghost view = { lexer_view };

    ghost invariant = { IsLexer };
}

/// By hand, so that a function that drops a lexer proves one call, and not how each of its lists is freed.
impl<'a> Drop for Lexer<'a> {
    fn drop(self) {
        let Lexer {
            alloc: _,
            settings: _,
            input: _,
            context: _,
            state: _,
            reread: _,
            errors: _,
            comments: _,
            refused: _,
        } = self;
    }
}

impl<'a> Lexer<'a> {
    /// A lexer of the rest of `input`, which reads numbers by the crate's rule, and does not allocate.
    ///
    /// The place of `input` is the lexer's start place. `comments` says whether comments are collected.
    pub fn new(
        alloc: Global,
        syntax: Syntax,
        target: EsVersion,
        input: StringInput<'a>,
        comments: bool,
    ) -> Lexer<'a>
        ensures { lexer_state result ≡ state_of (start_of record { syntax = syntax; target = target; comments = comments; numbers = Crate } input.entry) }
    {
        Lexer::with_rule(alloc, syntax, target, input, comments, NumberRule::Crate)
    }

    /// A lexer of the rest of `input` by these settings, which does not allocate. Our own.
    ///
    /// The place of `input` is the lexer's start place.
    pub fn with_settings(alloc: Global, settings: &Settings, input: StringInput<'a>) -> Lexer<'a>
        ensures { lexer_state result ≡ state_of (start_of settings.now input.entry) }
    {
        let start = input.cur_pos();
        Lexer {
            alloc,
            settings: *settings,
            input,
            context: Context::default(),
            state: State::new(alloc, settings.syntax, start),
            reread: None,
            errors: ErrorLists::new(alloc),
            comments: CommentsBuffer::new(alloc),
            refused: false,
        }
    }

    /// A lexer of the rest of `input`, which reads numbers by this rule, and does not allocate.
    ///
    /// The place of `input` is the lexer's start place. `comments` says whether comments are collected.
    pub fn with_rule(
        alloc: Global,
        syntax: Syntax,
        target: EsVersion,
        input: StringInput<'a>,
        comments: bool,
        rule: NumberRule,
    ) -> Lexer<'a>
        ensures { lexer_state result ≡ state_of (start_of record { syntax = syntax; target = target; comments = comments; numbers = rule } input.entry) }
    {
        let settings = Settings {
            syntax,
            target,
            comments,
            numbers: rule,
        };
        Lexer::with_settings(alloc, &settings, input)
    }

    /// Whether a line terminator comes before the last token, or, where the last read was the end, before that.
    ///
    /// Before any read there is none.
    pub fn had_line_break_before_last(&self) -> bool
        ensures { result ≡ self.now.state.seen.flag }
    {
        self.state.seen.flag
    }

    /// The errors that wait until the code is known to be a module, in order.
    pub fn module_errors(&self) -> &[Error<'a>]
        ensures { map error_view result.now ≡ (lexer_state self.now).errors.waiting }
    {
        self.errors.waiting.as_slice()
    }

    /// Says whether an expression may begin.
    pub fn set_expr_allowed(&mut self, allow: bool)
        ensures { lexer_state self.new ≡ state_allowing allow (lexer_state self.old) }
    {
        self.state.expr_allowed = allow;
    }

    /// Whether an expression may begin, as the tokens before say, or as the caller set it.
    pub fn expr_allowed(&self) -> bool
        ensures { result ≡ (lexer_state self.now).state.expr_allowed }
    {
        self.state.expr_allowed
    }

    /// The place of the token read last, if that is `/` or `/=`. None after an allocation failure.
    pub fn last_slash(&self) -> Option<BytePos>
        ensures { result ≡ slash_answered (lexer_state self.now) }
    {
        if self.refused {
            return None;
        }
        self.state.seen.last_slash()
    }

    /// Has each read begin at this slash, until this is called again: it is read again as a regular expression, with the
    /// slash's flag, and its token takes the place of the slash.
    ///
    /// `start` is `None`, which has reads go on behind what was read last, or what [`Lexer::last_slash`] returned.
    pub fn set_next_regexp(&mut self, start: Option<BytePos>)
        requires { MayReread start (lexer_state self.old) }
        ensures { lexer_state self.new ≡ state_rereading start (lexer_state self.old) }
    {
        self.reread = start;
    }

    /// An equal lexer with errors and comments of its own: going back is putting it in the place of this one. Where lexers go
    /// back to where they were, [`Lexer::checkpoint`] costs less: it copies neither.
    ///
    /// # Errors
    ///
    /// `AllocError` where allocation fails for errors, comments, or more than 128 contexts.
    pub fn copy(&self) -> Result<Lexer<'a>, AllocError>
        ensures same { IfOk result (λ copy. lexer_state copy ≡ lexer_state self.now) }
    {
        Ok(Lexer {
            alloc: self.alloc,
            settings: self.settings,
            input: self.input.clone()?,
            context: self.context,
            state: self.state.copy()?,
            reread: self.reread,
            errors: self.errors.copy(self.alloc)?,
            comments: self.comments.copy()?,
            refused: self.refused,
        })
    }

    /// Goes back to where a copy is.
    pub fn go_back(&mut self, copy: Lexer<'a>)
        ensures { self.new ≡ copy.entry }
    {
        let _ = mem::replace(self, copy);
    }

    /// Whether the next read begins at a slash.
    pub fn reads_again(&self) -> bool
        ensures { result ≡ is_some self.now.reread }
    {
        self.reread.is_some()
    }

    /// Takes the innermost context away, and returns whether there was one.
    pub fn pop_context(&mut self) -> bool
        ensures some { result ≡ is_some (innermost self.old.state.contexts) }
        ensures after { lexer_state self.new ≡ state_with_contexts (drop 1 self.old.state.contexts) (lexer_state self.old) }
    {
        self.state.contexts.pop().is_some()
    }

    /// The errors, the comments, and whether the last read was the end.
    pub fn into_parts(self) -> (ErrorLists<'a>, Vec<BufferedComment<'a>>, bool)
        ensures errors { errors_view result.0 ≡ (lexer_state self.entry).errors }
        ensures comments { result.1.items ≡ self.entry.comments }
        ensures ended { result.2 ≡ self.entry.state.seen.ended }
    {
        let Lexer {
            alloc: _,
            settings: _,
            input: _,
            context: _,
            state,
            reread: _,
            errors,
            mut comments,
            refused: _,
        } = self;
        (errors, comments.take_comments(), state.seen.ended)
    }

    /// Takes the errors, those that were recorded and those that wait, and the comments, in order: for who keeps them elsewhere,
    /// with those of later reads behind them. None is kept then; it does not allocate. Our own.
    pub fn take_found(&mut self) -> (ErrorLists<'a>, Vec<BufferedComment<'a>>)
        ensures errors { errors_view result.0 ≡ (lexer_state self.old).errors }
        ensures comments { result.1.items ≡ self.old.comments }
        ensures after { lexer_state self.new ≡ drained (lexer_state self.old) }
    {
        let errors = mem::replace(&mut self.errors, ErrorLists::new(self.alloc));
        (errors, self.comments.take_comments())
    }

    /// Copies of the comments so far that have their token, in order, but the first ones, as many as said: for who wants them
    /// while reading. A comment before a token that isn't read yet may not be among them. Our own.
    ///
    /// # Errors
    ///
    /// `AllocError` where allocation fails for them.
    pub fn comments_from(&self, first: usize) -> Result<Vec<BufferedComment<'a>>, AllocError>
        ensures { IfOk result (λ comments. comments.items ≡ drop first (lexer_state self.now).comments) }
    {
        self.comments.comments_from(first)
    }

    /// What the next read goes by.
    #[inline(always)]
    fn mode(&self) -> Mode
        ensures { result ≡ mode_of (lexer_state self.now) }
    {
        Mode {
            settings: self.settings,
            context: self.context,
            top: self.state.contexts.current(),
            first: self.state.seen.first,
            shebang_allowed: self.state.seen.last.is_none(),
            previous: self.state.seen.previous(),
            opened: self.state.opened,
        }
    }
}

impl<'a> Lexer<'a> {
    /// What the next read finds, behind which this cursor then is, which is where the lexer is.
    #[inline(always)]
    fn read_on(&self, input: &mut StringInput<'a>) -> Result<Reading<'a>, AllocError>
        requires { input.old ≡ self.now.input }
        ensures found { IfOk result (λ r. option_map spanned_view r.found ≡ (reading_of (lexer_state self.now)).found) }
        ensures besides { IfOk result (λ r. IsBeside r.besides (reading_of (lexer_state self.now))) }
        ensures moved { OnOk result (input.new ≡ (reading_of (lexer_state self.now)).input) }
        ensures free { is_free_read (lexer_state self.now) ≡ true → IsOk result }
    {
        match self.reread {
            Some(slash) => {
                input.reset_to(slash);
                read_again(self.alloc, input, self.state.seen.flag)
            }
            None => read_from(self.alloc, input, &self.mode()),
        }
    }

    /// Takes in what a read finds, behind which the cursor then is: the comments are attached, the errors are recorded, wait
    /// or are dropped, and the contexts change. Where allocation fails, comments and errors may have been added.
    fn take_besides(
        &mut self,
        behind: StringInput<'a>,
        answer: Option<Kept>,
        besides: Besides<'a>,
    ) -> Result<(), AllocError>
        requires moved { behind ≡ (reading_of (lexer_state self.old)).input }
        requires answer { IsAnswer (record self.old { input = behind }) answer }
        ensures after { OnOk result (lexer_state self.new ≡ state_taking (lexer_state (record self.old { input = behind.entry })) answer (seen_beside besides.entry)) }
        ensures more { OnErr result (HasMore self.old self.new) }
        ensures free { length self.old.state.contexts < 128 → TakesNone besides.entry → IsOk result }
        ensures ended { answer ≡ None → TakesNone besides.entry → IsOk result }
    {
        let Besides {
            end_flag,
            gap_faults,
            token_faults,
            gap_comments,
            token_comments,
        } = besides;
        let around = self.state.around(answer);
        self.comments.attach(around, gap_comments, token_comments)?;
        self.errors
            .take_read(&self.context, gap_faults, token_faults)?;
        self.state.take(answer, end_flag)?;
        self.input = behind;
        Ok(())
    }

    /// Takes in what a read finds, behind which the cursor then is. Nothing is changed where allocation fails.
    fn take_in(
        &mut self,
        behind: StringInput<'a>,
        answer: Option<Kept>,
        besides: Besides<'a>,
    ) -> Result<(), AllocError>
        requires moved { behind ≡ (reading_of (lexer_state self.old)).input }
        requires answer { IsAnswer (record self.old { input = behind }) answer }
        ensures after { OnOk result (lexer_state self.new ≡ state_taking (lexer_state (record self.old { input = behind.entry })) answer (seen_beside besides.entry)) }
        ensures err { OnErr result (self.new ≡ self.old) }
        ensures free { length self.old.state.contexts < 128 → TakesNone besides.entry → IsOk result }
        ensures ended { answer ≡ None → TakesNone besides.entry → IsOk result }
    {
        let counts = self.counts();
        let taken = self.take_besides(behind, answer, besides);
        if taken.is_err() {
            self.cut(counts);
        }
        taken
    }

    /// Takes in a token that was found with nothing else to report: the contexts change. Nothing does where allocation fails.
    #[inline(always)]
    fn take_plain(&mut self, token: Kept) -> Result<(), AllocError>
        requires { IsAnswer self.old (Some token) }
        ensures after { OnOk result (lexer_state self.new ≡ state_taking (lexer_state self.old) (Some token) (bare token.flag)) }
        ensures kept { OnErr result (self.new ≡ self.old) }
        ensures free { length self.old.state.contexts < 128 → IsOk result }
    {
        self.state.take_token(token)?;
        Ok(())
    }

    /// Reads with all that is found beside the token, which it puts into the slot.
    #[inline(never)]
    #[tactic(auto, using(ecma_reads::proofs::SlashLemmas::free_read_faults, ecma_reads::proofs::SlashLemmas::free_read_comments, ecma_reads::proofs::EndingLemmas::end_found, ecma_reads::proofs::EndingLemmas::end_faults, ecma_reads::proofs::EndingLemmas::end_comments, ecma_reads::proofs::EndingLemmas::end_free))]
    fn besides_into(&mut self, slot: &mut Option<TokenAndSpan<'a>>) -> Result<(), AllocError>
        ensures done { OnOk result (Gives self.old self.new slot.old slot.new true) }
        ensures refused { OnErr result (IsRefused self.old self.new slot.old slot.new) }
        ensures free { length self.old.state.contexts < 128 → is_free_read (lexer_state self.old) ≡ true → IsOk result }
        ensures ended { self.old.reread ≡ None → rest self.old.input ≡ [] → IsOk result }
    {
        let mut behind = self.input.clone()?;
        let Reading { found, besides } = self.read_on(&mut behind)?;
        self.take_in(behind, Kept::of_answer(&found), besides)?;
        *slot = found;
        Ok(())
    }

    /// Reads without asking whether an allocation failed before.
    #[inline(always)]
    fn next_answer(&mut self) -> Result<Option<TokenAndSpan<'a>>, AllocError>
        ensures answer { IfOk result (λ answer. option_map spanned_view answer ≡ (reading_of (lexer_state self.old)).found) }
        ensures after { OnOk result (lexer_state self.new ≡ state_behind (lexer_state self.old) (reading_of (lexer_state self.old))) }
        ensures err { OnErr result (self.new ≡ self.old) }
        ensures free { length self.old.state.contexts < 128 → is_free_read (lexer_state self.old) ≡ true → IsOk result }
        ensures ended { self.old.reread ≡ None → rest self.old.input ≡ [] → IsOk result }
    {
        let mut answer = None;
        self.next_into(&mut answer)?;
        Ok(answer)
    }

    /// Reads into a slot that is kept: what [`Lexer::read`] returns takes the place of what is in it. Where tokens are
    /// kept this is the cheaper of the two, since the token is made in its place. Our own.
    ///
    /// # Errors
    ///
    /// `AllocError` as of [`Lexer::read`]; the slot is then as before.
    #[inline(always)]
    pub fn read_into(&mut self, slot: &mut Option<TokenAndSpan<'a>>) -> Result<(), AllocError>
        ensures answer { OnOk result (option_map spanned_view slot.new ≡ (reading_of (lexer_state self.old)).found) }
        ensures after { OnOk result (lexer_state self.new ≡ state_behind (lexer_state self.old) (reading_of (lexer_state self.old))) }
        ensures slot { OnErr result (slot.new ≡ slot.old) }
        ensures refused { self.old.refused ≡ true → (result ≡ Err alloc_error) × (self.new ≡ self.old) }
        ensures refusal { OnErr result (self.new ≡ record self.old { refused = true }) }
        ensures free { self.old.refused ≡ false → length self.old.state.contexts < 128
            → is_free_read (lexer_state self.old) ≡ true → IsOk result }
        ensures ended { self.old.refused ≡ false → self.old.reread ≡ None → rest self.old.input ≡ [] → IsOk result }
    {
        if self.refused {
            return Err(AllocError);
        }
        let read = self.next_into(slot);
        if read.is_err() {
            self.refused = true;
        }
        read
    }

    /// The next token, or nothing at the end.
    ///
    /// What else is wrong is recorded, waits or is dropped, as the context says; the comments before it are attached,
    /// where they are collected. A read does not allocate where nothing is wrong, no comment is collected, the token's
    /// value is its spelling, and fewer than 128 contexts are on the stack.
    ///
    /// # Errors
    ///
    /// `AllocError` where allocation fails. Nothing is then changed, but that each later read returns the same, until the
    /// lexer goes back to a checkpoint of before.
    #[inline(always)]
    pub fn read(&mut self) -> Result<Option<TokenAndSpan<'a>>, AllocError>
        // One step of the run, from any session.
        ensures step { (s : Session) → state_of s ≡ lexer_state self.old → IfOk result (λ answer.
            (answer_in (option_map spanned_view answer) ≡ (act s Step.Read).answer) × (lexer_state self.new ≡ state_of (act s Step.Read).after)) }
        // The same of what a lexer shows.
        ensures answer { IfOk result (λ answer. option_map spanned_view answer ≡ (reading_of (lexer_state self.old)).found) }
        ensures after { OnOk result (lexer_state self.new ≡ state_behind (lexer_state self.old) (reading_of (lexer_state self.old))) }
        // Once the end was read, it is returned again, where no slash is read again.
        ensures again { self.old.reread ≡ None → IfOk result (λ answer. answer ≡ None → (reading_of (lexer_state self.new)).found ≡ None) }
        ensures refused { self.old.refused ≡ true → (result ≡ Err alloc_error) × (self.new ≡ self.old) }
        ensures refusal { OnErr result (self.new ≡ record self.old { refused = true }) }
        ensures free { self.old.refused ≡ false → length self.old.state.contexts < 128
            → is_free_read (lexer_state self.old) ≡ true → IsOk result }
        // The end does not allocate, where no slash is read again.
        ensures ended { self.old.refused ≡ false → self.old.reread ≡ None → rest self.old.input ≡ [] → IsOk result }
    {
        if self.refused {
            return Err(AllocError);
        }
        match self.next_answer() {
            Ok(answer) => Ok(answer),
            Err(error) => {
                self.refused = true;
                Err(error)
            }
        }
    }
}

impl<'a> Iterator for Lexer<'a> {
    ghost use Rattle.ecma_state.specs.Items.{GivesItem, items_left};

    type Item = Result<TokenAndSpan<'a>, AllocError>;

    ghost next_gives = { GivesItem };

    ghost remaining = { items_left };

    /// What [`Lexer::read`] returns. `AllocError` comes once at most, and nothing behind it. Where no slash is read again
    /// it ends within twice the bytes that are left and two items, and returns nothing behind its end.
    fn next(&mut self) -> Option<Result<TokenAndSpan<'a>, AllocError>> {
        if self.refused {
            return None;
        }
        match self.read() {
            Ok(Some(token)) => Some(Ok(token)),
            Ok(None) => None,
            Err(error) => Some(Err(error)),
        }
    }
}

impl<'a> HandsOver<'a> for Lexer<'a> {
    ghost use Rattle.ecma_state.specs.Session.{lexer_state};

    ghost shown = { lexer_state };

    fn take_comments(&mut self) -> Option<CommentsBuffer<'a>> {
        if self.refused || !self.state.seen.ended {
            return None;
        }
        let none = CommentsBuffer::new(self.alloc);
        Some(mem::replace(&mut self.comments, none))
    }

    fn put_comments(&mut self, comments: CommentsBuffer<'a>) {
        let _ = mem::replace(&mut self.comments, comments);
    }
}

impl<'a> Tokens<'a> for Lexer<'a> {
    ghost use mir.Syntax.{named};
    ghost use Rattle.std.specs.Borrow.{Lends, sem};
    ghost use Rattle.std.specs.Prelude.{◌≡◌, []};
    ghost use Rattle.ecma_state.specs.Session.{value_with_contexts, lexer_state};
    ghost use Rattle.ecma_stream.specs.contracts.lexer.Lexer as lexer;
    ghost use Rattle.ecma_contexts.specs.contracts.token_contexts.TokenContexts as token_contexts;

    ghost state = { lexer_state };

    ghost with_contexts = { value_with_contexts };

    fn set_ctx(&mut self, ctx: Context) -> Result<(), AllocError> {
        self.errors.enter(&ctx)?;
        self.context = ctx;
        Ok(())
    }

    fn ctx(&self) -> Context {
        self.context
    }

    fn syntax(&self) -> Syntax {
        self.settings.syntax
    }

    fn target(&self) -> EsVersion {
        self.settings.target
    }

    fn start_pos(&self) -> BytePos {
        self.state.start
    }

    fn set_expr_allowed(&mut self, allow: bool) {
        Lexer::set_expr_allowed(self, allow);
    }

    fn set_next_regexp(&mut self, start: Option<BytePos>) {
        Lexer::set_next_regexp(self, start);
    }

    fn token_context(&self) -> &TokenContexts {
        &self.state.contexts
    }

    // The trait's clause, with the type of the lexer written out, which is too large to be told by its name.
    fn token_context_mut(&mut self) -> &mut TokenContexts
        ensures* writes_back { sem 𝓛 (Lends (lexer.the_row record { mir = named 1; lft = [] }) token_contexts.the_row self.entry result (value_with_contexts self.old)) }
        ensures value { result.now ≡ self.old.state.contexts }
    {
        &mut self.state.contexts
    }

    fn set_token_context(&mut self, contexts: TokenContexts) {
        self.state.contexts = contexts;
    }

    fn add_error(&mut self, error: Error<'a>) -> Result<(), Error<'a>> {
        self.errors.recorded.push(error)
    }

    fn add_module_mode_error(&mut self, error: Error<'a>) -> Result<(), Error<'a>> {
        self.errors.take_module_mode(&self.context, error)
    }

    fn take_errors(&mut self) -> ErrorList<'a> {
        self.errors.take_recorded_list(self.alloc)
    }
}
