//! What the layer above asks of what it reads tokens from.
ghost use Rattle.std.specs.Borrow.{Lends, sem};
ghost use Rattle.std.specs.Prelude.{◌≡◌, [], false, map, IsOk, OnOk, OnErr, IfErr};
ghost use Rattle.ecma_token.specs.View.{error_view};
ghost use Rattle.ecma_state.specs.Contexts.{Contexts};
ghost use Rattle.ecma_state.specs.Session.{LexerState};
ghost use Rattle.ecma_contexts.specs.contracts.token_contexts.TokenContexts as token_contexts;
ghost use Rattle.ecma_state.specs.Slashes.{MayReread};
ghost use Rattle.ecma_state.specs.Run.{state_allowing, state_in, state_rereading, state_with_contexts, state_with_error, state_with_module_mode_error, state_without_errors};

use ecma_place::BytePos;
use ecma_state::error_list::ErrorList;
use ecma_state::token_contexts::TokenContexts;
use ecma_syntax::{Context, EsVersion, Syntax};
use ecma_token::Error;
use std::alloc::AllocError;

/// What the layer above asks of what it reads tokens from.
///
/// A parser that looks ahead makes a checkpoint of its [`Lexer`](crate::Lexer), reads on, and goes back, which copies nothing
/// of what was read:
///
/// ```
/// let before = lexer.checkpoint()?;
/// let follows = lexer.read()?;
/// if !lexer.rewind(&before)? {
///     // Errors or comments that were there have been taken since.
/// }
/// ```
pub trait Tokens<'a> {
    ghost state: { Self → LexerState };

    // the same with other contexts
    ghost with_contexts: { Self → Contexts → Self };

    /// Sets the flags of the code that is being read.
    ///
    /// Where they say that it is a module, the errors that waited are recorded behind those that were, in order;
    /// else, and where none waited, this does not allocate.
    ///
    /// # Errors
    ///
    /// `AllocError` where allocation fails for the errors that waited. Nothing is then changed.
    fn set_ctx(&mut self, ctx: Context) -> Result<(), AllocError>
        ensures ok { OnOk result (state self.new ≡ state_in ctx (state self.old)) }
        ensures err { OnErr result (state self.new ≡ state self.old) }
        ensures outside { ctx.«module» ≡ false → IsOk result }
        ensures none_waiting { (state self.old).errors.waiting ≡ [] → IsOk result };

    /// The flags of the code that is being read.
    fn ctx(&self) -> Context
        ensures { result ≡ (state self.now).context };

    /// The settings of the language.
    fn syntax(&self) -> Syntax
        ensures { result ≡ (state self.now).settings.syntax };

    /// The version of ECMAScript that the code is for.
    fn target(&self) -> EsVersion
        ensures { result ≡ (state self.now).settings.target };

    /// The place where the text begins.
    fn start_pos(&self) -> BytePos
        ensures { result ≡ (state self.now).state.start };

    /// Says whether an expression may begin.
    fn set_expr_allowed(&mut self, allow: bool)
        ensures { state self.new ≡ state_allowing allow (state self.old) };

    /// Has each read begin at this slash, until this is called again, or go on behind what was read last.
    ///
    /// `start` is `None` or the place of the slash that was read last.
    fn set_next_regexp(&mut self, start: Option<BytePos>)
        requires { MayReread start (state self.old) }
        ensures { state self.new ≡ state_rereading start (state self.old) };

    /// What encloses the place that is read.
    fn token_context(&self) -> &TokenContexts
        ensures { result.now ≡ (state self.now).state.contexts };

    /// What encloses the place that is read, to change it: what the caller leaves there counts from then on.
    fn token_context_mut(&mut self) -> &mut TokenContexts
        ensures* writes_back { sem 𝓛 (Lends Self.row token_contexts.the_row self.entry result (with_contexts self.old)) }
        ensures after { (contexts : Contexts) → state (with_contexts self.old contexts) ≡ state_with_contexts contexts (state self.old) }
        ensures value { result.now ≡ (state self.old).state.contexts };

    /// Puts other contexts in the place of those that enclose the place that is read.
    fn set_token_context(&mut self, contexts: TokenContexts)
        ensures { state self.new ≡ state_with_contexts contexts (state self.old) };

    /// Records an error, also where errors are ignored.
    ///
    /// # Errors
    ///
    /// The error itself where it can't be allocated. Nothing is then changed.
    fn add_error(&mut self, error: Error<'a>) -> Result<(), Error<'a>>
        ensures ok { OnOk result (state self.new ≡ state_with_error (error_view error.entry) (state self.old)) }
        ensures err { OnErr result (state self.new ≡ state self.old) }
        ensures back { IfErr result (λ e. e ≡ error.entry) };

    /// Takes in an error that counts in module code: it is recorded in a module, also where errors are ignored, and
    /// else waits.
    ///
    /// # Errors
    ///
    /// The error itself where it can't be allocated. Nothing is then changed.
    fn add_module_mode_error(&mut self, error: Error<'a>) -> Result<(), Error<'a>>
        ensures ok { OnOk result (state self.new ≡ state_with_module_mode_error (error_view error.entry) (state self.old)) }
        ensures err { OnErr result (state self.new ≡ state self.old) }
        ensures back { IfErr result (λ e. e ≡ error.entry) };

    /// The errors that were recorded, in order. None is recorded then; it does not allocate.
    fn take_errors(&mut self) -> ErrorList<'a>
        ensures errors { map error_view result ≡ (state self.old).errors.recorded }
        ensures after { state self.new ≡ state_without_errors (state self.old) };
}
