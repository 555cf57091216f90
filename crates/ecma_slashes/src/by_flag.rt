//! Slashes by the flag.
ghost use Rattle.std.specs.Prelude.{◌≡◌, ◌+◌, ◌++◌, ◌<◌, ◌^◌, false, true, None, Err, [], alloc_error, is_some, length, option_map, IfOk, IsOk, OnOk, OnErr};
ghost use Rattle.std.specs.Str.{chars};
ghost use Rattle.ecma_place.specs.Cursor.{rest};
ghost use Rattle.ecma_token.specs.View.{spanned_view};
ghost use Rattle.ecma_state.specs.Run.{act_all};
ghost use Rattle.ecma_state.specs.Session.{Session, lexer_state, state_of};
ghost use Rattle.ecma_stream.specs.View.{IsGivenAs};
ghost use Rattle.ecma_rewinding.specs.Rewinding.{GoesOn};
ghost use Rattle.ecma_state.specs.Ending.{most_tokens};
ghost use Rattle.ecma_slashes.specs.ByFlag.{ReadsByFlag, steps_to_end, text_steps};
ghost use Rattle.ecma_slashes.specs.Rereads.{are_free_by, by_flag};

use crate::alone::{add_steps_by, read_by};
use crate::reads::steps_by;
use crate::slashes::Slashes;
use ecma_place::{BytePos, StringInput};
use ecma_state::settings::Settings;
use ecma_state::step::Step;
use ecma_stream::lexer::Lexer;
use ecma_syntax::Context;
use ecma_token::TokenAndSpan;
use std::alloc::{AllocError, Global};

/// The next token, or nothing at the end, with no parser to say what a slash is: where `/` or `/=` was read and an
/// expression was allowed before it ([`Lexer::expr_allowed`]), it is read again as a regular expression, whose token, or
/// that which says what is wrong with it, is returned in its place.
///
/// The flag is the lexer's own and knows no grammar: behind `}` of a function expression, behind a block in front of a
/// division (`{} /42`) and behind a name that is elsewhere a keyword (`yield`) a division is read as an expression. Our own.
///
/// The caller knows that no slash is read again ([`Lexer::reads_again`]).
///
/// # Errors
///
/// `AllocError` where allocation fails; each later read returns the same.
pub fn read_by_flag<'a>(lexer: &mut Lexer<'a>) -> Result<Option<TokenAndSpan<'a>>, AllocError>
    requires no_reread { lexer.old.reread ≡ None }
    // It answers what these steps of the run answer last, and leads where they do, from any session.
    ensures steps { (s : Session) → state_of s ≡ lexer_state lexer.old → IfOk result (λ found.
        ReadsByFlag s (option_map spanned_view found) (lexer_state lexer.new)) }
    // Each token leaves fewer that may come, so that a loop ends.
    ensures fewer { IfOk result (λ found. is_some found ≡ true → most_tokens (lexer_state lexer.new) < most_tokens (lexer_state lexer.old)) }
    ensures no_reread { OnOk result (lexer.new.reread ≡ None) }
    ensures refused { lexer.old.refused ≡ true → (result ≡ Err alloc_error) × (lexer.new ≡ lexer.old) }
    ensures refusal { OnErr result (lexer.new.refused ≡ true) }
    ensures given { OnErr result (IsGivenAs lexer.old lexer.new) }
    // What was recorded before stays, so that a checkpoint of before undoes it.
    ensures on { OnErr result (GoesOn (lexer_state lexer.old) (lexer_state lexer.new)) }
    // It does not allocate where neither of its reads does.
    ensures free { (s : Session) → state_of s ≡ lexer_state lexer.old → lexer.old.refused ≡ false → are_free_by by_flag s ≡ true → IsOk result }
    // Nor does the end.
    ensures ended { lexer.old.refused ≡ false → rest lexer.old.input ≡ [] → IsOk result }
{
    read_by(lexer, Slashes::ByFlag)
}

/// Reads to the end by the flag ([`read_by_flag`]), and adds the steps by which all was read. Our own.
///
/// The caller knows that no slash is read again ([`Lexer::reads_again`]).
///
/// # Errors
///
/// `AllocError` as of [`add_steps_by`].
pub fn add_steps_to_end(steps: &mut Vec<Step>, lexer: &mut Lexer) -> Result<(), AllocError>
    requires no_reread { lexer.old.reread ≡ None }
    ensures steps { (s : Session) → state_of s ≡ lexer_state lexer.old → OnOk result (steps.new.items ≡ steps.old.items ++ steps_to_end s) }
    ensures after { (s : Session) → state_of s ≡ lexer_state lexer.old → OnOk result (lexer_state lexer.new ≡ state_of (act_all s (steps_to_end s))) }
{
    add_steps_by(steps, lexer, Slashes::ByFlag)
}

/// The steps by which a text that starts at a place is read to its end by the flag ([`read_by_flag`]), in a context, which
/// the first step sets: a list for `replay`, and for all that takes lists of steps. Our own.
///
/// The caller knows that the text fits its places ([`StringInput::fits`]).
///
/// # Errors
///
/// `AllocError` where allocation fails.
pub fn steps_by_flag(
    alloc: Global,
    settings: &Settings,
    context: Context,
    source: &str,
    start: BytePos,
) -> Result<Vec<Step>, AllocError>
    requires { start.0 + length source.now < 2 ^ 32 }
    ensures { IfOk result (λ v. v.items ≡ text_steps settings.now context record { start = start.0; text = chars source.now; at = 0 }) }
{
    steps_by(alloc, settings, context, source, start, Slashes::ByFlag)
}
