//! The canonical text of a clean run.
ghost use Rattle.std.specs.Prelude.{◌≡◌, ◌+◌, ◌<◌, ◌^◌, ◌==◌, ◌&&◌, List, not, length, IfOk};
ghost use Rattle.std.specs.List.{All, list_all};
ghost use Rattle.std.specs.Str.{chars};
ghost use Rattle.ecma_place.specs.Cursor.{Cursor};
ghost use Rattle.ecma_state.specs.Run.{session, start_of};
ghost use Rattle.ecma_state.specs.Session.{kept_tokens};
ghost use Rattle.ecma_state.specs.State.{is_error};
ghost use Rattle.ecma_state.specs.declared.settings.Settings.{Settings};
ghost use Rattle.ecma_state.specs.declared.step.Step.{Step};
ghost use Rattle.ecma_joined.specs.Clean as clean;
ghost use Rattle.ecma_joined.specs.Sharing.{IsReadCleanly, begin};
ghost use Rattle.ecma_replay.specs.Replay.{Replays};
ghost use Rattle.ecma_canonical.specs.Canonical.{IsCanon};
ghost use Rattle.ecma_joined.specs.Joined.{StandsIn};

use crate::watch::steps_are_clean;
use ecma_joined::canonical_text;
use ecma_place::{BytePos, StringInput};
use ecma_replay::{Replay, replay};
use ecma_state::error_list::ErrorList;
use ecma_state::kept::Kept;
use ecma_state::settings::Settings;
use ecma_state::step::Step;
use ecma_token::TokenKind;
use std::alloc::{AllocError, Global};

/// What the canonical text of a list of steps over a text is.
#[derive(Drop)]
pub enum Canon {
    /// The canonical text.
    Text(String),
    /// The run isn't clean: its steps are not plain, or took an error, or did not come to the end, or an error was recorded,
    /// or a token that is kept is one. Errors that wait for module code are no hindrance.
    NotClean,
    /// The run is clean, but no text at this start place is as long as its canonical text: start place and length pass
    /// 4,294,967,295.
    TooLong,
}

/// Whether no token is an error. Our own.
pub fn has_no_error(kept: &[Kept]) -> bool
    ensures { result ≡ list_all (λ k. not (is_error k.kind)) kept.now }
{
    kept.iter().all(|token| token.kind != TokenKind::Error)
}

/// Whether steps that kept these tokens and left these errors came to the end, and left nothing wrong.
pub(crate) fn ends_clean(ended: bool, kept: &[Kept], errors: &ErrorList) -> bool
    ensures { result ≡ (ended && (list_all (λ k. not (is_error k.kind)) kept.now && (length errors.now == 0))) }
{
    ended && has_no_error(kept) && errors.is_empty()
}

/// Whether the run that was played by these steps is clean.
fn is_clean(alloc: Global, steps: &[Step], played: &Replay) -> Result<bool, AllocError>
    requires { length played.now.answers.items ≡ length steps.now }
    ensures { (settings : Settings) (input : Cursor) → Replays (start_of settings input) steps.now played.now → IfOk result (λ b. b ≡ clean.is_clean settings input steps.now) }
{
    let are_clean = steps_are_clean(alloc, steps, played.answers.as_slice())?;
    let kept = played.kept.as_slice();
    Ok(are_clean && ends_clean(played.ended, kept, &played.errors))
}

/// The canonical text of what a clean run keeps of a text that starts at a place.
pub(crate) fn canon_of_clean(
    alloc: Global,
    source: &str,
    start: BytePos,
    kept: &[Kept],
) -> Result<Canon, AllocError>
    requires fits { start.0 + length source.now < 2 ^ 32 }
    requires stand { All (StandsIn (begin start.0 (chars source.now))) kept.now }
    ensures { (settings : Settings) (steps : List Step) → kept.now ≡ kept_tokens (session settings (begin start.0 (chars source.now)) steps)
        → IsReadCleanly settings start.0 (chars source.now) steps → IfOk result (IsCanon settings start.0 (chars source.now) steps) }
{
    let text = canonical_text(alloc, source, start, kept)?;
    if StringInput::fits(text.as_str(), start) {
        Ok(Canon::Text(text))
    } else {
        Ok(Canon::TooLong)
    }
}

/// The canonical text of a list of steps over a text that starts at a place.
///
/// Where the run is clean this is [`canonical_text`](ecma_joined::canonical_text) of the tokens that it keeps; and the run
/// of that text, under the same settings, start place and steps, is clean, its tokens agree with the first ones in kind,
/// characters and flag, and its canonical text is that text.
///
/// The caller knows that the text fits its places ([`StringInput::fits`]).
///
/// # Errors
///
/// `AllocError` where allocation fails.
pub fn canonical(
    alloc: Global,
    settings: &Settings,
    source: &str,
    start: BytePos,
    steps: &[Step],
) -> Result<Canon, AllocError>
    requires { start.0 + length source.now < 2 ^ 32 }
    ensures { IfOk result (IsCanon settings.now start.0 (chars source.now) steps.now) }
{
    let played = replay(alloc, settings, source, start, steps)?;
    if !is_clean(alloc, steps, &played)? {
        return Ok(Canon::NotClean);
    }
    canon_of_clean(alloc, source, start, played.kept.as_slice())
}
