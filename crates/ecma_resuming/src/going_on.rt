//! Going on from a checkpoint over the rest of a text. Our own.
ghost use Rattle.std.specs.Prelude.{◌≡◌, ◌≤◌, ◌↔◌, length, is_some, IfOk, IfSome, IsOk, IsTrue};
ghost use Rattle.ecma_state.specs.Session.{lexer_state};
ghost use Rattle.ecma_checkpoint.specs.Checkpoints.{resumed};
ghost use Rattle.ecma_resuming.specs.Resuming as resuming;

use ecma_checkpoint::Checkpoint;
use ecma_place::{BytePos, StringInput};
use ecma_state::settings::Settings;
use ecma_stream::Lexer;
use std::alloc::{AllocError, Global};

/// The slash, where there is one before the place; else the place.
fn or_slash(slash: Option<BytePos>, place: BytePos) -> BytePos
    ensures { result ≡ resuming.or_slash slash place }
{
    match slash {
        Some(slash) if slash.0 < place.0 => slash,
        _ => place,
    }
}

/// Where the rest of the text begins that [`resume`] wants: at the checkpoint's place, or at a slash before that, where one is
/// read again or may be.
pub fn begin_of(from: &Checkpoint) -> BytePos
    ensures { result ≡ resuming.begin_of from.now }
{
    let slash = from.state.seen.last_slash();
    or_slash(slash, or_slash(from.reread, from.at))
}

/// A lexer that goes on from a checkpoint over the rest of its text, by these settings: with the checkpoint's place, flags,
/// contexts and start place, and with no errors and no comments. What it reads is what the lexer reads that the checkpoint was made
/// of, over the whole text; errors and comments are those that come behind the checkpoint. A later checkpoint of either may be
/// handed to the other.
///
/// `rest` is the text from [`begin_of`] on. It returns `None` where the checkpoint does not fit ([`Checkpoint::fits`]), or
/// the places of `rest` are too large ([`StringInput::fits`]). It does not allocate where at most 128 contexts are open.
///
/// # Errors
///
/// `AllocError` as of [`Lexer::resume`].
pub fn resume<'a>(
    alloc: Global,
    settings: &Settings,
    from: &Checkpoint,
    rest: &'a str,
) -> Result<Option<Lexer<'a>>, AllocError>
    ensures goes { IfOk result (λ l. IsTrue (is_some l) ↔ resuming.IsResumed from.now rest.now) }
    ensures goes_on { IfOk result (λ l. IfSome l (λ l. lexer_state l ≡ resumed settings.now from.now (resuming.text_over from.now rest.now))) }
    ensures free { length from.now.state.contexts ≤ 128 → IsOk result }
{
    let begin = begin_of(from);
    if !StringInput::fits(rest, begin) {
        return Ok(None);
    }
    Lexer::resume(alloc, settings, from, StringInput::new(rest, begin))
}
