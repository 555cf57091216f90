//! The canonical text of what was gathered of a text.
ghost use Rattle.std.specs.Prelude.{◌+◌, ◌<◌, ◌^◌, List, length, IfOk};
ghost use Rattle.std.specs.Str.{chars};
ghost use Rattle.ecma_state.specs.declared.settings.Settings.{Settings};
ghost use Rattle.ecma_state.specs.declared.step.Step.{Step};
ghost use Rattle.ecma_joined.specs.Sharing.{begin};
ghost use Rattle.ecma_canonical.specs.Canonical.{GathersPlainly, IsCanon};

use crate::clean_text::{Canon, canon_of_clean, ends_clean};
use ecma_place::BytePos;
use ecma_replay::Gathered;
use std::alloc::{AllocError, Global};

/// The canonical text of a text that starts at a place, as [`canonical`](crate::canonical) returns it of a list of steps, by
/// what [`gather`](ecma_replay::gather), or one reading, gathered of them. Our own.
///
/// The caller knows that the text fits its places ([`StringInput::fits`](ecma_place::StringInput::fits)), and that all was
/// gathered of it by steps whose run is clean where it comes to the end and leaves nothing wrong. So are plain steps that take
/// no error, as are those by which a text is read to its end in a context in which errors are not ignored. What the steps
/// were is not seen here, so that other steps have to be asked for by `canonical`.
///
/// # Errors
///
/// `AllocError` where allocation fails.
pub fn canonical_of_gathered(
    alloc: Global,
    source: &str,
    start: BytePos,
    gathered: &Gathered,
) -> Result<Canon, AllocError>
    requires fits { start.0 + length source.now < 2 ^ 32 }
    requires plain { (settings : Settings) × (steps : List Step) × GathersPlainly settings (begin start.0 (chars source.now)) steps gathered.now }
    ensures { (settings : Settings) (steps : List Step) → GathersPlainly settings (begin start.0 (chars source.now)) steps gathered.now
        → IfOk result (IsCanon settings start.0 (chars source.now) steps) }
{
    let kept = gathered.kept.as_slice();
    if !ends_clean(gathered.ended, kept, &gathered.errors) {
        return Ok(Canon::NotClean);
    }
    canon_of_clean(alloc, source, start, kept)
}
