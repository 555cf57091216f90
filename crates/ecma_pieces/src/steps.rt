//! The pieces of a text by what steps come to over it.
ghost use Rattle.std.specs.Prelude.{◌≡◌, ◌+◌, ◌<◌, ◌^◌, [], length, IfOk};
ghost use Rattle.std.specs.List.{All};
ghost use Rattle.std.specs.Str.{chars};
ghost use Rattle.ecma_classes.specs.Classes.{StandsIn, Tile, TriviaStandsAlone, begin, joined};
ghost use Rattle.ecma_pieces.specs.Covered.{pieces_of};

use ecma_classes::{Piece, classes};
use ecma_place::BytePos;
use ecma_replay::gather;
use ecma_state::settings::Settings;
use ecma_state::step::Step;
use std::alloc::{AllocError, Global};

/// The pieces that cover a text which starts at a place ([`classes`]), of the tokens that a list of steps keeps of it and the
/// comments that it collects. What the steps did not come to is trivia, as are comments where the settings collect none.
///
/// The caller knows that the text fits its places ([`StringInput::fits`](ecma_place::StringInput::fits)).
///
/// # Errors
///
/// `AllocError` where allocation fails.
pub fn classes_of_steps(
    alloc: Global,
    settings: &Settings,
    source: &str,
    start: BytePos,
    steps: &[Step],
) -> Result<Vec<Piece>, AllocError>
    requires fits { start.0 + length source.now < 2 ^ 32 }
    ensures same { IfOk result (λ v. v.items ≡ pieces_of settings.now start.0 source.now steps.now) }

    // They cover the text, as those of `classes` do: each begins where the one before it ends, and holds a byte.
    ensures tiles { IfOk result (λ v. Tile start.0 v.items (start.0 + length source.now)) }
    ensures whole { IfOk result (λ v. joined start.0 source.now v.items ≡ source.now) }
    ensures places { IfOk result (λ v. All (λ p. StandsIn (begin start.0 (chars source.now)) p.span) v.items) }
    ensures longest { IfOk result (λ v. TriviaStandsAlone v.items) }
    ensures empty { source.now ≡ [] → IfOk result (λ v. v.items ≡ []) }
{
    let gathered = gather(alloc, settings, source, start, steps)?;
    let kept = gathered.kept.as_slice();
    let comments = gathered.comments.as_slice();
    classes(alloc, source, start, kept, comments)
}
