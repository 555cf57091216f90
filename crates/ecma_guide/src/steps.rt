//! Lists of steps, and the pieces of what they read.
ghost use Rattle.std.specs.Prelude.{◌<◌, ◌^◌, length};

use crate::{START, settings};
use ecma_lexer::syntax::Context;
use ecma_lexer::{Class, Slashes, Step, classes_of_steps, replay, steps_by};
use std::alloc::{AllocError, Global};

/// How many tokens are kept where a parser reads two, goes back to the first, and reads two others.
pub(crate) fn count_kept(alloc: Global, text: &str) -> Result<usize, AllocError>
    requires { length text.now < 2 ^ 32 }
{
    let steps = [
        Step::Read,
        Step::Save,
        Step::Read,
        Step::Back(0),
        Step::Read,
        Step::Reread,
        Step::Read,
        Step::Withdraw,
    ];
    let played = replay(alloc, &settings(false), text, START, &steps)?;
    let kept = played.kept.len();
    drop(played);
    Ok(kept)
}

/// How many pieces of a text are in no token and no comment.
pub(crate) fn count_trivia(alloc: Global, text: &str) -> Result<usize, AllocError>
    requires { length text.now < 2 ^ 32 }
{
    let (settings, context) = (settings(true), Context::default());
    let steps = steps_by(alloc, &settings, context, text, START, Slashes::ByRole)?;
    let pieces = classes_of_steps(alloc, &settings, text, START, &steps)?;
    Ok(
        pieces
            .iter()
            .filter(|piece| piece.class == Class::Trivia)
            .count(),
    )
}
