//! A run of steps, as the layer above takes them.
ghost use Rattle.std.specs.Prelude.{◌≡◌, ◌+◌, ◌<◌, ◌^◌, ◌++◌, ◌∷◌, [], List, length, IfOk, OnOk};
ghost use Rattle.std.specs.Str.{chars};
ghost use Rattle.ecma_state.specs.Session.{Session};
ghost use Rattle.ecma_state.specs.Run.{start_of};
ghost use Rattle.ecma_replay.specs.Playing.{Follows};
ghost use Rattle.ecma_replay.specs.Replay.{Gathers, Replays, TilesText};
ghost use Rattle.ecma_state.specs.declared.step.Step.{Step};

use crate::answer::Answer;
use crate::course::Course;
use crate::gathered::Gathered;
use crate::replayed::Replay;
use ecma_place::{BytePos, StringInput};
use ecma_slot::Slot;
use ecma_state::settings::Settings;
use ecma_state::step::Step;
use std::alloc::{AllocError, Global};

/// Takes the step of a read, and keeps its answer.
// A call of its own, so that the token is moved once, from where it is read to the answers.
#[inline(never)]
fn read_answer<'a>(course: &mut Course<'a>, answers: &mut Vec<Answer<'a>>) -> Result<(), AllocError>
    ensures { (begin : Session) (xs : List Step) → Follows begin xs answers.old.items course.old → OnOk result (Follows begin (xs ++ Step.Read ∷ []) answers.new.items course.new) }
{
    let mut slot = None;
    course.read_into(&mut slot)?;
    match slot {
        Some(token) => answers.push(Answer::Token(token))?,
        None => answers.push(Answer::End)?,
    }
    Ok(())
}

/// Takes a step, and keeps its answer.
#[inline(always)]
fn perform<'a>(
    course: &mut Course<'a>,
    answers: &mut Vec<Answer<'a>>,
    step: &Step,
) -> Result<(), AllocError>
    ensures { (begin : Session) (xs : List Step) → Follows begin xs answers.old.items course.old → OnOk result (Follows begin (xs ++ step.now ∷ []) answers.new.items course.new) }
{
    match step {
        Step::Read => read_answer(course, answers),
        _ => {
            let answer = course.respond(step)?;
            answers.push(answer)?;
            Ok(())
        }
    }
}

/// Takes steps over a text that starts at a place.
///
/// There is one answer for each step. `Reread` has the next reads begin at the slash that was read last, and `Withdraw`
/// takes that back; `Back(n)` puts all but the answers and the saves as it was right after save `n`, which are numbered
/// from 0 over the whole list. Steps that are refused change nothing: `NoSlash`, `NoSave`, `NoContext`.
///
/// The caller knows that the text fits its places ([`StringInput::fits`]).
///
/// # Errors
///
/// `AllocError` where allocation fails.
pub fn replay<'a>(
    alloc: Global,
    settings: &Settings,
    source: &'a str,
    start: BytePos,
    steps: &[Step],
) -> Result<Replay<'a>, AllocError>
    requires { start.0 + length source.now < 2 ^ 32 }
    ensures replays { IfOk result (λ r. Replays (start_of settings.now record { start = start.0; text = chars source.now; at = 0 }) steps.now r) }
    // Each token that is kept is right behind the gap that was read before it, and that behind the token before.
    ensures tiled { IfOk result (λ r. TilesText settings.now record { start = start.0; text = chars source.now; at = 0 } steps.now r) }
{
    let mut course = Course::new(alloc, settings, StringInput::new(source, start));
    let mut answers = Vec::new(alloc);
    'steps: for step in steps {
        perform(&mut course, &mut answers, step)?;
    }
    let Gathered {
        kept,
        errors,
        waiting,
        comments,
        ended,
    } = course.finish()?;
    Ok(Replay {
        answers,
        kept,
        errors,
        waiting,
        comments,
        ended,
    })
}

/// What [`replay`] returns of the steps but for their answers, which take most of its memory: for who looks at the tokens, the
/// errors and the comments alone. Our own.
///
/// The caller knows that the text fits its places ([`StringInput::fits`]).
///
/// # Errors
///
/// `AllocError` where allocation fails.
pub fn gather<'a>(
    alloc: Global,
    settings: &Settings,
    source: &'a str,
    start: BytePos,
    steps: &[Step],
) -> Result<Gathered<'a>, AllocError>
    requires { start.0 + length source.now < 2 ^ 32 }
    ensures { IfOk result (λ r. Gathers (start_of settings.now record { start = start.0; text = chars source.now; at = 0 }) steps.now r) }
{
    let mut course = Course::new(alloc, settings, StringInput::new(source, start));
    let mut slot = Slot::new();
    'steps: for step in steps {
        course.pass(step, &mut slot.token)?;
    }
    course.finish()
}
