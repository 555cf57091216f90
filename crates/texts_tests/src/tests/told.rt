//! What steps over a text come to, as a text. Each value that owns errors or comments is written where it is made, so
//! that all else compares texts.
//!
//! The parts, with `; ` between them: the answers, or how many slashes are read again; the errors that were recorded,
//! those that wait, the comments, `ended` where the last read was the end, and the tokens that are kept.
use ecma_place::{BytePos, StringInput};
use ecma_replay::{Answer, Gathered, Replay, gather, replay};
use ecma_slashes::count_rereads;
use ecma_state::{BufferedComment, Kept, Step};
use ecma_token::Error;
use listing::listing::{
    Settings, lexer_settings, write_comments, write_errors, write_note, write_token,
};
use replay_model::replay_by_copies;
use std::alloc::{AllocError, Global};
use std::process::Abort;

/// What was found in a text is this. Here alone, as it brings printing into a proof.
pub(super) fn assert_text(rt: &impl Abort, text: &str, found: &str, expected: &str) {
    assert_eq!(rt; found, expected, "{text:?}");
}

fn write_answer(out: &mut String, answer: &Answer) -> Result<(), AllocError> {
    match answer {
        Answer::Token(token) => {
            write_token(out, token, token.had_line_break)?;
            Ok(())
        }
        Answer::End => write_note(out, "end"),
        Answer::Done => write_note(out, "done"),
        Answer::Errors(errors) => {
            write_note(out, "taken ")?;
            write!(out, "{}", errors.as_slice().len())?;
            write_errors(out, "", errors.as_slice())
        }
        Answer::NoSlash => write_note(out, "no slash"),
        Answer::NoSave => write_note(out, "no save"),
        Answer::NoContext => write_note(out, "no context"),
    }
}

/// Writes the answers, or of them the tokens alone.
pub(super) fn write_answers(
    out: &mut String,
    answers: &[Answer],
    tokens_alone: bool,
) -> Result<(), AllocError> {
    for answer in answers {
        if !tokens_alone || matches!(answer, Answer::Token(_)) {
            write_answer(out, answer)?;
        }
    }
    Ok(())
}

/// Writes what is left besides the tokens.
pub(super) fn write_left(
    out: &mut String,
    recorded: &[Error],
    waiting: &[Error],
    comments: &[BufferedComment],
    ended: bool,
) -> Result<(), AllocError> {
    write_errors(out, "recorded ", recorded)?;
    write_errors(out, "waiting ", waiting)?;
    write_comments(out, comments)?;
    if ended {
        return write_note(out, "ended");
    }
    Ok(())
}

/// Writes how many tokens are kept, and these.
fn write_kept(out: &mut String, kept: &[Kept]) -> Result<(), AllocError> {
    write_note(out, "kept ")?;
    write!(out, "{}:", kept.len())?;
    for token in kept {
        let (span, kind) = (token.span, token.kind);
        let flag = if token.flag { "lf" } else { "-" };
        write!(out, " {}..{} {flag} {kind:?}", span.lo.0, span.hi.0)?;
    }
    Ok(())
}

pub(super) fn write_gathered(
    out: &mut String,
    found: &Gathered,
    rereads: usize,
) -> Result<(), AllocError> {
    let (recorded, waiting) = (found.errors.as_slice(), found.waiting.as_slice());
    write!(out, "{rereads} again")?;
    write_left(out, recorded, waiting, &found.comments, found.ended)?;
    write_kept(out, &found.kept)
}

/// Writes what was replayed, with its answers or with how many slashes are read again.
fn write_replay(
    out: &mut String,
    found: &Replay,
    rereads: Option<usize>,
) -> Result<(), AllocError> {
    let (recorded, waiting) = (found.errors.as_slice(), found.waiting.as_slice());
    match rereads {
        Some(rereads) => write!(out, "{rereads} again")?,
        None => write_answers(out, &found.answers, false)?,
    }
    write_left(out, recorded, waiting, &found.comments, found.ended)?;
    write_kept(out, &found.kept)
}

/// What the steps over a text come to.
pub(super) fn played<'a>(
    alloc: Global,
    settings: Settings,
    text: &'a str,
    steps: &[Step],
) -> Result<Replay<'a>, AllocError> {
    let start = BytePos(settings.start);
    if !StringInput::fits(text, start) {
        return Err(AllocError);
    }
    replay(alloc, &lexer_settings(settings), text, start, steps)
}

/// The same by copies alone.
fn copied<'a>(
    alloc: Global,
    settings: Settings,
    text: &'a str,
    steps: &[Step],
) -> Result<Replay<'a>, AllocError> {
    let start = BytePos(settings.start);
    if !StringInput::fits(text, start) {
        return Err(AllocError);
    }
    replay_by_copies(alloc, &lexer_settings(settings), text, start, steps)
}

/// How steps are played.
#[derive(Clone, Copy)]
pub(super) enum Way {
    /// By `replay`.
    Replayed,
    /// By `replay`, whose answers are left out.
    WithoutAnswers,
    /// By copies alone.
    Copied,
}

/// What the steps over a text answer and come to.
pub(super) fn replay_told(
    alloc: Global,
    settings: Settings,
    text: &str,
    steps: &[Step],
    way: Way,
) -> Result<String, AllocError> {
    let (by_copies, rereads) = match way {
        Way::Replayed => (false, None),
        Way::WithoutAnswers => (false, Some(count_rereads(steps))),
        Way::Copied => (true, None),
    };
    let found = if by_copies {
        copied(alloc, settings, text, steps)?
    } else {
        played(alloc, settings, text, steps)?
    };
    let mut out = String::new(alloc);
    let written = write_replay(&mut out, &found, rereads);
    drop(found);
    written?;
    Ok(out)
}

/// What is gathered of the steps over a text.
pub(super) fn gather_told(
    alloc: Global,
    settings: Settings,
    text: &str,
    steps: &[Step],
) -> Result<String, AllocError> {
    let start = BytePos(settings.start);
    if !StringInput::fits(text, start) {
        return Err(AllocError);
    }
    let found = gather(alloc, &lexer_settings(settings), text, start, steps)?;
    let mut out = String::new(alloc);
    let written = write_gathered(&mut out, &found, count_rereads(steps));
    drop(found);
    written?;
    Ok(out)
}
