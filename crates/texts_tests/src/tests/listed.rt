//! The listing of a text, by a lexer and by a replay: reads that are played come to what the lexer answers one by one.
use super::commands::Command::{Contexts, Flags, PopAll, ReadAll};
use super::commands::steps_of;
use super::told::{assert_text, played, write_answers, write_left};
use ecma_replay::{Answer, Replay};
use ecma_state::{Kept, Step};
use listing::listing::{Row, Settings, listing, write_note};
use std::alloc::{AllocError, Global};
use std::process::Abort;
use std::test::Fail;

/// The steps that read the text of a row to its end, and then take all contexts away.
fn row_steps(alloc: Global, settings: Settings, text: &str) -> Result<Vec<Step>, AllocError> {
    let flags = Flags(settings);
    let bytes = text.len();
    match settings.contexts {
        Some(contexts) => { steps_of(alloc, &[flags, Contexts(contexts), ReadAll, PopAll], bytes) }
        None => steps_of(alloc, &[flags, ReadAll, PopAll], bytes),
    }
}

/// What these steps come to.
pub(super) fn play<'a>(
    alloc: Global,
    settings: Settings,
    text: &'a str,
) -> Result<Replay<'a>, AllocError> {
    let steps = row_steps(alloc, settings, text)?;
    let found = played(alloc, settings, text, &steps);
    drop(steps);
    found
}

/// Whether the tokens that were answered are kept.
pub(super) fn keeps_answers(found: &Replay) -> bool {
    let mut kept = found.kept.iter();
    for answer in &found.answers {
        if let Answer::Token(token) = answer {
            match kept.next() {
                Some(own) if *own == Kept::of(token) => {}
                _ => return false,
            }
        }
    }
    kept.next().is_none()
}

/// How many contexts have been taken away since the end was answered.
fn count_contexts(answers: &[Answer]) -> usize {
    let mut taken = 0usize;
    for answer in answers {
        taken = match answer {
            Answer::End => 0,
            Answer::Done => taken.saturating_add(1),
            _ => taken,
        };
    }
    taken
}

/// Writes the tokens, and what is left at the end: of the contexts, whose kinds no step tells, their number.
fn write_played(out: &mut String, found: &Replay) -> Result<(), AllocError> {
    let (recorded, waiting) = (found.errors.as_slice(), found.waiting.as_slice());
    write_answers(out, &found.answers, true)?;
    write_left(out, recorded, waiting, &found.comments, found.ended)?;
    if !keeps_answers(found) {
        write_note(out, "other tokens are kept")?;
    }
    if !matches!(found.answers.last(), Some(Answer::NoContext)) {
        write_note(out, "inside of more")?;
    }
    write!(out, " inside {}", count_contexts(&found.answers))
}

fn played_listing(alloc: Global, settings: Settings, text: &str) -> Result<String, AllocError> {
    let found = play(alloc, settings, text)?;
    let mut out = String::new(alloc);
    let written = write_played(&mut out, &found);
    drop(found);
    written?;
    Ok(out)
}

/// A listing without the contexts at the end, and how many there are, which is one where it names none.
fn without_contexts(listing: &str) -> (&str, usize) {
    match listing.split_once("; inside") {
        Some((before, contexts)) => (before, contexts.split_whitespace().count()),
        None => (listing, 1),
    }
}

/// What a replay comes to where a lexer has this listing.
fn wanted_listing(alloc: Global, listing: &str) -> Result<String, AllocError> {
    let (before, contexts) = without_contexts(listing);
    let mut out = String::new(alloc);
    out.push_str(before)?;
    write_note(&mut out, "ended")?;
    write!(out, " inside {contexts}")?;
    Ok(out)
}

/// A text has this listing, by a lexer and by a replay.
fn assert_listing(
    rt: &impl Abort,
    alloc: Global,
    settings: Settings,
    text: &str,
    expected: &str,
) -> Result<(), AllocError> {
    let listed = listing(alloc, settings, text)?;
    assert_text(rt, text, listed.as_str(), expected);
    let played = played_listing(alloc, settings, text)?;
    let wanted = wanted_listing(alloc, expected)?;
    assert_text(rt, text, played.as_str(), wanted.as_str());
    Ok(())
}

/// Each text has its listing.
pub(super) fn assert_listings(rt: &impl Abort, alloc: Global, rows: &[Row]) -> Result<(), Fail> {
    for (settings, text, expected) in rows {
        assert_listing(rt, alloc, *settings, text, expected)?;
    }
    Ok(())
}
