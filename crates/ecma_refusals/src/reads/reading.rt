//! Texts read to their end, and each slash again, with a copy of the lexer or a checkpoint made before each read.
use crate::again;
use crate::reads::asked::{Way, asked};
use crate::reads::going_back;
use crate::reads::rows::{DEEPER, TEXTS, opened, opened_deep};
use crate::reads::told::{tell_comments, tell_errors, told};
use ecma_stream::{CommentList, Lexer, Tokens, hand_comments};
use std::alloc::{AllocError, Global};
use std::io;

/// More reads than any text takes.
const READS: usize = 30;

/// Whether comments are handed over, and how many.
fn hand_counted(alloc: Global, lexer: &mut Lexer) -> Result<(bool, usize), AllocError> {
    let mut store = CommentList::new(alloc);
    let handed = hand_comments(lexer, &mut store)?;
    Ok((handed, store.as_slice().len()))
}

/// Writes what stands behind a refused read: how the same call answers then, whether there is a slash to be read again, whether
/// comments are handed over, and how many; also whether the errors are those from before it, and the errors.
fn tell_refused(
    rt: &impl Print,
    alloc: Global,
    way: Way,
    lexer: &mut Lexer,
    before: &Lexer,
) -> io::Result<()> {
    let again = match asked(rt, way, lexer, false)? {
        Ok(true) => "a token",
        Ok(false) => "none",
        Err(_) => "refused",
    };
    let slash = lexer.last_slash().is_some();
    let (handed, comments) = hand_counted(alloc, lexer)?;
    let errors = told(alloc, lexer)?;
    let same = told(alloc, before)?.as_str() == errors.as_str();
    println!(rt;
        "refused {}: again {again}, slash {slash}, handed {handed}, comments {comments}, same errors {same}; {errors:?}",
        way.name()
    )
}

/// Asks for the next token, and says whether there was one. Where that is refused, a copy made before goes on.
fn ask(rt: &impl Print, alloc: Global, way: Way, lexer: &mut Lexer) -> io::Result<bool> {
    let before = again!(rt, "refused copy", lexer.copy());
    if let Ok(found) = asked(rt, way, lexer, true)? {
        return Ok(found);
    }
    tell_refused(rt, alloc, way, lexer, &before)?;
    *lexer = before;
    Ok(asked(rt, way, lexer, true)??)
}

fn step(rt: &impl Print, alloc: Global, way: Way, lexer: &mut Lexer) -> io::Result<bool> {
    match way {
        Way::GoingBack => going_back::step(rt, lexer),
        _ => ask(rt, alloc, way, lexer),
    }
}

/// Writes what stands behind the tokens. Where a comment is refused, it and those behind it are handed over then.
fn tell_rest(rt: &impl Print, alloc: Global, lexer: &mut Lexer) -> io::Result<()> {
    tell_errors(rt, "recorded", lexer.take_errors().as_slice())?;
    tell_errors(rt, "waiting", lexer.module_errors())?;
    let mut store = CommentList::new(alloc);
    if hand_comments(lexer, &mut store).is_err() {
        let rest = hand_comments(lexer, &mut store)?;
        println!(rt; "refused hand_comments: rest handed {rest}")?;
    }
    tell_comments(rt, store.as_slice())
}

/// Reads to the end, and writes all that was answered, and what stands behind the tokens. An answer that is a slash may be read
/// again.
pub(crate) fn read_out(
    rt: &impl Print,
    alloc: Global,
    way: Way,
    lexer: &mut Lexer,
) -> io::Result<()> {
    for _ in 0..READS {
        if !step(rt, alloc, way, lexer)? {
            break;
        }
        let slash = lexer.last_slash();
        if slash.is_some() && way.reads_slashes_again() {
            lexer.set_next_regexp(slash);
            step(rt, alloc, way, lexer)?;
            lexer.set_next_regexp(None);
        }
    }
    tell_rest(rt, alloc, lexer)
}

fn play_way(rt: &impl Print, alloc: Global, way: Way) -> io::Result<()> {
    for text in TEXTS {
        println!(rt; "{} {text:?}", way.name())?;
        read_out(rt, alloc, way, &mut opened(alloc, text)?)?;
    }
    println!(rt; "{} {DEEPER:?}, deep", way.name())?;
    read_out(rt, alloc, way, &mut opened_deep(alloc, DEEPER)?)
}

/// Reads the texts in each way.
pub fn play(rt: &impl Print, alloc: Global) -> io::Result<()> {
    for way in [
        Way::Read,
        Way::Next,
        Way::ReadInto,
        Way::ReadByFlag,
        Way::GoingBack,
    ] {
        play_way(rt, alloc, way)?;
    }
    Ok(())
}
