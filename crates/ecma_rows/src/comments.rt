//! Rows of comments.
ghost use Rattle.std.specs.Prelude.{◌≡◌, map, true, IfOk, OnErr};
ghost use Rattle.ecma_rows.specs.Asked.{judged, place_at};
ghost use Rattle.ecma_rows.specs.Rows as rows;
ghost use Rattle.ecma_rows.specs.Rows.{comment_rows};
ghost use Rattle.ecma_rows.specs.Told.{IsTold, Rows, told_by, written};

use crate::outcome::Answer;
use crate::request::{judge, places};
use crate::room::put;
use ecma_span::CommentKind;
use ecma_state::{BufferedComment, BufferedCommentKind};
use std::alloc::{AllocError, Global};

/// A comment: the place where the token begins that it leads, or ends that it trails; where it begins and ends; where what
/// it says begins and ends, without the signs that open and close it; all in bytes from the text's start; and flags: 1 for a
/// block comment, 2 for a comment that trails its token.
#[repr(C)]
#[derive(Clone, Copy, Debug, PartialEq, Eq)]
pub struct CommentRow {
    pub pos: u32,
    pub lo: u32,
    pub hi: u32,
    pub text_lo: u32,
    pub text_hi: u32,
    pub flags: u32,
}

fn flags(buffered: &BufferedComment) -> u32
    ensures { result ≡ rows.comment_flags buffered.now }
{
    let form = match buffered.comment.kind {
        CommentKind::Line => 0,
        CommentKind::Block => 1,
    };
    let side = match buffered.kind {
        BufferedCommentKind::Leading => 0,
        BufferedCommentKind::Trailing => 2,
    };
    form + side
}

fn closing(kind: CommentKind) -> u32
    ensures { result ≡ rows.closing kind }
{
    match kind {
        CommentKind::Line => 0,
        CommentKind::Block => 2,
    }
}

fn comment_row(buffered: &BufferedComment) -> CommentRow
    ensures { result ≡ rows.comment_row buffered.now }
{
    let span = buffered.comment.span;
    let text_hi = span.hi.0.saturating_sub(closing(buffered.comment.kind));
    let len = buffered.comment.text.as_str().len();
    CommentRow {
        pos: buffered.pos.0,
        lo: span.lo.0,
        hi: span.hi.0,
        text_lo: (text_hi as usize).saturating_sub(len) as u32,
        text_hi,
        flags: flags(buffered),
    }
}

/// Writes a row for each comment to the room, in order, as many as fit.
fn write_rows(comments: &[BufferedComment], out: &mut [CommentRow])
    ensures { out.new ≡ written (map rows.comment_row comments.now) out.old }
{
    let mut count = 0;
    for comment in comments {
        put(out, count, comment_row(comment));
        count += 1;
    }
}

/// Writes rows of comments, as many as fit, where each place that was named is that of a slash, or not.
fn write(comments: &[BufferedComment], is_met: bool, out: &mut [CommentRow]) -> Answer
    ensures { IsTold (Rows is_met (map rows.comment_row comments.now)) out.old out.new result }
{
    let fits = comments.len() <= out.len();
    write_rows(comments, out);
    Answer::of_count(is_met, fits, comments.len())
}

/// Writes a row for each comment of a text to the room, as many as fit, in the order in which the lexer hands them over. What
/// is taken and returned is as of [`write_tokens`](crate::write_tokens), but that comments are counted.
///
/// # Errors
///
/// `AllocError` where allocation fails; the room is then as before.
pub fn write_comments(
    alloc: Global,
    text: &[u8],
    bits: u32,
    slashes: &[u32],
    out: &mut [CommentRow],
) -> Result<Answer, AllocError>
    ensures told { IfOk result (IsTold (told_by true comment_rows (judged bits (map place_at slashes.now) text.now)) out.old out.new) }
    ensures err { OnErr result (out.new ≡ out.old) }
{
    let places = places(alloc, slashes)?;
    let asked = match judge(text, bits, &places) {
        Ok(asked) => asked,
        Err(status) => return Ok(Answer::of_status(status)),
    };
    let mut reader = asked.reader(alloc, true)?;
    reader.count_rest()?;
    let outcome = reader.finish();
    let is_met = asked.is_met(outcome.rereads);
    Ok(write(&outcome.comments, is_met, out))
}
