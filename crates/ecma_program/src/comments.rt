//! What is written of the comments of a text: a line each.
ghost use Rattle.std.specs.Prelude.{◌≡◌, ◌++◌, None, Some, ◌^◌, ◌<◌, true, length, IfOk, MatchResult, OnOk};
ghost use Rattle.ecma_state.specs.Ending.{comments_of};
ghost use Rattle.ecma_state.specs.HandOver.{has_comments};
ghost use Rattle.ecma_state.specs.Session.{Session, lexer_state, state_of};
ghost use Rattle.ecma_program.specs.CommentLines as rows;
ghost use Rattle.ecma_program.specs.Rereads.{Lacks};

use crate::rereads::open;
use ecma_names::{comment_name, side_name};
use ecma_options::Options;
use ecma_start::pass_next;
use ecma_state::BufferedComment;
use ecma_stdio::{Fault, push_escaped, push_number, push_pair};
use ecma_stream::{CommentList, Lexer, hand_comments};
use std::alloc::{AllocError, Global};

/// The comments of a lexer that answered the end, in the order in which it hands them over.
pub fn take_comments<'a>(
    alloc: Global,
    lexer: &mut Lexer<'a>,
) -> Result<Vec<BufferedComment<'a>>, AllocError>
    ensures { has_comments (lexer_state lexer.old) ≡ true → IfOk result (λ v. v.items ≡ (lexer_state lexer.old).comments) }
{
    let mut comments = CommentList::new(alloc);
    hand_comments(lexer, &mut comments)?;
    Ok(comments.into_vec())
}

/// Adds its side, the place of its token, where it lies and its form, each with a space behind it.
fn push_head(out: &mut Vec<u8>, buffered: &BufferedComment) -> Result<(), AllocError>
    ensures { OnOk result (out.new.items ≡ out.old.items ++ rows.comment_head buffered.now) }
{
    let span = buffered.comment.span;
    out.extend_from_slice(side_name(buffered.kind).as_bytes())?;
    out.push(b' ')?;
    push_number(out, buffered.pos.0 as usize)?;
    out.push(b' ')?;
    push_pair(out, span.lo.0, span.hi.0)?;
    out.extend_from_slice(comment_name(buffered.comment.kind).as_bytes())?;
    out.push(b' ')?;
    Ok(())
}

/// Adds the line of a comment.
fn push_comment(out: &mut Vec<u8>, buffered: &BufferedComment) -> Result<(), AllocError>
    ensures { OnOk result (out.new.items ≡ out.old.items ++ rows.comment_line buffered.now) }
{
    push_head(out, buffered)?;
    push_escaped(out, buffered.comment.text.as_str().as_bytes())?;
    out.push(b'\n')?;
    Ok(())
}

/// Adds the lines of comments, in order.
fn push_comments(out: &mut Vec<u8>, comments: &[BufferedComment]) -> Result<(), AllocError>
    ensures { OnOk result (out.new.items ≡ out.old.items ++ rows.comment_lines comments.now) }
{
    for comment in comments {
        push_comment(out, comment)?;
    }
    Ok(())
}

/// Reads to the end, behind which the comments may be handed over.
fn read_out(lexer: &mut Lexer) -> Result<(), AllocError>
    requires { lexer.old.reread ≡ None }
    ensures comments { (s : Session) → state_of s ≡ lexer_state lexer.old → OnOk result ((lexer_state lexer.new).comments ≡ comments_of s) }
    ensures ended { (s : Session) → state_of s ≡ lexer_state lexer.old → OnOk result (has_comments (lexer_state lexer.new) ≡ true) }
{
    'tokens: while pass_next(lexer)? {}
    Ok(())
}

/// The lines of the comments of a text that starts at the place 0, where the tokens with these numbers are read again.
///
/// # Errors
///
/// `NoSlash` where one of those is no slash or isn't there; `OutOfMemory`.
pub fn comments_text(
    alloc: Global,
    options: Options,
    rereads: &[u64],
    text: &str,
) -> Result<Vec<u8>, Fault>
    requires { length text.now < 2 ^ 32 }
    ensures { MatchResult result
        (λ out. rows.comments_text options rereads.now text.now ≡ Some out.items)
        (λ fault. Lacks (rows.comments_text options rereads.now text.now) fault) }
{
    let mut lexer = open(alloc, true, options, rereads, text)?.lexer;
    read_out(&mut lexer)?;
    let comments = take_comments(alloc, &mut lexer)?;
    let mut out = Vec::new(alloc);
    push_comments(&mut out, &comments)?;
    Ok(out)
}
