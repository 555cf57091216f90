//! Comments, each with the token that it leads or trails.
ghost use Rattle.std.specs.Prelude.{◌<◌, ◌^◌, length};

use crate::{START, settings};
use ecma_lexer::place::StringInput;
use ecma_lexer::syntax::Context;
use ecma_lexer::{BufferedComment, CommentList, Lexer, Slashes, hand_comments, tokenize};
use std::alloc::{AllocError, Global};
use std::io;

/// Writes comments, each with the place of its token.
fn write_comments(rt: &HostRuntime, comments: &[BufferedComment]) -> io::Result<()> {
    for found in comments {
        println!(rt; "{} {}", found.pos.0, found.comment.text.as_str())?;
    }
    Ok(())
}

/// Writes the comments of a text.
pub(crate) fn list_comments(rt: &HostRuntime, text: &str) -> io::Result<()>
    requires { length text.now < 2 ^ 32 }
{
    let (alloc, settings) = (rt.alloc(), settings(true));
    let context = Context::default();
    let output = tokenize(alloc, &settings, context, text, START, Slashes::ByRole)?;
    write_comments(rt, &output.gathered.comments)
}

/// Reads a text as a parser does, and counts its comments.
pub(crate) fn count_comments(alloc: Global, text: &str) -> Result<usize, AllocError>
    requires { length text.now < 2 ^ 32 }
{
    let input = StringInput::new(text, START);
    let mut lexer = Lexer::with_settings(alloc, &settings(true), input);
    for token in &mut lexer {
        drop(token?);
    }
    let mut comments = CommentList::new(alloc);
    let _at_end = hand_comments(&mut lexer, &mut comments)?;
    Ok(comments.as_slice().len())
}
