//! For which token a comment is: our own choice.
ghost use Rattle.std.specs.Prelude.{◌≡◌};
ghost use Rattle.ecma_place.specs.Cursor.{rest};
ghost use Rattle.ecma_grammar.specs.Comments.{semicolon_follows, can_trail_line, can_trail_block, is_for_next};

use crate::white_space::skip_white_space;
use ecma_place::{CommentKind, StringInput};
use ecma_token::TokenKind;

/// Whether a semicolon follows, behind white space alone.
fn semicolon_follows(input: &StringInput) -> bool
    ensures { result ≡ semicolon_follows (rest input.now) }
{
    match input.clone() {
        Ok(mut ahead) => {
            skip_white_space(&mut ahead);
            ahead.is_byte(b';')
        }
        Err(_) => false,
    }
}

/// Whether a line comment can be the previous token's, also where there is none.
fn can_trail_line(prev: Option<TokenKind>) -> bool
    ensures { result ≡ can_trail_line prev }
{
    match prev {
        None => true,
        Some(kind) => kind.can_have_trailing_line_comment(),
    }
}

/// Whether a block comment can be the previous token's.
fn can_trail_block(prev: Option<TokenKind>) -> bool
    ensures { result ≡ can_trail_block prev }
{
    match prev {
        None => false,
        Some(kind) => kind.can_have_trailing_comment(),
    }
}

/// Whether a comment is for the next token: `flag` says whether a line terminator comes before it, or no token came
/// before, and the cursor is behind it.
pub(crate) fn is_for_next(
    prev: Option<TokenKind>,
    flag: bool,
    kind: CommentKind,
    behind: &StringInput,
) -> bool
    ensures { result ≡ is_for_next prev flag (semicolon_follows (rest behind.now)) kind }
{
    match kind {
        CommentKind::Line => flag || !can_trail_line(prev),
        CommentKind::Block => (flag || !can_trail_block(prev)) && !semicolon_follows(behind),
    }
}
