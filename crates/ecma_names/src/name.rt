//! Names.
ghost use Rattle.std.specs.Prelude.{◌≡◌};
ghost use Rattle.ecma_names.specs.Names as names;

use ecma_classes::Class;
use ecma_comments::comments_buffer::BufferedCommentKind;
use ecma_span::CommentKind;

/// The name of the side of its token on which a comment is. Our own.
pub fn side_name(side: BufferedCommentKind) -> &'static str
    ensures { result.now ≡ names.side_name side }
{
    match side {
        BufferedCommentKind::Leading => "leading",
        BufferedCommentKind::Trailing => "trailing",
    }
}

/// The name of a kind of comment (ECMA-262, 12.4). Our own.
pub fn comment_name(kind: CommentKind) -> &'static str
    ensures { result.now ≡ names.comment_name kind }
{
    match kind {
        CommentKind::Line => "line",
        CommentKind::Block => "block",
    }
}

/// The name of what a piece of a text is. Our own.
pub fn piece_name(class: Class) -> &'static str
    ensures { result.now ≡ names.piece_name class }
{
    match class {
        Class::Token => "token",
        Class::Comment => "comment",
        Class::Trivia => "trivia",
    }
}
