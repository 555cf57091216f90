//! Which token each comment of a read belongs to, and on which side of it the comment is: our own choice.
ghost use Rattle.std.specs.Prelude.{◌≡◌, ◌++◌, ◌∷◌, [], IsOk, OnErr, OnOk};
ghost use Rattle.ecma_comments.specs.Attachment.{attachment, for_next, of_next, of_previous};
ghost use Rattle.ecma_comments.specs.Buffers.{Begins};

use crate::comments_buffer::{BufferedComment, BufferedCommentKind, CommentsBuffer};
use ecma_span::{BytePos, Comment};
use std::alloc::AllocError;

/// The places that the comments of a read go by.
#[derive(Debug, Clone, Copy)]
pub struct Around {
    /// Where the text starts.
    pub start: BytePos,
    /// Where the token before ends; the start place where there is none.
    pub end: BytePos,
    /// Where the next token starts; none at the end.
    pub next: Option<BytePos>,
}

impl Around {
    /// A comment that is for the next token.
    fn waiting<'a>(self, comment: Comment<'a>) -> BufferedComment<'a>
        ensures { result ≡ for_next self comment.entry }
    {
        match self.next {
            Some(next) => BufferedComment {
                kind: BufferedCommentKind::Leading,
                pos: next,
                comment,
            },
            None => BufferedComment {
                kind: if self.end.0 == self.start.0 {
                    BufferedCommentKind::Leading
                } else {
                    BufferedCommentKind::Trailing
                },
                pos: self.end,
                comment,
            },
        }
    }
}

impl<'a> CommentsBuffer<'a> {
    /// Adds a comment of a read: one that is for the next token waits.
    fn attach_one(
        &mut self,
        around: Around,
        comment: Comment<'a>,
        is_for_next: bool,
    ) -> Result<(), AllocError>
        ensures comments { OnOk result (self.new.comments ≡ self.old.comments ++ of_previous around ((comment.entry, is_for_next) ∷ [])) }
        ensures waiting { OnOk result (self.new.pending_leading ≡ self.old.pending_leading ++ of_next around ((comment.entry, is_for_next) ∷ [])) }
        ensures begins { Begins self.old.comments self.new.comments }
    {
        if is_for_next {
            self.push_pending_leading(around.waiting(comment))
        } else {
            self.push(BufferedComment {
                kind: BufferedCommentKind::Trailing,
                pos: around.end,
                comment,
            })
        }
    }

    /// Adds the comments of a read, those for the next token among those that wait.
    fn attach_each(
        &mut self,
        around: Around,
        found: Vec<(Comment<'a>, bool)>,
    ) -> Result<(), AllocError>
        ensures comments { OnOk result (self.new.comments ≡ self.old.comments ++ of_previous around found.entry.items) }
        ensures waiting { OnOk result (self.new.pending_leading ≡ self.old.pending_leading ++ of_next around found.entry.items) }
        ensures begins { Begins self.old.comments self.new.comments }
        ensures free { found.entry.items ≡ [] → IsOk result }
    {
        'found: for (comment, is_for_next) in found {
            self.attach_one(around, comment, is_for_next)?;
        }
        Ok(())
    }

    /// Adds the comments of a gap, and then those in the token behind it.
    fn attach_both(
        &mut self,
        around: Around,
        of_gap: Vec<(Comment<'a>, bool)>,
        of_token: Vec<(Comment<'a>, bool)>,
    ) -> Result<(), AllocError>
        ensures comments { OnOk result (self.new.comments ≡ self.old.comments ++ of_previous around (of_gap.entry.items ++ of_token.entry.items)) }
        ensures waiting { OnOk result (self.new.pending_leading ≡ self.old.pending_leading ++ of_next around (of_gap.entry.items ++ of_token.entry.items)) }
        ensures begins { Begins self.old.comments self.new.comments }
        ensures free { of_gap.entry.items ++ of_token.entry.items ≡ [] → IsOk result }
    {
        self.attach_each(around, of_gap)?;
        self.attach_each(around, of_token)
    }

    /// Adds the comments of a read, and puts those for the next token behind the others.
    fn attach_all(
        &mut self,
        around: Around,
        of_gap: Vec<(Comment<'a>, bool)>,
        of_token: Vec<(Comment<'a>, bool)>,
    ) -> Result<(), AllocError>
        requires { self.old.pending_leading ≡ [] }
        ensures ok { OnOk result (self.new.comments ≡ self.old.comments ++ attachment around (of_gap.entry.items ++ of_token.entry.items)) }
        ensures none { OnOk result (self.new.pending_leading ≡ []) }
        ensures begins { Begins self.old.comments self.new.comments }
        ensures free { of_gap.entry.items ++ of_token.entry.items ≡ [] → IsOk result }
    {
        self.attach_both(around, of_gap, of_token)?;
        self.settle()
    }

    /// Takes in the comments of a read, those of the gap and those in the token, each with whether it is for the next token:
    /// those that aren't come first.
    ///
    /// It does not allocate where there are none.
    ///
    /// # Errors
    ///
    /// `AllocError` where allocation fails for them. Nothing is then changed.
    pub fn attach(
        &mut self,
        around: Around,
        of_gap: Vec<(Comment<'a>, bool)>,
        of_token: Vec<(Comment<'a>, bool)>,
    ) -> Result<(), AllocError>
        requires { self.old.pending_leading ≡ [] }
        ensures ok { OnOk result (self.new.comments ≡ self.old.comments ++ attachment around (of_gap.entry.items ++ of_token.entry.items)) }
        ensures err { OnErr result (self.new.comments ≡ self.old.comments) }
        ensures none { self.new.pending_leading ≡ [] }
        ensures free { of_gap.entry.items ++ of_token.entry.items ≡ [] → IsOk result }
    {
        if of_gap.is_empty() && of_token.is_empty() {
            return Ok(());
        }
        let before = self.len();
        let attached = self.attach_all(around, of_gap, of_token);
        if attached.is_err() {
            self.truncate(before);
            let _ = self.take_pending_leading();
        }
        attached
    }
}
