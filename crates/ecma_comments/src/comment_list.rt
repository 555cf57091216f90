//! A store of comments.
ghost use Rattle.std.specs.Prelude.{◌≡◌, ◌++◌, ◌∷◌, [], OnOk, OnErr, IfErr};

use crate::comments_buffer::{BufferedComment, BufferedCommentKind};
use ecma_span::{BytePos, Comment, Comments};
use std::alloc::Global;
use std::marker::Model;

/// A store that keeps the comments that it is handed, in order. Our own.
#[derive(Drop)]
pub struct CommentList<'a> {
    comments: Vec<BufferedComment<'a>>,
}

impl<'a> Model for CommentList<'a> {
    ghost use Rattle.std.specs.Prelude.{List};
    ghost use Rattle.ecma_comments.specs.declared.comments_buffer.BufferedComment.{BufferedComment};

    ghost Value = { List BufferedComment };

    ghost view = { λ list. list.comments.items };
}

impl<'a> CommentList<'a> {
    /// No comments, which does not allocate.
    pub fn new(alloc: Global) -> CommentList<'a>
        ensures { result ≡ [] }
    {
        CommentList {
            comments: Vec::new(alloc),
        }
    }

    /// The comments, in the order in which they were handed over.
    pub fn as_slice(&self) -> &[BufferedComment<'a>]
        ensures { result.now ≡ self.now }
    {
        self.comments.as_slice()
    }

    /// The comments, in the order in which they were handed over.
    pub fn into_vec(self) -> Vec<BufferedComment<'a>>
        ensures { result.items ≡ self.entry }
    {
        self.comments
    }

    /// Adds a comment, or returns it where allocation fails.
    fn add(&mut self, buffered: BufferedComment<'a>) -> Result<(), Comment<'a>>
        ensures ok { OnOk result (self.new ≡ self.old ++ buffered.entry ∷ []) }
        ensures err { OnErr result (self.new ≡ self.old) }
        ensures back { IfErr result (λ c. c ≡ buffered.entry.comment) }
    {
        self.comments
            .push(buffered)
            .map_err(|failed| failed.value.comment)
    }
}

impl<'a> Comments<'a> for CommentList<'a> {
    ghost use Rattle.std.specs.Prelude.{map};
    ghost use Rattle.ecma_comments.specs.HandOver.{added_of};

    ghost added = { λ list. map added_of list };

    fn add_leading(&mut self, pos: BytePos, comment: Comment<'a>) -> Result<(), Comment<'a>> {
        self.add(BufferedComment {
            kind: BufferedCommentKind::Leading,
            pos,
            comment,
        })
    }

    fn add_trailing(&mut self, pos: BytePos, comment: Comment<'a>) -> Result<(), Comment<'a>> {
        self.add(BufferedComment {
            kind: BufferedCommentKind::Trailing,
            pos,
            comment,
        })
    }
}
