//! Comments that a lexer gathers, each with the place that it belongs to.
ghost use Rattle.std.specs.Prelude.{◌≡◌, ◌++◌, ◌∷◌, [], drop, length, map, take, IsTrue, IsOk, IfOk, OnOk, OnErr};

use crate::hand_over::give_from_last;
use crate::shared_comments::{SharedComments, add_copies};
use ecma_span::{BytePos, Comment, Comments};
use std::alloc::{AllocError, Global};
use std::marker::Model;
use std::mem;

/// On which side of a token a comment is: our own choice of words.
#[derive(Clone, Copy)]
pub enum BufferedCommentKind {
    /// Before the token that starts at the place.
    Leading,
    /// Behind the token that ends at the place.
    Trailing,
}

/// A comment, with the place of the token that it belongs to.
#[derive(Drop)]
pub struct BufferedComment<'a> {
    pub kind: BufferedCommentKind,
    /// Where the token starts that the comment leads, or ends that it trails.
    pub pos: BytePos,
    pub comment: Comment<'a>,
}

impl<'a> BufferedComment<'a> {
    /// The same comment. One whose text is borrowed does not allocate.
    ///
    /// # Errors
    ///
    /// `AllocError` where allocation fails for the bytes of an owned text.
    pub fn copy(&self, alloc: Global) -> Result<BufferedComment<'a>, AllocError>
        ensures same { IfOk result (λ c. c ≡ self.now) }
        ensures free { IsTrue self.now.comment.text.is_borrowed → IsOk result }
    {
        Ok(BufferedComment {
            kind: self.kind,
            pos: self.pos,
            comment: self.comment.copy(alloc)?,
        })
    }
}

/// Copies of these comments.
fn copies<'a>(
    alloc: Global,
    comments: &[BufferedComment<'a>],
) -> Result<Vec<BufferedComment<'a>>, AllocError>
    ensures { IfOk result (λ copies. copies.items ≡ comments.now) }
{
    let mut copies = Vec::with_capacity(alloc, comments.len())?;
    add_copies(&mut copies, comments)?;
    Ok(copies)
}

/// Comments in order: those that have their token, and those that wait for the next one.
#[derive(Drop)]
pub struct CommentsBuffer<'a> {
    comments: SharedComments<'a>,
    pending_leading: Vec<BufferedComment<'a>>,
}

impl<'a> Model for CommentsBuffer<'a> {
    ghost use Rattle.ecma_comments.specs.Buffers.{CommentsValue};

    ghost Value = { CommentsValue };

    ghost view = { λ b. record { comments = b.comments; pending_leading = b.pending_leading.items } };
}

impl<'a> CommentsBuffer<'a> {
    /// No comments, which does not allocate.
    pub fn new(alloc: Global) -> CommentsBuffer<'a>
        ensures { result ≡ record { comments = []; pending_leading = [] } }
    {
        CommentsBuffer {
            comments: SharedComments::new(alloc),
            pending_leading: Vec::new(alloc),
        }
    }

    /// Adds a comment that has its token.
    ///
    /// # Errors
    ///
    /// `AllocError` where it can't be allocated. Nothing is then changed.
    pub fn push(&mut self, comment: BufferedComment<'a>) -> Result<(), AllocError>
        ensures ok { OnOk result (self.new ≡ record self.old { comments = self.old.comments ++ comment.entry ∷ [] }) }
        ensures err { OnErr result (self.new ≡ self.old) }
    {
        self.comments.push(comment)
    }

    /// Adds a comment that waits for the next token.
    ///
    /// # Errors
    ///
    /// `AllocError` where it can't be allocated. Nothing is then changed.
    pub fn push_pending_leading(&mut self, comment: BufferedComment<'a>) -> Result<(), AllocError>
        ensures ok { OnOk result (self.new ≡ record self.old { pending_leading = self.old.pending_leading ++ comment.entry ∷ [] }) }
        ensures err { OnErr result (self.new ≡ self.old) }
    {
        self.pending_leading.push(comment)?;
        Ok(())
    }

    /// How many comments have their token.
    pub fn len(&self) -> usize
        ensures { result ≡ length self.now.comments }
    {
        self.comments.len()
    }

    /// Copies of the comments that have their token, but the first ones, as many as said.
    ///
    /// # Errors
    ///
    /// `AllocError` where allocation fails for them.
    pub fn comments_from(&self, first: usize) -> Result<Vec<BufferedComment<'a>>, AllocError>
        ensures { IfOk result (λ comments. comments.items ≡ drop first self.now.comments) }
    {
        self.comments.copies_from(first)
    }

    /// Keeps the first `len` of the comments that have their token alone, which does not allocate.
    pub fn truncate(&mut self, len: usize)
        ensures { self.new ≡ record self.old { comments = take len self.old.comments } }
    {
        self.comments.truncate(len);
    }

    /// Takes the comments that have their token, in the order in which they were added, which does not allocate.
    pub fn take_comments(&mut self) -> Vec<BufferedComment<'a>>
        ensures taken { result.items ≡ self.old.comments }
        ensures left { self.new ≡ record self.old { comments = [] } }
    {
        self.comments.take()
    }

    /// Takes the comments that wait for the next token, in the order in which they were added, which does not allocate.
    pub fn take_pending_leading(&mut self) -> Vec<BufferedComment<'a>>
        ensures taken { result.items ≡ self.old.pending_leading }
        ensures left { self.new ≡ record self.old { pending_leading = [] } }
    {
        let none = Vec::new(*self.pending_leading.allocator());
        mem::replace(&mut self.pending_leading, none)
    }

    /// The same comments.
    ///
    /// # Errors
    ///
    /// `AllocError` where allocation fails for them.
    pub fn copy(&self) -> Result<CommentsBuffer<'a>, AllocError>
        ensures { IfOk result (λ b. b ≡ self.now) }
    {
        Ok(CommentsBuffer {
            comments: self.comments.copy()?,
            pending_leading: copies(
                *self.pending_leading.allocator(),
                self.pending_leading.as_slice(),
            )?,
        })
    }

    /// Puts the comments that wait behind those that have their token, which does not allocate where none waits.
    ///
    /// # Errors
    ///
    /// `AllocError` where allocation fails for them. Those that wait are then lost.
    pub(crate) fn settle(&mut self) -> Result<(), AllocError>
        ensures ok { OnOk result (self.new.comments ≡ self.old.comments ++ self.old.pending_leading) }
        ensures err { OnErr result (self.new.comments ≡ self.old.comments) }
        ensures none { self.new.pending_leading ≡ [] }
        ensures free { self.old.pending_leading ≡ [] → IsOk result }
    {
        let mut waiting = self.take_pending_leading();
        if waiting.is_empty() {
            return Ok(());
        }
        self.comments.append(&mut waiting)
    }
}

impl<'a> CommentsBuffer<'a> {
    ghost use Rattle.ecma_comments.specs.HandOver.{added_of, StopsEarly};

    /// Hands the comments that have their token over to a store, in order. None of them is kept then.
    ///
    /// # Errors
    ///
    /// `AllocError` where the store can't allocate for one. Those before it were handed over,
    /// and it and those behind it are kept, in order.
    pub fn hand_over<C: Comments<'a>>(&mut self, to: &mut C) -> Result<(), AllocError>
        ensures ok { OnOk result (C.added to.new ≡ C.added to.old ++ map added_of self.old.comments) }
        ensures none { OnOk result (self.new ≡ record self.old { comments = [] }) }
        ensures err { OnErr result (StopsEarly (C.added to.old) (C.added to.new) self.old self.new) }
    {
        // A list gives up its last element with no other moved, so it is turned meanwhile.
        let mut comments = self.comments.take();
        comments.reverse();
        let given = give_from_last(&mut comments, to);
        comments.reverse();
        self.comments.put(comments);
        given
    }
}
