//! A store of comments with room for so many.
ghost use Rattle.std.specs.Prelude.{map};
ghost use Rattle.ecma_state.specs.HandOver.{added_of};

use ecma_place::{BytePos, Comment, Comments};
use ecma_stream::CommentList;
use std::alloc::Global;

/// A store in memory, which is full at `room` comments.
#[derive(Drop)]
pub struct Store<'a> {
    pub given: CommentList<'a>,
    pub room: usize,
}

impl<'a> Store<'a> {
    pub fn new(alloc: Global, room: usize) -> Store<'a> {
        Store {
            given: CommentList::new(alloc),
            room,
        }
    }

    fn is_full(&self) -> bool {
        self.given.as_slice().len() >= self.room
    }
}

impl<'a> Comments<'a> for Store<'a> {
    ghost added = { λ s. map added_of s.given };

    fn add_leading(&mut self, pos: BytePos, comment: Comment<'a>) -> Result<(), Comment<'a>> {
        if self.is_full() {
            return Err(comment);
        }
        self.given.add_leading(pos, comment)
    }

    fn add_trailing(&mut self, pos: BytePos, comment: Comment<'a>) -> Result<(), Comment<'a>> {
        if self.is_full() {
            return Err(comment);
        }
        self.given.add_trailing(pos, comment)
    }
}
