//! Lists of comments: few, in each list of a buffer, and so many that a list and its copies share some of them.
//!
//! A list of 64 comments moves them into a block when one more is added. Where that is refused nothing changes that a call
//! answers, so that no line tells of it: such requests are only made between two lines [`SHARED`].
use crate::again;
use crate::reads::many::SHARED;
use crate::reads::told::tell_comments;
use ecma_place::{Atom, BytePos, Comment, CommentKind, Span};
use ecma_state::{BufferedComment, BufferedCommentKind, CommentsBuffer};
use std::alloc::{AllocError, Global};
use std::io;

/// So many are added that a list grows more than once.
const TIMES: u32 = 6;

/// So many comments make a block.
const BLOCK: u32 = 64;

/// The two lists of a buffer.
#[derive(Clone, Copy)]
enum List {
    Comments,
    PendingLeading,
}

/// Numbered comments of a list, from 0 on.
#[derive(Clone, Copy)]
struct Listed {
    list: List,
    count: u32,
    /// What each says but the one that owns its text.
    text: &'static str,
    /// The number of that one.
    owned: Option<u32>,
}

impl Listed {
    /// The name of the call that adds a comment.
    fn name(self) -> &'static str {
        match self.list {
            List::Comments => "push",
            List::PendingLeading => "push_pending_leading",
        }
    }

    /// What the comment of this number says.
    fn text(self, number: u32) -> &'static str {
        if self.owned == Some(number) {
            "owned"
        } else {
            self.text
        }
    }

    /// The text of the comment of this number.
    fn atom(self, alloc: Global, number: u32) -> Result<Atom<'static>, AllocError> {
        let text = self.text(number);
        if self.owned == Some(number) {
            Ok(Atom::from(String::from_str(alloc, text)?))
        } else {
            Ok(Atom::from(text))
        }
    }

    /// Adds the comment of this number with this text.
    fn add(
        self,
        buffer: &mut CommentsBuffer<'static>,
        number: u32,
        text: Atom<'static>,
    ) -> Result<(), AllocError> {
        let place = BytePos(number);
        let comment = BufferedComment {
            kind: BufferedCommentKind::Leading,
            pos: place,
            comment: Comment {
                kind: CommentKind::Line,
                span: Span {
                    lo: place,
                    hi: place,
                },
                text,
            },
        };
        match self.list {
            List::Comments => buffer.push(comment),
            List::PendingLeading => buffer.push_pending_leading(comment),
        }
    }

    /// Whether these are the first comments of the list, so many of them, in order.
    fn are_first(self, comments: &[BufferedComment], count: u32) -> bool {
        for (buffered, number) in comments.iter().zip(0..count) {
            if buffered.pos != BytePos(number)
                || buffered.comment.text.as_str() != self.text(number)
            {
                return false;
            }
        }
        comments.len() == count as usize
    }

    /// Whether a buffer has the first comments of the list, so many of them, and no other.
    fn has_first(self, buffer: &CommentsBuffer<'static>, count: u32) -> Result<bool, AllocError> {
        let mut copy = buffer.copy()?;
        let comments = copy.take_comments();
        let pending = copy.take_pending_leading();
        let (mine, others) = match self.list {
            List::Comments => (&comments, &pending),
            List::PendingLeading => (&pending, &comments),
        };
        Ok(self.are_first(mine, count) && others.is_empty())
    }
}

/// Adds the comment of this number, and, where that is refused, again.
fn push(
    rt: &impl Print,
    alloc: Global,
    listed: Listed,
    buffer: &mut CommentsBuffer<'static>,
    number: u32,
) -> io::Result<()> {
    let text = again!(rt, "refused text", listed.atom(alloc, number));
    if listed.add(buffer, number, text).is_err() {
        let same = listed.has_first(buffer, number)?;
        println!(rt; "refused {}: same comments {same}", listed.name())?;
        let text = listed.atom(alloc, number)?;
        listed.add(buffer, number, text)?;
    }
    Ok(())
}

/// Adds the comments from this number on, up to another.
fn fill(
    rt: &impl Print,
    alloc: Global,
    listed: Listed,
    buffer: &mut CommentsBuffer<'static>,
    (from, to): (u32, u32),
) -> io::Result<()> {
    for number in from..to {
        push(rt, alloc, listed, buffer, number)?;
    }
    Ok(())
}

/// Adds the comments from this number on to a copy, and says whether it has those of the list then.
fn go_on(
    rt: &impl Print,
    alloc: Global,
    listed: Listed,
    buffer: &CommentsBuffer<'static>,
    from: u32,
) -> io::Result<()> {
    let mut copy = again!(rt, "refused copy", buffer.copy());
    fill_copy(rt, alloc, listed, &mut copy, from)
}

fn fill_copy(
    rt: &impl Print,
    alloc: Global,
    listed: Listed,
    copy: &mut CommentsBuffer<'static>,
    from: u32,
) -> io::Result<()> {
    fill(rt, alloc, listed, copy, (from, listed.count))?;
    let comments = copy.take_comments();
    let same = listed.are_first(&comments, listed.count);
    tell_number(rt, comments.len(), same)
}

fn tell_number(rt: &impl Print, count: usize, same: bool) -> io::Result<()> {
    println!(rt; "comments {count}, same comments {same}")
}

/// Adds the comments of a list, with a copy that goes on before the first block, behind it and at the end.
fn fill_all(
    rt: &impl Print,
    alloc: Global,
    listed: Listed,
    buffer: &mut CommentsBuffer<'static>,
) -> io::Result<()> {
    println!(rt; "{SHARED}")?;
    for (from, to) in [(0, BLOCK), (BLOCK, BLOCK + 1), (BLOCK + 1, listed.count)] {
        fill(rt, alloc, listed, buffer, (from, to))?;
        go_on(rt, alloc, listed, buffer, to)?;
    }
    println!(rt; "{SHARED}")
}

/// Plays lists of comments of which some are shared, with borrowed texts and with an owned one.
pub fn play_shared(rt: &impl Print, alloc: Global) -> io::Result<()> {
    for count in [65, 200] {
        for owned in [None, Some(count / 2)] {
            println!(rt; "push of {count} comments, owned {owned:?}")?;
            let listed = Listed {
                list: List::Comments,
                count,
                text: "borrowed",
                owned,
            };
            fill_all(rt, alloc, listed, &mut CommentsBuffer::new(alloc))?;
        }
    }
    Ok(())
}

fn play_listed(
    rt: &impl Print,
    alloc: Global,
    listed: Listed,
    buffer: &mut CommentsBuffer<'static>,
) -> io::Result<()> {
    println!(rt; "{}", listed.name())?;
    fill(rt, alloc, listed, buffer, (0, listed.count))?;
    tell_comments(rt, &buffer.take_comments())?;
    tell_comments(rt, &buffer.take_pending_leading())
}

/// Plays each list of a buffer.
pub fn play(rt: &impl Print, alloc: Global) -> io::Result<()> {
    for list in [List::Comments, List::PendingLeading] {
        let listed = Listed {
            list,
            count: TIMES,
            text: "c",
            owned: None,
        };
        play_listed(rt, alloc, listed, &mut CommentsBuffer::new(alloc))?;
    }
    Ok(())
}
