//! Long lists of comments, of which a buffer and its copies share most, beside plain lists of numbers.
ghost use Rattle.std.specs.Prelude.{map};
ghost use Rattle.ecma_state.specs.HandOver.{added_of};

use ecma_comments::CommentList;
use ecma_span::{Atom, BytePos, Comment, CommentKind, Comments, Span};
use ecma_state::{BufferedComment, BufferedCommentKind, CommentsBuffer};
use std::alloc::{AllocError, Global};
use std::mem;
use std::process::Abort;
use std::test::Fail;

/// Whether the comment of a number leads its token.
fn leads(number: u32) -> bool {
    number.is_multiple_of(3)
}

/// Where the comment of a number stands.
fn span_of(number: u32) -> Span {
    Span {
        lo: BytePos(number),
        hi: BytePos(number.saturating_add(4)),
    }
}

/// The text of a comment, owned or not.
fn text(alloc: Global, owned: bool) -> Result<Atom<'static>, AllocError> {
    if owned {
        Ok(Atom::from(String::from_str(alloc, "own")?))
    } else {
        Ok(Atom::from("of the source"))
    }
}

/// The comment of a number.
fn comment(
    alloc: Global,
    number: u32,
    owned: bool,
) -> Result<BufferedComment<'static>, AllocError> {
    Ok(BufferedComment {
        kind: if leads(number) {
            BufferedCommentKind::Leading
        } else {
            BufferedCommentKind::Trailing
        },
        pos: BytePos(number),
        comment: Comment {
            kind: CommentKind::Block,
            span: span_of(number),
            text: text(alloc, owned)?,
        },
    })
}

/// Whether a text is that of a comment, owned or not.
fn is_text(found: &Atom, owned: bool) -> bool {
    found.is_borrowed() != owned && found.as_str() == if owned { "own" } else { "of the source" }
}

/// Whether a comment is that of the number.
fn is_of(found: &BufferedComment, number: u32, owned: bool) -> bool {
    matches!(found.kind, BufferedCommentKind::Leading) == leads(number)
        && found.pos == BytePos(number)
        && found.comment.span == span_of(number)
        && is_text(&found.comment.text, owned)
}

/// Whether the comments are those of the numbers, in order, of which one may own its text.
fn are_of(found: &[BufferedComment], numbers: &[u32], owning: Option<u32>) -> bool {
    for (comment, number) in found.iter().zip(numbers) {
        if !is_of(comment, *number, owning == Some(*number)) {
            return false;
        }
    }
    found.len() == numbers.len()
}

/// A store that is full at so many comments.
#[derive(Drop)]
struct Store<'a> {
    given: CommentList<'a>,
    room: usize,
}

impl<'a> Store<'a> {
    fn is_full(&self) -> bool {
        self.given.as_slice().len() >= self.room
    }
}

impl<'a> Comments<'a> for Store<'a> {
    ghost added = { λ s. map added_of s.given };

    fn add_leading(&mut self, pos: BytePos, comment: Comment<'a>) -> Result<(), Comment<'a>> {
        if self.is_full() {
            return Err(comment);
        }
        self.given.add_leading(pos, comment)
    }

    fn add_trailing(&mut self, pos: BytePos, comment: Comment<'a>) -> Result<(), Comment<'a>> {
        if self.is_full() {
            return Err(comment);
        }
        self.given.add_trailing(pos, comment)
    }
}

/// A buffer, and the numbers of the comments that it has to have.
#[derive(Drop)]
struct Both {
    buffer: CommentsBuffer<'static>,
    numbers: Vec<u32>,
    /// The number whose comment owns its text, if one does.
    owning: Option<u32>,
}

impl Both {
    /// Adds so many comments, with the numbers from one on.
    fn push(&mut self, from: u32, count: u32) -> Result<(), AllocError> {
        let alloc = *self.numbers.allocator();
        for number in from..from.saturating_add(count) {
            self.numbers.push(number)?;
            self.buffer
                .push(comment(alloc, number, self.owning == Some(number))?)?;
        }
        Ok(())
    }

    fn copy(&self) -> Result<Both, AllocError> {
        Ok(Both {
            buffer: self.buffer.copy()?,
            numbers: self.numbers.clone()?,
            owning: self.owning,
        })
    }

    /// Takes the comments, and says whether they are those of the numbers.
    fn takes(&mut self) -> bool {
        let found = self.buffer.take_comments();
        let are = are_of(&found, &self.numbers, self.owning);
        self.numbers.clear();
        are
    }

    /// Hands the comments over to a store with room for so many, and says whether it gets those of the first numbers, and
    /// all where no others stay.
    fn hands_over(&mut self, room: usize) -> Result<bool, AllocError> {
        let others = self.numbers.split_off(room.min(self.numbers.len()))?;
        let first = mem::replace(&mut self.numbers, others);
        let mut store = Store {
            given: CommentList::new(*first.allocator()),
            room,
        };
        let handed = self.buffer.hand_over(&mut store).is_ok();
        let given = are_of(store.given.as_slice(), &first, self.owning);
        Ok(given && handed == self.numbers.is_empty())
    }
}

/// How many comments a buffer has when it is copied, how many it and the copy get behind them, and the number of the
/// comment that owns its text. The numbers of the buffer's own comments begin at 1000, those of the copy's at 2000.
type Row = (u32, u32, u32, Option<u32>);

const ROWS: &[Row] = &[
    (0, 0, 0, None),
    (0, 65, 130, None),
    (1, 0, 1, None),
    (1, 64, 63, None),
    (63, 1, 2, None),
    (63, 2, 1, None),
    (64, 0, 0, None),
    (64, 0, 1, None),
    (64, 65, 0, None),
    (65, 0, 0, None),
    (65, 63, 64, None),
    (65, 200, 1, None),
    (127, 1, 2, None),
    (127, 2, 1, None),
    (128, 0, 1, None),
    (128, 1, 0, None),
    (129, 0, 0, None),
    (129, 64, 129, None),
    (200, 0, 0, None),
    (200, 1, 150, None),
    // One owns its text: among the first 64, among those that follow, the last of all, or one that only one list has.
    (1, 65, 130, Some(0)),
    (65, 1, 1, Some(0)),
    (65, 64, 65, Some(63)),
    (65, 0, 130, Some(64)),
    (128, 1, 70, Some(127)),
    (129, 66, 65, Some(128)),
    (200, 0, 0, Some(70)),
    (200, 1, 70, Some(150)),
    (200, 70, 1, Some(199)),
    (64, 66, 66, Some(1000)),
    (64, 66, 66, Some(2000)),
    (127, 70, 70, Some(2001)),
];

/// A call of a buffer.
#[derive(Clone, Copy)]
enum Command {
    /// Adds the comments that the row has before the copy.
    Begin,
    Copy,
    /// Adds those that the row has behind it, as to the buffer.
    GoOn,
    /// Adds them as to the copy.
    GoOnAsCopy,
    /// Adds comments with the numbers from one on, so many.
    Push(u32, u32),
    /// Takes its comments, which are those of the numbers.
    Take,
    /// Hands over to a store with room for so many, which gets the comments of the first numbers. The others stay.
    Hand(usize),
    /// Drops it, and those that were made behind it.
    Drop,
}

/// The number of a buffer, and what is called of it. The first buffer has the number 0, and a copy the next that is free.
type Numbered = (usize, Command);

/// Does what is done with a buffer, and says whether it has its comments where these are taken or handed over.
fn is_done(
    all: &mut Vec<Both>,
    row: &Row,
    (number, command): Numbered,
) -> Result<bool, AllocError> {
    let Some(both) = all.get_mut(number) else {
        return Ok(false);
    };
    match command {
        Command::Take => return Ok(both.takes()),
        Command::Hand(room) => return both.hands_over(room),
        Command::Begin => both.push(0, row.0)?,
        Command::GoOn => both.push(1000, row.1)?,
        Command::GoOnAsCopy => both.push(2000, row.2)?,
        Command::Push(from, count) => both.push(from, count)?,
        Command::Copy => {
            let copy = both.copy()?;
            all.push(copy)?;
        }
        Command::Drop => all.truncate(number),
    }
    Ok(true)
}

/// Whether all is done, and each buffer has its comments.
fn are_done(all: &mut Vec<Both>, row: &Row, commands: &[Numbered]) -> Result<bool, AllocError> {
    let alloc = *all.allocator();
    all.clear();
    all.push(Both {
        buffer: CommentsBuffer::new(alloc),
        numbers: Vec::new(alloc),
        owning: row.3,
    })?;
    for command in commands {
        if !is_done(all, row, *command)? {
            return Ok(false);
        }
    }
    Ok(true)
}

fn assert_rows(rt: &impl Abort, alloc: Global, commands: &[Numbered]) -> Result<(), Fail> {
    let mut all = Vec::new(alloc);
    for row in ROWS {
        assert!(rt; are_done(&mut all, row, commands)?);
    }
    Ok(())
}

/// The comments of the copy are taken first, or last.
const COPY_FIRST: &[Numbered] = &[
    (0, Command::Begin),
    (0, Command::Copy),
    (0, Command::GoOn),
    (1, Command::GoOnAsCopy),
    (1, Command::Take),
    (0, Command::Take),
];

const COPY_LAST: &[Numbered] = &[
    (0, Command::Begin),
    (0, Command::Copy),
    (0, Command::GoOn),
    (1, Command::GoOnAsCopy),
    (0, Command::Take),
    (1, Command::Take),
];

#[test]
fn a_buffer_and_its_copy_have_their_own_comments(rt: HostRuntime) -> Result<(), Fail> {
    assert_rows(&rt, rt.alloc(), COPY_FIRST)?;
    assert_rows(&rt, rt.alloc(), COPY_LAST)
}

/// A copy of the copy has its comments, and then the copy has, to which one was added since, and the buffer.
const THREE: &[Numbered] = &[
    (0, Command::Begin),
    (0, Command::Copy),
    (0, Command::GoOn),
    (1, Command::GoOnAsCopy),
    (1, Command::Copy),
    (1, Command::Push(3000, 1)),
    (2, Command::Push(4000, 65)),
    (2, Command::Take),
    (1, Command::Take),
    (1, Command::Drop),
    (0, Command::Take),
];

#[test]
fn a_copy_of_a_copy_has_its_own_comments(rt: HostRuntime) -> Result<(), Fail> {
    assert_rows(&rt, rt.alloc(), THREE)
}

/// What was taken is gone, and the buffer and its copy then have their comments as new ones would.
const TWICE: &[Numbered] = &[
    (0, Command::Begin),
    (0, Command::Copy),
    (0, Command::GoOn),
    (1, Command::GoOnAsCopy),
    (0, Command::Take),
    (0, Command::Take),
    (0, Command::Begin),
    (0, Command::Copy),
    (0, Command::GoOn),
    (2, Command::GoOnAsCopy),
    (0, Command::Take),
    (2, Command::Take),
    (2, Command::Drop),
    (1, Command::Take),
    (1, Command::Take),
    (1, Command::Begin),
    (1, Command::Copy),
    (1, Command::GoOn),
    (2, Command::GoOnAsCopy),
    (1, Command::Take),
    (2, Command::Take),
];

#[test]
fn a_buffer_begins_anew_when_its_comments_are_taken(rt: HostRuntime) -> Result<(), Fail> {
    assert_rows(&rt, rt.alloc(), TWICE)
}

/// Of each, a store that is full at 100 comments gets the first, and another the rest with those that were added since.
const HANDED: &[Numbered] = &[
    (0, Command::Begin),
    (0, Command::Copy),
    (0, Command::GoOn),
    (1, Command::GoOnAsCopy),
    (1, Command::Hand(100)),
    (1, Command::Push(5000, 130)),
    (1, Command::Hand(1000)),
    (1, Command::Take),
    (1, Command::Drop),
    (0, Command::Hand(100)),
    (0, Command::Push(5000, 130)),
    (0, Command::Hand(1000)),
    (0, Command::Take),
];

#[test]
fn comments_are_handed_over_in_order_from_both(rt: HostRuntime) -> Result<(), Fail> {
    assert_rows(&rt, rt.alloc(), HANDED)
}
