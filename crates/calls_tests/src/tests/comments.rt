//! Buffers of comments.
use super::rows::assert_text;
use ecma_span::{Atom, BytePos, Comment, CommentKind, Span};
use ecma_state::attachment::Around;
use ecma_state::{BufferedComment, BufferedCommentKind, CommentsBuffer};
use listing::listing::{write_comment, write_comments, write_note};
use listing::store::Store;
use std::alloc::{AllocError, Global};
use std::process::Abort;
use std::test::Fail;

/// A call of a buffer, or something written of it.
#[derive(Clone, Copy)]
enum Command {
    /// Adds a block that belongs to a token at that place, and where it stands.
    Trailing(u32, u32, u32),
    Leading(u32, u32, u32),
    /// Adds one that waits for its token.
    Wait(u32, u32, u32),
    /// Writes the comments that have their token, and takes them.
    Taken,
    /// The same of those that wait.
    Waiting,
    /// Writes both of a copy.
    Copied,
    /// Gives the store room for so many.
    Room(usize),
    /// Hands the comments over, and writes what the store has then.
    Hand,
    Note(&'static str),
}

use Command::{Copied, Hand, Leading, Note, Room, Taken, Trailing, Wait, Waiting};
use CommentKind::{Block, Line};

fn comment(kind: CommentKind, lo: u32, hi: u32) -> Comment<'static> {
    Comment {
        kind,
        span: Span {
            lo: BytePos(lo),
            hi: BytePos(hi),
        },
        text: Atom::from("t"),
    }
}

fn block(kind: BufferedCommentKind, pos: u32, lo: u32, hi: u32) -> BufferedComment<'static> {
    BufferedComment {
        kind,
        pos: BytePos(pos),
        comment: comment(CommentKind::Block, lo, hi),
    }
}

fn leading(pos: u32, lo: u32, hi: u32) -> BufferedComment<'static> {
    block(BufferedCommentKind::Leading, pos, lo, hi)
}

fn trailing(pos: u32, lo: u32, hi: u32) -> BufferedComment<'static> {
    block(BufferedCommentKind::Trailing, pos, lo, hi)
}

fn write_all(out: &mut String, buffer: &mut CommentsBuffer) -> Result<(), AllocError> {
    write_comments(out, &buffer.take_comments())?;
    write_comments(out, &buffer.take_pending_leading())
}

fn write_copied(out: &mut String, buffer: &CommentsBuffer) -> Result<(), AllocError> {
    write_all(out, &mut buffer.copy()?)
}

fn write_handed(
    out: &mut String,
    buffer: &mut CommentsBuffer<'static>,
    store: &mut Store<'static>,
) -> Result<(), AllocError> {
    let handed = buffer.hand_over(store);
    write_note(out, if handed.is_ok() { "handed" } else { "refused" })?;
    write_comments(out, store.given.as_slice())
}

fn run_one(
    alloc: Global,
    out: &mut String,
    buffer: &mut CommentsBuffer<'static>,
    store: &mut Store<'static>,
    command: Command,
) -> Result<(), AllocError> {
    match command {
        Trailing(pos, lo, hi) => buffer.push(trailing(pos, lo, hi)),
        Leading(pos, lo, hi) => buffer.push(leading(pos, lo, hi)),
        Wait(pos, lo, hi) => buffer.push_pending_leading(leading(pos, lo, hi)),
        Taken => write_comments(out, &buffer.take_comments()),
        Waiting => write_comments(out, &buffer.take_pending_leading()),
        Copied => write_copied(out, buffer),
        Room(room) => {
            store.room = room;
            Ok(())
        }
        Hand => write_handed(out, buffer, store),
        Note(words) => write_note(out, words),
    }
}

fn run_all(
    alloc: Global,
    out: &mut String,
    buffer: &mut CommentsBuffer<'static>,
    commands: &[Command],
) -> Result<(), AllocError> {
    let mut store = Store::new(alloc, 0);
    for command in commands {
        run_one(alloc, out, buffer, &mut store, *command)?;
    }
    Ok(())
}

fn run(alloc: Global, commands: &[Command]) -> Result<String, AllocError> {
    let mut out = String::new(alloc);
    run_all(alloc, &mut out, &mut CommentsBuffer::new(alloc), commands)?;
    Ok(out)
}

/// What is done, and what that writes.
type Row = (&'static [Command], &'static str);

fn assert_rows(rt: &impl Abort, alloc: Global, rows: &[Row]) -> Result<(), Fail> {
    for (commands, expected) in rows {
        assert_text(rt, run(alloc, commands)?.as_str(), expected);
    }
    Ok(())
}

const IN_ORDER: &[Row] = &[(
    &[
        Trailing(3, 4, 9),
        Leading(20, 10, 15),
        Taken,
        Note("again"),
        Taken,
    ],
    "trailing 3 4..9 Block [t]; leading 20 10..15 Block [t]; again",
)];

#[test]
fn comments_are_taken_in_order(rt: HostRuntime) -> Result<(), Fail> {
    assert_rows(&rt, rt.alloc(), IN_ORDER)
}

const WAIT: &[Row] = &[(
    &[
        Wait(0, 1, 5),
        Trailing(6, 7, 11),
        Wait(0, 12, 16),
        Waiting,
        Note("again"),
        Waiting,
        Taken,
    ],
    "leading 0 1..5 Block [t]; leading 0 12..16 Block [t]; again; trailing 6 7..11 Block [t]",
)];

#[test]
fn waiting_comments_are_taken_by_themselves(rt: HostRuntime) -> Result<(), Fail> {
    assert_rows(&rt, rt.alloc(), WAIT)
}

/// What a copy has is taken from there alone.
const COPIED: &[Row] = &[(
    &[
        Trailing(3, 4, 9),
        Wait(0, 10, 15),
        Copied,
        Note("original"),
        Taken,
        Waiting,
    ],
    "trailing 3 4..9 Block [t]; leading 0 10..15 Block [t]; \
     original; trailing 3 4..9 Block [t]; leading 0 10..15 Block [t]",
)];

#[test]
fn a_copy_of_comments_is_its_own(rt: HostRuntime) -> Result<(), Fail> {
    assert_rows(&rt, rt.alloc(), COPIED)
}

/// A copy of a comment, written.
fn copied_listing(alloc: Global, comment: &BufferedComment) -> Result<String, AllocError> {
    let mut out = String::new(alloc);
    write_comment(&mut out, &comment.copy(alloc)?)?;
    Ok(out)
}

#[test]
fn a_copied_comment_is_the_same(rt: HostRuntime) -> Result<(), Fail> {
    let listing = copied_listing(rt.alloc(), &trailing(3, 4, 9))?;
    assert_text(&rt, listing.as_str(), "trailing 3 4..9 Block [t]");
    Ok(())
}

/// A comment of a gap: its kind, where it stands, and whether it is for the next token.
type Found = (CommentKind, u32, u32, bool);

/// The end of the token before, the start of the next, the comments between them in a text from place 0 on, and how they
/// are attached.
type Read = (u32, Option<u32>, &'static [Found], &'static str);

const READS: &[Read] = &[
    // `/**/a`
    (
        0,
        Some(4),
        &[(Block, 0, 4, true)],
        "leading 4 0..4 Block [t]",
    ),
    // `f() /*a*/ //b`
    (
        3,
        None,
        &[(Block, 4, 9, true), (Line, 10, 13, false)],
        "trailing 3 10..13 Line [t]; trailing 3 4..9 Block [t]",
    ),
    // `a; /*b*/ c`
    (
        2,
        Some(9),
        &[(Block, 3, 8, false)],
        "trailing 2 3..8 Block [t]",
    ),
    // `/*a*/`
    (0, None, &[(Block, 0, 5, true)], "leading 0 0..5 Block [t]"),
    // `#!x`, LF, `//c`
    (3, None, &[(Line, 4, 7, true)], "trailing 3 4..7 Line [t]"),
];

/// These comments of one read.
fn gathered(alloc: Global, found: &[Found]) -> Result<Vec<(Comment<'static>, bool)>, AllocError> {
    let mut comments = Vec::new(alloc);
    for (kind, lo, hi, is_for_next) in found {
        comments.push((comment(*kind, *lo, *hi), *is_for_next))?;
    }
    Ok(comments)
}

/// A buffer that took in the comments of one read.
fn attached(
    alloc: Global,
    (end, next): (u32, Option<u32>),
    found: &[Found],
) -> Result<CommentsBuffer<'static>, AllocError> {
    let around = Around {
        start: BytePos(0),
        end: BytePos(end),
        next: next.map(BytePos),
    };
    let comments = gathered(alloc, found)?;
    let mut buffer = CommentsBuffer::new(alloc);
    buffer.attach(around, comments, Vec::new(alloc))?;
    Ok(buffer)
}

fn attached_listing(
    alloc: Global,
    places: (u32, Option<u32>),
    found: &[Found],
) -> Result<String, AllocError> {
    let mut out = String::new(alloc);
    write_all(&mut out, &mut attached(alloc, places, found)?)?;
    Ok(out)
}

#[test]
fn comments_of_a_read_find_their_tokens(rt: HostRuntime) -> Result<(), Fail> {
    for (end, next, found, expected) in READS {
        let listing = attached_listing(rt.alloc(), (*end, *next), found)?;
        assert_text(&rt, listing.as_str(), expected);
    }
    Ok(())
}

/// Three comments, and one that waits, which is not handed over.
const HANDED: &[Row] = &[(
    &[
        Trailing(3, 4, 9),
        Leading(20, 10, 15),
        Trailing(25, 26, 31),
        Wait(40, 32, 37),
        Room(9),
        Hand,
        Hand,
        Note("left"),
        Copied,
    ],
    "handed; trailing 3 4..9 Block [t]; leading 20 10..15 Block [t]; trailing 25 26..31 Block [t]; \
     handed; trailing 3 4..9 Block [t]; leading 20 10..15 Block [t]; trailing 25 26..31 Block [t]; \
     left; leading 40 32..37 Block [t]",
)];

#[test]
fn comments_are_handed_over_once_and_in_order(rt: HostRuntime) -> Result<(), Fail> {
    assert_rows(&rt, rt.alloc(), HANDED)
}

/// The same, where the store has room for one at first.
const REFUSED: &[Row] = &[(
    &[
        Trailing(3, 4, 9),
        Leading(20, 10, 15),
        Trailing(25, 26, 31),
        Wait(40, 32, 37),
        Room(1),
        Hand,
        Note("left"),
        Copied,
        Room(3),
        Hand,
        Note("left"),
        Copied,
    ],
    "refused; trailing 3 4..9 Block [t]; \
     left; leading 20 10..15 Block [t]; trailing 25 26..31 Block [t]; leading 40 32..37 Block [t]; \
     handed; trailing 3 4..9 Block [t]; leading 20 10..15 Block [t]; trailing 25 26..31 Block [t]; \
     left; leading 40 32..37 Block [t]",
)];

#[test]
fn comments_from_a_refused_one_on_are_kept(rt: HostRuntime) -> Result<(), Fail> {
    assert_rows(&rt, rt.alloc(), REFUSED)
}
