//! Comments, and a store of them in memory.
ghost use Rattle.std.specs.Prelude.{◌≡◌, ◌≤◌, [], ◌∷◌, ◌++◌, OnOk, OnErr, IfErr, map, if◌then◌else◌};
ghost use Rattle.ecma_place.specs.Comment.{Leading, Trailing};

use ecma_place::{Atom, BytePos, Comment, CommentKind, Comments, Span};
use std::alloc::{AllocError, Global};
use std::test::Fail;

// What was added: whether it leads, the place, and the comment. It is full at `room` of them.
#[derive(Drop)]
struct Store<'a> {
    entries: Vec<(bool, BytePos, Comment<'a>)>,
    room: usize,
}

impl<'a> Store<'a> {
    fn add(&mut self, leads: bool, pos: BytePos, comment: Comment<'a>) -> Result<(), Comment<'a>>
        ensures ok { OnOk result (self.new.entries.items ≡ self.old.entries.items ++ (leads, pos, comment.entry) ∷ []) }
        ensures err { OnErr result (self.new.entries.items ≡ self.old.entries.items) }
        ensures back { IfErr result (λ c. c ≡ comment.entry) }
    {
        if self.entries.len() >= self.room {
            return Err(comment);
        }
        self.entries
            .push((leads, pos, comment))
            .map_err(|failed| failed.value.2)
    }
}

impl<'a> Comments<'a> for Store<'a> {
    ghost added = { λ s. map (λ e. record { side = (if e.0 then Leading else Trailing); pos = e.1; comment = e.2 }) s.entries.items };

    fn add_leading(&mut self, pos: BytePos, comment: Comment<'a>) -> Result<(), Comment<'a>> {
        self.add(true, pos, comment)
    }

    fn add_trailing(&mut self, pos: BytePos, comment: Comment<'a>) -> Result<(), Comment<'a>> {
        self.add(false, pos, comment)
    }
}

fn comment_of<'a>(kind: CommentKind, low: u32, high: u32, text: &'a str) -> Comment<'a>
    requires { low ≤ high }
{
    Comment {
        kind,
        span: Span::new(BytePos(low), BytePos(high)),
        text: Atom::from(text),
    }
}

// The comments of `/*é*/a //€`, by the bound alone.
fn hand_over<'a, C: Comments<'a>>(store: &mut C) -> Result<(), Comment<'a>> {
    store.add_leading(BytePos(6), comment_of(CommentKind::Block, 0, 6, "é"))?;
    store.add_trailing(BytePos(7), comment_of(CommentKind::Line, 8, 13, "€"))
}

/// Whether a comment leads a token, its token's place, its kind, where it begins, and its text.
type Row = (bool, u32, CommentKind, u32, &'static str);

fn is_row(entry: Option<&(bool, BytePos, Comment)>, row: Row) -> bool {
    let Some((leads, pos, comment)) = entry else {
        return false;
    };
    let found = (*leads, pos.0, comment.kind, comment.span.lo.0);
    found == (row.0, row.1, row.2, row.3) && comment.text.as_str() == row.4
}

#[test]
fn hands_comments_to_a_store(rt: HostRuntime) {
    let mut store = Store {
        entries: Vec::new(rt.alloc()),
        room: 3,
    };
    let is_handed = hand_over(&mut store).is_ok() && store.entries.len() == 2;
    let (first, second) = (store.entries.get(0), store.entries.get(1));
    assert!(rt; is_handed);
    assert!(rt; is_row(first, (true, 6, CommentKind::Block, 0, "é")));
    assert!(rt; is_row(second, (false, 7, CommentKind::Line, 8, "€")));
}

#[test]
fn a_full_store_gives_the_comment_back(rt: HostRuntime) {
    for room in [0, 1] {
        let mut store = Store {
            entries: Vec::new(rt.alloc()),
            room,
        };
        let text = hand_over(&mut store).err().map(|comment| comment.text);
        let wanted = Atom::from(if room == 0 { "é" } else { "€" });
        assert!(rt;
            store.entries.len() == room && text == Some(wanted),
            "{room}"
        );
    }
}

/// Whether a copy of the comment is the same, with its text held so.
fn copies(alloc: Global, comment: &Comment, is_borrowed: bool) -> Result<bool, AllocError> {
    let copy = comment.copy(alloc)?;
    Ok(
        copy.kind == comment.kind
            && copy.span == comment.span
            && copy.text == comment.text
            && copy.text.is_borrowed() == is_borrowed,
    )
}

#[test]
fn copies_comments(rt: HostRuntime) -> Result<(), Fail> {
    let borrowed = comment_of(CommentKind::Block, 3, 11, "a€");
    let owned = Comment {
        kind: CommentKind::Line,
        span: borrowed.span,
        text: Atom::from(String::from_str(rt.alloc(), "a€")?),
    };
    assert!(rt; copies(rt.alloc(), &borrowed, true)? && copies(rt.alloc(), &owned, false)?);
    Ok(())
}
