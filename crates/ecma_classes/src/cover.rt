//! Pieces that cover a text.
ghost use Rattle.std.specs.Prelude.{◌≡◌, ◌∷◌, ◌+◌, ◌<◌, ◌^◌, [], length, IfOk, MatchOption};
ghost use Rattle.std.specs.List.{All};
ghost use Rattle.std.specs.Str.{chars};
ghost use Rattle.ecma_classes.specs.Classes.{AreApart, LieInOrder, LiesWell, StandsIn, Tile, TriviaStandsAlone, begin, classes_of, comment_spans, joined, spans_of_comments, spans_of_kept, token_spans};
ghost use Rattle.ecma_classes.specs.Marks.{Reaches, left};

use crate::marks::Marks;
use crate::piece::{Class, Piece};
use ecma_place::{BytePos, Span};
use ecma_state::comments_buffer::BufferedComment;
use ecma_state::kept::Kept;
use std::alloc::{AllocError, Global};
use std::marker::Model;

/// The next mark that begins at a place, or behind it. Those that begin before lie in the piece that ends there, and are
/// passed over.
fn next_mark(marks: &mut Marks, reached: BytePos) -> Option<Piece>
    ensures { Reaches reached.0 (left marks.old) result (left marks.new) }
{
    'marks: while let Some(mark) = marks.next() {
        if reached.0 <= mark.span.lo.0 {
            return Some(mark);
        }
    }
    None
}

/// The pieces that cover a text, in order of place, which are made one at a time. Contracts see it as the list of those to
/// come.
#[derive(Drop)]
pub struct Cover<'k> {
    marks: Marks<'k>,
    /// The next piece, where it is a mark with trivia before it.
    known: Option<Piece>,
    /// Where the last piece ends.
    reached: BytePos,
    end: BytePos,
}

impl<'k> Model for Cover<'k> {
    ghost use Rattle.std.specs.Prelude.{List};
    ghost use Rattle.ecma_classes.specs.declared.piece.Piece.{Piece};
    ghost use Rattle.ecma_classes.specs.Marks.{covered, left};

    ghost Value = { List Piece };

    ghost view = { λ c. covered c.known c.reached.0 (left c.marks) c.end.0 };
}

impl<'k> Cover<'k> {
    /// The pieces of a text that starts at a place, as of [`classes`], for the same texts, tokens and comments. It holds
    /// the places of the comments, and no list of pieces.
    ///
    /// # Errors
    ///
    /// `AllocError` where allocation fails for the places of the comments.
    pub fn new(
        alloc: Global,
        source: &str,
        start: BytePos,
        kept: &'k [Kept],
        comments: &[BufferedComment],
    ) -> Result<Cover<'k>, AllocError>
        requires fits { start.0 + length source.now < 2 ^ 32 }
        requires tokens { All (StandsIn (begin start.0 (chars source.now))) (spans_of_kept kept.now) }
        requires in_order { LieInOrder start.0 (spans_of_kept kept.now) }
        requires comments { All (StandsIn (begin start.0 (chars source.now))) (spans_of_comments comments.now) }
        requires apart { AreApart (comment_spans comments.now) }
        requires inside_or_outside { All (LiesWell (token_spans kept.now)) (comment_spans comments.now) }
        ensures same { IfOk result (λ c. c ≡ classes_of start.0 (length source.now) kept.now comments.now) }
        ensures tiles { IfOk result (λ c. Tile start.0 c (start.0 + length source.now)) }
        ensures whole { IfOk result (λ c. joined start.0 source.now c ≡ source.now) }
        ensures places { IfOk result (λ c. All (λ p. StandsIn (begin start.0 (chars source.now)) p.span) c) }
        ensures longest { IfOk result (λ c. TriviaStandsAlone c) }
        ensures empty { source.now ≡ [] → IfOk result (λ c. c ≡ []) }
    {
        Ok(Cover {
            marks: Marks::new(alloc, kept, comments)?,
            known: None,
            reached: start,
            end: BytePos(start.0 + source.len() as u32),
        })
    }

    /// The next piece. It does not allocate.
    #[inline(always)]
    pub fn next(&mut self) -> Option<Piece>
        ensures { MatchOption result ((self.old ≡ []) × (self.new ≡ [])) (λ piece. self.old ≡ piece ∷ self.new) }
    {
        if let Some(known) = self.known.take() {
            self.reached = known.span.hi;
            return Some(known);
        }
        let mark = next_mark(&mut self.marks, self.reached);
        let trivia = Span {
            lo: self.reached,
            hi: mark.map_or(self.end, |mark| mark.span.lo),
        };
        if trivia.lo.0 < trivia.hi.0 {
            self.known = mark;
            self.reached = trivia.hi;
            return Some(Piece {
                span: trivia,
                class: Class::Trivia,
            });
        }
        self.reached = mark.map_or(self.end, |mark| mark.span.hi);
        mark
    }
}

/// The pieces of a text that starts at a place, in order of place: each kept token, each comment outside of all tokens,
/// and as trivia all that is between two of these. A token or comment whose span is empty has no piece, nor has the empty
/// text. The comments may come in any order, as that of their attachment.
///
/// The caller knows that the text fits its places ([`StringInput::fits`](ecma_place::StringInput::fits)); that the tokens
/// lie in it between places of the text, in order, none over another; that the comments lie in it so, that no byte lies in
/// two of them, and that each holds no byte, or lies in one token or outside all. No tokens and no comments are so.
///
/// # Errors
///
/// `AllocError` where allocation fails.
pub fn classes(
    alloc: Global,
    source: &str,
    start: BytePos,
    kept: &[Kept],
    comments: &[BufferedComment],
) -> Result<Vec<Piece>, AllocError>
    requires fits { start.0 + length source.now < 2 ^ 32 }
    requires tokens { All (StandsIn (begin start.0 (chars source.now))) (spans_of_kept kept.now) }
    requires in_order { LieInOrder start.0 (spans_of_kept kept.now) }
    requires comments { All (StandsIn (begin start.0 (chars source.now))) (spans_of_comments comments.now) }
    requires apart { AreApart (comment_spans comments.now) }
    requires inside_or_outside { All (LiesWell (token_spans kept.now)) (comment_spans comments.now) }

    ensures same { IfOk result (λ v. v.items ≡ classes_of start.0 (length source.now) kept.now comments.now) }

    // They cover the text: each begins where the one before it ends, from its first place to its last, and holds a byte.
    ensures tiles { IfOk result (λ v. Tile start.0 v.items (start.0 + length source.now)) }
    ensures whole { IfOk result (λ v. joined start.0 source.now v.items ≡ source.now) }
    ensures places { IfOk result (λ v. All (λ p. StandsIn (begin start.0 (chars source.now)) p.span) v.items) }
    ensures longest { IfOk result (λ v. TriviaStandsAlone v.items) }
    ensures empty { source.now ≡ [] → IfOk result (λ v. v.items ≡ []) }
{
    let mut cover = Cover::new(alloc, source, start, kept, comments)?;
    let mut pieces = Vec::new(alloc);
    'pieces: while let Some(piece) = cover.next() {
        pieces.push(piece)?;
    }
    Ok(pieces)
}
