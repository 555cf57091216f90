//! The tokens and comments of a text as pieces, in order of place.
ghost use Rattle.std.specs.Prelude.{◌≡◌, ◌++◌, ◌∷◌, ℕ, false, [], map, slice_get, IfOk, OnOk, MatchOption};
ghost use Rattle.std.specs.List.{All};
ghost use Rattle.ecma_classes.specs.Classes.{LieInOrder, comment_spans, over, spans_of_kept, token_spans};
ghost use Rattle.ecma_classes.specs.declared.piece.Class.TheVariants.{Comment};
ghost use Rattle.ecma_classes.specs.Marks as marks;
ghost use Rattle.ecma_classes.specs.Marks.{IsForward, IsInOrder, NoTokenFirst, left, token_marks};

use crate::piece::{Class, Piece, push_over};
use ecma_place::Span;
use ecma_state::comments_buffer::BufferedComment;
use ecma_state::kept::Kept;
use std::alloc::{AllocError, Global};

/// What is left of the tokens and comments of a text that hold a byte, in order of place.
#[derive(Drop)]
pub(crate) struct Marks<'k> {
    /// The tokens that are left, also such as hold no byte.
    tokens: &'k [Kept],
    /// All comments that hold a byte.
    comments: Vec<Piece>,
    /// How many comments are not left.
    passed: usize,
}

/// Adds a piece for each comment that holds a byte.
fn push_comments(pieces: &mut Vec<Piece>, comments: &[BufferedComment]) -> Result<(), AllocError>
    ensures { OnOk result (pieces.new.items ≡ pieces.old.items ++ map (over Comment) (comment_spans comments.now)) }
{
    'comments: for buffered in comments {
        push_over(pieces, Class::Comment, buffered.comment.span)?;
    }
    Ok(())
}

/// Pieces for the comments that hold a byte, in order of place.
fn comments_in_order(alloc: Global, comments: &[BufferedComment]) -> Result<Vec<Piece>, AllocError>
    ensures { IfOk result (λ v. IsInOrder (map (over Comment) (comment_spans comments.now)) v.items) }
{
    let mut marks = Vec::new(alloc);
    push_comments(&mut marks, comments)?;
    marks.sort_by_key(|piece| piece.span.lo.0)?;
    Ok(marks)
}

/// The first token that holds a byte, and the tokens behind it.
fn first_token(tokens: &[Kept]) -> Option<(Span, &[Kept])>
    ensures { MatchOption result (token_spans tokens.now ≡ []) (λ first. token_spans tokens.now ≡ first.0 ∷ token_spans first.1.now) }
{
    let mut from = 0;
    'tokens: while let Some(token) = tokens.get(from) {
        from += 1;
        if token.span.lo.0 < token.span.hi.0 {
            return Some((token.span, &tokens[from..]));
        }
    }
    None
}

/// Whether there is a comment, and begins before the token.
fn is_before(comment: Option<Piece>, token: Span) -> bool
    ensures { result ≡ marks.is_before comment token }
{
    comment.is_some_and(|comment| comment.span.lo.0 < token.lo.0)
}

/// The first token that holds a byte, and the tokens behind it, where no comment begins before it.
fn token_before(tokens: &[Kept], comment: Option<Piece>) -> Option<(Span, &[Kept])>
    ensures { MatchOption result (NoTokenFirst (token_spans tokens.now) comment)
        (λ first. (token_spans tokens.now ≡ first.0 ∷ token_spans first.1.now) × (marks.is_before comment first.0 ≡ false)) }
{
    let (span, behind) = first_token(tokens)?;
    if is_before(comment, span) {
        return None;
    }
    Some((span, behind))
}

impl<'k> Marks<'k> {
    /// All of a text: its tokens, which lie in order, and its comments, which may come in any order. A token is before the
    /// comments that begin where it does.
    pub(crate) fn new(
        alloc: Global,
        kept: &'k [Kept],
        comments: &[BufferedComment],
    ) -> Result<Marks<'k>, AllocError>
        ensures { (start : ℕ) → LieInOrder start (spans_of_kept kept.now) → All IsForward (spans_of_kept kept.now)
            → IfOk result (λ m. IsInOrder (token_marks kept.now ++ map (over Comment) (comment_spans comments.now)) (left m)) }
    {
        Ok(Marks {
            tokens: kept,
            comments: comments_in_order(alloc, comments)?,
            passed: 0,
        })
    }

    /// The first comment that is left.
    fn comment(&self) -> Option<Piece>
        ensures { result ≡ slice_get self.now.comments.items self.now.passed }
    {
        match self.comments.get(self.passed) {
            Some(comment) => Some(*comment),
            None => None,
        }
    }

    /// The first that is left, which it takes off.
    pub(crate) fn next(&mut self) -> Option<Piece>
        ensures { MatchOption result ((left self.old ≡ []) × (left self.new ≡ [])) (λ p. left self.old ≡ p ∷ left self.new) }
    {
        let comment = self.comment();
        if let Some((span, behind)) = token_before(self.tokens, comment) {
            self.tokens = behind;
            return Some(Piece {
                span,
                class: Class::Token,
            });
        }
        let Some(comment) = comment else {
            return None;
        };
        self.passed += 1;
        Some(comment)
    }
}
