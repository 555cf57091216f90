//! Comments that are handed over once a text is read to its end.
ghost use Rattle.std.specs.Prelude.{◌≡◌, [], Ok, true, false, IfOk, OnOk, OnErr, MatchOption};
ghost use Rattle.ecma_state.specs.HandOver.{HandsAll, HandsFirst, has_comments};
ghost use Rattle.ecma_state.specs.Run.{state_with_comments};
ghost use Rattle.ecma_state.specs.Session.{LexerState};

use ecma_place::Comments;
use ecma_state::comments_buffer::CommentsBuffer;
use std::alloc::AllocError;

/// What gathers comments while a text is read: the lexer. Callers can't name it, so that nothing but [`hand_comments`] takes
/// comments out.
pub trait HandsOver<'a> {
    ghost shown: { Self → LexerState };

    /// The comments, where the last read was the end and no allocation failed. None is kept then.
    fn take_comments(&mut self) -> Option<CommentsBuffer<'a>>
        ensures { MatchOption result
            ((has_comments (shown self.old) ≡ false) × (shown self.new ≡ shown self.old))
            (λ all. (has_comments (shown self.old) ≡ true) × (all ≡ record { comments = (shown self.old).comments; pending_leading = [] })
            × (shown self.new ≡ state_with_comments [] (shown self.old))) };

    /// Puts comments in the place of those that are kept. None of them waits for a token.
    fn put_comments(&mut self, comments: CommentsBuffer<'a>)
        requires { comments.pending_leading ≡ [] }
        ensures { shown self.new ≡ state_with_comments comments.entry.comments (shown self.old) };
}

/// Hands the comments of a lexer over to a store, in order, once the end was read; whether it was. Each leads the token
/// that starts at its place, or trails the one that ends there. No comment is kept then, so that a second call adds none.
/// Where the last read was not the end, or an allocation failed before, it does nothing.
///
/// # Errors
///
/// `AllocError` where the store can't allocate for a comment. Those before it were handed over, and it and those behind it are
/// kept, in order.
pub fn hand_comments<'a, L: HandsOver<'a>, C: Comments<'a>>(
    lexer: &mut L,
    to: &mut C,
) -> Result<bool, AllocError>
    ensures not_ended { has_comments (L.shown lexer.old) ≡ false
        → (result ≡ Ok false) × (L.shown lexer.new ≡ L.shown lexer.old) × (C.added to.new ≡ C.added to.old) }
    ensures ended { has_comments (L.shown lexer.old) ≡ true → IfOk result (λ handed. handed ≡ true) }
    ensures all { has_comments (L.shown lexer.old) ≡ true
        → OnOk result (HandsAll (C.added to.old) (C.added to.new) (L.shown lexer.old) (L.shown lexer.new)) }
    ensures stopped { OnErr result (HandsFirst (C.added to.old) (C.added to.new) (L.shown lexer.old).comments (L.shown lexer.new).comments) }
    ensures same { OnErr result (L.shown lexer.new ≡ state_with_comments (L.shown lexer.new).comments (L.shown lexer.old)) }
{
    let Some(mut comments) = lexer.take_comments() else {
        return Ok(false);
    };
    let handed = comments.hand_over(to);
    lexer.put_comments(comments);
    handed?;
    Ok(true)
}
