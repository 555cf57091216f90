//! The checkpoint of bytes. Our own.
ghost use Rattle.std.specs.Prelude.{◌≡◌, None, map, IfOk, IfSome};
ghost use Rattle.ecma_checkpoint.specs.Checkpoints.{CheckpointValue};
ghost use Rattle.ecma_contexts.specs.ContextPairs.{context_at};
ghost use Rattle.ecma_stored.specs.Stored as stored;

use crate::code::context_in;
use crate::kinds::kind_at;
use crate::parts::{count_at, flag_at, number_at};
use crate::to_bytes::encode;
use ecma_checkpoint::{Checkpoint, Counts};
use ecma_contexts::TokenContexts;
use ecma_contexts::context_pair::context_at;
use ecma_span::{BytePos, Span};
use ecma_state::kept::{Kept, Seen};
use ecma_state::state::State;
use std::alloc::{AllocError, Global};

/// The contexts of these numbers, the innermost first.
fn contexts_in(alloc: Global, inner: &[u8]) -> Result<TokenContexts, AllocError>
    ensures { IfOk result (λ c. c ≡ map context_at inner.now) }
{
    let mut contexts = TokenContexts::new(alloc);
    let mut left = inner.len();
    'contexts: while left > 0 {
        left -= 1;
        contexts.push(context_at(inner[left]))?;
    }
    Ok(contexts)
}

/// The slash that is read again.
fn reread_in(head: &[u8; 90]) -> Option<BytePos>
    ensures { result ≡ stored.reread_in head.now }
{
    if flag_at(head, 59) {
        Some(BytePos(number_at(head, 13)))
    } else {
        None
    }
}

/// The token that was read last, where there is one.
fn kept_in(head: &[u8; 90]) -> Kept
    ensures { result ≡ stored.kept_in head.now }
{
    Kept {
        kind: kind_at(number_at(head, 17)),
        span: Span {
            lo: BytePos(number_at(head, 21)),
            hi: BytePos(number_at(head, 25)),
        },
        flag: flag_at(head, 56),
    }
}

fn seen_in(head: &[u8; 90]) -> Seen
    ensures { result ≡ stored.seen_in head.now }
{
    Seen {
        first: flag_at(head, 54),
        last: if flag_at(head, 55) {
            Some(kept_in(head))
        } else {
            None
        },
        flag: flag_at(head, 57),
        ended: flag_at(head, 58),
    }
}

fn counts_in(head: &[u8; 90]) -> Counts
    ensures { result ≡ stored.counts_in head.now }
{
    Counts {
        recorded: count_at(head, 29),
        waiting: count_at(head, 37),
        comments: count_at(head, 45),
    }
}

fn state_in(alloc: Global, head: &[u8; 90], inner: &[u8]) -> Result<State, AllocError>
    ensures { IfOk result (λ s. s ≡ (stored.checkpoint_in head.now inner.now).state) }
{
    Ok(State {
        contexts: contexts_in(alloc, inner)?,
        expr_allowed: flag_at(head, 53),
        start: BytePos(number_at(head, 5)),
        opened: BytePos(number_at(head, 9)),
        seen: seen_in(head),
    })
}

/// The checkpoint that bytes say where they have the form of one.
fn checkpoint_in(alloc: Global, head: &[u8; 90], inner: &[u8]) -> Result<Checkpoint, AllocError>
    ensures { IfOk result (λ c. c ≡ stored.checkpoint_in head.now inner.now) }
{
    Ok(Checkpoint {
        at: BytePos(number_at(head, 1)),
        context: context_in(head),
        state: state_in(alloc, head, inner)?,
        reread: reread_in(head),
        counts: counts_in(head),
        refused: flag_at(head, 60),
    })
}

/// The checkpoint that [`encode`] makes these bytes of; `None` where they are those of no checkpoint. It is only data: whether
/// a lexer can go on from it, `Checkpoint::fits` says.
///
/// # Errors
///
/// `AllocError` where allocation fails for the contexts, or for as many bytes again.
pub fn decode(alloc: Global, bytes: &[u8]) -> Result<Option<Checkpoint>, AllocError>
    ensures some { IfOk result (λ c. IfSome c (λ c. stored.stored c ≡ bytes.now)) }
    ensures none { IfOk result (λ c. c ≡ None → (d : CheckpointValue) → stored.IsStorable d → stored.stored d ≡ bytes.now → ⊥) }
{
    let Some((head, inner)) = bytes.split_first_chunk::<90>() else {
        return Ok(None);
    };
    let from = checkpoint_in(alloc, head, inner)?;
    let again = encode(alloc, &from)?;
    if again.as_slice() == bytes {
        Ok(Some(from))
    } else {
        Ok(None)
    }
}
