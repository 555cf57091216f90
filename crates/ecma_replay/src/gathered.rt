//! What steps came to, without what each of them answered.
ghost use Rattle.std.specs.Prelude.{◌≡◌, List, IfOk};
ghost use Rattle.ecma_replay.specs.Playing.{IsAt};
ghost use Rattle.ecma_replay.specs.Replay.{Gathers};
ghost use Rattle.ecma_state.specs.Counting.{counting};
ghost use Rattle.ecma_state.specs.Run.{act_all};
ghost use Rattle.ecma_state.specs.Session.{Session, kept_tokens, lexer_state, state_of};
ghost use Rattle.ecma_state.specs.declared.step.Step.{Step};

use crate::trees::{Trees, Ways, joined};
use ecma_state::comments_buffer::BufferedComment;
use ecma_state::error_list::ErrorList;
use ecma_state::errors::ErrorLists;
use ecma_state::kept::Kept;
use ecma_stream::lexer::Lexer;
use std::alloc::AllocError;

/// What steps came to ([`gather`](crate::runner::gather)): what a [`Replay`](crate::Replay) holds besides the answers.
#[derive(Drop)]
pub struct Gathered<'a> {
    /// The tokens that are kept, in order: one that was read again takes the place of its slash.
    pub kept: Vec<Kept>,
    /// The errors that were recorded and not taken, in order.
    pub errors: ErrorList<'a>,
    /// The errors that wait until the code is known to be a module, in order.
    pub waiting: ErrorList<'a>,
    /// The comments, in the order in which they would be handed over, where the settings collect them.
    pub comments: Vec<BufferedComment<'a>>,
    /// Whether the last read that counts was the end.
    pub ended: bool,
}

impl<'a> Gathered<'a> {
    /// The tokens that were kept, with what the lexer that read them has besides.
    pub fn of(kept: Vec<Kept>, lexer: Lexer<'a>) -> Gathered<'a>
        ensures { (begin s : Session) (steps : List Step) → act_all begin (counting steps) ≡ s → state_of s ≡ lexer_state lexer.entry → kept.items ≡ kept_tokens s
            → Gathers begin steps result }
    {
        let (errors, comments, ended) = lexer.into_parts();
        Gathered {
            kept,
            errors: errors.recorded,
            waiting: errors.waiting,
            comments,
            ended,
        }
    }

    /// The same where the lexer found what is on these ways before.
    pub(crate) fn joined(
        trees: Trees<'a>,
        ways: Ways,
        lexer: Lexer<'a>,
    ) -> Result<Gathered<'a>, AllocError>
        ensures { (begin s : Session) (steps : List Step) → act_all begin (counting steps) ≡ s → IsAt trees.entry s (record { lexer = lexer.entry; ways = ways }) → IfOk result (λ r. Gathers begin steps r) }
    {
        let Trees {
            kept,
            recorded,
            waiting,
            comments,
            alloc,
        } = trees;
        let kept = kept.into_vec(alloc, ways.kept)?;
        let recorded = recorded.into_vec(alloc, ways.recorded)?;
        let waiting = waiting.into_vec(alloc, ways.waiting)?;
        let comments = comments.into_vec(alloc, ways.comments)?;
        let (errors, found, ended) = lexer.into_parts();
        let ErrorLists {
            recorded: errors,
            waiting: own,
        } = errors;
        Ok(Gathered {
            kept,
            errors: ErrorList::of(joined(recorded, errors.into_vec())?),
            waiting: ErrorList::of(joined(waiting, own.into_vec())?),
            comments: joined(comments, found)?,
            ended,
        })
    }
}
