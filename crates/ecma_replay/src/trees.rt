//! What lexers found, in lists that share their beginnings, so that going back copies none of it.
ghost use Rattle.std.specs.Prelude.{◌≡◌, ◌++◌, [], map, IfOk};
ghost use Rattle.ecma_token.specs.View.{error_view};
ghost use Rattle.ecma_replay.specs.Playing.{Adds, Delivers, Keeps, errors_to, list_to, no_ways};

use ecma_state::comments_buffer::BufferedComment;
use ecma_state::kept::Kept;
use ecma_token::Error;
use ecma_trees::Tree;
use std::alloc::{AllocError, Global};

/// The numbers of what a lexer found last, 0 where it found none.
#[derive(Clone, Copy)]
pub struct Ways {
    /// Of the tokens that are kept.
    pub kept: usize,
    /// Of the errors that were recorded and not taken.
    pub recorded: usize,
    /// Of the errors that wait until the code is known to be a module.
    pub waiting: usize,
    pub comments: usize,
}

/// All that lexers found, that too which was gone back on.
#[derive(Drop)]
pub struct Trees<'a> {
    pub kept: Tree<Kept>,
    pub recorded: Tree<Error<'a>>,
    pub waiting: Tree<Error<'a>>,
    pub comments: Tree<BufferedComment<'a>>,
    pub alloc: Global,
}

impl Ways {
    /// To nothing.
    pub fn none() -> Ways
        ensures { result ≡ no_ways }
    {
        Ways {
            kept: 0,
            recorded: 0,
            waiting: 0,
            comments: 0,
        }
    }
}

/// Copies of the errors on the way to that of a number, in order.
fn copies_to<'a>(
    alloc: Global,
    errors: &Tree<Error<'a>>,
    number: usize,
) -> Result<Vec<Error<'a>>, AllocError>
    ensures { IfOk result (λ copies. map error_view copies.items ≡ map error_view (list_to number errors.now)) }
{
    let mut copies = Vec::new(alloc);
    let mut at = number;
    'errors: while let Some((error, before)) = errors.last(at) {
        copies.push(error.copy(alloc)?)?;
        at = before;
    }
    copies.reverse();
    Ok(copies)
}

/// Two lists as one. The first is most often empty, and then nothing is moved.
pub fn joined<T: Drop>(mut first: Vec<T>, mut then: Vec<T>) -> Result<Vec<T>, AllocError>
    ensures { IfOk result (λ all. all.items ≡ first.items ++ then.items) }
{
    if first.is_empty() {
        return Ok(then);
    }
    first.append(&mut then)?;
    Ok(first)
}

impl<'a> Trees<'a> {
    /// Before anything is found, which does not allocate.
    pub fn new(alloc: Global) -> Trees<'a>
        ensures kept { result.kept ≡ [] }
        ensures recorded { result.recorded ≡ [] }
        ensures waiting { result.waiting ≡ [] }
        ensures comments { result.comments ≡ [] }
    {
        Trees {
            kept: Tree::new(alloc),
            recorded: Tree::new(alloc),
            waiting: Tree::new(alloc),
            comments: Tree::new(alloc),
            alloc,
        }
    }

    /// Adds a token behind those on the way, or in the place of the last of them where that was read again.
    #[inline(always)]
    pub fn keep(&mut self, ways: Ways, token: Kept, again: bool) -> Result<Ways, AllocError>
        ensures { IfOk result (λ to. Keeps self.old ways token again self.new to) }
    {
        let before = if again {
            self.kept.before(ways.kept)
        } else {
            ways.kept
        };
        let kept = self.kept.push(token, before)?;
        Ok(Ways { kept, ..ways })
    }

    /// Adds errors and comments behind those on the ways.
    pub fn add(
        &mut self,
        ways: Ways,
        recorded: Vec<Error<'a>>,
        waiting: Vec<Error<'a>>,
        comments: Vec<BufferedComment<'a>>,
    ) -> Result<Ways, AllocError>
        ensures { IfOk result (λ to. Adds self.old ways recorded.entry.items waiting.entry.items comments.entry.items self.new to) }
    {
        let recorded = self.recorded.extend(recorded, ways.recorded)?;
        let waiting = self.waiting.extend(waiting, ways.waiting)?;
        let comments = self.comments.extend(comments, ways.comments)?;
        Ok(Ways {
            kept: ways.kept,
            recorded,
            waiting,
            comments,
        })
    }

    /// Puts the errors that wait on the way behind those that were recorded on it.
    pub fn deliver(&mut self, ways: Ways) -> Result<Ways, AllocError>
        ensures { IfOk result (λ to. Delivers self.old ways self.new to) }
    {
        let waiting = copies_to(self.alloc, &self.waiting, ways.waiting)?;
        let mut to = ways;
        to.recorded = self.recorded.extend(waiting, ways.recorded)?;
        to.waiting = 0;
        Ok(to)
    }

    /// Copies of the errors that were recorded on the way, in order.
    pub fn recorded_to(&self, ways: Ways) -> Result<Vec<Error<'a>>, AllocError>
        ensures { IfOk result (λ errors. map error_view errors.items ≡ (errors_to self.now ways).recorded) }
    {
        copies_to(self.alloc, &self.recorded, ways.recorded)
    }
}
