//! A lexer that takes steps, and the ways to what it found before.
ghost use Rattle.std.specs.Prelude.{◌≡◌, [], IfOk, OnOk};
ghost use Rattle.ecma_state.specs.Disposition.{no_errors};
ghost use Rattle.ecma_state.specs.Session.{Session, lexer_state, state_of};
ghost use Rattle.ecma_state.specs.Run.{act};
ghost use Rattle.ecma_replay.specs.Playing.{Acts, Enters, Grow, IsAt, answer_of, delivered};
ghost use Rattle.ecma_replay.specs.declared.trees.Trees.{Trees};
ghost use Rattle.ecma_state.specs.declared.step.Step.{Step};

use crate::answer::Answer;
use crate::trees::{Trees, Ways, joined};
use ecma_state::error_list::ErrorList;
use ecma_state::errors::ErrorLists;
use ecma_state::kept::Kept;
use ecma_state::token_contexts::TokenContexts;
use ecma_stream::lexer::Lexer;
use ecma_stream::tokens::Tokens;
use ecma_syntax::Context;
use ecma_token::TokenAndSpan;
use std::alloc::AllocError;
use std::marker::Model;

/// A lexer, and the ways to what it found before. The lexer itself has the errors and comments that it found since it, or what
/// it was copied from, was saved last.
#[derive(Drop)]
pub struct Branch<'a> {
    pub lexer: Lexer<'a>,
    pub ways: Ways,
}

impl<'a> Model for Branch<'a> {
    ghost use Rattle.std.specs.Coded.{codes};
    ghost use denote.Signature.{static_lft};
    ghost use Rattle.ecma_token.specs.contracts.error.Error as e;
    ghost use Rattle.ecma_replay.specs.Playing.{BranchValue};

    ghost Value = { BranchValue };

    ghost coded = { Prim.hlevel (codes, (e.the_row static_lft).coded) };

    ghost view = { λ p. record { lexer = p.lexer; ways = p.ways } };
}

impl<'a> Branch<'a> {
    /// A lexer that has taken no step yet, which does not allocate.
    pub fn new(lexer: Lexer<'a>) -> Branch<'a>
        ensures { (t : Trees) (s : Session) → lexer_state lexer.entry ≡ state_of s → s.past ≡ [] → IsAt t s result }
    {
        Branch {
            lexer,
            ways: Ways::none(),
        }
    }

    /// The same lexer on the same ways.
    pub fn copy(&self) -> Result<Branch<'a>, AllocError>
        ensures { (t : Trees) (s : Session) → IsAt t s self.now → IfOk result (λ copy. IsAt t s copy) }
    {
        Ok(Branch {
            lexer: self.lexer.copy()?,
            ways: self.ways,
        })
    }

    /// Goes back to where a copy is.
    pub fn go_back(&mut self, copy: Branch<'a>)
        ensures { self.new ≡ copy.entry }
    {
        let Branch { lexer, ways } = copy;
        self.lexer.go_back(lexer);
        self.ways = ways;
    }

    /// Moves the errors and comments that the lexer has to the trees, so that copies of it copy none.
    pub fn settle(&mut self, trees: &mut Trees<'a>) -> Result<(), AllocError>
        ensures at { (s : Session) → IsAt trees.old s self.old → OnOk result (IsAt trees.new s self.new) }
        ensures grows { OnOk result (Grow trees.old trees.new) }
        ensures drained { OnOk result ((lexer_state self.new.lexer).errors ≡ no_errors) }
    {
        let (errors, comments) = self.lexer.take_found();
        let ErrorLists { recorded, waiting } = errors;
        self.ways = trees.add(self.ways, recorded.into_vec(), waiting.into_vec(), comments)?;
        Ok(())
    }

    /// Reads into a slot, and keeps the token that is read.
    #[inline(always)]
    pub fn read_into(
        &mut self,
        trees: &mut Trees<'a>,
        slot: &mut Option<TokenAndSpan<'a>>,
    ) -> Result<(), AllocError>
        ensures acts { (s : Session) → IsAt trees.old s self.old → OnOk result (Acts trees.new (act s Step.Read) (answer_of slot.new) self.new) }
        ensures grows { OnOk result (Grow trees.old trees.new) }
    {
        let again = self.lexer.reads_again();
        self.lexer.read_into(slot)?;
        match slot {
            Some(token) => {
                self.ways = trees.keep(self.ways, Kept::of(token), again)?;
                Ok(())
            }
            None => Ok(()),
        }
    }

    /// Records the errors that wait on the way, behind those that were recorded.
    #[inline(never)]
    fn deliver(&mut self, trees: &mut Trees<'a>) -> Result<(), AllocError>
        ensures at { (s : Session) → IsAt trees.old s self.old → OnOk result (IsAt trees.new (delivered s) self.new) }
        ensures grows { OnOk result (Grow trees.old trees.new) }
    {
        self.settle(trees)?;
        self.ways = trees.deliver(self.ways)?;
        Ok(())
    }

    /// Records the errors that wait on the way, where there are any and this is a context of module code.
    fn enter(&mut self, trees: &mut Trees<'a>, context: &Context) -> Result<(), AllocError>
        ensures enters { (s : Session) → IsAt trees.old s self.old → OnOk result (Enters trees.new s context.now self.new) }
        ensures grows { OnOk result (Grow trees.old trees.new) }
    {
        if !context.module {
            return Ok(());
        }
        if self.ways.waiting == 0 {
            return Ok(());
        }
        self.deliver(trees)?;
        Ok(())
    }

    pub fn set_ctx(
        &mut self,
        trees: &mut Trees<'a>,
        context: Context,
    ) -> Result<Answer<'a>, AllocError>
        ensures acts { (s : Session) → IsAt trees.old s self.old → IfOk result (λ answer. Acts trees.new (act s (Step.SetCtx context)) answer self.new) }
        ensures grows { OnOk result (Grow trees.old trees.new) }
    {
        self.enter(trees, &context)?;
        self.lexer.set_ctx(context)?;
        Ok(Answer::Done)
    }

    pub fn set_expr_allowed(&mut self, allowed: bool) -> Answer<'a>
        ensures { (t : Trees) (s : Session) → IsAt t s self.old → Acts t (act s (Step.SetExprAllowed allowed)) result self.new }
    {
        self.lexer.set_expr_allowed(allowed);
        Answer::Done
    }

    pub fn set_contexts(&mut self, contexts: &TokenContexts) -> Result<Answer<'a>, AllocError>
        ensures { (t : Trees) (s : Session) → IsAt t s self.old → IfOk result (λ answer. Acts t (act s (Step.SetContexts contexts.now)) answer self.new) }
    {
        let contexts = contexts.copy()?;
        self.lexer.set_token_context(contexts);
        Ok(Answer::Done)
    }

    pub fn pop_context(&mut self) -> Answer<'a>
        ensures { (t : Trees) (s : Session) → IsAt t s self.old → Acts t (act s Step.PopContext) result self.new }
    {
        if self.lexer.pop_context() {
            Answer::Done
        } else {
            Answer::NoContext
        }
    }

    pub fn reread(&mut self) -> Answer<'a>
        ensures { (t : Trees) (s : Session) → IsAt t s self.old → Acts t (act s Step.Reread) result self.new }
    {
        match self.lexer.last_slash() {
            Some(slash) => {
                self.lexer.set_next_regexp(Some(slash));
                Answer::Done
            }
            None => Answer::NoSlash,
        }
    }

    pub fn withdraw(&mut self) -> Answer<'a>
        ensures { (t : Trees) (s : Session) → IsAt t s self.old → Acts t (act s Step.Withdraw) result self.new }
    {
        self.lexer.set_next_regexp(None);
        Answer::Done
    }

    pub fn take_errors(&mut self, trees: &Trees<'a>) -> Result<Answer<'a>, AllocError>
        ensures { (s : Session) → IsAt trees.now s self.old → IfOk result (λ answer. Acts trees.now (act s Step.TakeErrors) answer self.new) }
    {
        let before = trees.recorded_to(self.ways)?;
        let found = self.lexer.take_errors();
        self.ways.recorded = 0;
        let errors = joined(before, found.into_vec())?;
        Ok(Answer::Errors(ErrorList::of(errors)))
    }
}
