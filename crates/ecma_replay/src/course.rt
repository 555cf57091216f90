//! A lexer that takes the steps of a list, with the places that it may go back to.
ghost use Rattle.std.specs.Prelude.{◌≡◌, ◌++◌, ◌∷◌, [], List, IfOk, OnOk};
ghost use Rattle.ecma_state.specs.Session.{Session};
ghost use Rattle.ecma_state.specs.Run.{start_of};
ghost use Rattle.ecma_replay.specs.Playing.{Responds, Stands, answer_of};
ghost use Rattle.ecma_replay.specs.Replay.{Gathers};
ghost use Rattle.ecma_state.specs.declared.step.Step.{Step};

use crate::answer::Answer;
use crate::branch::Branch;
use crate::gathered::Gathered;
use crate::trees::Trees;
use ecma_place::StringInput;
use ecma_state::settings::Settings;
use ecma_state::step::Step;
use ecma_stream::lexer::Lexer;
use ecma_token::TokenAndSpan;
use std::alloc::{AllocError, Global};
use std::marker::Model;

/// What a list of steps has come to, but for its answers.
#[derive(Drop)]
pub struct Course<'a> {
    branch: Branch<'a>,
    trees: Trees<'a>,
    saves: Vec<Branch<'a>>,
}

impl<'a> Model for Course<'a> {
    ghost use Rattle.std.specs.Coded.{codes};
    ghost use denote.Signature.{static_lft};
    ghost use Rattle.ecma_token.specs.contracts.error.Error as e;
    ghost use Rattle.ecma_replay.specs.Playing.{CourseValue};

    ghost Value = { CourseValue };

    ghost coded = { Prim.hlevel (codes, (e.the_row static_lft).coded) };

    ghost view = { λ c. record { branch = c.branch; trees = c.trees; saves = c.saves.items } };
}

impl<'a> Course<'a> {
    /// Before any step, which does not allocate.
    pub fn new(alloc: Global, settings: &Settings, input: StringInput<'a>) -> Course<'a>
        ensures { Stands (start_of settings.now input.entry) [] result }
    {
        let lexer = Lexer::with_settings(alloc, settings, input);
        Course {
            branch: Branch::new(lexer),
            trees: Trees::new(alloc),
            saves: Vec::new(alloc),
        }
    }

    fn save(&mut self) -> Result<Answer<'a>, AllocError>
        ensures { (begin : Session) (xs : List Step) → Stands begin xs self.old → IfOk result (λ answer. Responds begin xs Step.Save answer self.new) }
    {
        self.branch.settle(&mut self.trees)?;
        let saved = self.branch.copy()?;
        self.saves.push(saved)?;
        Ok(Answer::Done)
    }

    fn back(&mut self, n: usize) -> Result<Answer<'a>, AllocError>
        ensures { (begin : Session) (xs : List Step) → Stands begin xs self.old → IfOk result (λ answer. Responds begin xs (Step.Back n) answer self.new) }
    {
        match self.saves.get(n) {
            Some(saved) => {
                let saved = saved.copy()?;
                self.branch.go_back(saved);
                Ok(Answer::Done)
            }
            None => Ok(Answer::NoSave),
        }
    }

    /// Takes a step that is no read.
    // Never inlined: most steps are reads, which are taken by `read_into`, so that few come this way.
    #[inline(never)]
    pub fn respond(&mut self, step: &Step) -> Result<Answer<'a>, AllocError>
        requires { step.now ≡ Step.Read → ⊥ }
        ensures { (begin : Session) (xs : List Step) → Stands begin xs self.old → IfOk result (λ answer. Responds begin xs step.now answer self.new) }
    {
        match step {
            Step::Read => unreachable!(),
            Step::SetCtx(context) => self.branch.set_ctx(&mut self.trees, *context),
            Step::SetExprAllowed(allowed) => Ok(self.branch.set_expr_allowed(*allowed)),
            Step::SetContexts(contexts) => self.branch.set_contexts(contexts),
            Step::PopContext => Ok(self.branch.pop_context()),
            Step::Reread => Ok(self.branch.reread()),
            Step::Withdraw => Ok(self.branch.withdraw()),
            Step::Save => self.save(),
            Step::Back(n) => self.back(*n),
            Step::TakeErrors => self.branch.take_errors(&self.trees),
        }
    }

    /// Takes the step of a read, whose answer comes into a slot.
    #[inline(always)]
    pub fn read_into(&mut self, slot: &mut Option<TokenAndSpan<'a>>) -> Result<(), AllocError>
        ensures { (begin : Session) (xs : List Step) → Stands begin xs self.old → OnOk result (Responds begin xs Step.Read (answer_of slot.new) self.new) }
    {
        self.branch.read_into(&mut self.trees, slot)
    }

    /// Takes a step, whose answer nobody looks at; a token that is read takes the place of what is in the slot.
    #[inline(always)]
    pub fn pass(
        &mut self,
        step: &Step,
        slot: &mut Option<TokenAndSpan<'a>>,
    ) -> Result<(), AllocError>
        ensures { (begin : Session) (xs : List Step) → Stands begin xs self.old → OnOk result (Stands begin (xs ++ step.now ∷ []) self.new) }
    {
        match step {
            Step::Read => self.read_into(slot),
            _ => {
                let _answer = self.respond(step)?;
                Ok(())
            }
        }
    }

    /// What the steps came to.
    pub fn finish(self) -> Result<Gathered<'a>, AllocError>
        ensures { (begin : Session) (xs : List Step) → Stands begin xs self.entry → IfOk result (λ r. Gathers begin xs r) }
    {
        let Course {
            branch,
            trees,
            saves: _,
        } = self;
        let Branch { lexer, ways } = branch;
        Gathered::joined(trees, ways, lexer)
    }
}
