//! A lexer that takes steps, and keeps the tokens that it answered.
ghost use Rattle.std.specs.Prelude.{◌≡◌, ◌∷◌, [], drop, reverse, if◌then◌else◌, IfOk, OnOk};
ghost use Rattle.ecma_state.specs.Session.{Session, lexer_state, state_of};
ghost use Rattle.ecma_state.specs.Run.{act};
ghost use Rattle.replay_model.specs.Copies.{Acts, IsAt};
ghost use Rattle.ecma_state.specs.declared.step.Step.{Step};

use ecma_replay::Answer;
use ecma_state::kept::Kept;
use ecma_state::token_contexts::TokenContexts;
use ecma_stream::lexer::Lexer;
use ecma_stream::tokens::Tokens;
use ecma_syntax::Context;
use std::alloc::{AllocError, Global};
use std::marker::Model;

/// The tokens that are kept, which contracts see as a list, the newest first.
#[derive(Drop)]
pub struct KeptTokens {
    /// The newest is last.
    items: Vec<Kept>,
}

impl Model for KeptTokens {
    ghost use Rattle.std.specs.Prelude.{List, reverse};
    ghost use Rattle.ecma_state.specs.declared.kept.Kept.{Kept};

    ghost Value = { List Kept };

    ghost view = { λ k. reverse k.items.items };
}

impl KeptTokens {
    /// No tokens, which does not allocate.
    fn new(alloc: Global) -> KeptTokens
        ensures { result ≡ [] }
    {
        KeptTokens {
            items: Vec::new(alloc),
        }
    }

    /// Keeps a token, in the place of the newest where it was read again.
    fn keep(&mut self, again: bool, token: Kept) -> Result<(), AllocError>
        ensures { OnOk result (self.new ≡ token ∷ (if again then drop 1 self.old else self.old)) }
    {
        if again {
            let _ = self.items.pop();
        }
        self.items.push(token)?;
        Ok(())
    }

    /// The same tokens.
    fn copy(&self) -> Result<KeptTokens, AllocError>
        ensures { IfOk result (λ k. k ≡ self.now) }
    {
        Ok(KeptTokens {
            items: Vec::from_slice(*self.items.allocator(), self.items.as_slice())?,
        })
    }

    /// The tokens in the order in which they were kept.
    pub fn into_vec(self) -> Vec<Kept>
        ensures { reverse result.items ≡ self }
    {
        self.items
    }
}

/// A lexer, and the tokens that are kept of what it answered.
#[derive(Drop)]
pub struct Player<'a> {
    pub lexer: Lexer<'a>,
    pub kept: KeptTokens,
}

impl<'a> Model for Player<'a> {
    ghost use Rattle.std.specs.Coded.{codes};
    ghost use denote.Signature.{static_lft};
    ghost use Rattle.ecma_token.specs.contracts.error.Error as e;
    ghost use Rattle.replay_model.specs.Copies.{PlayerValue};

    ghost Value = { PlayerValue };

    ghost coded = { Prim.hlevel (codes, (e.the_row static_lft).coded) };

    ghost view = { λ p. record { lexer = p.lexer; kept = p.kept } };
}

impl<'a> Player<'a> {
    /// A lexer that has taken no step yet, which does not allocate.
    pub fn new(alloc: Global, lexer: Lexer<'a>) -> Player<'a>
        ensures { (s : Session) → lexer_state lexer.entry ≡ state_of s → s.past ≡ [] → IsAt s result }
    {
        Player {
            lexer,
            kept: KeptTokens::new(alloc),
        }
    }

    /// The same lexer with the same tokens.
    pub fn copy(&self) -> Result<Player<'a>, AllocError>
        ensures { (s : Session) → IsAt s self.now → IfOk result (λ copy. IsAt s copy) }
    {
        Ok(Player {
            lexer: self.lexer.copy()?,
            kept: self.kept.copy()?,
        })
    }

    /// Goes back to where a copy is.
    pub fn go_back(&mut self, copy: Player<'a>)
        ensures { self.new ≡ copy.entry }
    {
        let Player { lexer, kept } = copy;
        self.lexer.go_back(lexer);
        self.kept = kept;
    }

    pub fn read(&mut self) -> Result<Answer<'a>, AllocError>
        ensures { (s : Session) → IsAt s self.old → IfOk result (λ answer. Acts (act s Step.Read) answer self.new) }
    {
        let again = self.lexer.reads_again();
        match self.lexer.read()? {
            Some(token) => {
                self.kept.keep(again, Kept::of(&token))?;
                Ok(Answer::Token(token))
            }
            None => Ok(Answer::End),
        }
    }

    pub fn set_ctx(&mut self, context: Context) -> Result<Answer<'a>, AllocError>
        ensures { (s : Session) → IsAt s self.old → IfOk result (λ answer. Acts (act s (Step.SetCtx context)) answer self.new) }
    {
        self.lexer.set_ctx(context)?;
        Ok(Answer::Done)
    }

    pub fn set_expr_allowed(&mut self, allowed: bool) -> Answer<'a>
        ensures { (s : Session) → IsAt s self.old → Acts (act s (Step.SetExprAllowed allowed)) result self.new }
    {
        self.lexer.set_expr_allowed(allowed);
        Answer::Done
    }

    pub fn set_contexts(&mut self, contexts: &TokenContexts) -> Result<Answer<'a>, AllocError>
        ensures { (s : Session) → IsAt s self.old → IfOk result (λ answer. Acts (act s (Step.SetContexts contexts.now)) answer self.new) }
    {
        let contexts = contexts.copy()?;
        self.lexer.set_token_context(contexts);
        Ok(Answer::Done)
    }

    pub fn pop_context(&mut self) -> Answer<'a>
        ensures { (s : Session) → IsAt s self.old → Acts (act s Step.PopContext) result self.new }
    {
        if self.lexer.pop_context() {
            Answer::Done
        } else {
            Answer::NoContext
        }
    }

    pub fn reread(&mut self) -> Answer<'a>
        ensures { (s : Session) → IsAt s self.old → Acts (act s Step.Reread) result self.new }
    {
        match self.lexer.last_slash() {
            Some(slash) => {
                self.lexer.set_next_regexp(Some(slash));
                Answer::Done
            }
            None => Answer::NoSlash,
        }
    }

    pub fn withdraw(&mut self) -> Answer<'a>
        ensures { (s : Session) → IsAt s self.old → Acts (act s Step.Withdraw) result self.new }
    {
        self.lexer.set_next_regexp(None);
        Answer::Done
    }

    pub fn take_errors(&mut self) -> Answer<'a>
        ensures { (s : Session) → IsAt s self.old → Acts (act s Step.TakeErrors) result self.new }
    {
        Answer::Errors(self.lexer.take_errors())
    }
}
