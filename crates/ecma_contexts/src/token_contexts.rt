//! The stack of token contexts.
ghost use Rattle.std.specs.Prelude.{◌≡◌, ◌<◌, ◌≤◌, ◌==◌, [], ◌∷◌, length, IsOk, IfOk, OnOk, OnErr, MatchOption};
ghost use Rattle.ecma_contexts.specs.Contexts.{innermost, around_innermost};

use crate::context_pair::ContextPair;
use crate::pair_stack::PairStack;
use crate::token_context::TokenContext;
use std::alloc::{AllocError, Global};
use std::marker::Model;

/// What encloses the place that is read: a stack of contexts, which contracts see as a list, the innermost first.
///
/// Up to 128 contexts do not allocate, and a copy never does.
#[derive(Drop)]
pub struct TokenContexts {
    // Those around the two below by pairs, the innermost last.
    pairs: PairStack,
    // The innermost, where there is one: most questions are of it.
    top: Option<TokenContext>,
    // The one around it, where that is in no pair.
    under: Option<TokenContext>,
}

impl Model for TokenContexts {
    ghost use Rattle.std.specs.Prelude.{◌≡◌, ◌≤◌, reverse};
    ghost use Rattle.ecma_contexts.specs.ContextPairs.{IsStack, contexts_of};
    ghost use Rattle.ecma_contexts.specs.Contexts.{Contexts};

    ghost Value = { Contexts };

    ghost view = { λ c. contexts_of c.top c.under (reverse c.pairs) };

    ghost invariant = { λ c. IsStack c.top c.under (reverse c.pairs) };
}

impl TokenContexts {
    /// No contexts, which does not allocate.
    pub fn new(alloc: Global) -> TokenContexts
        ensures { result ≡ [] }
    {
        TokenContexts {
            top: None,
            under: None,
            pairs: PairStack::new(alloc),
        }
    }

    /// How many contexts there are.
    #[tactic(auto, using(crate::proofs::ContextPairLemmas::paired_length))]
    pub fn len(&self) -> usize
        ensures { result ≡ length self.now }
    {
        let top = if self.top.is_some() { 1 } else { 0 };
        let under = if self.under.is_some() { 1 } else { 0 };
        top + under + 2 * self.pairs.len()
    }

    /// Whether there is no context.
    pub fn is_empty(&self) -> bool
        ensures { result ≡ length self.now == 0 }
    {
        self.top.is_none()
    }

    /// The innermost context, where there is one.
    #[inline(always)]
    pub fn current(&self) -> Option<TokenContext>
        ensures { result ≡ innermost self.now }
    {
        self.top
    }

    /// The context right around the innermost, where there is one.
    #[tactic(auto, using(crate::proofs::ContextPairLemmas::around_paired, crate::proofs::ContextPairLemmas::around_unpaired))]
    pub fn around_current(&self) -> Option<TokenContext>
        ensures { result ≡ around_innermost self.now }
    {
        match self.under {
            Some(under) => Some(under),
            None => match self.pairs.last() {
                Some(pair) => Some(pair.inner()),
                None => None,
            },
        }
    }

    /// Takes the innermost context off, where there is one.
    // In each caller by itself, so that a context that nobody looks at is not made.
    #[inline(always)]
    pub fn pop(&mut self) -> Option<TokenContext>
        ensures { MatchOption result ((self.old ≡ []) × (self.new ≡ [])) (λ top. self.old ≡ top ∷ self.new) }
    {
        let popped = self.top;
        match self.under {
            Some(under) => {
                self.top = Some(under);
                self.under = None;
            }
            None => match self.pairs.pop() {
                Some(pair) => {
                    self.top = Some(pair.inner());
                    self.under = Some(pair.outer());
                }
                None => self.top = None,
            },
        }
        popped
    }

    /// Puts a context inside the others. Up to 128 contexts do not allocate.
    ///
    /// # Errors
    ///
    /// `AllocError` where it can't be allocated. Nothing is then changed.
    #[tactic(auto, using(crate::proofs::ContextPairLemmas::paired_length))]
    pub fn push(&mut self, context: TokenContext) -> Result<(), AllocError>
        ensures ok { OnOk result (self.new ≡ context ∷ self.old) }
        ensures err { OnErr result (self.new ≡ self.old) }
        ensures free { length self.old < 128 → IsOk result }
    {
        if let Some(top) = self.top {
            match self.under {
                None => self.under = Some(top),
                Some(under) => {
                    self.pairs.push(ContextPair::of(top, under))?;
                    self.under = None;
                }
            }
        }
        self.top = Some(context);
        Ok(())
    }

    /// The same contexts, which does not allocate: stacks share what they have above 128.
    ///
    /// # Errors
    ///
    /// `AllocError` where more than 128 are shared by as many stacks as can be counted.
    #[tactic(auto, using(crate::proofs::ContextPairLemmas::paired_length))]
    pub fn copy(&self) -> Result<TokenContexts, AllocError>
        ensures same { IfOk result (λ c. c ≡ self.now) }
        ensures free { length self.now ≤ 128 → IsOk result }
    {
        Ok(TokenContexts {
            top: self.top,
            under: self.under,
            pairs: self.pairs.copy()?,
        })
    }
}
