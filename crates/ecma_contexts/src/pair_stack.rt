//! A stack of pairs of contexts.
ghost use Rattle.std.specs.Prelude.{◌≡◌, ◌+◌, ◌<◌, ◌≤◌, ◌^◌, [], ◌∷◌, ◌++◌, length, IfOk, IsOk, OnOk, OnErr, MatchOption, slice_get, reverse};

use crate::context_pair::ContextPair;
use crate::near_pairs::{MOST_NEAR, NearPairs};
use crate::shared_pairs::SharedPairs;
use std::alloc::{AllocError, Global};
use std::marker::Model;

/// How many of the outermost pairs go at a time from those in the value to those that copies share. Enough stay that no few
/// calls back and forth reach the shared ones.
const MOVED: usize = 32;

/// Pairs, the innermost last. Up to 63 do not allocate, and a copy never does.
#[derive(Drop)]
pub(crate) struct PairStack {
    /// The innermost.
    near: NearPairs,
    /// Those around them.
    far: SharedPairs,
    alloc: Global,
}

impl Model for PairStack {
    ghost use Rattle.std.specs.Prelude.{List, ◌++◌};
    ghost use Rattle.ecma_contexts.specs.declared.context_pair.ContextPair.{ContextPair};

    ghost Value = { List ContextPair };

    ghost view = { λ stack. stack.far ++ stack.near };
}

/// Moves so many of the outermost near pairs to the far ones.
///
/// # Errors
///
/// `AllocError` where allocation fails for them. Nothing is then changed.
#[inline(never)]
fn move_out(
    alloc: Global,
    count: usize,
    near: &mut NearPairs,
    far: &mut SharedPairs,
) -> Result<(), AllocError>
    requires { count ≤ length near.old }
    ensures ok { OnOk result (far.new ++ near.new ≡ far.old ++ near.old) }
    ensures room { OnOk result (length near.new + count ≡ length near.old) }
    ensures err { OnErr result ((far.new ≡ far.old) × (near.new ≡ near.old)) }
{
    far.add(alloc, &near.as_slice()[..count])?;
    near.drop_front(count);
    Ok(())
}

impl PairStack {
    /// No pairs, which does not allocate.
    pub(crate) fn new(alloc: Global) -> PairStack
        ensures { result ≡ [] }
    {
        PairStack {
            near: NearPairs::new(),
            far: SharedPairs::new(),
            alloc,
        }
    }

    /// How many pairs there are.
    #[inline(always)]
    pub(crate) fn len(&self) -> usize
        ensures value { result ≡ length self.now }
        ensures few { result < 2 ^ 33 }
    {
        self.far.len() + self.near.len()
    }

    /// The innermost pair, where there is one.
    pub(crate) fn last(&self) -> Option<ContextPair>
        ensures { result ≡ slice_get (reverse self.now) 0 }
    {
        match self.near.as_slice().last() {
            Some(pair) => Some(*pair),
            None => self.far.last(),
        }
    }

    /// Puts a pair inside the others. Up to 63 do not allocate.
    ///
    /// # Errors
    ///
    /// `AllocError` where it can't be allocated. Nothing is then changed.
    #[inline(always)]
    pub(crate) fn push(&mut self, pair: ContextPair) -> Result<(), AllocError>
        ensures ok { OnOk result (self.new ≡ self.old ++ pair ∷ []) }
        ensures err { OnErr result (self.new ≡ self.old) }
        ensures free { length self.old < 63 → IsOk result }
    {
        if self.near.is_full() {
            move_out(self.alloc, MOVED, &mut self.near, &mut self.far)?;
        }
        self.near.push(pair);
        Ok(())
    }

    /// Takes the innermost pair off, where there is one.
    #[inline(always)]
    pub(crate) fn pop(&mut self) -> Option<ContextPair>
        ensures { MatchOption result ((self.old ≡ []) × (self.new ≡ [])) (λ pair. self.old ≡ self.new ++ pair ∷ []) }
    {
        match self.near.pop() {
            Some(pair) => Some(pair),
            None => self.far.pop(),
        }
    }

    /// The same pairs, all of them near.
    #[inline(never)]
    fn gathered(&self) -> PairStack
        requires { length self.now ≤ 63 }
        ensures { result ≡ self.now }
    {
        let mut near = NearPairs::new();
        near.extend(self.far.as_slice());
        near.extend(self.near.as_slice());
        PairStack {
            near,
            far: SharedPairs::new(),
            alloc: self.alloc,
        }
    }

    /// The same pairs, which does not allocate.
    ///
    /// # Errors
    ///
    /// `AllocError` where more than 63 are shared by as many stacks as can be counted.
    pub(crate) fn copy(&self) -> Result<PairStack, AllocError>
        ensures same { IfOk result (λ copy. copy ≡ self.now) }
        ensures free { length self.now ≤ 63 → IsOk result }
    {
        if self.far.len() > 0 && self.len() <= MOST_NEAR {
            return Ok(self.gathered());
        }
        Ok(PairStack {
            near: self.near.copy(),
            far: self.far.copy()?,
            alloc: self.alloc,
        })
    }
}
