//! The innermost pairs of a stack of contexts.
ghost use Rattle.std.specs.Prelude.{◌≡◌, ◌+◌, ◌<◌, ◌≤◌, ◌==◌, [], ◌∷◌, ◌++◌, length, drop, MatchOption};

use crate::context_pair::ContextPair;
use std::marker::Model;

/// How many pairs are in the value itself.
pub(crate) const MOST_NEAR: usize = 63;

/// At most 63 pairs, the innermost last, in the value itself.
// With its number of pairs in one byte it has 64.
#[derive(Drop)]
pub(crate) struct NearPairs {
    pairs: [ContextPair; MOST_NEAR],
    len: u8,
}

impl Model for NearPairs {
    ghost use Rattle.std.specs.Prelude.{◌≡◌, ◌≤◌, List, length, take};
    ghost use Rattle.ecma_contexts.specs.declared.context_pair.ContextPair.{ContextPair};

    ghost Value = { List ContextPair };

    ghost view = { λ near. take near.len near.pairs };

    ghost invariant = { λ near. (near.len ≤ 63) × (length near.pairs ≡ 63) };
}

impl NearPairs {
    /// No pairs.
    pub(crate) fn new() -> NearPairs
        ensures { result ≡ [] }
    {
        NearPairs {
            pairs: [ContextPair::default(); MOST_NEAR],
            len: 0,
        }
    }

    /// How many pairs there are.
    #[inline(always)]
    pub(crate) fn len(&self) -> usize
        ensures value { result ≡ length self.now }
        ensures fits { result ≤ 63 }
    {
        self.len as usize
    }

    /// Whether there is no room for one more.
    #[inline(always)]
    pub(crate) fn is_full(&self) -> bool
        ensures value { result ≡ length self.now == 63 }
        ensures fits { length self.now ≤ 63 }
    {
        self.len() == MOST_NEAR
    }

    /// The pairs.
    #[inline(always)]
    pub(crate) fn as_slice(&self) -> &[ContextPair]
        ensures value { result.now ≡ self.now }
        ensures fits { length result.now ≤ 63 }
    {
        &self.pairs[..self.len as usize]
    }

    /// Puts a pair inside the others.
    #[inline(always)]
    pub(crate) fn push(&mut self, pair: ContextPair)
        requires { length self.old < 63 }
        ensures { self.new ≡ self.old ++ pair ∷ [] }
    {
        self.pairs[self.len as usize] = pair;
        self.len += 1;
    }

    /// Takes the innermost pair off, where there is one.
    #[inline(always)]
    pub(crate) fn pop(&mut self) -> Option<ContextPair>
        ensures { MatchOption result ((self.old ≡ []) × (self.new ≡ [])) (λ pair. self.old ≡ self.new ++ pair ∷ []) }
    {
        if self.len == 0 {
            return None;
        }
        self.len -= 1;
        Some(self.pairs[self.len as usize])
    }

    /// Puts pairs inside the others.
    pub(crate) fn extend(&mut self, pairs: &[ContextPair])
        requires { length self.old + length pairs.now ≤ 63 }
        ensures { self.new ≡ self.old ++ pairs.now }
    {
        let start = self.len as usize;
        let end = start + pairs.len();
        self.pairs[start..end].copy_from_slice(pairs);
        self.len = end as u8;
    }

    /// Takes the outermost pairs off.
    pub(crate) fn drop_front(&mut self, count: usize)
        requires { count ≤ length self.old }
        ensures { self.new ≡ drop count self.old }
    {
        let mut rest = NearPairs::new();
        rest.extend(&self.as_slice()[count..]);
        *self = rest;
    }

    /// The same pairs.
    #[inline(always)]
    pub(crate) fn copy(&self) -> NearPairs
        ensures { result ≡ self.now }
    {
        NearPairs {
            pairs: self.pairs,
            len: self.len,
        }
    }
}
