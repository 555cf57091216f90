//! Lists that share their beginnings: each value has the number of the one before it.
ghost use Rattle.std.specs.Prelude.{◌≡◌, ◌<◌, ◌≤◌, ◌++◌, ◌∷◌, [], drop, length, reverse, IfOk, OnErr, OnOk, MatchOption, ⊤};
ghost use Rattle.ecma_trees.specs.Trees.{Grows, before_in, way};

use std::alloc::{AllocError, Global};
use std::marker::Model;

/// A value, and the number of the one before it on its way, 0 where it is the first.
#[derive(Drop)]
pub struct Node<T> {
    pub value: T,
    pub before: usize,
}

/// All values that were added, of which contracts see the newest first. The number of a value is how many there were with it.
///
/// A list is the number of its last value: the values on the way to it, each behind the one before it. So another list may go
/// on from any of them, and nothing is copied for it.
#[derive(Drop)]
pub struct Tree<T> {
    /// The newest is last.
    nodes: Vec<Node<T>>,
}

impl<T> Model for Tree<T> {
    ghost use Rattle.std.specs.Prelude.{List, reverse};
    ghost use Rattle.ecma_trees.specs.declared.tree.Node.{Node};

    ghost Value = { List (Node T) };

    ghost view = { λ tree. reverse tree.nodes.items };
}

/// The number of the one before the value of a number, where a node says this: nothing comes before it that isn't older.
fn before_in(before: usize, number: usize) -> usize
    ensures { result ≡ before_in before number }
{
    if before < number { before } else { 0 }
}

impl<T: Drop> Tree<T> {
    /// No values, which does not allocate.
    pub fn new(alloc: Global) -> Tree<T>
        ensures { result ≡ [] }
    {
        Tree {
            nodes: Vec::new(alloc),
        }
    }

    /// Adds a value behind that of a number, and answers its own.
    ///
    /// # Errors
    ///
    /// `AllocError` where there is no memory for it. Nothing is then changed.
    #[inline(always)]
    pub fn push(&mut self, value: T, before: usize) -> Result<usize, AllocError>
        ensures way { IfOk result (λ number. way number self.new ≡ value ∷ way before self.old) }
        ensures within { IfOk result (λ number. number ≤ length self.new) }
        ensures grows { OnOk result (Grows self.old self.new) }
        ensures last { IfOk result (λ number. number ≡ length self.new) }
        ensures node { OnOk result (self.new ≡ record { value = value; before = before } ∷ self.old) }
        ensures err { OnErr result (self.new ≡ self.old) }
    {
        self.nodes.push(Node { value, before })?;
        Ok(self.nodes.len())
    }

    /// Adds values behind that of a number, each behind the one before it, and answers the number of the last.
    ///
    /// # Errors
    ///
    /// `AllocError` where there is no memory for them; some of them may have been added.
    pub fn extend(&mut self, values: Vec<T>, before: usize) -> Result<usize, AllocError>
        ensures way { IfOk result (λ number. way number self.new ≡ reverse values.items ++ way before self.old) }
        ensures within { before ≤ length self.old → IfOk result (λ number. number ≤ length self.new) }
        ensures grows { OnOk result (Grows self.old self.new) }
        ensures err { OnErr result (Grows self.old self.new) }
    {
        let mut number = before;
        'values: for value in values {
            number = self.push(value, number)?;
        }
        Ok(number)
    }

    /// The value of a number, and the number of the one before it; nothing where it is the number of no value.
    pub fn last(&self, number: usize) -> Option<(&T, usize)>
        ensures way { MatchOption result (way number self.now ≡ []) (λ found. way number self.now ≡ found.0.now ∷ way found.1 self.now) }
        ensures before { MatchOption result ⊤ (λ found. found.1 < number) }
    {
        if number == 0 {
            return None;
        }
        match self.nodes.get(number - 1) {
            Some(node) => Some((&node.value, before_in(node.before, number))),
            None => None,
        }
    }

    /// The number of the one before the value of a number; 0 where it is the first, and where it is the number of no value.
    pub fn before(&self, number: usize) -> usize
        ensures { way result self.now ≡ drop 1 (way number self.now) }
    {
        match self.last(number) {
            Some((_, before)) => before,
            None => 0,
        }
    }

    /// The values on the way to that of a number, in order.
    ///
    /// # Errors
    ///
    /// `AllocError` where there is no memory for them.
    pub fn into_vec(self, alloc: Global, number: usize) -> Result<Vec<T>, AllocError>
        ensures { IfOk result (λ values. reverse values.items ≡ way number self) }
    {
        let Tree { mut nodes } = self;
        let mut values = Vec::new(alloc);
        let mut at = number;
        'nodes: while let Some(node) = nodes.pop() {
            if at == nodes.len() + 1 {
                values.push(node.value)?;
                at = node.before;
            }
        }
        values.reverse();
        Ok(values)
    }
}
