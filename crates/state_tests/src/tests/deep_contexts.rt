//! Stacks of contexts, which share what they have above 128, beside plain lists.
use ecma_state::{TokenContext, TokenContexts};
use std::alloc::{AllocError, Global};
use std::process::Abort;
use std::test::Fail;

/// The context at this depth, of which no two neighbours are the same; others in each round.
fn in_turn(depth: usize, round: usize) -> TokenContext {
    match (depth % 5 + round % 5) % 5 {
        0 => TokenContext::BraceStmt,
        1 => TokenContext::Tpl,
        2 => TokenContext::ParenStmt { is_for_loop: true },
        3 => TokenContext::ParenExpr,
        _ => TokenContext::JSXExpr,
    }
}

/// A stack, and what has to be on it, the innermost last.
#[derive(Drop)]
struct Beside {
    stack: TokenContexts,
    list: Vec<TokenContext>,
}

impl Beside {
    fn copy(&self) -> Result<Beside, AllocError> {
        Ok(Beside {
            stack: self.stack.copy()?,
            list: self.list.clone()?,
        })
    }

    /// What is asked of the stack is what the list says.
    fn assert_same(&self, rt: &impl Abort) {
        let (around, current) = match self.list.as_slice() {
            [.., around, current] => (Some(*around), Some(*current)),
            [current] => (None, Some(*current)),
            _ => (None, None),
        };
        assert!(rt; self.stack.len() == self.list.len());
        assert!(rt; self.stack.is_empty() == self.list.is_empty());
        assert!(rt; (self.stack.around_current(), self.stack.current()) == (around, current));
    }

    /// Goes up or down to this depth.
    fn go_to(&mut self, rt: &impl Abort, depth: usize, round: usize) -> Result<(), AllocError> {
        for at in self.list.len()..depth {
            self.stack.push(in_turn(at, round))?;
            self.list.push(in_turn(at, round))?;
            self.assert_same(rt);
        }
        for _ in depth..self.list.len() {
            assert!(rt; self.stack.pop() == self.list.pop());
            self.assert_same(rt);
        }
        Ok(())
    }
}

/// Takes a copy and a copy of it up and down, in turn, until nothing can be taken off.
fn go_on(
    rt: &impl Abort,
    copy: &mut Beside,
    other: &mut Beside,
    round: usize,
) -> Result<(), AllocError> {
    copy.assert_same(rt);
    copy.go_to(rt, 200, round)?;
    *other = copy.copy()?;
    other.go_to(rt, 330, round)?;
    copy.go_to(rt, 0, round)?;
    other.go_to(rt, 0, round)?;
    assert!(rt; (copy.stack.pop(), other.stack.pop()) == (None, None));
    Ok(())
}

/// Makes a copy of a stack at each of these depths, between which it goes up and down, and has each go on by itself.
fn go_on_by_themselves(
    rt: &impl Abort,
    beside: &mut Beside,
    copies: &mut Vec<Beside>,
    depths: &[usize],
) -> Result<(), AllocError> {
    beside.assert_same(rt);
    for (round, depth) in depths.iter().enumerate() {
        beside.go_to(rt, *depth, round)?;
        copies.push(beside.copy()?)?;
    }
    for (round, copy) in copies.iter_mut().enumerate() {
        go_on(rt, copy, beside, round)?;
    }
    Ok(())
}

fn assert_all_go_on(rt: &impl Abort, alloc: Global, depths: &[usize]) -> Result<(), AllocError> {
    let mut copies = Vec::new(alloc);
    let mut beside = Beside {
        stack: TokenContexts::new(alloc),
        list: Vec::new(alloc),
    };
    go_on_by_themselves(rt, &mut beside, &mut copies, depths)
}

#[test]
fn contexts_are_a_stack_whose_copies_stay(rt: HostRuntime) -> Result<(), Fail> {
    Ok(assert_all_go_on(&rt, rt.alloc(), &[2, 0])?)
}

#[test]
fn copies_of_deep_contexts_go_on_by_themselves(rt: HostRuntime) -> Result<(), Fail> {
    // Around the depths at which pairs move: 64 pairs and more, and down to none near.
    const DEPTHS: &[usize] = &[
        127, 128, 129, 130, 120, 66, 64, 60, 131, 195, 130, 260, 126, 62, 300, 301, 1, 192, 0, 257,
    ];
    Ok(assert_all_go_on(&rt, rt.alloc(), DEPTHS)?)
}

#[test]
fn copies_of_contexts_in_several_blocks_go_on_by_themselves(rt: HostRuntime) -> Result<(), Fail> {
    // Around the depths at which a block of 4,096 contexts is full: with up to 128 more that are in no block.
    const DEPTHS: &[usize] = &[
        4_097, 4_161, 4_162, 4_224, 4_225, 4_290, 4_160, 4_098, 4_095, 8_300, 8_322, 4_100, 8_420,
        200, 12_700, 0, 4_226,
    ];
    Ok(assert_all_go_on(&rt, rt.alloc(), DEPTHS)?)
}
