//! The outer pairs of a stack of contexts, in blocks that copies of the stack share.
ghost use Rattle.std.specs.Prelude.{◌≡◌, ◌+◌, ◌<◌, ◌≤◌, ◌^◌, ◌%◌, [], ◌∷◌, ◌++◌, length, take, IfOk, IsOk, OnOk, OnErr, MatchOption, slice_get, reverse};
ghost use Rattle.std.specs.Arc.{arc_value};
ghost use Rattle.ecma_contexts.specs.SharedPairs.{AreFilled, contents, joined};

use crate::context_pair::ContextPair;
use std::alloc::{AllocError, Global};
use std::marker::Model;
use std::sync::Arc;

/// How many pairs a block has. A stack that grows behind a copy of it copies fewer, and counts one owner more of each block.
const BLOCK: usize = 2_048;

/// Pairs, which change only where the block has no other owner.
type Block = Arc<Vec<ContextPair>>;

/// The first pairs of blocks, which may have other owners. Each block but the last has [`BLOCK`].
// With the number beside the discriminant it has 16 bytes: a step of a list of steps holds a whole stack.
#[derive(Drop)]
enum Front {
    Nothing,
    Of { len: u32, blocks: Arc<Vec<Block>> },
}

/// Pairs, the innermost last, which copies share, so that a copy does not allocate.
#[derive(Drop)]
pub(crate) struct SharedPairs {
    front: Front,
}

impl Model for SharedPairs {
    ghost use Rattle.std.specs.Prelude.{List};
    ghost use Rattle.ecma_contexts.specs.declared.context_pair.ContextPair.{ContextPair};

    ghost Value = { List ContextPair };

    ghost use Rattle.ecma_contexts.specs.SharedPairs.{front_of, HasFront};

    ghost view = { λ shared. front_of shared.front };

    ghost invariant = { λ shared. HasFront shared.front };
}

/// A block of the first pairs, and then the others.
fn block_of(alloc: Global, first: &[ContextPair], then: &[ContextPair]) -> Result<Block, AllocError>
    requires { length first.now + length then.now ≤ 2048 }
    ensures { IfOk result (λ block. (arc_value block).items ≡ first.now ++ then.now) }
{
    let mut block = Vec::with_capacity(alloc, first.len() + then.len())?;
    block.extend_from_slice(first)?;
    block.extend_from_slice(then)?;
    Ok(Arc::new(alloc, block)?)
}

/// Puts pairs behind the first `len` of a block, in place of those that are there: in a block of its own where it has another
/// owner.
///
/// # Errors
///
/// `AllocError` where allocation fails for them. The first `len` are then as before.
fn put_in_block(
    alloc: Global,
    block: &mut Block,
    len: usize,
    pairs: &[ContextPair],
) -> Result<(), AllocError>
    requires within { len ≤ length (arc_value block.old).items }
    requires room { len + length pairs.now ≤ 2048 }
    ensures ok { OnOk result ((arc_value block.new).items ≡ take len (arc_value block.old).items ++ pairs.now) }
    ensures err { OnErr result (take len (arc_value block.new).items ≡ take len (arc_value block.old).items) }
    ensures kept { OnErr result (len ≤ length (arc_value block.new).items) }
    ensures fewer { OnErr result (length (arc_value block.new).items ≤ length (arc_value block.old).items) }
{
    match Arc::get_mut(block) {
        Some(own) => {
            own.truncate(len);
            own.extend_from_slice(pairs)?;
        }
        None => *block = block_of(alloc, &block.as_slice()[..len], pairs)?,
    }
    Ok(())
}

/// The same blocks, with one owner more of each, and room for one more.
fn same_blocks(alloc: Global, blocks: &[Block]) -> Result<Vec<Block>, AllocError>
    requires { length blocks.now < 2 ^ 32 }
    ensures { IfOk result (λ same. contents same.items ≡ contents blocks.now) }
{
    let mut same = Vec::with_capacity(alloc, blocks.len() + 1)?;
    'every: for block in blocks {
        same.push_reserved(Arc::try_clone(block)?);
    }
    Ok(same)
}

/// Puts pairs behind the first `len` of blocks, in place of those that are there: in the last block that has some of these
/// and room, or in a new one.
///
/// # Errors
///
/// `AllocError` where allocation fails for them. The first `len` are then as before.
fn put_behind(
    alloc: Global,
    blocks: &mut Vec<Block>,
    len: usize,
    pairs: &[ContextPair],
) -> Result<(), AllocError>
    requires filled { AreFilled (contents blocks.old.items) }
    requires within { len ≤ length (joined (contents blocks.old.items)) }
    requires room { len % 2048 + length pairs.now ≤ 2048 }
    ensures ok { OnOk result (joined (contents blocks.new.items) ≡ take len (joined (contents blocks.old.items)) ++ pairs.now) }
    ensures err { OnErr result (take len (joined (contents blocks.new.items)) ≡ take len (joined (contents blocks.old.items))) }
    ensures kept { OnErr result (len ≤ length (joined (contents blocks.new.items))) }
    ensures filled { AreFilled (contents blocks.new.items) }
{
    let part = len % BLOCK;
    blocks.truncate(len.div_ceil(BLOCK));
    if part == 0 {
        blocks.push(block_of(alloc, &[], pairs)?)?;
    } else if let Some(block) = blocks.last_mut() {
        put_in_block(alloc, block, part, pairs)?;
    }
    Ok(())
}

/// The same of blocks that may have other owners: these keep theirs.
fn put_behind_shared(
    alloc: Global,
    blocks: &mut Arc<Vec<Block>>,
    len: usize,
    pairs: &[ContextPair],
) -> Result<(), AllocError>
    requires filled { AreFilled (contents (arc_value blocks.old).items) }
    requires within { len ≤ length (joined (contents (arc_value blocks.old).items)) }
    requires room { len % 2048 + length pairs.now ≤ 2048 }
    requires few { len < 2 ^ 32 }
    ensures ok { OnOk result (joined (contents (arc_value blocks.new).items) ≡ take len (joined (contents (arc_value blocks.old).items)) ++ pairs.now) }
    ensures err { OnErr result (take len (joined (contents (arc_value blocks.new).items)) ≡ take len (joined (contents (arc_value blocks.old).items))) }
    ensures kept { OnErr result (len ≤ length (joined (contents (arc_value blocks.new).items))) }
    ensures filled { AreFilled (contents (arc_value blocks.new).items) }
{
    match Arc::get_mut(blocks) {
        Some(own) => put_behind(alloc, own, len, pairs),
        None => {
            let mut own = same_blocks(alloc, &blocks[..len.div_ceil(BLOCK)])?;
            put_behind(alloc, &mut own, len, pairs)?;
            *blocks = Arc::new(alloc, own)?;
            Ok(())
        }
    }
}

/// The pair of this number.
fn pair_at(blocks: &[Block], at: usize) -> ContextPair
    requires filled { AreFilled (contents blocks.now) }
    requires within { at < length (joined (contents blocks.now)) }
    ensures { take (at + 1) (joined (contents blocks.now)) ≡ take at (joined (contents blocks.now)) ++ result ∷ [] }
{
    blocks[at / BLOCK][at % BLOCK]
}

impl SharedPairs {
    /// No pairs.
    pub(crate) fn new() -> SharedPairs
        ensures { result ≡ [] }
    {
        SharedPairs {
            front: Front::Nothing,
        }
    }

    /// How many pairs there are.
    #[inline(always)]
    pub(crate) fn len(&self) -> usize
        ensures value { result ≡ length self.now }
        ensures few { result < 2 ^ 32 }
    {
        match &self.front {
            Front::Nothing => 0,
            Front::Of { len, .. } => *len as usize,
        }
    }

    /// The pairs, where one block has them.
    pub(crate) fn as_slice(&self) -> &[ContextPair]
        requires { length self.now ≤ 2048 }
        ensures { result.now ≡ self.now }
    {
        match &self.front {
            Front::Of { len, blocks } if *len > 0 => &blocks[0][..*len as usize],
            _ => &[],
        }
    }

    /// The innermost pair, where there is one.
    pub(crate) fn last(&self) -> Option<ContextPair>
        ensures { result ≡ slice_get (reverse self.now) 0 }
    {
        match &self.front {
            Front::Of { len, blocks } if *len > 0 => Some(pair_at(blocks, *len as usize - 1)),
            _ => None,
        }
    }

    /// Takes the innermost pair off, where there is one. The blocks stay as they are, for their other owners.
    pub(crate) fn pop(&mut self) -> Option<ContextPair>
        ensures { MatchOption result ((self.old ≡ []) × (self.new ≡ [])) (λ pair. self.old ≡ self.new ++ pair ∷ []) }
    {
        match &mut self.front {
            Front::Of { len, blocks } if *len > 0 => {
                *len -= 1;
                Some(pair_at(blocks, *len as usize))
            }
            _ => None,
        }
    }

    /// Takes all pairs off but the outermost ones, as many as said. The blocks stay as they are, for their other owners.
    fn shorten(&mut self, to: usize)
        requires { to ≤ length self.old }
        ensures { self.new ≡ take to self.old }
    {
        if let Front::Of { len, .. } = &mut self.front {
            *len = to as u32;
        }
    }

    /// Puts pairs inside the others, for which there is room in one block.
    ///
    /// # Errors
    ///
    /// `AllocError` where allocation fails for them. Nothing is then changed.
    fn add_to_block(&mut self, alloc: Global, pairs: &[ContextPair]) -> Result<(), AllocError>
        requires room { length self.old % 2048 + length pairs.now ≤ 2048 }
        requires few { length self.old + length pairs.now < 2 ^ 32 }
        ensures ok { OnOk result (self.new ≡ self.old ++ pairs.now) }
        ensures err { OnErr result (self.new ≡ self.old) }
    {
        match &mut self.front {
            Front::Nothing => {
                let mut blocks = Vec::new(alloc);
                put_behind(alloc, &mut blocks, 0, pairs)?;
                self.front = Front::Of {
                    len: pairs.len() as u32,
                    blocks: Arc::new(alloc, blocks)?,
                };
            }
            Front::Of { len, blocks } => {
                put_behind_shared(alloc, blocks, *len as usize, pairs)?;
                *len += pairs.len() as u32;
            }
        }
        Ok(())
    }

    /// Puts pairs inside the others: in place where the last block has no other owner and has room, and else in a block of
    /// their own.
    ///
    /// # Errors
    ///
    /// `AllocError` where allocation fails for them, and where 2 to the 32nd would come together. Nothing is then changed.
    pub(crate) fn add(&mut self, alloc: Global, pairs: &[ContextPair]) -> Result<(), AllocError>
        requires { length pairs.now ≤ 2048 }
        ensures ok { OnOk result (self.new ≡ self.old ++ pairs.now) }
        ensures err { OnErr result (self.new ≡ self.old) }
    {
        let len = self.len();
        let all = len.checked_add(pairs.len()).ok_or(AllocError)?;
        u32::try_from(all).map_err(|_| AllocError)?;
        let room = BLOCK - len % BLOCK;
        if pairs.len() <= room {
            return self.add_to_block(alloc, pairs);
        }
        self.add_to_block(alloc, &pairs[..room])?;
        let added = self.add_to_block(alloc, &pairs[room..]);
        if added.is_err() {
            self.shorten(len);
        }
        added
    }

    /// The same pairs, which does not allocate.
    ///
    /// # Errors
    ///
    /// `AllocError` where the blocks have as many owners as can be counted.
    pub(crate) fn copy(&self) -> Result<SharedPairs, AllocError>
        ensures same { IfOk result (λ copy. copy ≡ self.now) }
        ensures free { self.now ≡ [] → IsOk result }
    {
        match &self.front {
            Front::Of { len, blocks } if *len > 0 => Ok(SharedPairs {
                front: Front::Of {
                    len: *len,
                    blocks: Arc::try_clone(blocks)?,
                },
            }),
            _ => Ok(SharedPairs::new()),
        }
    }
}
