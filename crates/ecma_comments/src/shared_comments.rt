//! Comments in order, most of which a list and its copies share.
ghost use Rattle.std.specs.Prelude.{◌≡◌, ◌+◌, ◌-◌, ◌<◌, ◌≤◌, ◌++◌, ◌∷◌, [], drop, length, take, IsTrue, IfOk, IfSome, IsOk, IsSome, OnOk, OnErr, vec_len, vec_capacity};
ghost use Rattle.std.specs.List.{All};
ghost use Rattle.ecma_comments.specs.SharedComments.{CutsBlock, IsBorrowed, of_blocks};

use crate::comments_buffer::BufferedComment;
use std::alloc::{AllocError, Global};
use std::marker::Model;
use std::mem;
use std::sync::Arc;

/// How many comments make a block. A copy of a list copies fewer, and counts one owner more of each block.
const BLOCK: usize = 64;

/// Comments whose texts are borrowed. Nothing changes a block.
type Block<'a> = Arc<Vec<BufferedComment<'a>>>;

/// When the comments behind the blocks are next put into a block.
#[derive(Clone, Copy)]
enum NextBlock {
    /// Once there are so many.
    At(usize),
    /// Not before all are taken: one owns its text, and to take it out of a block would allocate.
    Never,
}

/// Comments in order. Those of the blocks are shared with copies of the list.
#[derive(Drop)]
pub(crate) struct SharedComments<'a> {
    blocks: Vec<Block<'a>>,
    /// How many comments the blocks have.
    in_blocks: usize,
    /// When those behind the blocks come into one; until then each copy of the list copies them.
    next_block: NextBlock,
    /// The comments behind the blocks, with room for all, so that the list can always be taken as one `Vec`.
    last: Vec<BufferedComment<'a>>,
}

impl<'a> Model for SharedComments<'a> {
    ghost use Rattle.std.specs.Prelude.{List, ◌++◌, vec_len, vec_capacity};
    ghost use Rattle.ecma_comments.specs.declared.comments_buffer.BufferedComment.{BufferedComment};
    ghost use Rattle.ecma_comments.specs.SharedComments.{AreShared, of_blocks};

    ghost Value = { List BufferedComment };

    ghost view = { λ l. of_blocks l.blocks.items ++ l.last.items };

    ghost invariant = { λ l. AreShared (of_blocks l.blocks.items) l.in_blocks (vec_len l.last) (vec_capacity l.last) };
}

/// Whether no comment owns its text.
fn all_borrowed(comments: &[BufferedComment]) -> bool
    ensures { IsTrue result → All IsBorrowed comments.now }
{
    'comments: for comment in comments {
        if !comment.comment.text.is_borrowed() {
            return false;
        }
    }
    true
}

/// Adds copies of these comments, for which there is room.
pub(crate) fn add_copies<'a>(
    to: &mut Vec<BufferedComment<'a>>,
    comments: &[BufferedComment<'a>],
) -> Result<(), AllocError>
    requires { vec_len to.old + length comments.now ≤ vec_capacity to.old }
    ensures items { OnOk result (to.new.items ≡ to.old.items ++ comments.now) }
    ensures capacity { vec_capacity to.new ≡ vec_capacity to.old }
    ensures free { All IsBorrowed comments.now → IsOk result }
{
    let alloc = *to.allocator();
    'comments: for comment in comments {
        to.push_reserved(comment.copy(alloc)?);
    }
    Ok(())
}

/// A block of these comments.
fn block_of<'a>(alloc: Global, comments: &[BufferedComment<'a>]) -> Result<Block<'a>, AllocError>
    ensures { IfOk result (λ block. block.value.items ≡ comments.now) }
{
    let mut block = Vec::with_capacity(alloc, comments.len())?;
    add_copies(&mut block, comments)?;
    Ok(Arc::new(alloc, block)?)
}

/// The same blocks, with one owner more of each.
fn same_blocks<'a>(alloc: Global, blocks: &[Block<'a>]) -> Result<Vec<Block<'a>>, AllocError>
    ensures { IfOk result (λ same. of_blocks same.items ≡ of_blocks blocks.now) }
{
    let mut same = Vec::with_capacity(alloc, blocks.len())?;
    'every: for block in blocks {
        same.push_reserved(Arc::try_clone(block)?);
    }
    Ok(same)
}

/// Adds the comments of these blocks, for which there is room.
fn add_blocks<'a>(to: &mut Vec<BufferedComment<'a>>, blocks: Vec<Block<'a>>)
    requires borrowed { All IsBorrowed (of_blocks blocks.items) }
    requires room { vec_len to.old + length (of_blocks blocks.items) ≤ vec_capacity to.old }
    ensures { to.new.items ≡ to.old.items ++ of_blocks blocks.entry.items }
{
    'every: for block in blocks {
        // The copy of a comment whose text is borrowed does not allocate.
        let _ = add_copies(to, block.as_slice());
    }
}

/// Adds copies of the comments but the first `skip`, and returns how many are still to be passed.
fn add_behind<'a>(
    to: &mut Vec<BufferedComment<'a>>,
    comments: &[BufferedComment<'a>],
    skip: usize,
) -> Result<usize, AllocError>
    ensures items { OnOk result (to.new.items ≡ to.old.items ++ drop skip comments.now) }
    ensures left { IfOk result (λ left. left ≡ skip - length comments.now) }
{
    if skip < comments.len() {
        let rest = &comments[skip..];
        to.reserve(rest.len())?;
        add_copies(to, rest)?;
    }
    Ok(skip.saturating_sub(comments.len()))
}

/// The same of the comments of these blocks.
#[tactic(auto, using(crate::proofs::SharedCommentsLemmas::drop_both))]
fn add_blocks_behind<'a>(
    to: &mut Vec<BufferedComment<'a>>,
    blocks: &[Block<'a>],
    skip: usize,
) -> Result<usize, AllocError>
    ensures items { OnOk result (to.new.items ≡ to.old.items ++ drop skip (of_blocks blocks.now)) }
    ensures left { IfOk result (λ left. left ≡ skip - length (of_blocks blocks.now)) }
{
    let mut left = skip;
    'every: for block in blocks {
        left = add_behind(to, block.as_slice(), left)?;
    }
    Ok(left)
}

/// Takes off the blocks that have none of the first `len` comments, and the block that has some of them and others: that
/// block, and how many comments are before it.
fn cut_block<'a>(
    blocks: &mut Vec<Block<'a>>,
    in_blocks: usize,
    len: usize,
) -> Option<(Block<'a>, usize)>
    requires counted { in_blocks ≡ length (of_blocks blocks.old.items) }
    requires within { len < in_blocks }
    ensures found { IsSome result }
    ensures cut { IfSome result (λ cut. CutsBlock blocks.old.items blocks.new.items cut.0 cut.1 len) }
{
    let mut before = in_blocks;
    'blocks: while let Some(block) = blocks.pop() {
        before -= block.len();
        if before <= len {
            return Some((block, before));
        }
    }
    None
}

impl<'a> SharedComments<'a> {
    /// No comments, which does not allocate.
    pub(crate) fn new(alloc: Global) -> SharedComments<'a>
        ensures { result ≡ [] }
    {
        SharedComments {
            blocks: Vec::new(alloc),
            in_blocks: 0,
            next_block: NextBlock::At(BLOCK),
            last: Vec::new(alloc),
        }
    }

    /// Puts the comments behind the blocks into a block of their own, where none owns its text. A block that is refused
    /// changes nothing that any call returns: it only leaves the comments unshared until the next full block.
    fn close_block(&mut self)
        ensures { self.new ≡ self.old }
    {
        if !all_borrowed(self.last.as_slice()) {
            self.next_block = NextBlock::Never;
            return;
        }
        let block = block_of(*self.last.allocator(), self.last.as_slice());
        if let Ok(block) = block
            && self.blocks.push(block).is_ok()
        {
            self.in_blocks += self.last.len();
            self.last.clear();
        }
        self.next_block = NextBlock::At(self.last.len() + BLOCK);
    }

    /// Closes a block where there are enough comments for one.
    fn share(&mut self)
        ensures { self.new ≡ self.old }
    {
        if let NextBlock::At(enough) = self.next_block
            && self.last.len() >= enough
        {
            self.close_block();
        }
    }

    /// Adds a comment.
    ///
    /// # Errors
    ///
    /// `AllocError` where it can't be allocated. Nothing is then changed.
    pub(crate) fn push(&mut self, comment: BufferedComment<'a>) -> Result<(), AllocError>
        ensures ok { OnOk result (self.new ≡ self.old ++ comment.entry ∷ []) }
        ensures err { OnErr result (self.new ≡ self.old) }
    {
        self.share();
        self.last.reserve(self.in_blocks + 1)?;
        self.last.push_reserved(comment);
        Ok(())
    }

    /// How many comments there are.
    pub(crate) fn len(&self) -> usize
        ensures { result ≡ length self.now }
    {
        self.in_blocks + self.last.len()
    }

    /// Keeps the first `len` comments alone, which does not allocate.
    pub(crate) fn truncate(&mut self, len: usize)
        ensures { self.new ≡ take len self.old }
    {
        if len >= self.in_blocks {
            self.last.truncate(len - self.in_blocks);
            return;
        }
        self.last.clear();
        if let Some((block, before)) = cut_block(&mut self.blocks, self.in_blocks, len) {
            // There is room for all, and the copy of a comment whose text is borrowed does not allocate.
            let _ = add_copies(&mut self.last, &block.as_slice()[..len - before]);
            self.in_blocks = before;
        }
        self.next_block = NextBlock::At(BLOCK);
    }

    /// Moves comments to the end.
    ///
    /// # Errors
    ///
    /// `AllocError` where allocation fails for them. Nothing is then changed.
    pub(crate) fn append(&mut self, others: &mut Vec<BufferedComment<'a>>) -> Result<(), AllocError>
        ensures ok { OnOk result (self.new ≡ self.old ++ others.old.items) }
        ensures err { OnErr result (self.new ≡ self.old) }
    {
        self.share();
        self.last.reserve(self.in_blocks + others.len())?;
        self.last.append(others)
    }

    /// The same comments.
    ///
    /// # Errors
    ///
    /// `AllocError` where allocation fails for them.
    pub(crate) fn copy(&self) -> Result<SharedComments<'a>, AllocError>
        ensures { IfOk result (λ copy. copy ≡ self.now) }
    {
        let alloc = *self.last.allocator();
        // With room for a block more, so that the next comments don't move the room of all.
        let more = if self.blocks.is_empty() { 0 } else { BLOCK };
        let mut last = Vec::with_capacity(alloc, self.in_blocks + self.last.len() + more)?;
        add_copies(&mut last, self.last.as_slice())?;
        Ok(SharedComments {
            blocks: same_blocks(alloc, self.blocks.as_slice())?,
            in_blocks: self.in_blocks,
            next_block: self.next_block,
            last,
        })
    }

    /// Copies of the comments but the first ones, as many as said.
    ///
    /// # Errors
    ///
    /// `AllocError` where allocation fails for them.
    #[tactic(auto, using(crate::proofs::SharedCommentsLemmas::drop_both))]
    pub(crate) fn copies_from(&self, first: usize) -> Result<Vec<BufferedComment<'a>>, AllocError>
        ensures { IfOk result (λ copies. copies.items ≡ drop first self.now) }
    {
        let mut copies = Vec::new(*self.last.allocator());
        let left = add_blocks_behind(&mut copies, self.blocks.as_slice(), first)?;
        add_behind(&mut copies, self.last.as_slice(), left)?;
        Ok(copies)
    }

    /// Takes the comments, which does not allocate.
    pub(crate) fn take(&mut self) -> Vec<BufferedComment<'a>>
        ensures taken { result.items ≡ self.old }
        ensures left { self.new ≡ [] }
    {
        let alloc = *self.last.allocator();
        let mut comments = mem::replace(&mut self.last, Vec::new(alloc));
        let blocks = mem::replace(&mut self.blocks, Vec::new(alloc));
        self.in_blocks = 0;
        self.next_block = NextBlock::At(BLOCK);
        let behind = comments.len();
        add_blocks(&mut comments, blocks);
        comments.rotate_left(behind);
        comments
    }

    /// Puts comments where there are none.
    pub(crate) fn put(&mut self, comments: Vec<BufferedComment<'a>>)
        ensures { self.new ≡ comments.entry.items }
    {
        let alloc = *self.last.allocator();
        *self = SharedComments {
            blocks: Vec::new(alloc),
            in_blocks: 0,
            next_block: NextBlock::At(BLOCK),
            last: comments,
        };
    }
}
