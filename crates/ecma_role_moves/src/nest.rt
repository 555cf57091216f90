//! A stack of frames, and what they keep.
ghost use Rattle.std.specs.Prelude.{◌≡◌, ◌+◌, ◌≤◌, [], IfOk, IsOk, OnOk, length, nat_le, slice_get};
ghost use Rattle.ecma_role_moves.specs.Nest as nests;

use ecma_role_table::frame::{Around, Frame, FrameKind, Kinds};
use smallvec::SmallVec;
use std::alloc::{AllocError, Global};
use std::marker::Model;

/// What encloses the place that is read.
#[derive(Drop)]
pub struct Nest {
    /// The innermost last. As many as real code has stand in the value itself.
    frames: SmallVec<Frame, 80>,
    /// What the function around is.
    around: Around,
    /// What the method is whose name is read.
    pending: Around,
}

impl Model for Nest {
    ghost use Rattle.std.specs.Prelude.{◌-◌, reverse};
    ghost use Rattle.smallvec.specs.SmallVec.{small_vec_len};
    ghost use Rattle.ecma_role_moves.specs.Nest.{Roomy, nested};

    ghost Value = { Roomy };

    ghost view = { λ n. record { nest = nested (reverse n.frames.items) n.around n.pending; room = n.frames.capacity - small_vec_len n.frames } };
}

impl Nest {
    /// Nothing encloses the place, which does not allocate.
    pub fn new(alloc: Global, around: Around) -> Nest
        ensures { result.nest ≡ nests.nested [] around nests.no_function }
    {
        Nest {
            frames: SmallVec::new(alloc),
            around,
            pending: Around {
                is_async: false,
                is_generator: false,
            },
        }
    }

    /// Makes room for so many frames more.
    ///
    /// # Errors
    ///
    /// `AllocError` where there is no memory for them. Nothing is then changed.
    #[inline]
    pub fn reserve(&mut self, count: usize) -> Result<(), AllocError>
        ensures nest { self.new.nest ≡ self.old.nest }
        ensures room { OnOk result (count ≤ self.new.room) }
        ensures free { length self.old.nest.frames + count ≤ 80 → IsOk result }
    {
        if count <= self.frames.capacity() - self.frames.len() {
            return Ok(());
        }
        self.frames.reserve(count)
    }

    /// What the function around is.
    #[inline]
    pub fn around(&self) -> Around
        ensures { result ≡ self.now.nest.around }
    {
        self.around
    }

    /// What the method is whose name is read.
    #[inline]
    pub fn pending(&self) -> Around
        ensures { result ≡ self.now.nest.pending }
    {
        self.pending
    }

    /// How many frames there are.
    #[tactic(auto, using(std::proofs::lemmas::Grind::common_steps))]
    pub(crate) fn depth(&self) -> usize
        ensures { result ≡ length self.now.nest.frames }
    {
        self.frames.len()
    }

    /// The kind of the frame that so many are inside of, where there is one.
    #[inline]
    pub(crate) fn kind_at(&self, index: usize) -> Option<FrameKind>
        ensures { result ≡ nests.kind_at index self.now.nest }
    {
        let len = self.frames.len();
        if index < len {
            Some(self.frames[len - 1 - index].kind)
        } else {
            None
        }
    }

    /// The kind of the innermost frame, where there is one.
    #[inline]
    pub fn top(&self) -> Option<FrameKind>
        ensures { result ≡ nests.top self.now.nest }
    {
        self.kind_at(0)
    }

    /// The kind of the frame right around the innermost, where there is one.
    #[inline]
    pub fn under(&self) -> Option<FrameKind>
        ensures { result ≡ nests.under self.now.nest }
    {
        self.kind_at(1)
    }

    /// Whether the innermost frame is of these kinds.
    #[inline]
    pub(crate) fn is_over(&self, kinds: Kinds) -> bool
        ensures { result ≡ nests.over_kinds kinds (nests.top self.now.nest) }
    {
        match self.top() {
            Some(kind) => kind.is_of(kinds),
            None => false,
        }
    }

    /// The kinds of the two innermost frames around those of these kinds on top, where there are such.
    #[tactic(auto, using(crate::proofs::NestLemmas::outside_further, crate::proofs::NestLemmas::outside_at, crate::proofs::NestLemmas::outside_none))]
    pub fn outside(&self, kinds: Kinds) -> (Option<FrameKind>, Option<FrameKind>)
        ensures top { result.0 ≡ nests.kind_in (slice_get (nests.outside kinds self.now.nest.frames) 0) }
        ensures under { result.1 ≡ nests.kind_in (slice_get (nests.outside kinds self.now.nest.frames) 1) }
    {
        'frames: for index in 0..self.depth() {
            match self.kind_at(index) {
                Some(kind) => {
                    if !kind.is_of(kinds) {
                        return (Some(kind), self.kind_at(index + 1));
                    }
                }
                None => return (None, None),
            }
        }
        (None, None)
    }

    /// Whether there is room for one frame more.
    #[inline]
    pub fn has_room(&self) -> bool
        ensures { result ≡ nat_le 1 self.now.room }
    {
        1 <= self.frames.capacity() - self.frames.len()
    }

    /// One frame more.
    #[inline]
    pub fn push(&mut self, kind: FrameKind)
        requires { 1 ≤ self.old.room }
        ensures nest { self.new.nest ≡ nests.pushed kind self.old.nest }
        ensures room { self.new.room + 1 ≡ self.old.room }
    {
        let kept = if kind.gives_pending() {
            self.pending
        } else {
            self.around
        };
        self.frames.push_reserved(Frame { kind, kept });
    }

    /// The innermost frame goes, where there is one.
    #[inline]
    pub fn pop(&mut self)
        ensures nest { self.new.nest ≡ nests.popped self.old.nest }
        ensures room { self.old.room ≤ self.new.room }
    {
        if let Some(frame) = self.frames.pop() {
            if frame.kind.gives_around() {
                self.around = frame.kept;
            }
            if frame.kind.gives_pending() {
                self.pending = frame.kept;
            }
        }
    }

    /// So many frames go, or all.
    #[tactic(auto, using(crate::proofs::NestLemmas::popped_more, crate::proofs::NestLemmas::popped_none))]
    pub(crate) fn pop_times(&mut self, count: usize)
        ensures nest { self.new.nest ≡ nests.popped_times count self.old.nest }
        ensures room { self.old.room ≤ self.new.room }
    {
        'levels: for level in 0..count {
            self.pop();
        }
    }

    /// The innermost frame, where there is one, becomes one of this kind.
    pub fn turn(&mut self, kind: FrameKind)
        ensures nest { self.new.nest ≡ nests.turned kind self.old.nest }
        ensures room { self.new.room ≡ self.old.room }
    {
        let len = self.frames.len();
        if len > 0 {
            self.frames[len - 1].kind = kind;
        }
    }

    /// The innermost frames go as long as they are of these kinds.
    #[tactic(auto, using(crate::proofs::NestLemmas::dropped_popped, crate::proofs::NestLemmas::dropped_none, crate::proofs::NestLemmas::popped_shorter))]
    pub fn drop_all(&mut self, kinds: Kinds)
        ensures nest { self.new.nest ≡ nests.dropped kinds self.old.nest }
        ensures room { self.old.room ≤ self.new.room }
    {
        'frames: while self.is_over(kinds) {
            self.pop();
        }
    }

    /// The function around is such a one.
    pub(crate) fn set_around(&mut self, around: Around)
        ensures nest { self.new.nest ≡ nests.within around self.old.nest }
        ensures room { self.new.room ≡ self.old.room }
    {
        self.around = around;
    }

    /// The method whose name is read is such a one.
    pub(crate) fn set_pending(&mut self, pending: Around)
        ensures nest { self.new.nest ≡ nests.pending pending self.old.nest }
        ensures room { self.new.room ≡ self.old.room }
    {
        self.pending = pending;
    }

    /// At the top, the text is a module's.
    pub(crate) fn begin_module(&mut self)
        ensures nest { self.new.nest ≡ nests.module_code self.old.nest }
        ensures room { self.new.room ≡ self.old.room }
    {
        if self.frames.is_empty() {
            self.around.is_async = true;
        }
    }

    /// The same.
    ///
    /// # Errors
    ///
    /// `AllocError` where there is no memory for the frames.
    pub fn copy(&self) -> Result<Nest, AllocError>
        ensures copy { IfOk result (λ copy. copy.nest ≡ self.now.nest) }
        ensures free { length self.now.nest.frames ≤ 80 → IsOk result }
    {
        Ok(Nest {
            frames: SmallVec::from_slice(*self.frames.allocator(), self.frames.as_slice())?,
            around: self.around,
            pending: self.pending,
        })
    }
}
