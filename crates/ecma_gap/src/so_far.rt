//! What was read of a gap so far.
ghost use Rattle.std.specs.Prelude.{◌≡◌, ◌++◌, [], false, map, OnOk, IfOk, IsOk};
ghost use Rattle.ecma_place.specs.Cursor.{rest};
ghost use Rattle.ecma_token.specs.View.{kind_view};
ghost use Rattle.ecma_grammar.specs.Found.{fault_view};
ghost use Rattle.ecma_grammar.specs.Gaps.{pending_fault};
ghost use Rattle.ecma_gap.specs.GapRecords.{gap_so_far, place_of_opening, nothing_read, with_comment, with_fault, with_opening};

use crate::for_next::is_for_next;
use crate::gap::Gap;
use ecma_grammar::found::{Blame, push_fault};
use ecma_grammar::gap_mode::GapMode;
use ecma_place::{BytePos, Comment, Span, StringInput};
use ecma_token::{Error, SyntaxError};
use std::alloc::{AllocError, Global};

/// What was read of a gap so far.
#[derive(Drop)]
pub(crate) struct GapSoFar<'a> {
    /// Whether no token came before, or a line terminator was read.
    pub(crate) line_break: bool,
    /// Where the `<!--` is whose fault is still to come.
    pub(crate) opening: Option<BytePos>,
    /// The comments, and whether each is for the next token.
    pub(crate) comments: Vec<(Comment<'a>, bool)>,
    /// What is wrong.
    pub(crate) faults: Vec<(Blame, Error<'a>)>,
}

impl<'a> GapSoFar<'a> {
    /// Nothing read.
    pub(crate) fn new(alloc: Global, line_break: bool) -> GapSoFar<'a>
        ensures { gap_so_far result ≡ nothing_read line_break }
    {
        GapSoFar {
            line_break,
            opening: None,
            comments: Vec::new(alloc),
            faults: Vec::new(alloc),
        }
    }

    /// Adds a fault.
    pub(crate) fn add_fault(
        &mut self,
        alloc: Global,
        blame: Blame,
        span: Span,
        kind: SyntaxError<'a>,
    ) -> Result<(), AllocError>
        ensures { OnOk result (gap_so_far self.new ≡
            with_fault (record { blame = blame; error = record { kind = kind_view kind.entry; span = span } }) (gap_so_far self.old)) }
    {
        push_fault(alloc, &mut self.faults, blame, span, kind)
    }

    /// Adds a comment behind which the cursor is, where comments are collected.
    pub(crate) fn add_comment(
        &mut self,
        mode: &GapMode,
        behind: &StringInput,
        comment: Comment<'a>,
    ) -> Result<(), AllocError>
        ensures so_far { OnOk result (gap_so_far self.new ≡
            with_comment mode.now (rest behind.now) comment.entry (gap_so_far self.old)) }
        ensures free { mode.now.collect ≡ false → IsOk result }
    {
        if mode.collect {
            let next = is_for_next(mode.prev, self.line_break, comment.kind, behind);
            self.comments.push((comment, next))?;
        }
        Ok(())
    }

    /// Adds the fault of the `<!--` whose fault is still to come, up to `end`, and notes where the next one is.
    pub(crate) fn open_at(
        &mut self,
        alloc: Global,
        end: BytePos,
        opening: Option<BytePos>,
    ) -> Result<(), AllocError>
        ensures so_far { OnOk result (gap_so_far self.new ≡
            with_opening end.0 (place_of_opening opening) (gap_so_far self.old)) }
        ensures free { pending_fault (gap_so_far self.old).pending end.0 ≡ [] → IsOk result }
    {
        if let Some(start) = self.opening {
            let span = Span { lo: start, hi: end };
            self.add_fault(
                alloc,
                Blame::Module,
                span,
                SyntaxError::LegacyCommentInModule,
            )?;
        }
        self.opening = opening;
        Ok(())
    }

    /// The gap, which ends at `end`.
    pub(crate) fn into_gap(mut self, alloc: Global, end: BytePos) -> Result<Gap<'a>, AllocError>
        ensures line_break { IfOk result (λ gap. gap.line_break ≡ (gap_so_far self.entry).flag) }
        ensures comments { IfOk result (λ gap. gap.comments.items ≡ (gap_so_far self.entry).comments) }
        ensures faults { IfOk result (λ gap. map fault_view gap.faults.items ≡
            (gap_so_far self.entry).faults ++ pending_fault (gap_so_far self.entry).pending end.0) }
        ensures free { pending_fault (gap_so_far self.entry).pending end.0 ≡ [] → IsOk result }
    {
        self.open_at(alloc, end, None)?;
        let GapSoFar {
            line_break,
            opening: _,
            comments,
            faults,
        } = self;
        Ok(Gap {
            line_break,
            comments,
            faults,
        })
    }
}
