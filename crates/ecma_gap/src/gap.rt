//! Gaps: what comes before a token.
ghost use Rattle.std.specs.Prelude.{◌≡◌, [], length, map, is_some, if◌then◌else◌, IfOk, IsOk, OnErr, OnOk};
ghost use Rattle.ecma_place.specs.Cursor.{rest, place, passed};
ghost use Rattle.ecma_grammar.specs.Comments.{comments_at};
ghost use Rattle.ecma_grammar.specs.Found.{fault_view};
ghost use Rattle.ecma_grammar.specs.Gaps as gaps;
ghost use Rattle.ecma_grammar.specs.Pieces.{spelled};
ghost use Rattle.ecma_gap.specs.GapRecords.{gap_view, found_with, nothing_read, IsEmpty};

use crate::element::{read_element, stands_html_opening};
use crate::marker::stands_conflict;
use crate::so_far::GapSoFar;
use crate::white_space::skip_white_space;
use ecma_grammar::found::Blame;
use ecma_grammar::gap_mode::GapMode;
use ecma_place::{Comment, StringInput};
use ecma_token::Error;
use std::alloc::{AllocError, Global};

/// What comes before a token.
#[derive(Drop)]
pub struct Gap<'a> {
    /// Whether no token came before, or there is a line terminator in the gap.
    pub line_break: bool,
    /// The comments, and whether each is for the next token.
    pub comments: Vec<(Comment<'a>, bool)>,
    /// What is wrong, in the order of the elements.
    pub faults: Vec<(Blame, Error<'a>)>,
}

/// Whether an HTML-like comment or a conflict marker is at the cursor. `flag` says whether `-->` and markers may.
fn stands_special(input: &StringInput, type_mode: bool, flag: bool) -> bool
    ensures { result ≡ is_some (gaps.special_element type_mode flag (rest input.now)) }
{
    stands_html_opening(input, type_mode)
        || (flag && (input.is_str("-->") || stands_conflict(input, type_mode)))
}

/// Whether there is a gap at all: none comes before the text of a template, nor, where space is kept, before what is
/// neither an HTML-like comment nor a marker.
fn may_stand(input: &StringInput, mode: &GapMode) -> bool
    ensures { gaps.gap mode.now (rest input.now) ≡ (if result then gaps.elements mode.now (rest input.now) else []) }
{
    !mode.template && (!mode.keeps_space || stands_special(input, mode.type_mode, mode.first))
}

/// Reads the elements at the cursor, as many as there are.
fn read_elements<'a>(
    alloc: Global,
    input: &mut StringInput<'a>,
    mode: &GapMode,
) -> Result<Gap<'a>, AllocError>
    ensures gap { IfOk result (λ gap. gap_view gap ≡
        found_with mode.now (place input.old) (rest input.old) (gaps.elements mode.now (rest input.old)) (nothing_read mode.now.first)) }
    ensures moved { OnOk result (input.new ≡
        passed (length (spelled (gaps.gap_cutter mode.now) (gaps.elements mode.now (rest input.old)))) input.old) }
    ensures free { IsEmpty (found_with mode.now (place input.old) (rest input.old) (gaps.elements mode.now (rest input.old))
        (nothing_read mode.now.first)) → IsOk result }
{
    let mut so_far = GapSoFar::new(alloc, mode.first);
    let mut more = true;
    'elements: while more {
        so_far.line_break |= skip_white_space(input);
        more = read_element(alloc, input, mode, &mut so_far)?;
    }
    so_far.into_gap(alloc, input.cur_pos())
}

/// Reads what comes before the next token (ECMA-262 WhiteSpace, LineTerminator and Comment, 12.2 to 12.4, and the
/// HTML-like comments of Annex B.1.1). Conflict markers, and which spans faults have, are our own choice.
///
/// The cursor is then behind the gap. A gap without faults and collected comments does not allocate.
///
/// # Errors
///
/// `AllocError` where allocation fails for a fault or a comment; the cursor is then where it was.
pub fn scan_gap<'a>(
    alloc: Global,
    input: &mut StringInput<'a>,
    mode: &GapMode,
) -> Result<Gap<'a>, AllocError>
    ensures line_break { IfOk result (λ gap. gap.line_break ≡ gaps.has_line_break mode.now (rest input.old)) }
    ensures comments { IfOk result (λ gap. gap.comments.items ≡ comments_at (place input.old) mode.now (rest input.old)) }
    ensures faults { IfOk result (λ gap. map fault_view gap.faults.items ≡
        gaps.gap_faults_at (place input.old) mode.now (rest input.old)) }
    ensures moved { OnOk result
        (input.new ≡ passed (length (gaps.gap_spelling mode.now (rest input.old))) input.old) }
    ensures free { comments_at (place input.old) mode.now (rest input.old) ≡ []
        → gaps.gap_faults_at (place input.old) mode.now (rest input.old) ≡ [] → IsOk result }
    ensures same { OnErr result (input.new ≡ input.old) }
{
    if !may_stand(input, mode) {
        return Ok(Gap {
            line_break: mode.first,
            comments: Vec::new(alloc),
            faults: Vec::new(alloc),
        });
    }
    let before = input.clone()?;
    let gap = read_elements(alloc, input, mode);
    if gap.is_err() {
        *input = before;
    }
    gap
}
