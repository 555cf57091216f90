//! Markers of bars. They are our own choice; ECMA-262 knows none.
ghost use Rattle.std.specs.Prelude.{◌≡◌, true, false, length, option_map, if◌then◌else◌, IfOk, IsOk, OnErr, OnOk};
ghost use Rattle.ecma_place.specs.Cursor.{rest, place, passed};
ghost use Rattle.ecma_grammar.specs.Bars as markers;
ghost use Rattle.ecma_grammar.specs.Bars.{common_cutter};
ghost use Rattle.ecma_grammar.specs.Pieces.{pieces, spelled};
ghost use Rattle.ecma_gap.specs.GapRecords.{bars_view, bars_found_at, found_with, gap_view, gap_so_far};

use crate::element::{read_comment, read_marker};
use crate::gap::Gap;
use crate::so_far::GapSoFar;
use crate::white_space::skip_white_space;
use ecma_grammar::gap_mode::GapMode;
use ecma_place::StringInput;
use ecma_token::{Error, SyntaxError};
use std::alloc::{AllocError, Global};

/// A marker of bars: seven bars and a space, the line, and white space, line and block comments behind it.
#[derive(Drop)]
pub struct Bars<'a> {
    /// What the marker holds, as a gap does: its comments, and its faults, of which its own error is the first.
    pub gap: Gap<'a>,
    /// Why the token of the bars is refused: `TS1185` over the bars.
    pub error: Error<'a>,
}

/// Reads the comments and the white space at the cursor, as many as there are.
fn read_comments<'a>(
    alloc: Global,
    input: &mut StringInput<'a>,
    mode: &GapMode,
    so_far: GapSoFar<'a>,
) -> Result<Gap<'a>, AllocError>
    ensures gap { IfOk result (λ gap. gap_view gap ≡
        found_with mode.now (place input.old) (rest input.old) (pieces common_cutter tt (rest input.old)) (gap_so_far so_far.entry)) }
    ensures moved { OnOk result (input.new ≡ passed (length (spelled common_cutter (pieces common_cutter tt (rest input.old)))) input.old) }
{
    let mut so_far = so_far;
    let mut more = true;
    'comments: while more {
        so_far.line_break |= skip_white_space(input);
        more = read_comment(alloc, input, mode, &mut so_far)?;
    }
    so_far.into_gap(alloc, input.cur_pos())
}

/// Reads the marker of bars at the cursor.
fn read_bars<'a>(
    alloc: Global,
    input: &mut StringInput<'a>,
    mode: &GapMode,
) -> Result<Bars<'a>, AllocError>
    requires { markers.opens_bars (rest input.old) ≡ true }
    ensures bars { IfOk result (λ bars. bars_view bars ≡
        bars_found_at (place input.old) (markers.found_bars (place input.old) mode.now (rest input.old))) }
    ensures moved { OnOk result (input.new ≡ passed (length (markers.bars_spelling (rest input.old))) input.old) }
{
    let mut so_far = GapSoFar::new(alloc, true);
    let span = read_marker(alloc, input, mode, &mut so_far, '|')?;
    let gap = read_comments(alloc, input, mode, so_far)?;
    let error = Error::new(alloc, span, SyntaxError::TS1185)?;
    Ok(Bars { gap, error })
}

/// Reads the marker of bars at the cursor, if seven bars and a space are there: with the line, and the white space, line
/// and block comments behind it. Where there is none the cursor stays, and nothing allocates.
///
/// The caller has seen that no token came before, or that a line terminator comes before the bars. So each comment is for
/// the token of the bars, but a block comment before a semicolon is not.
///
/// # Errors
///
/// `AllocError` where allocation fails for a fault, a comment or the error; the cursor is then where it
/// was.
pub fn scan_bars<'a>(
    alloc: Global,
    input: &mut StringInput<'a>,
    mode: &GapMode,
) -> Result<Option<Bars<'a>>, AllocError>
    ensures found { IfOk result (λ bars. option_map bars_view bars ≡
        option_map (bars_found_at (place input.old)) (markers.bars_at (place input.old) mode.now (rest input.old))) }
    ensures moved { OnOk result (input.new ≡
        (if markers.opens_bars (rest input.old) then passed (length (markers.bars_spelling (rest input.old))) input.old else input.old)) }
    ensures free { markers.opens_bars (rest input.old) ≡ false → IsOk result }
    ensures same { OnErr result (input.new ≡ input.old) }
{
    if !input.is_str("||||||| ") {
        return Ok(None);
    }
    let before = input.clone()?;
    let Ok(bars) = read_bars(alloc, input, mode) else {
        *input = before;
        return Err(AllocError);
    };
    Ok(Some(bars))
}
