//! The elements of a gap, one at a time.
ghost use Rattle.std.specs.Prelude.{◌≡◌, ◌≤◌, ◌<◌, ◌+◌, ◌==◌, ◌&&◌, not, if◌then◌else◌, true, false, drop, length, replicate, is_some, IfOk, IsOk, OnOk, encode_utf8_all, codes};
ghost use Rattle.ecma_place.specs.Atom.{borrowed_atom};
ghost use Rattle.ecma_place.specs.Character.{is_white_space, is_line_terminator};
ghost use Rattle.ecma_place.specs.Cursor.{rest, place, passed};
ghost use Rattle.ecma_place.specs.declared.comment.CommentKind.TheVariants.{Line};
ghost use Rattle.ecma_grammar.specs.Bars.{common_element};
ghost use Rattle.ecma_grammar.specs.Comments.{marker_margin};
ghost use Rattle.ecma_grammar.specs.Found.{span_of};
ghost use Rattle.ecma_grammar.specs.Fronts.{begins_with, line, next_is, next_passes};
ghost use Rattle.ecma_grammar.specs.Gaps.{LineComment, HtmlOpening, HtmlClosing, Marker, block_of, comment_body, element, element_text, marker, special_element};
ghost use Rattle.ecma_gap.specs.GapRecords.{gap_so_far, with_comment, with_element, with_next, next_text, AddsNothing, NextAddsNothing};

use crate::comment::read_body;
use crate::marker::stands_marker;
use crate::so_far::GapSoFar;
use ecma_grammar::found::Blame;
use ecma_grammar::gap_mode::GapMode;
use ecma_grammar::line::read_line;
use ecma_place::{Atom, BytePos, Comment, CommentKind, Span, StringInput};
use ecma_token::SyntaxError;
use std::alloc::{AllocError, Global};

/// Moves behind `count` characters, which are there.
#[tactic(auto, using(crate::proofs::ElementLemmas::passing))]
pub(crate) fn pass(input: &mut StringInput, count: u32)
    requires { count ≤ length (rest input.old) }
    ensures { input.new ≡ passed count input.old }
{
    for _passed in 0..count {
        input.bump();
    }
}

/// Reads the line at the cursor as the text of a line comment that starts at `start`.
pub(crate) fn read_comment_line<'a>(
    input: &mut StringInput<'a>,
    mode: &GapMode,
    so_far: &mut GapSoFar<'a>,
    start: BytePos,
) -> Result<(), AllocError>
    requires { start.0 ≤ place input.old }
    ensures so_far { OnOk result (gap_so_far so_far.new ≡ with_comment mode.now (rest input.new)
        (record { kind = Line; span = span_of start.0 (place input.new); text = borrowed_atom (encode_utf8_all (line (rest input.old))) })
        (gap_so_far so_far.old)) }
    ensures moved { input.new ≡ passed (length (line (rest input.old))) input.old }
    ensures free { mode.now.collect ≡ false → IsOk result }
{
    let text = read_line(input);
    let span = Span::new(start, input.cur_pos());
    so_far.add_comment(
        mode,
        input,
        Comment {
            kind: CommentKind::Line,
            span,
            text: Atom::from(text),
        },
    )
}

/// Reads the line comment at the cursor (ECMA-262 SingleLineComment, 12.4).
fn read_line_comment<'a>(
    input: &mut StringInput<'a>,
    mode: &GapMode,
    so_far: &mut GapSoFar<'a>,
) -> Result<(), AllocError>
    requires { begins_with (codes "//") (rest input.old) ≡ true }
    ensures so_far { OnOk result (gap_so_far so_far.new ≡ with_element mode.now (place input.old) (rest input.old)
        (LineComment (line (drop 2 (rest input.old)))) (gap_so_far so_far.old)) }
    ensures moved { input.new ≡ passed (length (element_text (LineComment (line (drop 2 (rest input.old)))))) input.old }
    ensures free { AddsNothing mode.now (place input.old) (rest input.old) (gap_so_far so_far.old)
        (LineComment (line (drop 2 (rest input.old)))) → IsOk result }
{
    let start = input.cur_pos();
    pass(input, 2);
    read_comment_line(input, mode, so_far, start)
}

/// Reads the block comment at the cursor (ECMA-262 MultiLineComment, 12.4), or one that nothing ends.
fn read_block_comment<'a>(
    alloc: Global,
    input: &mut StringInput<'a>,
    mode: &GapMode,
    so_far: &mut GapSoFar<'a>,
) -> Result<(), AllocError>
    requires { begins_with (codes "/*") (rest input.old) ≡ true }
    ensures so_far { OnOk result (gap_so_far so_far.new ≡ with_element mode.now (place input.old) (rest input.old)
        (block_of (comment_body (drop 2 (rest input.old))) (drop 2 (rest input.old))) (gap_so_far so_far.old)) }
    ensures moved { OnOk result (input.new ≡
        passed (length (element_text (block_of (comment_body (drop 2 (rest input.old))) (drop 2 (rest input.old))))) input.old) }
    ensures free { AddsNothing mode.now (place input.old) (rest input.old) (gap_so_far so_far.old)
        (block_of (comment_body (drop 2 (rest input.old))) (drop 2 (rest input.old))) → IsOk result }
{
    let start = input.cur_pos();
    pass(input, 2);
    let (text, terminator) = read_body(input);
    if input.is_str("*/") {
        pass(input, 2);
        let span = Span::new(start, input.cur_pos());
        so_far.add_comment(
            mode,
            input,
            Comment {
                kind: CommentKind::Block,
                span,
                text: Atom::from(text),
            },
        )?;
    } else {
        let span = Span::new(start, input.cur_pos());
        so_far.add_fault(
            alloc,
            Blame::Always,
            span,
            SyntaxError::UnterminatedBlockComment,
        )?;
    }
    so_far.line_break |= terminator;
    Ok(())
}

/// Reads the comment at the cursor, if there is `//` or `/*`.
pub(crate) fn read_comment<'a>(
    alloc: Global,
    input: &mut StringInput<'a>,
    mode: &GapMode,
    so_far: &mut GapSoFar<'a>,
) -> Result<bool, AllocError>
    requires { next_passes is_white_space (rest input.old) ≡ false }
    ensures more { IfOk result (λ more. more ≡ is_some (common_element (rest input.old))) }
    ensures so_far { OnOk result (gap_so_far so_far.new ≡ with_next mode.now (place input.old) (rest input.old)
        (common_element (rest input.old)) (gap_so_far so_far.old)) }
    ensures moved { OnOk result (input.new ≡ passed (length (next_text (common_element (rest input.old)))) input.old) }
    ensures free { NextAddsNothing mode.now (place input.old) (rest input.old) (gap_so_far so_far.old)
        (common_element (rest input.old)) → IsOk result }
{
    if input.is_str("//") {
        read_line_comment(input, mode, so_far)?;
        Ok(true)
    } else if input.is_str("/*") {
        read_block_comment(alloc, input, mode, so_far)?;
        Ok(true)
    } else {
        Ok(false)
    }
}

/// Reads the HTML-like comment at the cursor that begins with `<!--` (ECMA-262, Annex B.1.1).
fn read_html_opening<'a>(
    alloc: Global,
    input: &mut StringInput<'a>,
    mode: &GapMode,
    so_far: &mut GapSoFar<'a>,
) -> Result<(), AllocError>
    requires { begins_with (codes "<!--") (rest input.old) ≡ true }
    ensures so_far { OnOk result (gap_so_far so_far.new ≡ with_element mode.now (place input.old) (rest input.old)
        (HtmlOpening (line (drop 4 (rest input.old)))) (gap_so_far so_far.old)) }
    ensures moved { OnOk result (input.new ≡ passed (length (element_text (HtmlOpening (line (drop 4 (rest input.old)))))) input.old) }
    ensures free { AddsNothing mode.now (place input.old) (rest input.old) (gap_so_far so_far.old)
        (HtmlOpening (line (drop 4 (rest input.old)))) → IsOk result }
{
    let start = input.cur_pos();
    so_far.open_at(alloc, start, Some(start))?;
    pass(input, 1);
    let comment = input.cur_pos();
    pass(input, 3);
    read_comment_line(input, mode, so_far, comment)
}

/// Reads the HTML-like comment at the cursor that begins with `-->` (ECMA-262, Annex B.1.1).
fn read_html_closing<'a>(
    alloc: Global,
    input: &mut StringInput<'a>,
    mode: &GapMode,
    so_far: &mut GapSoFar<'a>,
) -> Result<(), AllocError>
    requires { begins_with (codes "-->") (rest input.old) ≡ true }
    ensures so_far { OnOk result (gap_so_far so_far.new ≡ with_element mode.now (place input.old) (rest input.old)
        (HtmlClosing (line (drop 3 (rest input.old)))) (gap_so_far so_far.old)) }
    ensures moved { OnOk result (input.new ≡ passed (length (element_text (HtmlClosing (line (drop 3 (rest input.old)))))) input.old) }
    ensures free { AddsNothing mode.now (place input.old) (rest input.old) (gap_so_far so_far.old)
        (HtmlClosing (line (drop 3 (rest input.old)))) → IsOk result }
{
    let start = input.cur_pos();
    so_far.open_at(alloc, start, None)?;
    pass(input, 3);
    let behind = input.cur_pos();
    let span = Span::new(start, behind);
    so_far.add_fault(
        alloc,
        Blame::Module,
        span,
        SyntaxError::LegacyCommentInModule,
    )?;
    read_comment_line(input, mode, so_far, behind)
}

/// How many characters of a marker come before its comment.
fn marker_margin(first: char) -> u32
    ensures { result ≡ marker_margin first }
{
    if first == '=' || first == '>' { 3 } else { 2 }
}

/// How many characters of a marker's line come before its comment's text.
fn space_before_text(first: char) -> u32
    ensures { result ≡ (if first == 62 then 1 else 0) }
{
    if first == '>' { 1 } else { 0 }
}

/// Reads the marker at the cursor, which is seven times this ASCII character, and before a space where it is `>`. Answers
/// where the seven characters are.
pub(crate) fn read_marker<'a>(
    alloc: Global,
    input: &mut StringInput<'a>,
    mode: &GapMode,
    so_far: &mut GapSoFar<'a>,
    first: char,
) -> Result<Span, AllocError>
    requires signs { begins_with (replicate 7 first) (rest input.old) ≡ true }
    requires ascii { first < 128 }
    requires plain { is_line_terminator first ≡ false }
    requires space { first ≡ 62 → next_is 32 (drop 7 (rest input.old)) ≡ true }
    ensures span { IfOk result (λ span. span ≡ span_of (place input.old) (place input.old + 7)) }
    ensures so_far { OnOk result (gap_so_far so_far.new ≡ with_element mode.now (place input.old) (rest input.old)
        (Marker first (line (drop 7 (rest input.old)))) (gap_so_far so_far.old)) }
    ensures moved { OnOk result (input.new ≡ passed (length (element_text (Marker first (line (drop 7 (rest input.old)))))) input.old) }
{
    let start = input.cur_pos();
    so_far.open_at(alloc, start, None)?;
    let margin = marker_margin(first);
    pass(input, margin);
    let comment = input.cur_pos();
    pass(input, 7 - margin);
    let span = Span::new(start, input.cur_pos());
    so_far.add_fault(alloc, Blame::Always, span, SyntaxError::TS1185)?;
    pass(input, space_before_text(first));
    read_comment_line(input, mode, so_far, comment)?;
    Ok(span)
}

/// Reads the conflict marker at the cursor, if there is one.
fn read_conflict<'a>(
    alloc: Global,
    input: &mut StringInput<'a>,
    mode: &GapMode,
    so_far: &mut GapSoFar<'a>,
) -> Result<bool, AllocError>
    ensures more { IfOk result (λ more. more ≡ is_some (marker mode.now.type_mode (rest input.old))) }
    ensures so_far { OnOk result (gap_so_far so_far.new ≡ with_next mode.now (place input.old) (rest input.old)
        (marker mode.now.type_mode (rest input.old)) (gap_so_far so_far.old)) }
    ensures moved { OnOk result (input.new ≡ passed (length (next_text (marker mode.now.type_mode (rest input.old)))) input.old) }
    ensures free { NextAddsNothing mode.now (place input.old) (rest input.old) (gap_so_far so_far.old)
        (marker mode.now.type_mode (rest input.old)) → IsOk result }
{
    match input.cur() {
        None => Ok(false),
        Some(first) => {
            if stands_marker(input, mode.type_mode, first) {
                read_marker(alloc, input, mode, so_far, first)?;
                Ok(true)
            } else {
                Ok(false)
            }
        }
    }
}

/// Whether an HTML-like comment that begins with `<!--` is at the cursor; among types none is.
pub(crate) fn stands_html_opening(input: &StringInput, type_mode: bool) -> bool
    ensures { result ≡ (begins_with (codes "<!--") (rest input.now) && not type_mode) }
{
    !type_mode && input.is_str("<!--")
}

/// Reads the HTML-like comment or the conflict marker at the cursor, if there is one. `-->` and markers do so only
/// where no token came before, or a line terminator was read.
fn read_special<'a>(
    alloc: Global,
    input: &mut StringInput<'a>,
    mode: &GapMode,
    so_far: &mut GapSoFar<'a>,
) -> Result<bool, AllocError>
    ensures more { IfOk result (λ more. more ≡
        is_some (special_element mode.now.type_mode (gap_so_far so_far.old).flag (rest input.old))) }
    ensures so_far { OnOk result (gap_so_far so_far.new ≡ with_next mode.now (place input.old) (rest input.old)
        (special_element mode.now.type_mode (gap_so_far so_far.old).flag (rest input.old)) (gap_so_far so_far.old)) }
    ensures moved { OnOk result (input.new ≡
        passed (length (next_text (special_element mode.now.type_mode (gap_so_far so_far.old).flag (rest input.old)))) input.old) }
    ensures free { NextAddsNothing mode.now (place input.old) (rest input.old) (gap_so_far so_far.old)
        (special_element mode.now.type_mode (gap_so_far so_far.old).flag (rest input.old)) → IsOk result }
{
    if stands_html_opening(input, mode.type_mode) {
        read_html_opening(alloc, input, mode, so_far)?;
        Ok(true)
    } else if !so_far.line_break {
        Ok(false)
    } else if input.is_str("-->") {
        read_html_closing(alloc, input, mode, so_far)?;
        Ok(true)
    } else {
        read_conflict(alloc, input, mode, so_far)
    }
}

/// Reads the element at the cursor, if there is one. It is not white space, and its first byte says which it is.
pub(crate) fn read_element<'a>(
    alloc: Global,
    input: &mut StringInput<'a>,
    mode: &GapMode,
    so_far: &mut GapSoFar<'a>,
) -> Result<bool, AllocError>
    requires { next_passes is_white_space (rest input.old) ≡ false }
    ensures more { IfOk result (λ more. more ≡ is_some (element mode.now (gap_so_far so_far.old).flag (rest input.old))) }
    ensures so_far { OnOk result (gap_so_far so_far.new ≡ with_next mode.now (place input.old) (rest input.old)
        (element mode.now (gap_so_far so_far.old).flag (rest input.old)) (gap_so_far so_far.old)) }
    ensures moved { OnOk result (input.new ≡
        passed (length (next_text (element mode.now (gap_so_far so_far.old).flag (rest input.old)))) input.old) }
    ensures free { NextAddsNothing mode.now (place input.old) (rest input.old) (gap_so_far so_far.old)
        (element mode.now (gap_so_far so_far.old).flag (rest input.old)) → IsOk result }
{
    match input.cur_as_ascii() {
        Some(b'/') => read_comment(alloc, input, mode, so_far),
        Some(b'<' | b'-' | b'=' | b'>') => read_special(alloc, input, mode, so_far),
        _ => Ok(false),
    }
}
