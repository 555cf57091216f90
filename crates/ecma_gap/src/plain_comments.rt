//! Comments of which none is collected, where they begin a gap with nothing to report but the flag: our own, for
//! speed.
ghost use Rattle.std.specs.Prelude.{◌≡◌, ◌||◌, ℕ, true, false, codes, drop, length, slice_get, Some, IfNone, IfSome};
ghost use Rattle.std.specs.List.{list_any};
ghost use Rattle.ecma_place.specs.Character.{is_line_terminator, is_white_space};
ghost use Rattle.ecma_place.specs.Cursor.{passed, rest};
ghost use Rattle.ecma_grammar.specs.declared.gap_mode.GapMode.{GapMode};
ghost use Rattle.ecma_grammar.specs.Fronts.{begins_with, line, next_passes};
ghost use Rattle.ecma_gap.specs.BlankGaps.{ArePassed, PassesComment, PassesNone, PassesOpenComment, blank_text, told_of};

use crate::blank_gap::{BlankGap, told_at};
use crate::comment::{skip_body, stands_pair};
use crate::element::pass;
use crate::white_space::skip_white_space;
use ecma_grammar::line::read_line;
use ecma_place::StringInput;

/// Passes the line comment at the cursor (ECMA-262 SingleLineComment, 12.4).
fn pass_line_comment(input: &mut StringInput)
    requires slashes { begins_with (codes "//") (rest input.old) ≡ true }
    requires stands { next_passes is_white_space (rest input.old) ≡ false }
    ensures { PassesComment input.old input.new false }
{
    pass(input, 2);
    let _ = read_line(input);
}

/// Passes the block comment at the cursor (ECMA-262 MultiLineComment, 12.4), and returns whether it holds a line
/// terminator; it returns `None` where nothing ends it, and the cursor is then at the end.
fn pass_block_comment(input: &mut StringInput) -> Option<bool>
    requires opening { begins_with (codes "/*") (rest input.old) ≡ true }
    requires stands { next_passes is_white_space (rest input.old) ≡ false }
    ensures comment { IfSome result (PassesComment input.old input.new) }
    ensures open { IfNone result (PassesOpenComment input.old input.new) }
    ensures ahead { (n : ℕ) × (input.new ≡ passed n input.old) }
{
    pass(input, 2);
    let terminator = skip_body(input);
    if stands_pair(input, b'*', b'/') {
        pass(input, 2);
        Some(terminator)
    } else {
        None
    }
}

/// Passes the comment at the cursor, and returns whether it holds a line terminator. It returns `None` where there is none,
/// and where nothing ends it: the cursor is then at the end.
fn pass_comment(input: &mut StringInput) -> Option<bool>
    requires { next_passes is_white_space (rest input.old) ≡ false }
    ensures comment { IfSome result (PassesComment input.old input.new) }
    ensures none { IfNone result (PassesNone input.old input.new) }
    ensures ahead { (n : ℕ) × (input.new ≡ passed n input.old) }
{
    if stands_pair(input, b'/', b'/') {
        pass_line_comment(input);
        Some(false)
    } else if stands_pair(input, b'/', b'*') {
        pass_block_comment(input)
    } else {
        None
    }
}

/// Passes the comments at the cursor and the white space behind each, and returns what is to be reported of them, as
/// [`scan_blank_gap`](crate::scan_blank_gap) does; `flag` says whether a line terminator comes before them, or no token.
#[inline(never)]
pub(crate) fn pass_comments(input: &mut StringInput, flag: bool) -> Option<BlankGap>
    requires { next_passes is_white_space (rest input.old) ≡ false }
    ensures gap { IfSome result (λ gap. (slice_get (rest input.new) 0 ≡ Some gap.next)
        × ((mode : GapMode) → mode.collect ≡ false → ArePassed mode flag input.old input.new gap.line_break)) }
    ensures answer { result ≡ told_of (flag || list_any is_line_terminator (blank_text false (rest input.old)))
        (drop (length (blank_text false (rest input.old))) (rest input.old)) }
    ensures ahead { (n : ℕ) × (input.new ≡ passed n input.old) }
{
    let mut line_break = flag;
    'comments: while let Some(terminator) = pass_comment(input) {
        line_break |= terminator;
        line_break |= skip_white_space(input);
    }
    told_at(input, line_break)
}
