//! Gaps with nothing to report but the flag, before most tokens: our own, for speed.
ghost use Rattle.std.specs.Prelude.{◌≡◌, ◌<◌, ◌||◌, ℕ, true, Some, drop, length, slice_get, IfSome};
ghost use Rattle.std.specs.List.{list_any, prefix_len};
ghost use Rattle.ecma_place.specs.Character.{is_line_terminator, is_white_space};
ghost use Rattle.ecma_place.specs.Cursor.{passed, rest};
ghost use Rattle.ecma_grammar.specs.Fronts.{next_is};
ghost use Rattle.ecma_gap.specs.BlankGaps.{IsTold, blank_text, may_begin, told_of};

use crate::plain_comments::pass_comments;
use crate::white_space::skip_white_space;
use ecma_place::StringInput;

/// A gap with nothing to report but the flag.
#[derive(Debug, Clone, Copy, PartialEq, Eq)]
pub struct BlankGap {
    /// Whether no token came before, or there is a line terminator in the gap.
    pub line_break: bool,
    /// The character behind it, which is ASCII.
    pub next: u8,
}

/// Whether behind the character at the cursor, which is ASCII, one of two follows that are ASCII, too.
#[inline(always)]
fn goes_on(input: &StringInput, one: u8, other: u8) -> bool
    requires first { IfSome (slice_get (rest input.now) 0) (λ c. c < 128) }
    requires ascii { (one < 128) × (other < 128) }
    ensures { result ≡ (next_is one (drop 1 (rest input.now)) || next_is other (drop 1 (rest input.now))) }
{
    match input.byte_ahead(1) {
        Some(b) => b == one || b == other,
        None => false,
    }
}

/// Whether a comment or a conflict marker may begin at the cursor, where this character is, with this flag.
#[inline(always)]
fn may_begin(input: &StringInput, flag: bool, b: u8) -> bool
    requires { slice_get (rest input.now) 0 ≡ Some b }
    ensures { result ≡ may_begin flag (rest input.now) }
{
    // No letter begins one.
    if b > b'>' {
        return false;
    }
    match b {
        // A division and a comparison go on otherwise.
        b'/' => goes_on(input, b'/', b'*'),
        b'<' => goes_on(input, b'!', b'<'),
        b'-' | b'=' | b'>' => flag,
        _ => false,
    }
}

/// What is returned at a cursor behind white space: `None` where another element may begin there, at the end, and before a
/// character that isn't ASCII.
#[inline(always)]
pub(crate) fn told_at(input: &StringInput, line_break: bool) -> Option<BlankGap>
    ensures { result ≡ told_of line_break (rest input.now) }
{
    match input.cur_as_ascii() {
        Some(next) if !may_begin(input, line_break, next) => Some(BlankGap { line_break, next }),
        _ => None,
    }
}

/// Passes the gap at the cursor, where there is nothing to report of it but the flag, and returns that; `first` says that no
/// token came before, `collect` that comments are collected. [`scan_gap`](crate::scan_gap) finds the same where white space
/// may be passed.
///
/// Such a gap is white space, and where comments are not collected, line comments and closed block comments. Where another
/// element may come behind it, at the end, and before a character that isn't ASCII, it returns `None`, and the cursor
/// is somewhere ahead; where comments are collected, behind the white space. Nothing is allocated.
#[inline(always)]
pub fn scan_blank_gap(input: &mut StringInput, first: bool, collect: bool) -> Option<BlankGap>
    ensures gap { IfSome result (IsTold first collect input.old input.new) }
    ensures answer { result ≡ told_of (first || list_any is_line_terminator (blank_text collect (rest input.old)))
        (drop (length (blank_text collect (rest input.old))) (rest input.old)) }
    ensures moved { collect ≡ true → input.new ≡ passed (prefix_len is_white_space (rest input.old)) input.old }
    ensures ahead { (n : ℕ) × (input.new ≡ passed n input.old) }
{
    let terminator = skip_white_space(input);
    let line_break = first | terminator;
    let told = told_at(input, line_break);
    if told.is_none() && !collect && input.is_byte(b'/') {
        return pass_comments(input, line_break);
    }
    told
}
