//! A text as it is shown in a terminal.
ghost use Rattle.std.specs.Prelude.{◌≡◌, ◌∷◌, ◌++◌, ◌<◌, ◌^◌, [], length, IfOk};
ghost use Rattle.ecma_show.specs.Painted.{joined, shown};
ghost use Rattle.ecma_show.specs.Shown.{shown_text, width_of};
ghost use Rattle.ecma_show.specs.Unshown.{unshown};

use crate::frame::Frame;
use crate::mark::Mark;
use crate::numbered::push_lines;
use crate::paint::{Part, push_parts};
use ecma_stdio::push_number;
use memchr::memchr_iter;
use std::alloc::{AllocError, Global};

/// How many columns the number of the last line has.
fn width_of(alloc: Global, text: &[u8]) -> Result<usize, AllocError>
    requires { length text.now < 2 ^ 32 }
    ensures { IfOk result (λ width. width ≡ width_of text.now) }
{
    let mut digits = Vec::new(alloc);
    push_number(
        &mut digits,
        memchr_iter(b'\n', text).count().saturating_add(1),
    )?;
    Ok(digits.len())
}

/// A text for a terminal: each line behind its number, its parts in their colours where `colours` says so, and below a line
/// that of each mark which is of it. A control character is shown as its picture, but for tabs and line feeds, and as U+FFFD
/// from U+0080 to U+009F, of which there are no pictures. The text ends with a line, which is empty where the text ends with a
/// line feed. Our own.
///
/// The parts are the text, one behind the other; else what they have of it is shown. Marks are written in their order, each
/// below its line where none before it is of a later one; those of lines that the text has not are below the last. The caller
/// knows that the text has fewer than 2^32 bytes.
///
/// # Errors
///
/// `AllocError` where allocation fails.
pub fn show(
    alloc: Global,
    text: &str,
    parts: &[Part],
    marks: &[Mark],
    colours: bool,
) -> Result<Vec<u8>, AllocError>
    requires { length text.now < 2 ^ 32 }
    ensures same { IfOk result (λ lines. lines.items ≡ shown_text text.now parts.now marks.now colours) }
    // Where the parts are the text, one behind the other, who takes away what is no text has it, each line with its end.
    ensures back { joined text.now parts.now ≡ text.now → IfOk result (λ lines. unshown lines.items ≡ shown text.now ++ 10 ∷ []) }
{
    let bytes = text.as_bytes();
    let frame = Frame {
        width: width_of(alloc, bytes)?,
        colours,
    };
    let mut painted = Vec::new(alloc);
    push_parts(&mut painted, bytes, parts, colours)?;
    let mut lines = Vec::new(alloc);
    push_lines(&mut lines, bytes, frame, marks, &painted)?;
    Ok(lines)
}
