//! A text as a terminal shows it, with its errors.
ghost use Rattle.std.specs.Prelude.{◌≡◌, ◌∷◌, ◌++◌, ◌<◌, ◌^◌, [], length, map, IfOk};
ghost use Rattle.std.specs.Str.{chars};
ghost use Rattle.ecma_classes.specs.Classes.{begin};
ghost use Rattle.ecma_faults.specs.Faults.{view};
ghost use Rattle.ecma_looks.specs.Shown.{IsShown};
ghost use Rattle.ecma_pieces.specs.Covered.{MayBeCovered};
ghost use Rattle.ecma_show.specs.Painted.{shown};
ghost use Rattle.ecma_show.specs.Unshown.{unshown};

use crate::marks::marks_of;
use crate::parts::parts_of;
use ecma_classes::classes;
use ecma_faults::Found;
use ecma_show::show;
use ecma_span::BytePos;
use ecma_state::{BufferedComment, Kept};
use ecma_styles::token_classes;
use std::alloc::{AllocError, Global};

/// A text for a terminal ([`show`](ecma_show::show)): its tokens and comments in the colours of their classes, where `colours` says
/// so, and each of these errors below its line. The text starts at the place 0. Our own.
///
/// The caller knows that pieces can cover the text with these tokens and comments, as with what one reading keeps and collects
/// of it, and that it has fewer than 2^32 bytes.
///
/// # Errors
///
/// `AllocError` where allocation fails.
pub fn show_text(
    alloc: Global,
    text: &str,
    kept: &[Kept],
    comments: &[BufferedComment],
    found: &[Found],
    colours: bool,
) -> Result<Vec<u8>, AllocError>
    requires fits { length text.now < 2 ^ 32 }
    requires covered { MayBeCovered (begin 0 (chars text.now)) kept.now comments.now }
    ensures same { IfOk result (λ lines. IsShown text.now kept.now comments.now (map view found.now) colours lines.items) }
    // Who takes away what is no text has the text.
    ensures back { IfOk result (λ lines. unshown lines.items ≡ shown text.now ++ 10 ∷ []) }
{
    let pieces = classes(alloc, text, BytePos(0), kept, comments)?;
    let styles = token_classes(alloc, kept)?;
    let parts = parts_of(alloc, &styles, &pieces)?;
    let marks = marks_of(alloc, text, found)?;
    let lines = show(alloc, text, &parts, &marks, colours)?;
    Ok(lines)
}
