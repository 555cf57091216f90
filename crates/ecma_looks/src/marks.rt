//! Marks of errors.
ghost use Rattle.std.specs.Prelude.{◌≡◌, map, IfOk};
ghost use Rattle.ecma_token.specs.View.{error_view};
ghost use Rattle.ecma_faults.specs.Faults.{view};
ghost use Rattle.ecma_looks.specs.Marks as marks;

use ecma_faults::Found;
use ecma_positions::{Columns, Position};
use ecma_print::lines::Lines;
use ecma_show::Mark;
use ecma_span::Spanned;
use ecma_token::Error;
use std::alloc::{AllocError, Global};

/// The mark of an error that begins there.
fn mark_of(alloc: Global, position: Position, error: &Error) -> Result<Mark, AllocError>
    ensures { IfOk result (λ mark. marks.mark_view mark ≡ marks.mark_at position (error_view error.now)) }
{
    let message = error.kind().msg(alloc)?;
    let message = String::from_str(alloc, message.as_str())?;
    Ok(Mark {
        span: error.span(),
        line: position.line,
        column: position.column,
        message,
    })
}

/// A mark for each error of a text, in their order, with the line, the column in bytes, and the message. Our own.
///
/// # Errors
///
/// `AllocError` where allocation fails.
pub fn marks_of(alloc: Global, text: &str, found: &[Found]) -> Result<Vec<Mark>, AllocError>
    ensures { IfOk result (λ all. map marks.mark_view all.items ≡ marks.marks_seen text.now (map view found.now)) }
{
    let mut lines = Lines::new();
    let mut all = Vec::new(alloc);
    for one in found {
        let place = one.error.span().lo;
        let position = lines.position(text.as_bytes(), Columns::Bytes, place);
        all.push(mark_of(alloc, position, &one.error)?)?;
    }
    Ok(all)
}
