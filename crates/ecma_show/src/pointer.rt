//! A line below a line of text that points at a place and says something.
ghost use Rattle.std.specs.Prelude.{◌≡◌, ◌++◌, OnOk};
ghost use Rattle.ecma_show.specs.Painted.{goes_on};
ghost use Rattle.ecma_show.specs.Shown as shows;

use crate::colour::Colour;
use crate::frame::{Frame, push_blank};
use crate::mark::Mark;
use crate::paint::{between, push_set, push_shown, push_unset};
use ecma_stdio::push_number;
use memchr::memchr;
use std::alloc::AllocError;

/// How many bytes from the beginning of a line a place is pointed at, and below how many bytes carets stand.
const MOST: usize = 400;

/// Whether a byte goes on with a character that began before it.
fn goes_on(byte: u8) -> bool
    ensures { result ≡ goes_on byte }
{
    128 <= byte && byte < 192
}

/// Adds what stands below a byte before the place.
fn push_pad_byte(out: &mut Vec<u8>, byte: u8) -> Result<(), AllocError>
    ensures { OnOk result (out.new.items ≡ out.old.items ++ shows.pad_byte byte) }
{
    if byte == b'\t' {
        out.push(b'\t')?;
    } else if !goes_on(byte) {
        out.push(b' ')?;
    }
    Ok(())
}

/// Adds what stands below bytes before the place: a tab below each tab, else a space below each character.
fn push_pad(out: &mut Vec<u8>, bytes: &[u8]) -> Result<(), AllocError>
    ensures { OnOk result (out.new.items ≡ out.old.items ++ shows.pad bytes.now) }
{
    for byte in bytes {
        push_pad_byte(out, *byte)?;
    }
    Ok(())
}

/// Adds the caret below a byte of the span.
fn push_caret_byte(out: &mut Vec<u8>, byte: u8) -> Result<(), AllocError>
    ensures { OnOk result (out.new.items ≡ out.old.items ++ shows.caret_byte byte) }
{
    if !goes_on(byte) {
        out.push(b'^')?;
    }
    Ok(())
}

/// The bytes before the first line feed.
fn line_part(bytes: &[u8]) -> &[u8]
    ensures { result.now ≡ shows.line_part bytes.now }
{
    match memchr(b'\n', bytes) {
        Some(end) => &bytes[..end],
        None => bytes,
    }
}

/// Adds a caret below the place, and below each further character of the span in its line.
fn push_carets(out: &mut Vec<u8>, bytes: &[u8]) -> Result<(), AllocError>
    ensures { OnOk result (out.new.items ≡ out.old.items ++ shows.carets bytes.now) }
{
    out.push(b'^')?;
    for byte in between(line_part(bytes), 1, MOST) {
        push_caret_byte(out, *byte)?;
    }
    Ok(())
}

/// Adds the column of a mark that is too far behind to be pointed at.
fn push_column(out: &mut Vec<u8>, column: usize) -> Result<(), AllocError>
    ensures { OnOk result (out.new.items ≡ out.old.items ++ shows.column_text column) }
{
    out.extend_from_slice(b"column ")?;
    push_number(out, column)?;
    Ok(out.push(b':')?)
}

/// Adds what points at the place of a mark, or its column.
fn push_pointer(out: &mut Vec<u8>, text: &[u8], mark: &Mark) -> Result<(), AllocError>
    ensures { OnOk result (out.new.items ≡ out.old.items ++ shows.pointer text.now mark.now) }
{
    if MOST < mark.column {
        return push_column(out, mark.column);
    }
    let place = mark.span.lo.0 as usize;
    push_pad(
        out,
        between(text, (place + 1).saturating_sub(mark.column), place),
    )?;
    push_carets(out, between(text, place, mark.span.hi.0 as usize))
}

/// Adds a byte of a message behind another one, a line feed as a space.
fn push_message_byte(out: &mut Vec<u8>, before: u8, byte: u8) -> Result<(), AllocError>
    ensures { OnOk result (out.new.items ≡ out.old.items ++ shows.message_byte before byte) }
{
    if byte == b'\n' {
        return Ok(out.push(b' ')?);
    }
    push_shown(out, before, byte)
}

/// Adds a message, in one line.
fn push_message(out: &mut Vec<u8>, message: &[u8]) -> Result<(), AllocError>
    ensures { OnOk result (out.new.items ≡ out.old.items ++ shows.message_text message.now) }
{
    let mut before = 0;
    for byte in message {
        push_message_byte(out, before, *byte)?;
        before = *byte;
    }
    Ok(())
}

/// The colour of marks, where colours are asked for.
fn mark_colour(colours: bool) -> Option<Colour>
    ensures { result ≡ shows.mark_colour colours }
{
    if colours { Some(Colour::Red) } else { None }
}

/// Adds the line of a mark of a text.
pub(crate) fn push_mark(
    out: &mut Vec<u8>,
    text: &[u8],
    frame: Frame,
    mark: &Mark,
) -> Result<(), AllocError>
    ensures { OnOk result (out.new.items ≡ out.old.items ++ shows.mark_line text.now frame mark.now) }
{
    let colour = mark_colour(frame.colours);
    push_blank(out, frame.width)?;
    push_set(out, colour)?;
    push_pointer(out, text, mark)?;
    out.push(b' ')?;
    push_message(out, mark.message.as_bytes())?;
    push_unset(out, colour)?;
    Ok(out.push(b'\n')?)
}
