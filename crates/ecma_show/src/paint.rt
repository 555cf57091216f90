//! The parts of a text in their colours.
ghost use Rattle.std.specs.Prelude.{◌≡◌, ◌∷◌, ◌++◌, [], false, slice_range, OnOk};
ghost use Rattle.ecma_show.specs.Colours as colours;
ghost use Rattle.ecma_show.specs.Painted as paint;

use crate::colour::{Colour, UNSET};
use ecma_span::Span;
use std::alloc::AllocError;

/// The first byte of the characters from U+0080 to U+00BF. It is written with the one behind it.
const LEAD: u8 = 0xc2;

/// A part of a text, and its colour where it has one.
#[derive(Clone, Copy, Debug, PartialEq, Eq)]
pub struct Part {
    pub span: Span,
    pub colour: Option<Colour>,
}

/// The bytes from one place to another, as far as there are any.
pub(crate) fn between(bytes: &[u8], from: usize, to: usize) -> &[u8]
    ensures { result.now ≡ slice_range bytes.now from to }
{
    let to = to.min(bytes.len());
    let from = from.min(to);
    &bytes[from..to]
}

/// Whether something else stands for a byte of a part with this colour, behind another byte.
fn is_replaced(colour: Option<Colour>, before: u8, byte: u8) -> bool
    ensures { result ≡ false → paint.painted_byte colour before byte ≡ byte ∷ [] }
{
    // Most bytes are neither control characters nor a part of one.
    if byte >= b' ' {
        return byte == 127 || byte == LEAD || before == LEAD;
    }
    byte != b'\t' && (byte != b'\n' || colour.is_some())
}

/// Adds a byte behind another one. A control character but for tabs and line feeds is added as its picture, or where there is
/// none as U+FFFD.
pub(crate) fn push_shown(out: &mut Vec<u8>, before: u8, byte: u8) -> Result<(), AllocError>
    ensures { OnOk result (out.new.items ≡ out.old.items ++ paint.shown_byte before byte) }
{
    match byte {
        b'\n' | b'\t' => Ok(out.push(byte)?),
        0..=31 => out.extend_from_slice(&[0xe2, 0x90, 0x80 + byte]),
        127 => out.extend_from_slice(b"\xe2\x90\xa1"),
        LEAD => Ok(()),
        128..=159 if before == LEAD => out.extend_from_slice(b"\xef\xbf\xbd"),
        160..=191 if before == LEAD => out.extend_from_slice(&[LEAD, byte]),
        _ => Ok(out.push(byte)?),
    }
}

/// Adds the sequence that sets a colour, where there is one.
pub(crate) fn push_set(out: &mut Vec<u8>, colour: Option<Colour>) -> Result<(), AllocError>
    ensures { OnOk result (out.new.items ≡ out.old.items ++ colours.set_any colour) }
{
    match colour {
        Some(colour) => out.extend_from_slice(colour.set()),
        None => Ok(()),
    }
}

/// Adds the sequence that ends a colour, where there is one.
pub(crate) fn push_unset(out: &mut Vec<u8>, colour: Option<Colour>) -> Result<(), AllocError>
    ensures { OnOk result (out.new.items ≡ out.old.items ++ colours.unset_any colour) }
{
    match colour {
        Some(_) => out.extend_from_slice(UNSET),
        None => Ok(()),
    }
}

/// Adds a byte of a part with this colour, behind another byte. The colour ends before a line feed and begins anew behind it.
fn push_painted(
    out: &mut Vec<u8>,
    colour: Option<Colour>,
    before: u8,
    byte: u8,
) -> Result<(), AllocError>
    ensures { OnOk result (out.new.items ≡ out.old.items ++ paint.painted_byte colour before byte) }
{
    match colour {
        Some(colour) if byte == b'\n' => {
            out.extend_from_slice(UNSET)?;
            out.push(byte)?;
            out.extend_from_slice(colour.set())
        }
        _ => push_shown(out, before, byte),
    }
}

/// Adds the bytes of a part with this colour, behind another byte. What lies between two that are replaced goes in at once.
fn push_bytes(
    out: &mut Vec<u8>,
    colour: Option<Colour>,
    before: u8,
    bytes: &[u8],
) -> Result<(), AllocError>
    ensures { OnOk result (out.new.items ≡ out.old.items ++ paint.each_behind (paint.painted_byte colour) before bytes.now) }
{
    let mut done = 0;
    let mut last = before;
    for (place, byte) in bytes.iter().enumerate() {
        if is_replaced(colour, last, *byte) {
            out.extend_from_slice(&bytes[done..place])?;
            push_painted(out, colour, last, *byte)?;
            done = place + 1;
        }
        last = *byte;
    }
    out.extend_from_slice(&bytes[done..])
}

/// Adds the bytes of a part in its colour, behind another byte.
fn push_part(
    out: &mut Vec<u8>,
    colour: Option<Colour>,
    before: u8,
    bytes: &[u8],
) -> Result<(), AllocError>
    ensures { OnOk result (out.new.items ≡ out.old.items ++ paint.painted_bytes colour before bytes.now) }
{
    push_set(out, colour)?;
    push_bytes(out, colour, before, bytes)?;
    push_unset(out, colour)
}

/// The bytes of a part of a text.
fn part_of(bytes: &[u8], part: Part) -> &[u8]
    ensures { result.now ≡ paint.part_of bytes.now part }
{
    between(bytes, part.span.lo.0 as usize, part.span.hi.0 as usize)
}

/// The colour of a part, where colours are asked for.
fn colour_of(colours: bool, part: Part) -> Option<Colour>
    ensures { result ≡ paint.colour_of colours part }
{
    if colours { part.colour } else { None }
}

/// The last of these bytes, or else the one before them.
fn last_of(before: u8, bytes: &[u8]) -> u8
    ensures { result ≡ paint.last_of before bytes.now }
{
    match bytes.last() {
        Some(last) => *last,
        None => before,
    }
}

/// Adds the parts of a text, in their colours where these are asked for.
pub(crate) fn push_parts(
    out: &mut Vec<u8>,
    bytes: &[u8],
    parts: &[Part],
    colours: bool,
) -> Result<(), AllocError>
    ensures { OnOk result (out.new.items ≡ out.old.items ++ paint.painted colours bytes.now parts.now) }
{
    let mut before = 0;
    for part in parts {
        let own = part_of(bytes, *part);
        push_part(out, colour_of(colours, *part), before, own)?;
        before = last_of(before, own);
    }
    Ok(())
}
