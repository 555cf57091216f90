//! A text with its markup.
ghost use Rattle.std.specs.Prelude.{◌≡◌, [], ◌∷◌, ◌++◌, codes, length, nat_lt, IfOk, OnOk, MatchOption};
ghost use Rattle.ecma_classes.specs.Classes.{Tile, joined};
ghost use Rattle.ecma_html.specs.Marked as marks;
ghost use Rattle.ecma_html.specs.Marked.{AreInOrder, WereAdded, marked};
ghost use Rattle.ecma_html.specs.Markup as markup;
ghost use Rattle.ecma_styles.specs.Styles.{class_name, styled};
ghost use Rattle.ecma_html.specs.Unmark.{IsClosed, shown, unmark};

use ecma_classes::Piece;
use ecma_span::{BytePos, Span};
use ecma_styles::{Class, class_of_piece, taken_behind};
use std::alloc::{AllocError, Global};

/// What is shown in the place of a byte: a reference where it would begin or end markup, or where a reader of HTML would
/// change it, and U+FFFD for NUL, which HTML can't hold. Other bytes are shown as they are.
fn replacement(byte: u8) -> Option<&'static [u8]>
    ensures { MatchOption result (markup.escaped_byte byte ≡ byte ∷ []) (λ bytes. markup.escaped_byte byte ≡ bytes.now) }
{
    // Most bytes lie behind all that are replaced.
    if byte > b'>' {
        return None;
    }
    match byte {
        b'&' => Some(b"&amp;"),
        b'<' => Some(b"&lt;"),
        b'>' => Some(b"&gt;"),
        b'\r' => Some(b"&#13;"),
        0 => Some(b"\xef\xbf\xbd"),
        _ => None,
    }
}

/// Adds the bytes, each as `replacement` has it. What lies between two bytes that are replaced goes in at once.
#[inline(always)]
pub(crate) fn push_escaped(out: &mut Vec<u8>, bytes: &[u8]) -> Result<(), AllocError>
    ensures { OnOk result (out.new.items ≡ out.old.items ++ markup.escaped bytes.now) }
{
    let mut done = 0;
    for (place, byte) in bytes.iter().enumerate() {
        if let Some(shown) = replacement(*byte) {
            out.extend_from_slice(&bytes[done..place])?;
            out.extend_from_slice(shown)?;
            done = place + 1;
        }
    }
    out.extend_from_slice(&bytes[done..])
}

/// The tag that opens a span of this class.
fn open_tag(class: Class) -> &'static [u8]
    ensures { result.now ≡ codes "<span class=\"" ++ (class_name class ++ codes "\">") }
{
    match class {
        Class::Keyword => b"<span class=\"keyword\">",
        Class::Literal => b"<span class=\"literal\">",
        Class::Name => b"<span class=\"name\">",
        Class::Property => b"<span class=\"property\">",
        Class::Function => b"<span class=\"function\">",
        Class::ClassName => b"<span class=\"class\">",
        Class::TypeName => b"<span class=\"type\">",
        Class::Decorator => b"<span class=\"decorator\">",
        Class::Meta => b"<span class=\"meta\">",
        Class::BuiltIn => b"<span class=\"builtin\">",
        Class::Text => b"<span class=\"string\">",
        Class::Template => b"<span class=\"template\">",
        Class::Number => b"<span class=\"number\">",
        Class::Expression => b"<span class=\"regexp\">",
        Class::Comment => b"<span class=\"comment\">",
        Class::Wrong => b"<span class=\"error\">",
    }
}

/// Adds the tag that opens the element of a text.
pub(crate) fn push_open_tag(out: &mut Vec<u8>) -> Result<(), AllocError>
    ensures { OnOk result (out.new.items ≡ out.old.items ++ markup.open_tag) }
{
    out.extend_from_slice(b"<pre class=\"ecma\">\n")
}

/// Adds the tag that closes it.
pub(crate) fn push_close_tag(out: &mut Vec<u8>) -> Result<(), AllocError>
    ensures { OnOk result (out.new.items ≡ out.old.items ++ markup.close_tag) }
{
    out.extend_from_slice(b"</pre>\n")
}

/// Adds the bytes, in a span where they have a class.
pub(crate) fn push_styled(
    out: &mut Vec<u8>,
    class: Option<Class>,
    bytes: &[u8],
) -> Result<(), AllocError>
    ensures { OnOk result (out.new.items ≡ out.old.items ++ markup.styled_html class bytes.now) }
{
    if let Some(class) = class {
        out.extend_from_slice(open_tag(class))?;
    }
    push_escaped(out, bytes)?;
    if class.is_some() {
        out.extend_from_slice(b"</span>")?;
    }
    Ok(())
}

/// Whether one of the places, which are in order, lies in the span.
fn has_place(places: &[BytePos], span: Span) -> bool
    ensures { AreInOrder places.now → result ≡ marks.has_place places.now span }
{
    // Most texts have no errors.
    if places.is_empty() {
        return false;
    }
    let first = places.partition_point(
        |place: &BytePos| -> bool
            ensures { result ≡ nat_lt place.now.0 span.lo.0 }
        { place.0 < span.lo.0 },
    );
    first < places.len() && places[first].0 < span.hi.0
}

/// The class that a piece is shown with: its own, or that of errors where one of the places lies in it.
pub(crate) fn marked_style(places: &[BytePos], span: Span, style: Option<Class>) -> Option<Class>
    ensures { AreInOrder places.now → result ≡ marks.marked_style places.now span style }
{
    if has_place(places, span) {
        Some(Class::Wrong)
    } else {
        style
    }
}

/// Adds the pieces of a text that starts at the place 0. Those in which one of the places lies are shown as errors.
fn push_pieces(
    out: &mut Vec<u8>,
    bytes: &[u8],
    classes: &[Option<Class>],
    pieces: &[Piece],
    places: &[BytePos],
) -> Result<(), AllocError>
    requires { Tile 0 pieces.now (length bytes.now) }
    ensures same { AreInOrder places.now → OnOk result (out.new.items ≡ out.old.items ++ markup.pieces_html bytes.now (marked places.now (styled classes.now pieces.now))) }
    ensures added { OnOk result (WereAdded bytes.now pieces.now out.old.items out.new.items) }
{
    let mut taken = 0;
    for piece in pieces {
        let class = class_of_piece(piece.class, classes, taken);
        let style = marked_style(places, piece.span, class);
        let own = &bytes[piece.span.lo.0 as usize..piece.span.hi.0 as usize];
        push_styled(out, style, own)?;
        taken = taken_behind(piece.class, classes, taken);
    }
    Ok(())
}

/// A text as HTML ([`html`]), in which each piece that one of the places lies in is shown as an error, in place of its own
/// class. The places are those of errors, in order; one that lies in no piece changes nothing.
///
/// Whatever the places are, what is left without the markup is the text, as of [`html`].
///
/// The caller knows that the pieces cover the text, which starts at the place 0.
///
/// # Errors
///
/// `AllocError` where allocation fails.
pub fn html_marked(
    alloc: Global,
    source: &str,
    classes: &[Option<Class>],
    pieces: &[Piece],
    places: &[BytePos],
) -> Result<Vec<u8>, AllocError>
    requires tiles { Tile 0 pieces.now (length source.now) }
    requires whole { joined 0 source.now pieces.now ≡ source.now }
    ensures same { AreInOrder places.now → IfOk result (λ v. v.items ≡ markup.html_of source.now (marked places.now (styled classes.now pieces.now))) }
    ensures back { IfOk result (λ v. unmark v.items ≡ shown source.now) }
    ensures closed { IfOk result (λ v. IsClosed v.items) }
{
    let mut out = Vec::new(alloc);
    push_open_tag(&mut out)?;
    push_pieces(&mut out, source.as_bytes(), classes, pieces, places)?;
    push_close_tag(&mut out)?;
    Ok(out)
}

/// A text as HTML: an element `pre` of class `ecma`, in which each piece of the text is in a span that names its class,
/// if it has one. `classes` are those of the tokens that hold a byte, in order; a token for which there is none has none.
///
/// Where the markup is taken away again, what is left is the text, with U+FFFD for each NUL; so it is in a browser, whose
/// `textContent` of the element it is. Line feeds behind `<pre>` and before `</pre>` are no part of it.
///
/// The caller knows that the pieces cover the text, which starts at the place 0.
///
/// # Errors
///
/// `AllocError` where allocation fails.
pub fn html(
    alloc: Global,
    source: &str,
    classes: &[Option<Class>],
    pieces: &[Piece],
) -> Result<Vec<u8>, AllocError>
    requires tiles { Tile 0 pieces.now (length source.now) }
    requires whole { joined 0 source.now pieces.now ≡ source.now }
    ensures same { IfOk result (λ v. v.items ≡ markup.html_of source.now (styled classes.now pieces.now)) }
    ensures back { IfOk result (λ v. unmark v.items ≡ shown source.now) }
{
    html_marked(alloc, source, classes, pieces, &[])
}
