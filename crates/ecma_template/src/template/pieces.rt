//! The pieces of template text (ECMA-262 TemplateCharacter, 12.9.6), as they are read.
ghost use Rattle.std.specs.Prelude.{◌≡◌, ◌&&◌, ◌||◌, ◌==◌, Some, length, option_map, slice_get, drop};
ghost use Rattle.ecma_place.specs.Cursor.{rest, passed};
ghost use Rattle.ecma_place.specs.Text.{Text};
ghost use Rattle.ecma_grammar.specs.Fronts.{next_is};
ghost use Rattle.ecma_grammar.specs.Templates as templates;
ghost use Rattle.ecma_grammar.specs.Escapes.{line_end};
ghost use Rattle.ecma_template.specs.WrittenTemplates.{piece_of, first_text};

use ecma_escape::escape::{Meaning, Use, read_escape};
use ecma_place::{CharExt, StringInput};

/// A piece of template text.
#[derive(Clone, Copy)]
pub(super) enum Piece {
    /// A character that is its own value.
    Plain(char),
    /// A line terminator that is no CR.
    Break(char),
    /// A CR, and whether LF follows it.
    Return(bool),
    /// An escape, by what it means.
    Escaped(Meaning),
}

/// Whether template text stops at the cursor, where this character is: at a back quote or `${`.
pub(super) fn stops(input: &StringInput, c: char) -> bool
    requires { slice_get (rest input.now) 0 ≡ Some c }
    ensures { result ≡ (c == 96 || (c == 36 && next_is 123 (drop 1 (rest input.now)))) }
{
    c == '`' || (c == '$' && input.peek() == Some('{'))
}

/// Reads the line terminator at the cursor; CR LF is one.
fn read_break(input: &mut StringInput, c: char) -> Piece
    requires { slice_get (rest input.old) 0 ≡ Some c }
    ensures value { (spelling : Text) → piece_of spelling result ≡ templates.Break (line_end c (drop 1 (rest input.old))) }
    ensures moved { input.new ≡ passed (length (line_end c (drop 1 (rest input.old)))) input.old }
{
    input.bump();
    if c == '\r' {
        Piece::Return(input.eat_byte(b'\n'))
    } else {
        Piece::Break(c)
    }
}

/// Reads the piece at the cursor, if one begins there, and moves behind it.
pub(super) fn read_piece(input: &mut StringInput) -> Option<Piece>
    ensures value { option_map (piece_of (first_text (rest input.old))) result ≡ templates.template_piece (rest input.old) }
    ensures moved { input.new ≡ passed (length (first_text (rest input.old))) input.old }
{
    let c = input.cur()?;
    if stops(input, c) {
        return None;
    }
    if c == '\\' {
        return Some(Piece::Escaped(read_escape(input, Use::InTemplate)));
    }
    if c.is_line_terminator() {
        return Some(read_break(input, c));
    }
    input.bump();
    Some(Piece::Plain(c))
}

/// Whether the piece means what is written: it is neither an escape nor has a CR.
pub(super) fn is_verbatim(piece: Piece) -> bool
    ensures { (spelling : Text) → result ≡ templates.is_verbatim (piece_of spelling piece) }
{
    match piece {
        Piece::Plain(_) => true,
        Piece::Break(c) => c != '\r',
        Piece::Return(_) => false,
        Piece::Escaped(_) => false,
    }
}

/// Whether the piece is a line terminator.
pub(super) fn is_break(piece: Piece) -> bool
    ensures { (spelling : Text) → result ≡ templates.is_break (piece_of spelling piece) }
{
    match piece {
        Piece::Plain(_) => false,
        Piece::Break(_) => true,
        Piece::Return(_) => true,
        Piece::Escaped(_) => false,
    }
}
