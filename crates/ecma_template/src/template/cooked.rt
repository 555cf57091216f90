//! What template text means (the standard's TV).
ghost use Rattle.std.specs.Prelude.{◌≡◌, ◌++◌, ◌≤◌, length, OnOk, IfOk, encode_utf8_all, string_bytes};
ghost use Rattle.ecma_place.specs.Cursor.{rest};
ghost use Rattle.ecma_place.specs.Text.{Text};
ghost use Rattle.ecma_grammar.specs.Pieces.{pieces};
ghost use Rattle.ecma_grammar.specs.Templates as templates;
ghost use Rattle.ecma_template.specs.WrittenTemplates.{piece_of};

use crate::template::pieces::{Piece, read_piece};
use crate::template::verbatim::pass_verbatim;
use ecma_escape::escape::push_value;
use ecma_place::StringInput;
use std::alloc::{AllocError, Global};

/// Adds what a piece means that is written so.
#[tactic(auto, using(crate::proofs::TemplatePieces::cooked_answers))]
fn push_piece(cooked: &mut String, piece: Piece, spelling: &str) -> Result<(), AllocError>
    ensures { (text : Text) → spelling.now ≡ encode_utf8_all text
        → OnOk result (string_bytes cooked.new ≡ string_bytes cooked.old ++ encode_utf8_all (templates.cooked_piece (piece_of text piece))) }
{
    match piece {
        Piece::Plain(c) => cooked.push(c),
        Piece::Break(c) => cooked.push(if c == '\r' { '\n' } else { c }),
        Piece::Return(_) => cooked.push('\n'),
        Piece::Escaped(answer) => push_value(cooked, answer, spelling),
    }
}

/// Moves behind the pieces at the cursor that mean what is written, and adds them.
fn push_verbatim(cooked: &mut String, input: &mut StringInput) -> Result<(), AllocError>
    ensures cooked { OnOk result (string_bytes cooked.new ++ encode_utf8_all (templates.cooked_text (pieces templates.template_cutter tt (rest input.new)))
        ≡ string_bytes cooked.old ++ encode_utf8_all (templates.cooked_text (pieces templates.template_cutter tt (rest input.old)))) }
    ensures shorter { length (rest input.new) ≤ length (rest input.old) }
{
    let start = input.cur_pos();
    pass_verbatim(input);
    cooked.push_str(input.slice(start, input.cur_pos()))
}

/// Moves over template text, up to a back quote, `${` or the end, and returns what it means.
pub(super) fn cook_text(alloc: Global, input: &mut StringInput) -> Result<String, AllocError>
    ensures { IfOk result (λ s. string_bytes s ≡ encode_utf8_all (templates.cooked_text (pieces templates.template_cutter tt (rest input.old)))) }
{
    let mut cooked = String::new(alloc);
    push_verbatim(&mut cooked, input)?;
    let mut start = input.cur_pos();
    'pieces: while let Some(piece) = read_piece(input) {
        let end = input.cur_pos();
        push_piece(&mut cooked, piece, input.slice(start, end))?;
        push_verbatim(&mut cooked, input)?;
        start = input.cur_pos();
    }
    Ok(cooked)
}
