//! What is in template text, before anything is made of it.
ghost use Rattle.std.specs.Prelude.{◌≡◌, ◌≤◌, ◌+◌, None, option_map, length};
ghost use Rattle.std.specs.List.{list_all, list_any};
ghost use Rattle.ecma_place.specs.Cursor.{rest, place, passed};
ghost use Rattle.ecma_place.specs.Text.{Text};
ghost use Rattle.ecma_grammar.specs.Pieces.{pieces, spelled};
ghost use Rattle.ecma_grammar.specs.Templates as templates;
ghost use Rattle.ecma_template.specs.WrittenTemplates.{piece_of, refused_at};
ghost use Rattle.ecma_escape.specs.declared.escape.Refusal.{Refusal};
ghost use Rattle.ecma_escape.specs.declared.escape.Meaning.TheVariants.{Refused};
ghost use Rattle.ecma_template.specs.declared.template.pieces.Piece.TheVariants.{Escaped};

use crate::template::pieces::{Piece, is_break, is_verbatim, read_piece};
use crate::template::verbatim::pass_verbatim;
use ecma_escape::escape::{Meaning, Refusal, Use, refusal_span};
use ecma_place::{BytePos, Span, StringInput};

/// What is in template text.
#[derive(Clone, Copy)]
pub(super) struct Survey {
    /// Whether it means what is written: it holds neither an escape nor a CR.
    pub(super) is_verbatim: bool,
    /// Whether a line terminator is in it as itself.
    pub(super) line_break: bool,
    /// Why the last escape that is refused is so, and where.
    pub(super) refusal: Option<(Refusal, Span)>,
}

/// The refusal of a piece that reaches from one place to another, or the one before it.
fn newer(
    before: Option<(Refusal, Span)>,
    piece: Piece,
    start: BytePos,
    end: BytePos,
) -> Option<(Refusal, Span)>
    requires { start.0 ≤ end.0 }
    ensures { (spelling : Text) → ((refusal : Refusal) → piece ≡ Escaped (Refused refusal) → start.0 + length spelling ≡ end.0)
        → option_map refused_at result ≡ templates.newer start.0 (option_map refused_at before) (templates.piece_refusal (piece_of spelling piece)) }
{
    match piece {
        Piece::Escaped(Meaning::Refused(refusal)) => {
            let span = refusal_span(refusal, Use::InTemplate, start, end);
            Some((refusal, span))
        }
        _ => before,
    }
}

/// Moves over template text, up to a back quote, `${` or the end, and says what is in it. Nothing is allocated.
pub(super) fn survey_text(input: &mut StringInput) -> Survey
    ensures verbatim { result.is_verbatim ≡ list_all templates.is_verbatim (pieces templates.template_cutter tt (rest input.old)) }
    ensures line_break { result.line_break ≡ list_any templates.is_break (pieces templates.template_cutter tt (rest input.old)) }
    ensures refusal { option_map refused_at result.refusal
        ≡ templates.last_refusal (place input.old) None (pieces templates.template_cutter tt (rest input.old)) }
    ensures moved { input.new ≡ passed (length (spelled templates.template_cutter (pieces templates.template_cutter tt (rest input.old)))) input.old }
{
    let mut survey = Survey {
        is_verbatim: true,
        line_break: pass_verbatim(input),
        refusal: None,
    };
    let mut start = input.cur_pos();
    'pieces: while let Some(piece) = read_piece(input) {
        let end = input.cur_pos();
        survey.is_verbatim &= is_verbatim(piece);
        survey.line_break |= is_break(piece);
        survey.refusal = newer(survey.refusal, piece, start, end);
        survey.line_break |= pass_verbatim(input);
        start = input.cur_pos();
    }
    survey
}
