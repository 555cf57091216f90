//! The token of template text.
ghost use Rattle.std.specs.Prelude.{◌≡◌, None, true, option_map, IfOk, IsOk, encode_utf8_all};
ghost use Rattle.std.specs.List.{list_all};
ghost use Rattle.ecma_place.specs.Cursor.{rest, place};
ghost use Rattle.ecma_token.specs.View.{token_view};
ghost use Rattle.ecma_grammar.specs.Found.{token_behind};
ghost use Rattle.ecma_grammar.specs.Pieces.{pieces};
ghost use Rattle.ecma_grammar.specs.Templates as templates;
ghost use Rattle.ecma_template.specs.WrittenTemplates.{refused_at};

use crate::template::cooked::cook_text;
use crate::template::survey::Survey;
use ecma_escape::escape::refusal_kind;
use ecma_place::{Atom, StringInput};
use ecma_token::{Error, Token};
use std::alloc::{AllocError, Global};

/// What the template text at the cursor means, of which this is written. It borrows and does not allocate where it means
/// what is written.
fn cooked_atom<'a>(
    alloc: Global,
    raw: &'a str,
    is_verbatim: bool,
    text: &mut StringInput<'a>,
) -> Result<Atom<'a>, AllocError>
    requires raw { raw.now ≡ encode_utf8_all (templates.raw_text (pieces templates.template_cutter tt (rest text.old))) }
    requires verbatim { is_verbatim ≡ list_all templates.is_verbatim (pieces templates.template_cutter tt (rest text.old)) }
    ensures value { IfOk result (λ a. a ≡ templates.cooked_atom (pieces templates.template_cutter tt (rest text.old))) }
    ensures free { is_verbatim ≡ true → IsOk result }
{
    if is_verbatim {
        Ok(Atom::from(raw))
    } else {
        Ok(Atom::from(cook_text(alloc, text)?))
    }
}

/// The token of the template text at the cursor, of which this is written and the survey reports.
pub(super) fn template_token<'a>(
    alloc: Global,
    raw: &'a str,
    survey: Survey,
    text: &mut StringInput<'a>,
) -> Result<Token<'a>, AllocError>
    requires raw { raw.now ≡ encode_utf8_all (templates.raw_text (pieces templates.template_cutter tt (rest text.old))) }
    requires verbatim { survey.is_verbatim ≡ list_all templates.is_verbatim (pieces templates.template_cutter tt (rest text.old)) }
    requires refusal { option_map refused_at survey.refusal
        ≡ templates.last_refusal (place text.old) None (pieces templates.template_cutter tt (rest text.old)) }
    ensures value { IfOk result (λ t. token_view t
        ≡ token_behind (place text.old) (templates.template_token (pieces templates.template_cutter tt (rest text.old)))) }
    ensures free { survey.is_verbatim ≡ true → IsOk result }
{
    match survey.refusal {
        Some((refusal, span)) => {
            let error = Error::new(alloc, span, refusal_kind(refusal))?;
            Ok(Token::Template {
                raw: Atom::from(raw),
                cooked: Err(error),
            })
        }
        None => {
            let cooked = cooked_atom(alloc, raw, survey.is_verbatim, text)?;
            Ok(Token::Template {
                raw: Atom::from(raw),
                cooked: Ok(cooked),
            })
        }
    }
}
