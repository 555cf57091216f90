//! What is in a template, where it means what is written. Our own, for speed.
ghost use Rattle.std.specs.Prelude.{◌≡◌, ℕ, true};
ghost use Rattle.std.specs.List.{list_all};
ghost use Rattle.ecma_place.specs.Cursor.{rest};
ghost use Rattle.ecma_grammar.specs.Locality.{is_accepted};
ghost use Rattle.ecma_grammar.specs.Pieces.{pieces};
ghost use Rattle.ecma_grammar.specs.Templates as templates;
ghost use Rattle.ecma_template.specs.PlainTemplates.{IsPlainTemplate, is_read};

use crate::template::verbatim::pass_verbatim;
use crate::template::{is_at_mark, read_mark};
use ecma_place::{Atom, StringInput};
use ecma_token::Token;

/// What is at the cursor in a template, where it means what is written.
#[derive(Drop)]
pub enum PlainTemplate<'a> {
    /// The token: text with neither an escape nor a CR, or the back quote or `${` behind such. With it, whether a line
    /// terminator is in it.
    Read(Token<'a>, bool),
    /// Text with neither an escape nor a CR meets the end, which is an error. With it, whether a line terminator is in it.
    Unterminated(bool),
    /// Text with an escape or a CR.
    Other,
}

/// Reads what is at the cursor in a template (ECMA-262 TemplateCharacters, 12.9.6), and moves behind it, where it means what
/// is written: its token is what [`scan_template`](crate::scan_template) finds, with nothing else to report but the flag,
/// which says whether a line terminator is in the text.
///
/// `after_template` says that the last token was template text. Text that meets the end is passed too, and reported without
/// a token: the error is from the last back quote that opened a template to the end. Where an escape or a CR is in the text
/// the cursor stays. Does not allocate: both what is written and what it means borrow from the source.
#[inline(always)]
pub fn eat_plain_template<'a>(
    input: &mut StringInput<'a>,
    after_template: bool,
) -> PlainTemplate<'a>
    ensures found { (opened : ℕ) → IsPlainTemplate opened input.old input.new (templates.template_text after_template (rest input.old)) result }
    ensures plain { list_all templates.is_verbatim (pieces templates.template_cutter tt (rest input.old)) ≡ true
        → is_accepted (templates.template_text after_template (rest input.old)).value ≡ true → is_read result ≡ true }
{
    if after_template && is_at_mark(input) {
        return PlainTemplate::Read(read_mark(input), false);
    }
    let start = input.cur_pos();
    let line_break = pass_verbatim(input);
    if is_at_mark(input) {
        let text = input.slice(start, input.cur_pos());
        let token = Token::Template {
            raw: Atom::from(text),
            cooked: Ok(Atom::from(text)),
        };
        return PlainTemplate::Read(token, line_break);
    }
    match input.cur() {
        None => PlainTemplate::Unterminated(line_break),
        Some(_) => {
            input.reset_to(start);
            PlainTemplate::Other
        }
    }
}
