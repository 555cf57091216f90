//! Template text.
ghost use Rattle.std.specs.Prelude.{◌≡◌, ◌≤◌, ◌<◌, Ok, true, false, length, IfOk, IsOk, OnErr, OnOk};
ghost use Rattle.std.specs.List.{list_all};
ghost use Rattle.ecma_place.specs.Cursor.{rest, place, passed};
ghost use Rattle.ecma_token.specs.View.{token_view};
ghost use Rattle.ecma_grammar.specs.Found.{found_view, found_at, token_behind};
ghost use Rattle.ecma_grammar.specs.Locality.{ends_template, is_accepted};
ghost use Rattle.ecma_grammar.specs.Pieces.{pieces};
ghost use Rattle.ecma_grammar.specs.Templates as templates;

mod cooked;
mod pieces;
pub mod plain;
mod survey;
mod token;
mod verbatim;

pub use crate::template::plain::{PlainTemplate, eat_plain_template};
use crate::template::survey::survey_text;
use crate::template::token::template_token;
use ecma_grammar::found::Found;
use ecma_place::{BytePos, Span, StringInput};
use ecma_token::{Error, SyntaxError, Token};
use std::alloc::{AllocError, Global};

/// Whether a back quote or `${` is at the cursor.
fn is_at_mark(input: &StringInput) -> bool
    ensures { result ≡ ends_template (rest input.now) }
{
    input.cur() == Some('`') || (input.cur() == Some('$') && input.peek() == Some('{'))
}

/// Moves behind the back quote or `${` at the cursor, and returns it.
fn read_mark<'a>(input: &mut StringInput) -> Token<'a>
    requires { ends_template (rest input.old) ≡ true }
    ensures value { (templates.mark_of (templates.template_end (rest input.old))).value ≡ Ok (token_view result) }
    ensures moved { input.new ≡ passed (length (templates.mark_of (templates.template_end (rest input.old))).spelling) input.old }
{
    if input.eat_byte(b'`') {
        return Token::BackQuote;
    }
    input.bump();
    input.bump();
    Token::DollarLBrace
}

/// Reads the back quote or `${` at the cursor. Nothing is allocated.
fn scan_mark<'a>(alloc: Global, input: &mut StringInput<'a>) -> Found<'a, Token<'a>>
    requires { ends_template (rest input.old) ≡ true }
    ensures found { found_view token_view result
        ≡ found_at token_behind (place input.old) (templates.mark_of (templates.template_end (rest input.old))) }
    ensures moved { input.new ≡ passed (length (templates.mark_of (templates.template_end (rest input.old))).spelling) input.old }
{
    let start = input.cur_pos();
    let token = read_mark(input);
    Found {
        value: Ok(token),
        faults: Vec::new(alloc),
        extent: Span::new(start, input.cur_pos()),
        line_break: false,
    }
}

/// Reads the template text at the cursor, which may be empty, in a template that was opened at the place.
fn scan_text<'a>(
    alloc: Global,
    input: &mut StringInput<'a>,
    opened: BytePos,
) -> Result<Found<'a, Token<'a>>, AllocError>
    requires { opened.0 ≤ place input.old }
    ensures found { IfOk result (λ f. found_view token_view f
        ≡ templates.template_found opened.0 (place input.old) (templates.template_text false (rest input.old))) }
    ensures moved { OnOk result (input.new ≡ passed (length (templates.template_text false (rest input.old)).spelling) input.old) }
    ensures free { list_all templates.is_verbatim (pieces templates.template_cutter tt (rest input.old)) ≡ true
        → is_accepted (templates.template_text false (rest input.old)).value ≡ true → IsOk result }
{
    let mut text = input.clone()?;
    let start = input.cur_pos();
    let survey = survey_text(input);
    let extent = Span::new(start, input.cur_pos());
    let value = match input.cur() {
        None => {
            let span = Span::new(opened, extent.hi);
            Err(Error::new(alloc, span, SyntaxError::UnterminatedTpl)?)
        }
        Some(_) => {
            let raw = input.slice(extent.lo, extent.hi);
            Ok(template_token(alloc, raw, survey, &mut text)?)
        }
    };
    Ok(Found {
        value,
        faults: Vec::new(alloc),
        extent,
        line_break: survey.line_break,
    })
}

/// Reads what is at the cursor in a template (ECMA-262 TemplateCharacters, 12.9.6), and moves behind it: text up to
/// a back quote, `${` or the end, or, where there is no text behind template text, the back quote or `${`.
///
/// The cursor is not at the end. `opened` is where a template was opened last, by its back quote, or, if none was, the
/// lexer's start place, and not behind the cursor; `after_template` says that the last token was template text. It
/// returns a `Template`, a `BackQuote` or a `DollarLBrace`. An escape that is refused is the error that is in the
/// `Template` for what the text means, the last one where there are several. Text that meets the end is refused with
/// `UnterminatedTpl`, from `opened` to the end: our own choice. There are no faults. The flag says whether a line
/// terminator is in the text outside an escape.
///
/// Text without escape, CR and refusal does not allocate.
///
/// # Errors
///
/// `AllocError` where allocation fails for what the text means or an error; the cursor is then where it was.
pub fn scan_template<'a>(
    alloc: Global,
    input: &mut StringInput<'a>,
    opened: BytePos,
    after_template: bool,
) -> Result<Found<'a, Token<'a>>, AllocError>
    requires more { 0 < length (rest input.old) }
    requires opened { opened.0 ≤ place input.old }
    ensures found { IfOk result (λ f. found_view token_view f
        ≡ templates.template_found opened.0 (place input.old) (templates.template_text after_template (rest input.old))) }
    ensures moved { OnOk result (input.new ≡ passed (length (templates.template_text after_template (rest input.old)).spelling) input.old) }
    ensures free { list_all templates.is_verbatim (pieces templates.template_cutter tt (rest input.old)) ≡ true
        → is_accepted (templates.template_text after_template (rest input.old)).value ≡ true → IsOk result }
    ensures same { OnErr result (input.new ≡ input.old) }
{
    if after_template && is_at_mark(input) {
        return Ok(scan_mark(alloc, input));
    }
    let before = input.clone()?;
    let found = scan_text(alloc, input, opened);
    if found.is_err() {
        *input = before;
    }
    found
}
