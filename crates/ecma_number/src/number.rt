//! Numbers.
ghost use Rattle.std.specs.Prelude.{◌≡◌, ◌<◌, ◌+◌, true, false, [], None, length, IfOk, IsOk, OnErr, OnOk};
ghost use Rattle.std.specs.List.{list_any};
ghost use Rattle.ecma_place.specs.Cursor.{rest, place, passed};
ghost use Rattle.ecma_place.specs.Text.{byte_len};
ghost use Rattle.ecma_token.specs.View.{token_view};
ghost use Rattle.ecma_grammar.specs.Found.{found_view, found_at, span_of, token_behind};
ghost use Rattle.ecma_grammar.specs.Locality.{is_accepted};
ghost use Rattle.ecma_grammar.specs.Numbers as numbers;
ghost use Rattle.ecma_number.specs.WrittenNumbers.{number_of};

mod digits;
mod faults;
mod parts;
mod plain;
mod refusals;
mod runs;
mod token;

use crate::number::faults::{push_octal_faults, push_part_faults};
use crate::number::parts::{WrittenNumber, read_parts};
pub use crate::number::plain::eat_plain_number;
use crate::number::refusals::refusal;
use crate::number::token::number_token;
use ecma_grammar::found::Found;
use ecma_place::{Span, StringInput};
use ecma_syntax::NumberRule;
use ecma_token::Token;
use std::alloc::{AllocError, Global};

/// What is found of a number with these parts and this text, behind which the cursor is.
fn found_number<'a>(
    alloc: Global,
    number: WrittenNumber<'a>,
    raw: &'a str,
    extent: Span,
    input: &StringInput,
    ts1085: bool,
    rule: NumberRule,
) -> Result<Found<'a, Token<'a>>, AllocError>
    requires form { numbers.IsNumber (number_of number) }
    requires raw { raw.now ≡ numbers.number_text (number_of number) }
    requires extent { extent ≡ span_of extent.lo.0 (extent.lo.0 + byte_len (numbers.number_text (number_of number))) }
    requires behind { extent.hi.0 ≡ place input.now }
    requires some { numbers.part_refusal (number_of number) (rest input.now) ≡ None
        → 0 < length (numbers.without_separators (numbers.written_digits (number_of number))) }
    ensures found { IfOk result (λ f. found_view token_view f ≡ found_at token_behind extent.lo.0
        (numbers.found_number ts1085 rule (number_of number.entry) (numbers.refusal rule (number_of number.entry) (rest input.now)))) }
    ensures free { list_any numbers.is_separator (numbers.number_text (number_of number.entry)) ≡ false
        → numbers.refusal rule (number_of number.entry) (rest input.now) ≡ None
        → (numbers.found_number ts1085 rule (number_of number.entry) None).faults ≡ [] → IsOk result }
{
    let mut faults = Vec::new(alloc);
    push_part_faults(alloc, &mut faults, number, extent.lo, rule)?;
    let value = match refusal(alloc, number, extent.lo, input, rule)? {
        Some(error) => Err(error),
        None => {
            push_octal_faults(alloc, &mut faults, number, extent.lo, ts1085)?;
            Ok(number_token(alloc, number, raw)?)
        }
    };
    Ok(Found {
        value,
        faults,
        extent,
        line_break: false,
    })
}

/// Reads the number at the cursor (ECMA-262 NumericLiteral, 12.9.3, with the legacy forms), and moves behind it.
///
/// The cursor is at a digit, or at a point and a digit. `ts1085` says that a legacy octal is reported as TypeScript
/// does, and `rule` which rule numbers are read by. It returns a `Num` or a `BigInt`, or why the number is refused:
///
/// - `ExpectedDigit` over the run of a radix or an exponent that has no digit;
/// - `NumLitTerminatedWithExp`, empty behind a mark of an exponent that ends the text;
/// - `IdentAfterNum`, empty behind the number: by the crate's rule where it is no big integer and a character is there
///   with which a name begins; by the standard's, behind a big integer too, also where a decimal digit or a backslash does.
///
/// The faults are `NumericSeparatorIsAllowedOnlyBetweenTwoDigits` from the start of a run to each separator in it that
/// is not between two digits, and by the standard's rule to each in a decimal run that begins the number, begins
/// with `0` and is longer; and, of a number that is not refused, `LegacyDecimal` over the run, or `TS1085`
/// and `LegacyOctal` over the number. Which errors there are, and their spans, is our own choice.
///
/// A number without separator, refusal and fault does not allocate.
///
/// # Errors
///
/// `AllocError` where allocation fails for digits or an error; the cursor is then where it was.
pub fn scan_number<'a>(
    alloc: Global,
    input: &mut StringInput<'a>,
    ts1085: bool,
    rule: NumberRule,
) -> Result<Found<'a, Token<'a>>, AllocError>
    requires { numbers.opens_number (rest input.old) ≡ true }
    ensures found { IfOk result (λ f. found_view token_view f ≡
        found_at token_behind (place input.old) (numbers.number ts1085 rule (rest input.old))) }
    ensures moved { OnOk result
        (input.new ≡ passed (length (numbers.number ts1085 rule (rest input.old)).spelling) input.old) }
    ensures free { list_any numbers.is_separator (numbers.number ts1085 rule (rest input.old)).spelling ≡ false
        → is_accepted (numbers.number ts1085 rule (rest input.old)).value ≡ true
        → (numbers.number ts1085 rule (rest input.old)).faults ≡ [] → IsOk result }
    ensures same { OnErr result (input.new ≡ input.old) }
{
    let before = input.clone()?;
    let start = input.cur_pos();
    let number = read_parts(input);
    let extent = Span::new(start, input.cur_pos());
    let raw = input.slice(extent.lo, extent.hi);
    let Ok(found) = found_number(alloc, number, raw, extent, input, ts1085, rule) else {
        *input = before;
        return Err(AllocError);
    };
    Ok(found)
}
