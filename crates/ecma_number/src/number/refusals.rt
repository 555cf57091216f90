//! Why a number is refused.
ghost use Rattle.std.specs.Prelude.{◌≡◌, ◌<◌, ◌+◌, ◌^◌, ◌↔◌, ℕ, IsTrue, None, length, option_map, IfOk, IsOk};
ghost use Rattle.ecma_place.specs.Text.{byte_len};
ghost use Rattle.ecma_place.specs.Cursor.{rest, place};
ghost use Rattle.ecma_token.specs.View.{error_view};
ghost use Rattle.ecma_grammar.specs.Found.{error_behind};
ghost use Rattle.ecma_grammar.specs.Fronts.{next_passes};
ghost use Rattle.ecma_grammar.specs.Numbers as numbers;
ghost use Rattle.ecma_number.specs.WrittenNumbers.{number_of, exponent_of};

use crate::number::parts::{WrittenExponent, WrittenNumber, fraction_len, is_big};
use crate::number::runs::has_digit;
use ecma_place::{BytePos, CharExt, Span, StringInput};
use ecma_syntax::NumberRule;
use ecma_token::{Error, Radix, SyntaxError};
use std::alloc::{AllocError, Global};

/// The refusal of a run that starts at the place, if it has no digit.
fn digit_refusal<'a>(
    alloc: Global,
    run: &str,
    radix: Radix,
    start: BytePos,
) -> Result<Option<Error<'a>>, AllocError>
    requires fits { start.0 + length run.now < 2 ^ 32 }
    requires run { numbers.IsRun radix run.now }
    ensures value { IfOk result (λ r. option_map error_view r ≡ numbers.digit_refusal start.0 radix run.now) }
    ensures free { numbers.digit_refusal start.0 radix run.now ≡ None → IsOk result }
{
    if has_digit(run, radix) {
        return Ok(None);
    }
    let span = Span::new(start, BytePos(start.0 + run.len() as u32));
    let error = Error::new(alloc, span, SyntaxError::ExpectedDigit { radix })?;
    Ok(Some(error))
}

/// Whether the text ends right behind the mark of an exponent.
fn ends_at_mark(sign: &str, run: &str, input: &StringInput) -> bool
    ensures { IsTrue result ↔ (length sign.now + (length run.now + length (rest input.now)) ≡ 0) }
{
    sign.is_empty() && run.is_empty() && input.cur().is_none()
}

/// The refusal of an exponent that starts at the place, behind which the cursor is.
fn exponent_refusal<'a>(
    alloc: Global,
    exponent: WrittenExponent,
    start: BytePos,
    input: &StringInput,
) -> Result<Option<Error<'a>>, AllocError>
    requires fits { start.0 + length (numbers.exponent_text (exponent_of exponent)) < 2 ^ 32 }
    requires form { numbers.IsExponent (exponent_of exponent) }
    ensures value { IfOk result (λ r. option_map error_view r ≡
        numbers.exponent_refusal start.0 (exponent_of exponent.entry) (rest input.now)) }
    ensures free { numbers.exponent_refusal start.0 (exponent_of exponent.entry) (rest input.now) ≡ None → IsOk result }
{
    match exponent {
        WrittenExponent::Unscaled => Ok(None),
        WrittenExponent::Marked { mark: _, sign, run } => {
            let behind = BytePos(start.0 + 1);
            if ends_at_mark(sign, run, input) {
                let kind = SyntaxError::NumLitTerminatedWithExp;
                let error = Error::new(alloc, Span::new(behind, behind), kind)?;
                return Ok(Some(error));
            }
            digit_refusal(
                alloc,
                run,
                Radix::Decimal,
                BytePos(behind.0 + sign.len() as u32),
            )
        }
    }
}

/// The refusal of the parts of a number that starts at the place, behind which the cursor is.
fn part_refusal<'a>(
    alloc: Global,
    number: WrittenNumber,
    start: BytePos,
    input: &StringInput,
) -> Result<Option<Error<'a>>, AllocError>
    requires fits { start.0 + length (numbers.number_text (number_of number)) < 2 ^ 32 }
    requires form { numbers.IsNumber (number_of number) }
    ensures value { IfOk result (λ r. option_map error_view r ≡
        option_map (error_behind start.0) (numbers.part_refusal (number_of number.entry) (rest input.now))) }
    ensures free { numbers.part_refusal (number_of number.entry) (rest input.now) ≡ None → IsOk result }
{
    match number {
        WrittenNumber::Radixed { radix, run, .. } => {
            digit_refusal(alloc, run, radix, BytePos(start.0 + 2))
        }
        WrittenNumber::Big(_) => Ok(None),
        WrittenNumber::Legacy(_) => Ok(None),
        WrittenNumber::Plain {
            run,
            fraction,
            exponent,
        } => {
            let behind = BytePos(start.0 + (run.len() + fraction_len(fraction)) as u32);
            exponent_refusal(alloc, exponent, behind, input)
        }
    }
}

/// Whether the character is not allowed right behind a number, big integer or not.
fn may_not_follow(c: char, big: bool, rule: NumberRule) -> bool
    ensures { result ≡ numbers.may_not_follow rule big c }
{
    match rule {
        NumberRule::Crate => !big && c.is_ident_start(),
        NumberRule::Standard => c.is_ident_start() || c.is_digit(10) || c == '\\',
    }
}

/// Whether such a character is at the cursor.
fn is_followed_wrongly(number: &WrittenNumber, input: &StringInput, rule: NumberRule) -> bool
    ensures { result ≡ next_passes (numbers.may_not_follow rule (numbers.is_big_number (number_of number.now))) (rest input.now) }
{
    match input.cur() {
        Some(c) => may_not_follow(c, is_big(number), rule),
        None => false,
    }
}

/// The refusal of the character at the cursor, right behind a number, if it is not allowed there.
fn next_refusal<'a>(
    alloc: Global,
    number: &WrittenNumber,
    input: &StringInput,
    rule: NumberRule,
) -> Result<Option<Error<'a>>, AllocError>
    ensures value { (start : ℕ) → start + byte_len (numbers.number_text (number_of number.now)) ≡ place input.now →
        IfOk result (λ r. option_map error_view r ≡
        option_map (error_behind start) (numbers.next_refusal rule (number_of number.now) (rest input.now))) }
    ensures free { numbers.next_refusal rule (number_of number.now) (rest input.now) ≡ None → IsOk result }
{
    if !is_followed_wrongly(number, input, rule) {
        return Ok(None);
    }
    let here = input.cur_pos();
    let error = Error::new(alloc, Span::new(here, here), SyntaxError::IdentAfterNum)?;
    Ok(Some(error))
}

/// Why a number that starts at the place is refused, if it is: by its parts, else by the character behind it, where the
/// cursor is. A number that is not refused does not allocate.
pub(super) fn refusal<'a>(
    alloc: Global,
    number: WrittenNumber,
    start: BytePos,
    input: &StringInput,
    rule: NumberRule,
) -> Result<Option<Error<'a>>, AllocError>
    requires fits { start.0 + length (numbers.number_text (number_of number)) < 2 ^ 32 }
    requires form { numbers.IsNumber (number_of number) }
    requires behind { start.0 + byte_len (numbers.number_text (number_of number)) ≡ place input.now }
    ensures value { IfOk result (λ r. option_map error_view r ≡
        option_map (error_behind start.0) (numbers.refusal rule (number_of number.entry) (rest input.now))) }
    ensures free { numbers.refusal rule (number_of number.entry) (rest input.now) ≡ None → IsOk result }
{
    match part_refusal(alloc, number, start, input)? {
        Some(error) => Ok(Some(error)),
        None => next_refusal(alloc, &number, input, rule),
    }
}
