//! The token of a number.
ghost use Rattle.std.specs.Prelude.{◌≡◌, ◌<◌, false, length, IfOk, IsOk};
ghost use Rattle.std.specs.List.{list_any};
ghost use Rattle.std.specs.Str.Parse.{AllDigits};
ghost use Rattle.ecma_place.specs.Text.{Text};
ghost use Rattle.ecma_token.specs.View.{token_view};
ghost use Rattle.ecma_grammar.specs.Numbers.{DecimalRun};
ghost use Rattle.ecma_grammar.specs.Numbers as numbers;
ghost use Rattle.ecma_number.specs.WrittenNumbers.{number_of, fraction_of, exponent_of};

use crate::number::digits::{digits_atom, fitting_value};
use crate::number::parts::{WrittenExponent, WrittenFraction, WrittenNumber, is_big};
use ecma_place::Atom;
use ecma_token::{Radix, Token};
use std::alloc::{AllocError, Global};

/// The digits of a number as they are written: its text without prefix and `n`.
fn written_digits<'a>(number: WrittenNumber<'a>, raw: &'a str) -> &'a str
    requires { raw.now ≡ numbers.number_text (number_of number) }
    ensures { result.now ≡ numbers.written_digits (number_of number.entry) }
{
    match number {
        WrittenNumber::Radixed { run, .. } => run,
        WrittenNumber::Big(run) => run,
        WrittenNumber::Legacy(run) => run,
        WrittenNumber::Plain { .. } => raw,
    }
}

/// The radix in which the number is written.
fn radix_of(number: &WrittenNumber) -> Radix
    ensures { result ≡ numbers.number_radix (number_of number.now) }
{
    match number {
        WrittenNumber::Radixed { radix, .. } => *radix,
        WrittenNumber::Legacy(_) => Radix::Octal,
        _ => Radix::Decimal,
    }
}

/// The value of a decimal run with this fraction and this exponent, where it has neither: that of its digits.
fn plain_value(fraction: &WrittenFraction, exponent: &WrittenExponent, digits: &str) -> Option<u128>
    requires all { fraction_of fraction.now ≡ numbers.NoFraction → exponent_of exponent.now ≡ numbers.NoExponent
        → AllDigits 10 digits.now }
    requires some { 0 < length digits.now }
    ensures { (run : Text) → digits.now ≡ numbers.without_separators run
        → result ≡ numbers.whole_value (DecimalRun run (fraction_of fraction.now) (exponent_of exponent.now)) }
{
    match (fraction, exponent) {
        (WrittenFraction::Pointless, WrittenExponent::Unscaled) => {
            fitting_value(digits, Radix::Decimal)
        }
        _ => None,
    }
}

/// The whole value of a number, by its digits without separators: it has one where it has neither `n`, point nor
/// exponent, and the value fits 128 bits.
fn whole_value(number: &WrittenNumber, digits: &str) -> Option<u128>
    requires form { numbers.IsNumber (number_of number.now) }
    requires digits { digits.now ≡ numbers.without_separators (numbers.written_digits (number_of number.now)) }
    requires some { 0 < length digits.now }
    ensures { result ≡ numbers.whole_value (number_of number.now) }
{
    match number {
        WrittenNumber::Radixed { radix, big, .. } => {
            if *big {
                None
            } else {
                fitting_value(digits, *radix)
            }
        }
        WrittenNumber::Big(_) => None,
        WrittenNumber::Legacy(_) => fitting_value(digits, Radix::Octal),
        WrittenNumber::Plain {
            fraction,
            exponent,
            ..
        } => plain_value(fraction, exponent, digits),
    }
}

/// The token of a number that is not refused, by its parts and its text. Without a separator it does not allocate.
pub(super) fn number_token<'a>(
    alloc: Global,
    number: WrittenNumber<'a>,
    raw: &'a str,
) -> Result<Token<'a>, AllocError>
    requires raw { raw.now ≡ numbers.number_text (number_of number) }
    requires form { numbers.IsNumber (number_of number) }
    requires some { 0 < length (numbers.without_separators (numbers.written_digits (number_of number))) }
    ensures value { IfOk result (λ t. token_view t ≡ numbers.number_token (number_of number.entry)) }
    ensures free { list_any numbers.is_separator (numbers.number_text (number_of number.entry)) ≡ false → IsOk result }
{
    let radix = radix_of(&number);
    let digits = digits_atom(alloc, written_digits(number, raw))?;
    if is_big(&number) {
        return Ok(Token::BigInt {
            raw: Atom::from(raw),
            radix,
            digits,
        });
    }
    let whole = whole_value(&number, digits.as_str());
    Ok(Token::Num {
        raw: Atom::from(raw),
        radix,
        digits,
        whole,
    })
}
