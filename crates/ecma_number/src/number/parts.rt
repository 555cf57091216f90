//! The parts of a number (ECMA-262 NumericLiteral, 12.9.3), as they are read.
ghost use Rattle.std.specs.Prelude.{◌≡◌, ◌<◌, ◌^◌, Some, None, length, drop};
ghost use Rattle.std.specs.List.{list_any};
ghost use Rattle.ecma_place.specs.Cursor.{rest, passed};
ghost use Rattle.ecma_grammar.specs.Numbers as numbers;
ghost use Rattle.ecma_number.specs.WrittenNumbers.{number_of, fraction_of, exponent_of};

use crate::number::runs::{has_digit, read_run};
use ecma_place::StringInput;
use ecma_token::Radix;

/// A number, by its parts.
#[derive(Clone, Copy)]
pub(super) enum WrittenNumber<'a> {
    /// `0`, the letter of the radix, a run, and whether `n` follows it.
    Radixed {
        radix: Radix,
        letter: char,
        run: &'a str,
        big: bool,
    },
    /// A decimal run, which `n` follows.
    Big(&'a str),
    /// A legacy octal.
    Legacy(&'a str),
    /// A decimal run, and what follows it.
    Plain {
        run: &'a str,
        fraction: WrittenFraction<'a>,
        exponent: WrittenExponent<'a>,
    },
}

/// What comes between a decimal run and an exponent.
#[derive(Clone, Copy)]
pub(super) enum WrittenFraction<'a> {
    Pointless,
    /// A point, and the run behind it.
    Pointed(&'a str),
}

/// What ends a decimal number.
#[derive(Clone, Copy)]
pub(super) enum WrittenExponent<'a> {
    Unscaled,
    /// The mark, a sign or nothing, and the run behind it.
    Marked {
        mark: char,
        sign: &'a str,
        run: &'a str,
    },
}

/// The radix that a letter behind `0` names.
fn radix_of(letter: char) -> Option<Radix>
    ensures { result ≡ numbers.radix_of letter }
{
    match letter {
        'x' | 'X' => Some(Radix::Hex),
        'o' | 'O' => Some(Radix::Octal),
        'b' | 'B' => Some(Radix::Binary),
        _ => None,
    }
}

/// The radix with which a number begins at the cursor, and the letter that names it.
fn prefix(input: &StringInput) -> Option<(Radix, char)>
    ensures { result ≡ numbers.prefix (rest input.now) }
{
    if !input.is_byte(b'0') {
        return None;
    }
    let letter = input.peek()?;
    let radix = radix_of(letter)?;
    Some((radix, letter))
}

/// Moves behind the `n` of a big integer, where it follows a run with a digit, and returns whether it does.
fn read_suffix(input: &mut StringInput, run: &str, radix: Radix) -> bool
    ensures value { result ≡ numbers.is_big radix run.now (rest input.old) }
    ensures moved { input.new ≡ passed (length (numbers.suffix_of (numbers.is_big radix run.now (rest input.old)))) input.old }
{
    has_digit(run, radix) && input.eat_byte(b'n')
}

/// Moves behind a point and the run behind it, where a point comes next.
fn read_fraction<'a>(input: &mut StringInput<'a>) -> WrittenFraction<'a>
    ensures value { fraction_of result ≡ numbers.fraction (rest input.old) }
    ensures moved { input.new ≡ passed (length (numbers.fraction_text (numbers.fraction (rest input.old)))) input.old }
{
    if input.eat_byte(b'.') {
        WrittenFraction::Pointed(read_run(input, Radix::Decimal))
    } else {
        WrittenFraction::Pointless
    }
}

/// Moves behind a sign, where one comes next, and returns its text.
fn read_sign<'a>(input: &mut StringInput<'a>) -> &'a str
    ensures text { result.now ≡ numbers.sign (rest input.old) }
    ensures moved { input.new ≡ passed (length (numbers.sign (rest input.old))) input.old }
{
    if input.eat_byte(b'+') {
        "+"
    } else if input.eat_byte(b'-') {
        "-"
    } else {
        ""
    }
}

/// Whether an exponent begins with the character.
fn is_exponent_mark(c: char) -> bool
    ensures { result ≡ numbers.is_exponent_mark c }
{
    c == 'e' || c == 'E'
}

/// Moves behind an exponent, where its mark comes next.
fn read_exponent<'a>(input: &mut StringInput<'a>) -> WrittenExponent<'a>
    ensures value { exponent_of result ≡ numbers.exponent (rest input.old) }
    ensures moved { input.new ≡ passed (length (numbers.exponent_text (numbers.exponent (rest input.old)))) input.old }
{
    match input.cur() {
        Some(mark) if is_exponent_mark(mark) => {
            input.bump();
            let sign = read_sign(input);
            WrittenExponent::Marked {
                mark,
                sign,
                run: read_run(input, Radix::Decimal),
            }
        }
        _ => WrittenExponent::Unscaled,
    }
}

/// Whether the run is longer than one digit and begins with `0`.
pub(super) fn is_legacy(run: &str) -> bool
    ensures { result ≡ numbers.is_legacy run.now }
{
    let bytes = run.as_bytes();
    bytes.len() > 1 && bytes[0] == b'0'
}

/// Whether `8` or `9` is in the run.
fn is_past_octal(run: &str) -> bool
    ensures { result ≡ list_any numbers.is_past_octal run.now }
{
    let mut past = false;
    'bytes: for b in run.as_bytes() {
        past |= *b == b'8' || *b == b'9';
    }
    past
}

/// Whether the run is a legacy octal.
fn is_octal_run(run: &str) -> bool
    ensures { result ≡ numbers.is_octal_run run.now }
{
    is_legacy(run) && !is_past_octal(run)
}

/// Moves behind a number without a prefix.
fn read_decimal<'a>(input: &mut StringInput<'a>) -> WrittenNumber<'a>
    ensures value { number_of result ≡ numbers.number_behind None (rest input.old) }
    ensures moved { input.new ≡ passed (length (numbers.number_text (numbers.number_behind None (rest input.old)))) input.old }
{
    let run = read_run(input, Radix::Decimal);
    if read_suffix(input, run, Radix::Decimal) {
        return WrittenNumber::Big(run);
    }
    if is_octal_run(run) {
        return WrittenNumber::Legacy(run);
    }
    let fraction = read_fraction(input);
    let exponent = read_exponent(input);
    WrittenNumber::Plain {
        run,
        fraction,
        exponent,
    }
}

/// Reads a number with a prefix, which is at the cursor.
fn read_radixed<'a>(input: &mut StringInput<'a>, radix: Radix, letter: char) -> WrittenNumber<'a>
    requires { numbers.prefix (rest input.old) ≡ Some (radix, letter) }
    ensures value { number_of result ≡ numbers.prefixed_number radix letter (drop 2 (rest input.old)) }
    ensures moved { input.new ≡ passed (length (numbers.number_text (numbers.prefixed_number radix letter (drop 2 (rest input.old))))) input.old }
{
    input.bump();
    input.bump();
    let run = read_run(input, radix);
    let big = read_suffix(input, run, radix);
    WrittenNumber::Radixed {
        radix,
        letter,
        run,
        big,
    }
}

/// Moves behind the number at the cursor, and returns its parts.
pub(super) fn read_parts<'a>(input: &mut StringInput<'a>) -> WrittenNumber<'a>
    ensures value { number_of result ≡ numbers.number_parts (rest input.old) }
    ensures moved { input.new ≡ passed (length (numbers.number_text (numbers.number_parts (rest input.old)))) input.old }
{
    match prefix(input) {
        Some((radix, letter)) => read_radixed(input, radix, letter),
        None => read_decimal(input),
    }
}

/// How many bytes the fraction has.
pub(super) fn fraction_len(fraction: WrittenFraction) -> usize
    requires { length (numbers.fraction_text (fraction_of fraction)) < 2 ^ 32 }
    ensures { result ≡ length (numbers.fraction_text (fraction_of fraction.entry)) }
{
    match fraction {
        WrittenFraction::Pointless => 0,
        WrittenFraction::Pointed(run) => run.len() + 1,
    }
}

/// Whether the number is a big integer.
pub(super) fn is_big(number: &WrittenNumber) -> bool
    ensures { result ≡ numbers.is_big_number (number_of number.now) }
{
    match number {
        WrittenNumber::Radixed { big, .. } => *big,
        WrittenNumber::Big(_) => true,
        _ => false,
    }
}
