//! Escapes.
ghost use Rattle.std.specs.Prelude.{◌≡◌, ◌-◌, ◌≤◌, ◌<◌, ◌==◌, nat_lt, true, false, Some, None, if◌then◌else◌, length, drop, slice_get};
ghost use Rattle.std.specs.Str.Parse.{AllDigits, digits_value};
ghost use Rattle.ecma_place.specs.Cursor.{rest, passed};
ghost use Rattle.ecma_place.specs.Text.{Text};
ghost use Rattle.ecma_grammar.specs.Fronts.{next_passes, after};
ghost use Rattle.ecma_grammar.specs.Escapes as escapes;
ghost use Rattle.std.specs.Prelude.{ℕ, ◌^◌, IfOk, OnErr, OnOk, IsOk, Ok, encode_utf8_all, [], ◌++◌, ◌+◌, map, option_map, string_bytes};
ghost use Rattle.ecma_place.specs.Cursor.{place};
ghost use Rattle.ecma_token.specs.View.{kind_view, error_view};
ghost use Rattle.ecma_grammar.specs.Found.{found_view, found_at, placeless, fault_view, fault_behind, error_behind, span_behind};
ghost use Rattle.ecma_escape.specs.EscapeMeanings.{refusal_kind, refusal_error, use_of, answered, is_digit_in, digit_front, is_word, opens_escape};
ghost use Rattle.ecma_escape.specs.EscapeParts.{answer_value, answer_faults, use_in};
ghost use Rattle.ecma_escape.specs.declared.escape.Refusal.TheVariants.{NoBrace};
ghost use Rattle.ecma_escape.specs.declared.escape.Meaning.TheVariants.{Nothing, Octal};

use ecma_grammar::found::{Blame, Found, push_fault};
use ecma_place::{Atom, BytePos, CharExt, Span, StringInput};
use ecma_token::{Error, SyntaxError};
use std::alloc::{AllocError, Global};

/// Where an escape is.
#[derive(Clone, Copy)]
pub enum Use {
    /// In a string.
    InString,
    /// In the text of a template.
    InTemplate,
    /// In a word.
    InWord,
}

/// Why an escape is refused.
#[derive(Clone, Copy)]
pub enum Refusal {
    /// `\x` without two hexadecimal digits.
    TwoDigits,
    /// `\u` without four hexadecimal digits.
    FourDigits,
    /// Braces without a hexadecimal digit.
    NoDigits,
    /// A number in braces past 10FFFF.
    OutOfRange,
    /// Braces that are not closed.
    NoBrace,
    /// Another escape than one of a code point, in a word.
    NoCodePoint,
    /// A backslash that ends the text.
    AtEnd,
    /// Octal digits, in a template.
    Octal,
}

/// What an escape means.
#[derive(Clone, Copy)]
pub enum Meaning {
    /// Nothing: a line terminator that is passed over.
    Nothing,
    /// A character.
    Character(char),
    /// A character by its octal digits, which strict code does not have.
    Octal(char),
    /// A surrogate, which is no character: what is written of it.
    Spelling,
    /// It is refused.
    Refused(Refusal),
}

/// Whether a digit is at the cursor.
fn is_at_digit(input: &StringInput, radix: u32) -> bool
    requires lower { 2 ≤ radix }
    requires upper { radix ≤ 36 }
    ensures { result ≡ next_passes (is_digit_in radix) (rest input.now) }
{
    match input.cur() {
        Some(c) => c.is_digit(radix),
        None => false,
    }
}

/// Moves behind the digits at the cursor, but not behind more than `most`, and returns them.
#[tactic(auto, using(crate::proofs::EscapeReading::digit_fronts))]
fn some_digits<'a>(input: &mut StringInput<'a>, radix: u32, most: u32) -> &'a str
    requires lower { 2 ≤ radix }
    requires upper { radix ≤ 36 }
    ensures text { result.now ≡ digit_front radix most (rest input.old) }
    ensures moved { input.new ≡ passed (length (digit_front radix most (rest input.old))) input.old }
{
    let start = input.cur_pos();
    let mut left = most;
    'digits: while left > 0 && is_at_digit(input, radix) {
        input.bump();
        left -= 1;
    }
    input.slice(start, input.cur_pos())
}

/// Moves behind the hexadecimal digits at the cursor, and returns them.
#[tactic(auto, using(crate::proofs::EscapeReading::hex_runs))]
fn hex_run<'a>(input: &mut StringInput<'a>) -> &'a str
    ensures text { result.now ≡ escapes.hex_front (rest input.old) }
    ensures moved { input.new ≡ passed (length (escapes.hex_front (rest input.old))) input.old }
{
    let start = input.cur_pos();
    'chars: while let Some(c) = input.cur() {
        if !c.is_digit(16) {
            break;
        }
        input.bump();
    }
    input.slice(start, input.cur_pos())
}

/// The escape of a code point.
fn code_escape(code: u32) -> Meaning
    requires { code ≤ 0x10_FFFF }
    ensures { (within : escapes.Use) (spelling : Text) → answered within spelling result ≡ escapes.code_escape within spelling code }
{
    match char::from_u32(code) {
        Some(c) => Meaning::Character(c),
        None => Meaning::Spelling,
    }
}

/// The escape whose `\x` is just before the cursor.
fn hex_escape(input: &mut StringInput) -> Meaning
    ensures answer { (within : escapes.Use) → let e = escapes.hex_escape (digit_front 16 2 (rest input.old)) in
        answered within (escapes.escape_spelling e) result ≡ e }
    ensures moved { let e = escapes.hex_escape (digit_front 16 2 (rest input.old)) in
        input.new ≡ passed (length (escapes.escape_spelling e) - 2) input.old }
{
    let digits = some_digits(input, 16, 2);
    match u8::from_str_radix(digits, 16) {
        Ok(value) if digits.len() == 2 => Meaning::Character(char::from(value)),
        _ => Meaning::Refused(Refusal::TwoDigits),
    }
}

/// The escape whose `\u` is just before the cursor, without braces.
fn four_escape(input: &mut StringInput) -> Meaning
    ensures answer { (within : escapes.Use) → let e = escapes.four_escape within (digit_front 16 4 (rest input.old)) in
        answered within (escapes.escape_spelling e) result ≡ e }
    ensures moved { (within : escapes.Use) → let e = escapes.four_escape within (digit_front 16 4 (rest input.old)) in
        input.new ≡ passed (length (escapes.escape_spelling e) - 2) input.old }
{
    let digits = some_digits(input, 16, 4);
    match u16::from_str_radix(digits, 16) {
        Ok(code) if digits.len() == 4 => code_escape(u32::from(code)),
        _ => Meaning::Refused(Refusal::FourDigits),
    }
}

/// The code point that the digits write, where it is one.
fn code_point(digits: &str) -> Option<u32>
    requires digits { AllDigits 16 digits.now }
    requires some { 0 < length digits.now }
    ensures { result ≡ (if nat_lt 0x10_FFFF (digits_value 16 digits.now) then None else Some (digits_value 16 digits.now)) }
{
    match u32::from_str_radix(digits, 16) {
        Ok(code) if code <= 0x10_FFFF => Some(code),
        _ => None,
    }
}

/// The escape whose `\u{` is just before the cursor.
fn braced_escape(input: &mut StringInput) -> Meaning
    ensures answer { (within : escapes.Use) → let e = escapes.braced_escape within (escapes.hex_front (rest input.old)) (after escapes.is_hex_digit (rest input.old)) in
        answered within (escapes.escape_spelling e) result ≡ e }
    ensures moved { (within : escapes.Use) → let e = escapes.braced_escape within (escapes.hex_front (rest input.old)) (after escapes.is_hex_digit (rest input.old)) in
        input.new ≡ passed (length (escapes.escape_spelling e) - 3) input.old }
{
    let digits = hex_run(input);
    if digits.is_empty() {
        return Meaning::Refused(Refusal::NoDigits);
    }
    match code_point(digits) {
        None => Meaning::Refused(Refusal::OutOfRange),
        Some(code) => {
            if input.eat_byte(b'}') {
                code_escape(code)
            } else {
                Meaning::Refused(Refusal::NoBrace)
            }
        }
    }
}

/// The escape whose `\u` is just before the cursor.
fn unicode_escape(input: &mut StringInput) -> Meaning
    ensures answer { (within : escapes.Use) → let e = escapes.unicode_escape within (rest input.old) in
        answered within (escapes.escape_spelling e) result ≡ e }
    ensures moved { (within : escapes.Use) → let e = escapes.unicode_escape within (rest input.old) in
        input.new ≡ passed (length (escapes.escape_spelling e) - 2) input.old }
{
    if input.eat_byte(b'{') {
        braced_escape(input)
    } else {
        four_escape(input)
    }
}

/// Moves behind the octal digits at the cursor, at most three and as long as their value is below 256, and returns
/// the character of that value.
fn octal_character(input: &mut StringInput, first: char) -> char
    requires first { slice_get (rest input.old) 0 ≡ Some first }
    requires digit { escapes.is_octal_digit first ≡ true }
    ensures value { result ≡ digits_value 8 (escapes.octal_digits (rest input.old)) }
    ensures moved { input.new ≡ passed (length (escapes.octal_digits (rest input.old))) input.old }
{
    let most = if first <= '3' { 3 } else { 2 };
    let digits = some_digits(input, 8, most);
    char::from(u8::from_str_radix(digits, 8).unwrap())
}

/// Whether an octal digit follows the first character.
fn octal_digit_follows(input: &StringInput) -> bool
    ensures { result ≡ next_passes escapes.is_octal_digit (drop 1 (rest input.now)) }
{
    match input.peek() {
        Some(second) => second.is_digit(8),
        None => false,
    }
}

/// The escape whose backslash is just before the cursor and whose octal digit at it.
fn octal_escape(input: &mut StringInput, within: Use, first: char) -> Meaning
    requires first { slice_get (rest input.old) 0 ≡ Some first }
    requires digit { escapes.is_octal_digit first ≡ true }
    ensures answer { let e = escapes.octal_escape (use_of within) first (drop 1 (rest input.old)) in
        answered (use_of within) (escapes.escape_spelling e) result ≡ e }
    ensures moved { let e = escapes.octal_escape (use_of within) first (drop 1 (rest input.old)) in
        input.new ≡ passed (length (escapes.escape_spelling e) - 1) input.old }
{
    if first == '0' && !octal_digit_follows(input) {
        input.bump();
        Meaning::Character('\0')
    } else if matches!(within, Use::InTemplate) {
        input.bump();
        Meaning::Refused(Refusal::Octal)
    } else {
        Meaning::Octal(octal_character(input, first))
    }
}

/// Moves behind the line terminator at the cursor; CR LF is one.
fn skip_line_end(input: &mut StringInput, first: char)
    requires { slice_get (rest input.old) 0 ≡ Some first }
    ensures { input.new ≡ passed (length (escapes.line_end first (drop 1 (rest input.old)))) input.old }
{
    input.bump();
    if first == '\r' {
        input.eat_byte(b'\n');
    }
}

/// What a character behind a backslash means.
fn single_value(c: char) -> char
    ensures { result ≡ escapes.single_value c }
{
    match c {
        'b' => '\u{8}',
        't' => '\t',
        'n' => '\n',
        'v' => '\u{b}',
        'f' => '\u{c}',
        'r' => '\r',
        _ => c,
    }
}

/// The escape whose backslash is just before the cursor, which is none of a code point, in a string or a template.
fn escape_at(input: &mut StringInput, within: Use, first: char) -> Meaning
    requires first { slice_get (rest input.old) 0 ≡ Some first }
    requires other { (first == 117) ≡ false }
    requires within { is_word within ≡ false }
    ensures answer { let e = escapes.escape_of (use_of within) (escapes.lead first) first (drop 1 (rest input.old)) in
        answered (use_of within) (escapes.escape_spelling e) result ≡ e }
    ensures moved { let e = escapes.escape_of (use_of within) (escapes.lead first) first (drop 1 (rest input.old)) in
        input.new ≡ passed (length (escapes.escape_spelling e) - 1) input.old }
{
    if first == 'x' {
        input.bump();
        hex_escape(input)
    } else if first.is_digit(8) {
        octal_escape(input, within, first)
    } else if first.is_line_terminator() {
        skip_line_end(input, first);
        Meaning::Nothing
    } else {
        input.bump();
        Meaning::Character(single_value(first))
    }
}

/// Whether it is in a word.
fn is_word(within: Use) -> bool
    ensures { result ≡ is_word within }
{
    matches!(within, Use::InWord)
}

/// Moves behind the escape at the cursor, and returns what it means.
///
/// A backslash is at the cursor. Nothing is allocated.
pub fn read_escape(input: &mut StringInput, within: Use) -> Meaning
    requires { opens_escape (rest input.old) ≡ true }
    ensures answer { let e = escapes.escape (use_of within) (rest input.old) in
        answered (use_of within) (escapes.escape_spelling e) result ≡ e }
    ensures moved { let e = escapes.escape (use_of within) (rest input.old) in
        input.new ≡ passed (length (escapes.escape_spelling e)) input.old }
{
    input.bump();
    if input.eat_byte(b'u') {
        return unicode_escape(input);
    }
    if is_word(within) {
        return Meaning::Refused(Refusal::NoCodePoint);
    }
    match input.cur() {
        None => Meaning::Refused(Refusal::AtEnd),
        Some(first) => escape_at(input, within, first),
    }
}

/// The kind of error of a refusal.
pub fn refusal_kind<'a>(refusal: Refusal) -> SyntaxError<'a>
    ensures { kind_view result ≡ refusal_kind refusal }
{
    match refusal {
        Refusal::TwoDigits => SyntaxError::BadCharacterEscapeSequence {
            expected: "2 hex characters",
        },
        Refusal::FourDigits => SyntaxError::BadCharacterEscapeSequence {
            expected: "4 hex characters",
        },
        Refusal::NoDigits => SyntaxError::BadCharacterEscapeSequence {
            expected: "1-6 hex characters",
        },
        Refusal::OutOfRange => SyntaxError::BadCharacterEscapeSequence {
            expected: "1-6 hex characters in the range 0 to 10FFFF.",
        },
        Refusal::NoBrace => SyntaxError::InvalidUnicodeEscape,
        Refusal::NoCodePoint => SyntaxError::ExpectedUnicodeEscape,
        Refusal::AtEnd => SyntaxError::InvalidStrEscape,
        Refusal::Octal => SyntaxError::LegacyOctal,
    }
}

/// Whether a backslash is at the cursor.
pub fn at_escape(input: &StringInput) -> bool
    ensures { result ≡ opens_escape (rest input.now) }
{
    input.is_byte(b'\\')
}

/// Where the error of a refused escape lies; the escape reaches from `start` to `end`.
pub fn refusal_span(refusal: Refusal, within: Use, start: BytePos, end: BytePos) -> Span
    requires order { start.0 ≤ end.0 }
    requires brace { is_word within ≡ true → refusal ≡ NoBrace → start.0 + 3 ≤ end.0 }
    ensures { result ≡ span_behind start.0 (refusal_error (use_of within) refusal (end.0 - start.0)).span }
{
    match refusal {
        Refusal::NoCodePoint | Refusal::AtEnd => Span::new(start, start),
        Refusal::TwoDigits | Refusal::Octal => Span::new(start, end),
        Refusal::NoBrace if is_word(within) => Span::new(BytePos(start.0 + 3), end),
        _ if is_word(within) => Span::new(end, end),
        _ => Span::new(start, end),
    }
}

/// The error of a refused escape that reaches from `start` to `end`.
pub fn error_of_refusal<'a>(
    alloc: Global,
    refusal: Refusal,
    within: Use,
    start: BytePos,
    end: BytePos,
) -> Result<Error<'a>, AllocError>
    requires order { start.0 ≤ end.0 }
    requires brace { is_word within ≡ true → refusal ≡ NoBrace → start.0 + 3 ≤ end.0 }
    ensures { IfOk result (λ e. error_view e ≡ error_behind start.0 (refusal_error (use_of within) refusal (end.0 - start.0))) }
{
    let span = refusal_span(refusal, within, start, end);
    Error::new(alloc, span, refusal_kind(refusal))
}

/// Adds what an escape means, which is written so. An escape with an empty meaning does not allocate.
pub fn push_value(text: &mut String, answer: Meaning, spelling: &str) -> Result<(), AllocError>
    ensures text { OnOk result (string_bytes text.new ≡ string_bytes text.old ++ answer_value spelling.now answer) }
    ensures free { answer ≡ Nothing → IsOk result }
{
    match answer {
        Meaning::Nothing | Meaning::Refused(_) => Ok(()),
        Meaning::Character(c) | Meaning::Octal(c) => text.push(c),
        Meaning::Spelling => text.push_str(spelling),
    }
}

/// Adds what is wrong with an escape at `start` in a string or a template.
fn push_octal_fault<'a>(
    alloc: Global,
    faults: &mut Vec<(Blame, Error<'a>)>,
    answer: Meaning,
    start: BytePos,
) -> Result<(), AllocError>
    requires { (c : ℕ) → answer ≡ Octal c → start.0 + 2 < 2 ^ 32 }
    ensures faults { OnOk result (map fault_view faults.new.items ≡ map fault_view faults.old.items
        ++ map (fault_behind start.0) (answer_faults answer)) }
    ensures free { answer_faults answer ≡ [] → IsOk result }
{
    if let Meaning::Octal(_) = answer {
        let span = Span::new(start, BytePos(start.0 + 2));
        push_fault(alloc, faults, Blame::Strict, span, SyntaxError::LegacyOctal)?;
    }
    Ok(())
}

/// Moves behind the escape at the cursor. What it means is added to the text, and what is wrong with it to the
/// faults; it returns the error of one that is refused.
///
/// A backslash is at the cursor, in a string or a template. An escape with an empty meaning does not allocate.
pub fn push_escape<'a>(
    alloc: Global,
    input: &mut StringInput<'a>,
    within: Use,
    text: &mut String,
    faults: &mut Vec<(Blame, Error<'a>)>,
) -> Result<Option<Error<'a>>, AllocError>
    requires opens { opens_escape (rest input.old) ≡ true }
    requires within { is_word within ≡ false }
    ensures refusal { IfOk result (λ r. option_map error_view r
        ≡ option_map (error_behind (place input.old)) (escapes.escape_refusal (escapes.escape (use_of within) (rest input.old)))) }
    ensures text { OnOk result (string_bytes text.new
        ≡ string_bytes text.old ++ encode_utf8_all (escapes.escape_value (escapes.escape (use_of within) (rest input.old)))) }
    ensures faults { OnOk result (map fault_view faults.new.items ≡ map fault_view faults.old.items
        ++ map (fault_behind (place input.old)) (escapes.escape_faults (escapes.escape (use_of within) (rest input.old)))) }
    ensures moved { OnOk result (input.new
        ≡ passed (length (escapes.escape_spelling (escapes.escape (use_of within) (rest input.old)))) input.old) }
    ensures free { escapes.escape_value (escapes.escape (use_of within) (rest input.old)) ≡ []
        → escapes.escape_refusal (escapes.escape (use_of within) (rest input.old)) ≡ None → IsOk result }
{
    let start = input.cur_pos();
    let answer = read_escape(input, within);
    if let Meaning::Refused(refusal) = answer {
        let error = error_of_refusal(alloc, refusal, within, start, input.cur_pos())?;
        return Ok(Some(error));
    }
    push_value(text, answer, input.slice(start, input.cur_pos()))?;
    push_octal_fault(alloc, faults, answer, start)?;
    Ok(None)
}

/// The text of an escape's value, if it is not empty.
fn value_atom<'a>(text: String) -> Option<Atom<'a>>
    ensures { (value : Text) → string_bytes text ≡ encode_utf8_all value → result ≡ escapes.value_atom value }
{
    if text.is_empty() {
        None
    } else {
        Some(Atom::from(text))
    }
}

/// Where an escape by itself is.
fn use_in(in_template: bool) -> Use
    ensures place { use_of result ≡ use_in in_template }
    ensures other { is_word result ≡ false }
{
    if in_template {
        Use::InTemplate
    } else {
        Use::InString
    }
}

/// Reads the escape at the cursor (ECMA-262 EscapeSequence, 12.9.4, with LegacyOctalEscapeSequence of Annex B), in a
/// string or in a template.
///
/// A backslash is at the cursor. The value is the text that the escape means: nothing for a line terminator,
/// and for a surrogate, which is no character, all that is written of the escape (our own choice). An octal escape in
/// a string is a fault of strict code. A refused escape is read up to where reading goes on: `\x` without two
/// hexadecimal digits and `\u` without four, or without one to 10FFFF in braces, up to behind the digits that are
/// there, an octal escape in a template up to behind its first digit, a backslash that ends the text with nothing more.
/// An escape with an empty meaning does not allocate.
///
/// # Errors
///
/// `AllocError` where allocation fails for the value or an error; the cursor is then where it was.
pub fn scan_escape<'a>(
    alloc: Global,
    input: &mut StringInput<'a>,
    in_template: bool,
) -> Result<Found<'a, Option<Atom<'a>>>, AllocError>
    requires { opens_escape (rest input.old) ≡ true }
    ensures found { IfOk result (λ f. found_view (λ value. value) f ≡
        found_at placeless (place input.old) (escapes.scanned_escape (use_in in_template) (rest input.old))) }
    ensures moved { OnOk result (input.new
        ≡ passed (length (escapes.scanned_escape (use_in in_template) (rest input.old)).spelling) input.old) }
    ensures free { (escapes.scanned_escape (use_in in_template) (rest input.old)).value ≡ Ok None → IsOk result }
    ensures same { OnErr result (input.new ≡ input.old) }
{
    let before = input.clone()?;
    let start = input.cur_pos();
    let mut text = String::new(alloc);
    let mut faults = Vec::new(alloc);
    let Ok(refusal) = push_escape(alloc, input, use_in(in_template), &mut text, &mut faults) else {
        *input = before;
        return Err(AllocError);
    };
    let value = match refusal {
        None => Ok(value_atom(text)),
        Some(error) => Err(error),
    };
    Ok(Found {
        value,
        faults,
        extent: Span::new(start, input.cur_pos()),
        line_break: false,
    })
}
