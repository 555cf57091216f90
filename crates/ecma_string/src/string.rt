//! Strings.
ghost use Rattle.std.specs.Prelude.{◌≡◌, ◌≤◌, ◌++◌, true, false, Some, [], length, take, map, slice_get, encode_utf8_all, string_bytes, if◌then◌else◌, Ok, IfNone, IfOk, IfSome, IsOk, IsSome, OnErr, OnOk};
ghost use Rattle.std.specs.List.{prefix_len};
ghost use Rattle.ecma_place.specs.Atom.{AtomView};
ghost use Rattle.ecma_place.specs.Cursor.{rest, place, passed};
ghost use Rattle.ecma_place.specs.Run.{is_in_class, quote_byte};
ghost use Rattle.ecma_place.specs.declared.run.ByteClass.TheVariants.{Plain};
ghost use Rattle.ecma_token.specs.View.{TokenView, token_view, owns_nothing};
ghost use Rattle.ecma_grammar.specs.Found.{found_view, found_at, fault_view, fault_behind, value_view, value_behind, token_behind, span_of};
ghost use Rattle.ecma_grammar.specs.Fronts.{next_is};
ghost use Rattle.ecma_escape.specs.PieceParts.{quoted, faults_from, text_from, atom_from, behind_pieces, closing_faults};
ghost use Rattle.ecma_grammar.specs.Strings as strings;

use ecma_escape::escape::{Use, at_escape, push_escape};
use ecma_grammar::found::{Blame, Found, push_fault};
use ecma_place::{Atom, ByteClass, BytePos, Quote, Span, StringInput, plain_lanes};
use ecma_token::{Error, SyntaxError, Token};
use std::alloc::{AllocError, Global};
use std::simd::prelude::*;

/// Moves behind the quote at the cursor, and returns which it is.
#[inline(always)]
fn opening_quote(input: &mut StringInput) -> Quote
    requires { strings.opens_string (rest input.old) ≡ true }
    ensures quote { slice_get (rest input.old) 0 ≡ Some (quote_byte result) }
    ensures moved { input.new ≡ passed 1 input.old }
{
    let quote = if input.is_byte(b'"') {
        Quote::Double
    } else {
        Quote::Single
    };
    input.bump_bytes(1);
    quote
}

/// The byte of a quote.
#[inline(always)]
fn quote_byte(quote: Quote) -> u8
    ensures { result ≡ quote_byte quote }
{
    match quote {
        Quote::Single => b'\'',
        Quote::Double => b'"',
    }
}

// Moves behind the characters at the cursor that a string in these quotes holds as they are, of any length.
#[tactic(auto, using(crate::proofs::PlainRuns::plain_runs))]
#[inline(never)]
fn pass_long_run(input: &mut StringInput, quote: Quote)
    ensures { input.new ≡ passed (prefix_len (is_in_class (Plain quote)) (rest input.old)) input.old }
{
    input.bump_bytes(input.run_bytes(ByteClass::Plain(quote)) as usize);
}

/// Moves behind the characters at the cursor that a string in these quotes holds as they are.
#[inline(always)]
fn pass_plain(input: &mut StringInput, quote: Quote)
    ensures { input.new ≡ passed (prefix_len (is_in_class (Plain quote)) (rest input.old)) input.old }
{
    // Most strings end within the 16 bytes at the cursor.
    if let Some(chunk) = input.chunk() {
        let length = plain_lanes(u8x16::from_array(*chunk), quote);
        if length < 16 {
            input.bump_bytes(length as usize);
            return;
        }
    }
    pass_long_run(input, quote);
}

/// Moves behind the characters at the cursor that a string in these quotes holds as they are, and returns their text.
#[tactic(auto, using(crate::proofs::PlainRuns::plain_runs))]
fn plain_text<'a>(input: &mut StringInput<'a>, quote: Quote) -> &'a str
    ensures text { result.now ≡ encode_utf8_all (take (prefix_len (is_in_class (Plain quote)) (rest input.old)) (rest input.old)) }
    ensures moved { input.new ≡ passed (prefix_len (is_in_class (Plain quote)) (rest input.old)) input.old }
{
    let start = input.cur_pos();
    pass_plain(input, quote);
    input.slice(start, input.cur_pos())
}

/// Moves behind the pieces of a string at the cursor, and returns their text behind `before`, or the error of a
/// refused escape. No character that is its own value is at the cursor.
fn escaped_text<'a>(
    alloc: Global,
    input: &mut StringInput<'a>,
    quote: Quote,
    before: &str,
    faults: &mut Vec<(Blame, Error<'a>)>,
) -> Result<Result<String, Error<'a>>, AllocError>
    requires { prefix_len (is_in_class (Plain quote)) (rest input.old) ≡ 0 }
    ensures value { IfOk result (λ r. value_view string_bytes r ≡ text_from quote before.now input.old) }
    ensures faults { OnOk result (map fault_view faults.new.items ≡ map fault_view faults.old.items ++ faults_from (quoted quote) tt input.old) }
    ensures moved { OnOk result (input.new ≡ behind_pieces quote input.old) }
{
    let mut text = String::from_str(alloc, before)?;
    'pieces: while at_escape(input) {
        match push_escape(alloc, input, Use::InString, &mut text, faults)? {
            Some(error) => return Ok(Err(error)),
            None => {}
        }
        text.push_str(plain_text(input, quote))?;
    }
    Ok(Ok(text))
}

/// Moves behind the pieces of a string, whose quote is just before the cursor, and returns their value: a slice where
/// they hold no escape, which does not allocate.
fn string_value<'a>(
    alloc: Global,
    input: &mut StringInput<'a>,
    quote: Quote,
    faults: &mut Vec<(Blame, Error<'a>)>,
) -> Result<Result<Atom<'a>, Error<'a>>, AllocError>
    ensures value { IfOk result (λ r. value_view (λ atom. atom) r ≡ atom_from quote input.old) }
    ensures faults { OnOk result (map fault_view faults.new.items ≡ map fault_view faults.old.items ++ faults_from (quoted quote) tt input.old) }
    ensures moved { OnOk result (input.new ≡ behind_pieces quote input.old) }
    ensures free { (atom : AtomView) → atom_from quote input.old ≡ Ok atom → atom.is_borrowed ≡ true → IsOk result }
{
    let plain = plain_text(input, quote);
    if !at_escape(input) {
        return Ok(Ok(Atom::from(plain)));
    }
    match escaped_text(alloc, input, quote, plain, faults)? {
        Ok(text) => Ok(Ok(Atom::from(text))),
        Err(error) => Ok(Err(error)),
    }
}

/// Moves behind the closing quote of the string that starts at `start`, or adds the fault of one that is not closed.
fn close_string<'a>(
    alloc: Global,
    input: &mut StringInput<'a>,
    quote: Quote,
    start: BytePos,
    faults: &mut Vec<(Blame, Error<'a>)>,
) -> Result<(), AllocError>
    requires { start.0 ≤ place input.old }
    ensures faults { OnOk result (map fault_view faults.new.items ≡ map fault_view faults.old.items
        ++ closing_faults (next_is (quote_byte quote) (rest input.old)) start.0 (place input.old)) }
    ensures moved { OnOk result (input.new
        ≡ (if next_is (quote_byte quote) (rest input.old) then passed 1 input.old else input.old)) }
    ensures free { next_is (quote_byte quote) (rest input.old) ≡ true → IsOk result }
{
    if input.eat_byte(quote_byte(quote)) {
        return Ok(());
    }
    let span = Span::new(start, input.cur_pos());
    push_fault(
        alloc,
        faults,
        Blame::Always,
        span,
        SyntaxError::UnterminatedStrLit,
    )
}

/// Moves behind the string at the cursor, and returns its token, or the error of a refused escape.
fn string_token<'a>(
    alloc: Global,
    input: &mut StringInput<'a>,
    faults: &mut Vec<(Blame, Error<'a>)>,
) -> Result<Result<Token<'a>, Error<'a>>, AllocError>
    requires { strings.opens_string (rest input.old) ≡ true }
    ensures value { IfOk result (λ r. value_view token_view r
        ≡ value_behind token_behind (place input.old) (strings.string_literal (rest input.old)).value) }
    ensures faults { OnOk result (map fault_view faults.new.items ≡ map fault_view faults.old.items
        ++ map (fault_behind (place input.old)) (strings.string_literal (rest input.old)).faults) }
    ensures moved { OnOk result (input.new ≡ passed (length (strings.string_literal (rest input.old)).spelling) input.old) }
    ensures free { (token : TokenView) → (strings.string_literal (rest input.old)).value ≡ Ok token → owns_nothing token ≡ true
        → (strings.string_literal (rest input.old)).faults ≡ [] → IsOk result }
{
    let start = input.cur_pos();
    let quote = opening_quote(input);
    match string_value(alloc, input, quote, faults)? {
        Err(error) => Ok(Err(error)),
        Ok(value) => {
            close_string(alloc, input, quote, start, faults)?;
            let raw = Atom::from(input.slice(start, input.cur_pos()));
            Ok(Ok(Token::Str { value, raw }))
        }
    }
}

/// Reads the string at the cursor (ECMA-262 StringLiteral, 12.9.4, with the octal escapes of Annex B).
///
/// The cursor is at a quote. The value borrows from the source where the string holds no escape, the raw text
/// always does. CR, LF or the end of the text end a string that is not closed, which is a fault from its quote on (our
/// own choice); U+2028 and U+2029 do not. Octal escapes are faults of strict code. A refused escape refuses all from
/// the quote up to where reading goes on. A string without an escape and without a fault does not allocate.
///
/// # Errors
///
/// `AllocError` where allocation fails for the value or an error; the cursor is then where it was.
pub fn scan_string<'a>(
    alloc: Global,
    input: &mut StringInput<'a>,
) -> Result<Found<'a, Token<'a>>, AllocError>
    requires { strings.opens_string (rest input.old) ≡ true }
    ensures found { IfOk result (λ f. found_view token_view f ≡
        found_at token_behind (place input.old) (strings.string_literal (rest input.old))) }
    ensures moved { OnOk result (input.new ≡ passed (length (strings.string_literal (rest input.old)).spelling) input.old) }
    ensures free { (token : TokenView) → (strings.string_literal (rest input.old)).value ≡ Ok token → owns_nothing token ≡ true
        → (strings.string_literal (rest input.old)).faults ≡ [] → IsOk result }
    ensures same { OnErr result (input.new ≡ input.old) }
{
    let before = input.clone()?;
    let start = input.cur_pos();
    let mut faults = Vec::new(alloc);
    let Ok(value) = string_token(alloc, input, &mut faults) else {
        *input = before;
        return Err(AllocError);
    };
    Ok(Found {
        value,
        faults,
        extent: Span::new(start, input.cur_pos()),
        line_break: false,
    })
}

/// Reads the string at the cursor (ECMA-262 StringLiteral, 12.9.4), and moves behind it, where it is closed and holds no
/// escape: its token is what [`scan_string`] finds, with nothing else to report.
///
/// The cursor is at a quote. Where the string holds an escape or is not closed it returns `None`, and the cursor
/// stays. Nothing is allocated: value and raw text borrow from the source. Our own, for speed.
#[inline(always)]
pub fn eat_plain_string<'a>(input: &mut StringInput<'a>) -> Option<Token<'a>>
    requires { strings.opens_string (rest input.old) ≡ true }
    ensures found { IfSome result (λ t. found_at token_behind (place input.old) (strings.string_literal (rest input.old))
        ≡ record { value = Ok (token_view t); faults = []; extent = span_of (place input.old) (place input.new); line_break = false }) }
    ensures moved { IfSome result (λ t. input.new ≡ passed (length (strings.string_literal (rest input.old)).spelling) input.old) }
    ensures plain { (token : TokenView) → (strings.string_literal (rest input.old)).value ≡ Ok token → owns_nothing token ≡ true
        → (strings.string_literal (rest input.old)).faults ≡ [] → IsSome result }
    ensures same { IfNone result (input.new ≡ input.old) }
{
    let start = input.cur_pos();
    let quote = opening_quote(input);
    let from = input.cur_pos();
    pass_plain(input, quote);
    let to = input.cur_pos();
    if !input.eat_byte(quote_byte(quote)) {
        input.reset_to(start);
        return None;
    }
    Some(Token::Str {
        value: Atom::from(input.slice(from, to)),
        raw: Atom::from(input.slice(start, input.cur_pos())),
    })
}
