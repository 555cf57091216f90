//! Regular expressions.
ghost use Rattle.std.specs.Prelude.{◌≡◌, ◌≤◌, ◌+◌, ◌∷◌, Some, Ok, true, false, length, drop, is_some, slice_get, encode_utf8_all, IfOk, IsOk, OnErr, OnOk};
ghost use Rattle.ecma_place.specs.Atom.{AtomView, borrowed_atom};
ghost use Rattle.ecma_place.specs.Cursor.{rest, place, passed};
ghost use Rattle.ecma_place.specs.Text.{Text, byte_len};
ghost use Rattle.ecma_token.specs.View.{TokenView, owns_nothing, token_view};
ghost use Rattle.ecma_grammar.specs.Found.{found_view, found_at, placeless, token_behind, value_view};
ghost use Rattle.ecma_name.specs.NameParts.{cow_atom};
ghost use Rattle.ecma_grammar.specs.Expressions as expressions;
ghost use Rattle.ecma_grammar.specs.Fronts.{next_is};
ghost use Rattle.ecma_grammar.specs.Pieces.{remainder};
ghost use Rattle.ecma_regexp.specs.WrittenExpressions.{letter_if, body_if, behind_all, at_line_end, regex_of};

use ecma_grammar::found::Found;
use ecma_grammar::line::read_line;
use ecma_grammar::name_start::begins_name;
use ecma_name::name::read_name;
use ecma_place::{Atom, BytePos, CharExt, Span, StringInput};
use ecma_token::{Error, SyntaxError, Token};
use std::alloc::{AllocError, Global};
use std::borrow::CowStr;

/// Moves behind the backslash at the cursor and the character behind it, if that is no line terminator, and returns
/// whether it is none.
fn skip_quoted(input: &mut StringInput) -> bool
    requires { slice_get (rest input.old) 0 ≡ Some 92 }
    ensures value { result ≡ is_some (expressions.quoted (drop 1 (rest input.old))) }
    ensures moved { input.new ≡ passed (length (letter_if (expressions.quoted (drop 1 (rest input.old))))) input.old }
{
    match input.peek() {
        None => false,
        Some(c) => {
            if c.is_line_terminator() {
                return false;
            }
            input.bump();
            input.bump();
            true
        }
    }
}

/// Moves behind the letter of a class at the cursor, and returns whether there is one.
fn skip_class_letter(input: &mut StringInput) -> bool
    ensures value { result ≡ is_some (expressions.class_letter (rest input.old)) }
    ensures moved { input.new ≡ passed (length (letter_if (expressions.class_letter (rest input.old)))) input.old }
{
    match input.cur() {
        None => false,
        Some(c) => {
            if c == '\\' {
                return skip_quoted(input);
            }
            if c == ']' || c.is_line_terminator() {
                return false;
            }
            input.bump();
            true
        }
    }
}

/// Moves behind the letters of a class.
fn skip_class(input: &mut StringInput)
    ensures { input.new ≡ behind_all expressions.class_cutter input.old }
{
    'letters: while skip_class_letter(input) {}
}

/// Moves behind the class whose bracket is at the cursor, and returns whether another closes it. Where none does,
/// the cursor stays in its line.
fn skip_bracketed(input: &mut StringInput) -> bool
    requires { slice_get (rest input.old) 0 ≡ Some 91 }
    ensures value { result ≡ is_some (expressions.class_behind (drop 1 (rest input.old))) }
    ensures moved { result ≡ true → input.new ≡ passed (length (body_if (expressions.class_behind (drop 1 (rest input.old))))) input.old }
    ensures open { result ≡ false → next_is 47 (rest input.new) ≡ false }
    ensures line { result ≡ false → at_line_end input.new ≡ at_line_end input.old }
{
    input.bump();
    skip_class(input);
    input.eat_byte(b']')
}

/// Moves behind the piece of a body at the cursor, and returns whether there is one. Where there is none, the cursor
/// stays in its line, and at a slash where there is one.
fn skip_piece(input: &mut StringInput) -> bool
    ensures value { result ≡ is_some (expressions.body_piece (rest input.old)) }
    ensures moved { result ≡ true → input.new ≡ passed (length (body_if (expressions.body_piece (rest input.old)))) input.old }
    ensures slash { result ≡ false → next_is 47 (rest input.new) ≡ next_is 47 (rest input.old) }
    ensures stays { result ≡ false → next_is 47 (rest input.old) ≡ true → input.new ≡ input.old }
    ensures line { result ≡ false → at_line_end input.new ≡ at_line_end input.old }
{
    match input.cur() {
        None => false,
        Some(c) => {
            if c == '\\' {
                return skip_quoted(input);
            }
            if c == '[' {
                return skip_bracketed(input);
            }
            if c == '/' || c.is_line_terminator() {
                return false;
            }
            input.bump();
            true
        }
    }
}

/// Moves to the slash that closes the body at the cursor, or, where none does, to the end of the line, and returns
/// whether one does. Nothing is allocated.
fn skip_body(input: &mut StringInput) -> bool
    ensures closed { result ≡ next_is 47 (remainder expressions.body_cutter tt (rest input.old)) }
    ensures body { result ≡ true → input.new ≡ behind_all expressions.body_cutter input.old }
    ensures line { result ≡ false → input.new ≡ at_line_end input.old }
{
    'pieces: while skip_piece(input) {}
    if input.is_byte(b'/') {
        return true;
    }
    read_line(input);
    false
}

/// Reads the flags at the cursor: a name, where a start character is there, else nothing.
fn read_flags<'a>(
    alloc: Global,
    input: &mut StringInput<'a>,
) -> Result<Found<'a, CowStr<'a>>, AllocError>
    ensures found { IfOk result (λ f. found_view cow_atom f ≡
        found_at placeless (place input.old) (expressions.flags (rest input.old))) }
    ensures moved { OnOk result (input.new ≡ passed (length (expressions.flags (rest input.old)).spelling) input.old) }
    ensures free { (text : AtomView) → (expressions.flags (rest input.old)).value ≡ Ok text → text.is_borrowed ≡ true → IsOk result }
{
    if begins_name(input) {
        return read_name(alloc, input);
    }
    let here = input.cur_pos();
    Ok(Found {
        value: Ok(CowStr::Borrowed("")),
        faults: Vec::new(alloc),
        extent: Span::new(here, here),
        line_break: false,
    })
}

/// The text as an atom, borrowed or owned as it is.
fn flag_atom<'a>(text: CowStr<'a>) -> Atom<'a>
    ensures { result ≡ cow_atom text.entry }
{
    match text {
        CowStr::Borrowed(slice) => Atom::from(slice),
        CowStr::Owned(string) => Atom::from(string),
    }
}

/// The token of an expression with this body and these flags, or why they are refused.
fn regex_token<'a>(
    body: &'a str,
    flags: Result<CowStr<'a>, Error<'a>>,
) -> Result<Token<'a>, Error<'a>>
    ensures { value_view token_view result ≡ regex_of (borrowed_atom body.now) (value_view cow_atom flags.entry) }
{
    match flags {
        Ok(text) => Ok(Token::Regex(Atom::from(body), flag_atom(text))),
        Err(error) => Err(error),
    }
}

/// Reads the flags of an expression with this body, which started at the place and whose last slash is at the
/// cursor.
fn scan_closed<'a>(
    alloc: Global,
    input: &mut StringInput<'a>,
    start: BytePos,
    body: &'a str,
) -> Result<Found<'a, Token<'a>>, AllocError>
    requires slash { slice_get (rest input.old) 0 ≡ Some 47 }
    requires order { start.0 ≤ place input.old }
    ensures found { (text : Text) → body.now ≡ encode_utf8_all text → start.0 + byte_len (47 ∷ text) ≡ place input.old →
        IfOk result (λ f. found_view token_view f ≡
        found_at token_behind start.0 (expressions.closed_expression text (expressions.flags (drop 1 (rest input.old))))) }
    ensures moved { OnOk result (input.new ≡ passed (1 + length (expressions.flags (drop 1 (rest input.old))).spelling) input.old) }
    ensures free { (text : AtomView) → (expressions.flags (drop 1 (rest input.old))).value ≡ Ok text → text.is_borrowed ≡ true → IsOk result }
{
    input.bump();
    let flags = read_flags(alloc, input)?;
    Ok(Found {
        value: regex_token(body, flags.value),
        faults: flags.faults,
        extent: Span::new(start, flags.extent.hi),
        line_break: false,
    })
}

/// The regular expression at the cursor, behind which the cursor then is.
fn expression_at<'a>(
    alloc: Global,
    input: &mut StringInput<'a>,
) -> Result<Found<'a, Token<'a>>, AllocError>
    requires { expressions.opens_expression (rest input.old) ≡ true }
    ensures found { IfOk result (λ f. found_view token_view f ≡
        found_at token_behind (place input.old) (expressions.regular_expression (rest input.old))) }
    ensures moved { OnOk result (input.new ≡ passed (length (expressions.regular_expression (rest input.old)).spelling) input.old) }
    ensures free { (token : TokenView) → (expressions.regular_expression (rest input.old)).value ≡ Ok token
        → owns_nothing token ≡ true → IsOk result }
{
    let start = input.cur_pos();
    input.bump();
    let behind = input.cur_pos();
    if skip_body(input) {
        let body = input.slice(behind, input.cur_pos());
        return scan_closed(alloc, input, start, body);
    }
    let extent = Span::new(start, input.cur_pos());
    let error = Error::new(alloc, extent, SyntaxError::UnterminatedRegExp)?;
    Ok(Found {
        value: Err(error),
        faults: Vec::new(alloc),
        extent,
        line_break: false,
    })
}

/// Reads the regular expression at the cursor (ECMA-262 RegularExpressionLiteral, 12.9.5), and moves behind it: the body
/// between two slashes, and flags where a start character follows.
///
/// The cursor is at a slash. It returns a `Regex` with the body and the unescaped flags, or why it is refused:
///
/// - `UnterminatedRegExp` over the expression, which then reaches up to a line terminator or the end;
/// - the refusal of an escape in the flags.
///
/// A character that an escape of the flags names and that is not allowed there is a fault, `InvalidIdentChar` over the
/// escape. That flags are checked no further, and the spans of errors, are our own choice.
///
/// An expression that is not refused and has no escape in its flags does not allocate.
///
/// # Errors
///
/// `AllocError` where allocation fails for the flags or an error; the cursor is then where it was.
pub fn scan_regexp<'a>(
    alloc: Global,
    input: &mut StringInput<'a>,
) -> Result<Found<'a, Token<'a>>, AllocError>
    requires { expressions.opens_expression (rest input.old) ≡ true }
    ensures found { IfOk result (λ f. found_view token_view f ≡
        found_at token_behind (place input.old) (expressions.regular_expression (rest input.old))) }
    ensures moved { OnOk result (input.new ≡ passed (length (expressions.regular_expression (rest input.old)).spelling) input.old) }
    ensures free { (token : TokenView) → (expressions.regular_expression (rest input.old)).value ≡ Ok token
        → owns_nothing token ≡ true → IsOk result }
    ensures same { OnErr result (input.new ≡ input.old) }
{
    let before = input.clone()?;
    let found = expression_at(alloc, input);
    if found.is_err() {
        *input = before;
    }
    found
}
