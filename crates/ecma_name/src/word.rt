//! Words.
ghost use Rattle.std.specs.Prelude.{◌≡◌, true, false, length, encode_utf8_all, string_bytes, Result, Ok, Err, IfNone, IfOk, IfSome, IsOk, OnErr, OnOk};
ghost use Rattle.ecma_escape.specs.EscapeMeanings.{opens_escape};
ghost use Rattle.std.specs.List.{prefix_len, take_while};
ghost use Rattle.ecma_place.specs.Atom.{AtomView, owned_atom};
ghost use Rattle.ecma_place.specs.Character.{is_ident_part};
ghost use Rattle.ecma_place.specs.Cursor.{rest, place, passed};
ghost use Rattle.ecma_syntax.specs.Reserved.{is_reserved};
ghost use Rattle.ecma_syntax.specs.Word.{word_of, word_kind};
ghost use Rattle.ecma_syntax.specs.declared.context.Context.{Context};
ghost use Rattle.ecma_grammar.specs.Found.{found_view, found_at, placeless, scanned, value_view};
ghost use Rattle.ecma_name.specs.NameParts.{cow_atom, escaped_word_at, word_at};
ghost use Rattle.ecma_grammar.specs.Words as words;

use crate::name::{part_characters, read_name};
use ecma_escape::escape::at_escape;
use ecma_grammar::found::Found;
use ecma_place::{Atom, Span, StringInput, part_lanes};
use ecma_syntax::{Context, IdentKind, IdentLike, Word, WordKind, kind_in};
use ecma_token::{Error, SyntaxError};
use std::alloc::{AllocError, Global};
use std::borrow::CowStr;
use std::simd::prelude::*;

/// The row of the table of words for this text.
fn kind_of(text: &str) -> WordKind
    ensures { result ≡ word_kind (word_of text.now) }
{
    let word = Word::from_str(text);
    word.kind()
}

/// The word with this text, which an other name owns.
#[tactic(auto, using(crate::proofs::WordReading::rows))]
fn owned_word<'a>(text: String) -> Word<'a>
    ensures { result ≡ words.owned_word (word_of (string_bytes text)) }
{
    match kind_of(text.as_str()) {
        WordKind::Keyword(keyword) => Word::Keyword(keyword),
        WordKind::Null => Word::Null,
        WordKind::True => Word::True,
        WordKind::False => Word::False,
        WordKind::Ident(IdentKind::Known(known)) => Word::Ident(IdentLike::Known(known)),
        WordKind::Ident(IdentKind::Other) => Word::Ident(IdentLike::Other(Atom::from(text))),
    }
}

/// Whether the word with this text is reserved.
fn is_reserved(context: &Context, text: &str) -> bool
    ensures { result ≡ is_reserved context.now (word_of text.now) }
{
    context.is_reserved(&Word::from_str(text))
}

/// The word with this text that is written with an escape over this span: none that is reserved (12.7.2).
fn escaped_word<'a>(
    alloc: Global,
    context: &Context,
    text: String,
    span: Span,
) -> Result<Result<Word<'a>, Error<'a>>, AllocError>
    ensures { IfOk result (λ r. value_view (λ w. w) r ≡ escaped_word_at context.now span (owned_atom (string_bytes text))) }
{
    if is_reserved(context, text.as_str()) {
        let kind = SyntaxError::EscapeInReservedWord {
            word: Atom::from(text),
        };
        return Ok(Err(Error::new(alloc, span, kind)?));
    }
    Ok(Ok(owned_word(text)))
}

/// The word of a name over this span. A name that borrows its text does not allocate.
fn word_of_name<'a>(
    alloc: Global,
    context: &Context,
    name: Result<CowStr<'a>, Error<'a>>,
    span: Span,
) -> Result<Result<Word<'a>, Error<'a>>, AllocError>
    ensures word { IfOk result (λ r. value_view (λ w. w) r ≡ word_at context.now span (value_view cow_atom name.entry)) }
    ensures free { (text : AtomView) → value_view cow_atom name.entry ≡ Ok text → text.is_borrowed ≡ true → IsOk result }
{
    match name {
        Err(error) => Ok(Err(error)),
        Ok(CowStr::Borrowed(text)) => Ok(Ok(Word::from_str(text))),
        Ok(CowStr::Owned(text)) => escaped_word(alloc, context, text, span),
    }
}

// The kind of the word at the cursor, where it has fewer than 16 bytes, all of them ASCII, and an ASCII character that is no
// backslash is behind them: it is passed. Else the cursor stays.
#[inline(always)]
fn eat_short_kind(input: &mut StringInput) -> Option<WordKind>
    ensures kind { IfSome result (λ k. k ≡ word_kind (word_of (encode_utf8_all (take_while is_ident_part (rest input.old))))) }
    ensures moved { IfSome result (λ k. input.new ≡ passed (prefix_len is_ident_part (rest input.old)) input.old) }
    ensures plain { IfSome result (λ k. opens_escape (rest input.new) ≡ false) }
    ensures none { IfNone result (input.new ≡ input.old) }
{
    let chunk = input.chunk()?;
    let length = part_lanes(u8x16::from_array(*chunk));
    if length >= 16 {
        return None;
    }
    let stop = chunk[length as usize];
    if !stop.is_ascii() || stop == b'\\' {
        return None;
    }
    let kind = kind_in(chunk, length);
    input.bump_bytes(length as usize);
    Some(kind)
}

// The same for any word: where a backslash is behind the part characters, which are passed, it returns `None`.
#[inline(never)]
fn eat_long_kind(input: &mut StringInput) -> Option<WordKind>
    ensures kind { IfSome result (λ k. k ≡ word_kind (word_of (encode_utf8_all (take_while is_ident_part (rest input.old))))) }
    ensures word { IfSome result (λ k. (context : Context) → words.word context (rest input.old) ≡
        scanned (word_of (encode_utf8_all (take_while is_ident_part (rest input.old)))) (take_while is_ident_part (rest input.old))) }
    ensures none { IfNone result (opens_escape (rest input.new) ≡ true) }
    ensures moved { input.new ≡ passed (prefix_len is_ident_part (rest input.old)) input.old }
{
    let text = part_characters(input);
    if at_escape(input) {
        return None;
    }
    Some(Word::kind_of(text))
}

/// Moves behind the word at the cursor, where it is written with no escape, and returns its kind: that of the row of the
/// table of words for the part characters that are there, which are passed, and are all of the word.
///
/// Where a backslash follows them it returns `None`. Nothing is allocated. Our own, for speed.
#[inline(always)]
pub fn eat_plain_kind(input: &mut StringInput) -> Option<WordKind>
    ensures kind { IfSome result (λ k. k ≡ word_kind (word_of (encode_utf8_all (take_while is_ident_part (rest input.old))))) }
    ensures word { IfSome result (λ k. (context : Context) → words.word context (rest input.old) ≡
        scanned (word_of (encode_utf8_all (take_while is_ident_part (rest input.old)))) (take_while is_ident_part (rest input.old))) }
    ensures none { IfNone result (opens_escape (rest input.new) ≡ true) }
    ensures moved { input.new ≡ passed (prefix_len is_ident_part (rest input.old)) input.old }
{
    if let Some(kind) = eat_short_kind(input) {
        return Some(kind);
    }
    eat_long_kind(input)
}

/// Moves behind the word at the cursor, where it is written with no escape, and returns it: what [`scan_word`] finds, without
/// its extent. It is the row of the table of words for the part characters that are there, which are passed.
///
/// Where a backslash follows them it returns `None`. Nothing is allocated. Our own, for speed.
#[inline(always)]
pub fn eat_plain_word<'a>(input: &mut StringInput<'a>) -> Option<Word<'a>>
    ensures word { IfSome result (λ w. (context : Context) →
        words.word context (rest input.old) ≡ scanned w (take_while is_ident_part (rest input.old))) }
    ensures none { IfNone result (opens_escape (rest input.new) ≡ true) }
    ensures moved { input.new ≡ passed (prefix_len is_ident_part (rest input.old)) input.old }
{
    let start = input.cur_pos();
    let kind = eat_plain_kind(input)?;
    Some(Word::of_kind(kind, input.slice(start, input.cur_pos())))
}

/// The word at the cursor, behind which the cursor then is.
fn word_at<'a>(
    alloc: Global,
    input: &mut StringInput<'a>,
    context: &Context,
) -> Result<Found<'a, Word<'a>>, AllocError>
    requires { words.opens_word (rest input.old) ≡ true }
    ensures found { IfOk result (λ f. found_view (λ w. w) f ≡
        found_at placeless (place input.old) (words.word context.now (rest input.old))) }
    ensures moved { OnOk result
        (input.new ≡ passed (length (words.word context.now (rest input.old)).spelling) input.old) }
    ensures free { (text : AtomView) → (words.identifier_name (rest input.old)).value ≡ Ok text → text.is_borrowed ≡ true → IsOk result }
{
    let Found {
        value,
        faults,
        extent,
        line_break,
    } = read_name(alloc, input)?;
    let value = word_of_name(alloc, context, value, extent)?;
    Ok(Found {
        value,
        faults,
        extent,
        line_break,
    })
}

/// Reads the word at the cursor (ECMA-262 IdentifierName, 12.7): part characters and escapes of code points, as many
/// as there are.
///
/// The cursor is at a start character or a backslash. The word is the row of the table of words for its unescaped
/// text, which an other name borrows from the source where it holds no escape. A word that is written with an escape
/// and is reserved in the context is refused (12.7.2). An escaped character that is not allowed in a name, or not first in it,
/// is a fault over its escape, and stays (our own choice). A refused escape refuses all from the word's start up to
/// where reading goes on. A word without an escape does not allocate.
///
/// # Errors
///
/// `AllocError` where allocation fails for the text or an error; the cursor is then where it was.
pub fn scan_word<'a>(
    alloc: Global,
    input: &mut StringInput<'a>,
    context: &Context,
) -> Result<Found<'a, Word<'a>>, AllocError>
    requires { words.opens_word (rest input.old) ≡ true }
    ensures found { IfOk result (λ f. found_view (λ w. w) f ≡
        found_at placeless (place input.old) (words.word context.now (rest input.old))) }
    ensures moved { OnOk result
        (input.new ≡ passed (length (words.word context.now (rest input.old)).spelling) input.old) }
    ensures free { (text : AtomView) → (words.identifier_name (rest input.old)).value ≡ Ok text → text.is_borrowed ≡ true → IsOk result }
    ensures same { OnErr result (input.new ≡ input.old) }
{
    let before = input.clone()?;
    let found = word_at(alloc, input, context);
    if found.is_err() {
        *input = before;
    }
    found
}
