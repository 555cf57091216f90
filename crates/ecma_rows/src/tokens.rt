//! Rows of tokens.
ghost use Rattle.std.specs.Prelude.{◌≡◌, ◌++◌, List, [], false, length, map, option_map, IfOk};
ghost use Rattle.ecma_token.specs.View.{spanned_view};
ghost use Rattle.ecma_state.specs.Session.{Session};
ghost use Rattle.ecma_reader.specs.Rereads.{SlashRule};
ghost use Rattle.ecma_reader.specs.Readers.{IsReady, Shows, tokens_found};
ghost use Rattle.ecma_rows.specs.Asked.{judged, place_at};
ghost use Rattle.ecma_rows.specs.Rows as rows;
ghost use Rattle.ecma_rows.specs.Rows.{HasWritten, token_rows};
ghost use Rattle.ecma_rows.specs.Told.{IsTold, count_of, told_by, written};

use crate::outcome::Answer;
use crate::request::{judge, places};
use crate::room::put;
use ecma_kinds::kind_number;
use ecma_reader::Reader;
use ecma_slot::Slot;
use ecma_span::Span;
use ecma_syntax::Word;
use ecma_token::{Token, TokenAndSpan};
use std::alloc::{AllocError, Global};

/// A token: where it begins and ends, in bytes from the text's start, the number of its kind
/// ([`kind_number`](ecma_kinds::kind_number)), and flags: 1 where a line terminator, or nothing, is before it, or it is
/// template text that has one; 2 where its value is not its spelling (a word, string, template text or regular expression's
/// flags with an escape, a line continuation, a carriage return in a template, a number with separators, template text that
/// means nothing). Our own.
#[repr(C)]
#[derive(Clone, Copy, Debug, PartialEq, Eq)]
pub struct TokenRow {
    pub lo: u32,
    pub hi: u32,
    pub kind: u16,
    pub flags: u16,
}

fn is_word_respelled(word: &Word, span: Span) -> bool
    ensures { result ≡ rows.is_word_respelled word.now span }
{
    word.as_str().len() != span.hi.0.saturating_sub(span.lo.0) as usize
}

fn is_respelled(token: &Token, span: Span) -> bool
    ensures { result ≡ rows.is_respelled token.now span }
{
    match token {
        Token::Word(word) => is_word_respelled(word, span),
        Token::Template {
            cooked: Ok(cooked),
            ..
        } => !cooked.is_borrowed(),
        Token::Template { .. } => true,
        Token::Str { value, .. } | Token::JSXText { value, .. } => !value.is_borrowed(),
        Token::Regex(_, flags) => !flags.is_borrowed(),
        Token::Num { digits, .. } | Token::BigInt { digits, .. } => !digits.is_borrowed(),
        _ => false,
    }
}

fn flags(has_line_break: bool, is_respelled: bool) -> u16
    ensures { result ≡ rows.token_flags has_line_break is_respelled }
{
    let first = if has_line_break { 1 } else { 0 };
    let second = if is_respelled { 2 } else { 0 };
    first + second
}

/// The row of a token.
#[tactic(auto, using(ecma_token::proofs::KindLemmas::kind_of_token_view, crate::proofs::TokenViews::respelled_view))]
pub(crate) fn token_row(token: &TokenAndSpan) -> TokenRow
    ensures { result ≡ rows.token_row (spanned_view token.now) }
{
    TokenRow {
        lo: token.span.lo.0,
        hi: token.span.hi.0,
        kind: kind_number(token.token.kind()),
        flags: flags(token.had_line_break, is_respelled(&token.token, token.span)),
    }
}

/// Writes the row of the token that was read behind those of so many before it, if there is room for it.
fn put_token(out: &mut [TokenRow], count: usize, slot: &Option<TokenAndSpan>)
    ensures { (first before : List TokenRow) → count ≡ length first → out.old ≡ written first before
        → out.new ≡ written (first ++ map rows.token_row (tokens_found (option_map spanned_view slot.now))) before }
{
    if let Some(token) = slot {
        put(out, count, token_row(token));
    }
}

/// Reads to the end, writes a row for each token to the room, in order, as many as fit, and returns how many tokens there are.
fn write_rows(reader: &mut Reader, out: &mut [TokenRow]) -> Result<usize, AllocError>
    requires ready { IsReady reader.old }
    ensures told { (rule : SlashRule) (begin : Session) → Shows rule begin [] reader.old
        → IfOk result (λ count. HasWritten rule begin out.old out.new count reader.new) }
{
    let mut count = 0;
    // One slot for all, so that none is made and dropped for each token.
    let mut slot = Slot::new();
    'tokens: while reader.read_into(&mut slot.token)? {
        put_token(out, count, &slot.token);
        count += 1;
    }
    Ok(count)
}

/// Writes a row for each token of a text to the room, in order, as many as fit.
///
/// `bits` is a sum of options ([`options_of_bits`](crate::options_of_bits)); `slashes` are the places, each behind the one
/// before it, of `/` and `/=` that begin regular expressions, none where the flag or the tokens before are to say. It returns
/// `Done`, or `NoRoom` where there are more tokens than room; its count is the number of tokens. What lies behind the rows is
/// as before. Nothing is written where the answer is `Refused`, `NotUtf8` or `TooLong`, judged in this order; where it is
/// `NoSlash` the place that is not that of a slash changed nothing. Our own.
///
/// # Errors
///
/// `AllocError` where allocation fails: some rows may have been written.
pub fn write_tokens(
    alloc: Global,
    text: &[u8],
    bits: u32,
    slashes: &[u32],
    out: &mut [TokenRow],
) -> Result<Answer, AllocError>
    ensures { IfOk result (IsTold (told_by false token_rows (judged bits (map place_at slashes.now) text.now)) out.old out.new) }
{
    let places = places(alloc, slashes)?;
    let asked = match judge(text, bits, &places) {
        Ok(asked) => asked,
        Err(status) => return Ok(Answer::of_status(status)),
    };
    let mut reader = asked.reader(alloc, false)?;
    let tokens = write_rows(&mut reader, out)?;
    let is_met = asked.is_met(reader.rereads());
    let fits = tokens <= out.len();
    Ok(Answer::of_count(is_met, fits, tokens))
}

/// How many tokens a text has, judged and read as by [`write_tokens`]: the answer's status is `Done`, `Refused`, `NotUtf8`,
/// `TooLong` or `NoSlash`. Our own.
///
/// # Errors
///
/// `AllocError` where allocation fails.
pub fn count_tokens(
    alloc: Global,
    text: &[u8],
    bits: u32,
    slashes: &[u32],
) -> Result<Answer, AllocError>
    ensures { IfOk result (λ answer. answer ≡ count_of (told_by false token_rows (judged bits (map place_at slashes.now) text.now))) }
{
    let places = places(alloc, slashes)?;
    let asked = match judge(text, bits, &places) {
        Ok(asked) => asked,
        Err(status) => return Ok(Answer::of_status(status)),
    };
    let mut reader = asked.reader(alloc, false)?;
    let tokens = reader.count_rest()?;
    let is_met = asked.is_met(reader.rereads());
    Ok(Answer::of_count(is_met, true, tokens))
}
