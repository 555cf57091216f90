//! White space at a cursor.
ghost use Rattle.std.specs.Prelude.{◌≡◌, ◌<◌, ◌||◌, Some, true, false, slice_get, IfSome, IfNone};
ghost use Rattle.std.specs.List.{prefix_len, take_while, list_any};
ghost use Rattle.ecma_place.specs.Cursor.{rest, passed};
ghost use Rattle.ecma_place.specs.Character.{is_white_space, is_line_terminator};
ghost use Rattle.ecma_grammar.specs.Fronts.{next_passes};

use ecma_place::character::is_white_space;
use ecma_place::{CharExt, StringInput, white_lanes};
use std::simd::prelude::*;

/// Whether the byte, which is ASCII, is white space or a line terminator.
#[tactic(auto, using(crate::proofs::WhiteLemmas::white_bytes))]
#[inline(always)]
fn is_white_byte(b: u8) -> bool
    requires { b < 128 }
    ensures { result ≡ is_white_space b }
{
    matches!(b, b'\t'..=b'\r' | b' ')
}

/// The white space character at the cursor, if there is one. Only past ASCII a character is decoded.
#[inline(always)]
pub(crate) fn white_space_at(input: &StringInput) -> Option<char>
    ensures first { IfSome result (λ c. slice_get (rest input.now) 0 ≡ Some c) }
    ensures white { IfSome result (λ c. is_white_space c ≡ true) }
    ensures none { IfNone result (next_passes is_white_space (rest input.now) ≡ false) }
{
    match input.cur_as_ascii() {
        Some(b) => {
            if is_white_byte(b) {
                Some(b as char)
            } else {
                None
            }
        }
        None => match input.cur() {
            Some(c) if is_white_space(c) => Some(c),
            _ => None,
        },
    }
}

/// Moves behind the white space at the cursor, one character at a time, and says whether it held a line terminator.
#[inline(never)]
fn pass_white_characters(input: &mut StringInput) -> bool
    ensures terminator { result ≡ list_any is_line_terminator (take_while is_white_space (rest input.old)) }
    ensures moved { input.new ≡ passed (prefix_len is_white_space (rest input.old)) input.old }
{
    let mut terminator = false;
    'chars: while let Some(c) = white_space_at(input) {
        terminator |= c.is_line_terminator();
        input.bump();
    }
    terminator
}

/// Moves on along the white space at the cursor, 16 bytes at a time, and says whether what it passed held a line
/// terminator.
#[inline(always)]
fn pass_white_chunks(input: &mut StringInput) -> bool
    ensures same_end { passed (prefix_len is_white_space (rest input.new)) input.new ≡ passed (prefix_len is_white_space (rest input.old)) input.old }
    ensures flag { (result || list_any is_line_terminator (take_while is_white_space (rest input.new))) ≡ list_any is_line_terminator (take_while is_white_space (rest input.old)) }
{
    let mut terminator = false;
    'chunks: while let Some(chunk) = input.chunk() {
        let (count, ends) = white_lanes(u8x16::from_array(*chunk));
        terminator |= ends;
        input.bump_bytes(count as usize);
        if count < 16 {
            break;
        }
    }
    terminator
}

/// Moves behind the white space at the cursor, and says whether it held a line terminator.
#[inline(never)]
fn pass_white_space(input: &mut StringInput) -> bool
    ensures terminator { result ≡ list_any is_line_terminator (take_while is_white_space (rest input.old)) }
    ensures moved { input.new ≡ passed (prefix_len is_white_space (rest input.old)) input.old }
{
    let terminator = pass_white_chunks(input);
    match input.cur_as_ascii() {
        Some(b) if b > b' ' => terminator,
        _ => terminator | pass_white_characters(input),
    }
}

/// Moves behind the white space at the cursor, if there is any, and says whether it held a line terminator.
#[inline(always)]
fn pass_if_any(input: &mut StringInput) -> bool
    ensures terminator { result ≡ list_any is_line_terminator (take_while is_white_space (rest input.old)) }
    ensures moved { input.new ≡ passed (prefix_len is_white_space (rest input.old)) input.old }
{
    match input.cur_as_ascii() {
        Some(b) if b > b' ' => false,
        _ => pass_white_space(input),
    }
}

/// Moves behind the white space at the cursor, and says whether it held a line terminator (ECMA-262 WhiteSpace and
/// LineTerminator, 12.2 and 12.3).
#[inline(always)]
pub fn skip_white_space(input: &mut StringInput) -> bool
    ensures terminator { result ≡ list_any is_line_terminator (take_while is_white_space (rest input.old)) }
    ensures moved { input.new ≡ passed (prefix_len is_white_space (rest input.old)) input.old }
{
    // Most white space before a token is one space.
    let _ = input.eat_byte(b' ');
    pass_if_any(input)
}
