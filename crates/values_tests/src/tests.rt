//! Each public call of values once, as tables, and what the tests of messages, debug texts and copies share.
ghost use Rattle.std.specs.Prelude.{◌≤◌};

mod atoms;
mod characters;
mod comments;
mod copies;
mod cursor;
mod debug_texts;
mod fixed_messages;
mod kind_names;
mod messages;
mod names;
mod operators;
mod places;
mod questions;
mod reserved;
mod runs;
mod settings;
mod words;

use ecma_span::{Atom, BytePos, Span};
use ecma_token::{Error, SyntaxError, Token};
use std::alloc::{AllocError, Global};
use std::process::Abort;
use std::test::Fail;

fn span(low: u32, high: u32) -> Span
    requires { low ≤ high }
{
    Span::new(BytePos(low), BytePos(high))
}

fn owned<'a>(alloc: Global, text: &str) -> Result<Atom<'a>, AllocError> {
    Ok(Atom::from(String::from_str(alloc, text)?))
}

fn assert_msg(rt: &impl Abort, alloc: Global, error: &SyntaxError, want: &str) -> Result<(), Fail> {
    assert_eq!(rt; error.msg(alloc)?.as_str(), want);
    Ok(())
}

fn assert_display(
    rt: &impl Abort,
    alloc: Global,
    error: &SyntaxError,
    want: &str,
) -> Result<(), Fail> {
    assert_eq!(rt; error.to_string(alloc)?.as_str(), want);
    Ok(())
}

// Whether a copy of the kind is equal to it. The copy is put into an error, which one call drops.
fn equals_its_copy(alloc: Global, error: &Error) -> Result<bool, AllocError> {
    let copy = Error::new(alloc, span(0, 1), error.kind().copy(alloc)?)?;
    Ok(*copy.kind() == *error.kind())
}

// The error has this message, by `msg` and by `Display`, and its kind is equal to its copy.
fn assert_shown(rt: &impl Abort, alloc: Global, error: &Error, want: &str) -> Result<(), Fail> {
    assert_msg(rt, alloc, error.kind(), want)?;
    assert_display(rt, alloc, error.kind(), want)?;
    assert!(rt; equals_its_copy(alloc, error)?, "{want}");
    Ok(())
}

// The same of an error of this kind. An error is dropped by a call, but at the end of a kind the proof takes each variant
// apart.
fn assert_message(
    rt: &impl Abort,
    alloc: Global,
    kind: SyntaxError,
    want: &str,
) -> Result<(), Fail> {
    let error = Error::new(alloc, span(0, 1), kind)?;
    assert_shown(rt, alloc, &error, want)
}

// Tokens are dropped by a call: at the end of a scope the proof takes each variant apart.
fn token_equals_its_copy(alloc: Global, token: &Token) -> Result<bool, AllocError> {
    let copy = token.copy(alloc)?;
    let equal = copy == *token;
    drop(copy);
    Ok(equal)
}

fn assert_written(rt: &impl Abort, alloc: Global, token: &Token, want: &str) -> Result<(), Fail> {
    assert_eq!(rt; format!(in alloc; "{token:?}")?.as_str(), want);
    assert!(rt; token_equals_its_copy(alloc, token)?, "{want}");
    Ok(())
}

// The token has this debug text, and is equal to its copy.
fn assert_debug_text(rt: &impl Abort, alloc: Global, token: Token, want: &str) -> Result<(), Fail> {
    let written = assert_written(rt, alloc, &token, want);
    drop(token);
    written
}
