//! Copies of errors and tokens that hold each other.

use super::span;
use ecma_span::Spanned;
use ecma_token::{Error, SyntaxError, Token, TokenAndSpan};
use std::alloc::{AllocError, Global};
use std::process::Abort;
use std::test::Fail;

// An error of this kind at a place that a label tells of too.
fn labelled<'a>(alloc: Global, kind: SyntaxError<'a>) -> Result<SyntaxError<'a>, AllocError> {
    let inner = Box::new(alloc, Error::new(alloc, span(2, 6), kind)?)?;
    Ok(SyntaxError::WithLabel {
        inner,
        span: span(0, 1),
        note: "it begins here",
    })
}

fn error_token<'a>(alloc: Global, kind: SyntaxError<'a>) -> Result<Box<Token<'a>>, AllocError> {
    let error = Error::new(alloc, span(4, 5), kind)?;
    Ok(Box::new(alloc, Token::Error(error))?)
}

// What is told where a token of this error stands in the place of an `x`.
fn expected<'a>(alloc: Global, kind: SyntaxError<'a>) -> Result<SyntaxError<'a>, AllocError> {
    let got = String::from_str(alloc, "x")?;
    Ok(SyntaxError::Expected(error_token(alloc, kind)?, got))
}

fn nest<'a>(alloc: Global) -> Result<Error<'a>, AllocError> {
    let quote = expected(alloc, SyntaxError::UnexpectedChar { c: '\'' })?;
    let label = labelled(alloc, quote)?;
    let token = expected(alloc, label)?;
    let kind = labelled(alloc, token)?;
    Error::new(alloc, span(0, 7), kind)
}

fn is_hash(alloc: Global, kind: &SyntaxError) -> Result<bool, AllocError> {
    let hash = Error::new(alloc, span(0, 7), SyntaxError::Hash)?;
    Ok(*kind == *hash.kind())
}

fn assert_nested(rt: &impl Abort, alloc: Global, copy: &Error) -> Result<(), Fail> {
    let message = copy.to_string(alloc)?;
    let want =
        "Expected '<lexing error: Expected '<lexing error: Unexpected character '\\''>', got 'x'>', got 'x'";
    assert_eq!(rt; message.as_str(), want);
    Ok(())
}

fn assert_copied(rt: &impl Abort, alloc: Global, error: &Error) -> Result<(), Fail> {
    let copy = error.copy(alloc)?;
    assert!(rt; copy == *error);
    assert_eq!(rt; copy.span(), span(0, 7));
    assert!(rt; !is_hash(alloc, copy.kind())?);
    assert_nested(rt, alloc, &copy)
}

#[test]
fn a_nest_of_labels_is_copied(rt: HostRuntime) -> Result<(), Fail> {
    let error = nest(rt.alloc())?;
    assert_copied(&rt, rt.alloc(), &error)
}

// An error of the kind that is taken out of this one.
fn made_anew<'a>(alloc: Global, error: Error<'a>) -> Result<Error<'a>, AllocError> {
    let span = error.span();
    Error::new(alloc, span, error.into_kind())
}

#[test]
fn a_copy_has_the_same_kind(rt: HostRuntime) -> Result<(), Fail> {
    let error = nest(rt.alloc())?;
    let copy = error.copy(rt.alloc())?;
    let anew = made_anew(rt.alloc(), copy)?;
    assert!(rt; *anew.kind() == *error.kind());
    assert!(rt; anew == error);
    Ok(())
}

fn fault_with_its_place<'a>(alloc: Global) -> Result<TokenAndSpan<'a>, AllocError> {
    let error = Error::new(alloc, span(3, 3), SyntaxError::IdentAfterNum)?;
    Ok(TokenAndSpan {
        token: Token::Error(error),
        had_line_break: true,
        span: span(2, 3),
    })
}

fn assert_token_copied(rt: &impl Abort, alloc: Global, token: &TokenAndSpan) -> Result<(), Fail> {
    let copy = token.copy(alloc)?;
    let equal = copy == *token;
    let place = copy.span();
    drop(copy);
    assert!(rt; equal);
    assert_eq!(rt; place, span(2, 3));
    Ok(())
}

#[test]
fn a_token_with_its_place_is_copied(rt: HostRuntime) -> Result<(), Fail> {
    let token = fault_with_its_place(rt.alloc())?;
    let copied = assert_token_copied(&rt, rt.alloc(), &token);
    drop(token);
    copied
}
