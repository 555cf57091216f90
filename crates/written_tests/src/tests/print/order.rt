//! Errors that are tokens, those that were recorded and those that wait, in order of place.
use ecma_faults::{Found, in_order};
use ecma_span::{BytePos, Span, Spanned};
use ecma_token::{Error, SyntaxError};
use std::alloc::{AllocError, Global};
use std::test::Fail;

/// Where the errors begin that are tokens, that were recorded, and that wait, and where all of them do in order, with their names.
type Case = (
    &'static [u32],
    &'static [u32],
    &'static [u32],
    &'static [(u32, &'static str)],
);

const CASES: &[Case] = &[
    (&[], &[], &[], &[]),
    (&[3], &[], &[1], &[(1, "waiting"), (3, "token")]),
    (
        &[0, 7],
        &[9, 7, 2],
        &[2],
        &[
            (0, "token"),
            (2, "recorded"),
            (2, "waiting"),
            (7, "token"),
            (7, "recorded"),
            (9, "recorded"),
        ],
    ),
];

fn error_at(alloc: Global, place: u32) -> Result<Error<'static>, AllocError> {
    let span = Span {
        lo: BytePos(place),
        hi: BytePos(100),
    };
    Error::new(alloc, span, SyntaxError::UnterminatedTpl)
}

fn errors_at(alloc: Global, places: &[u32]) -> Result<Vec<Error<'static>>, AllocError> {
    let mut errors = Vec::new(alloc);
    for place in places {
        errors.push(error_at(alloc, *place)?)?;
    }
    Ok(errors)
}

/// Whether the error with this number begins there, and comes from there.
fn is_at(found: &[Found], number: usize, place: u32, name: &str) -> bool {
    match found.get(number) {
        Some(one) => one.error.span().lo == BytePos(place) && one.origin.name() == name,
        None => false,
    }
}

/// Whether the errors begin there, and come from there.
fn are_at(found: &[Found], wanted: &[(u32, &str)]) -> bool {
    let mut number: usize = 0;
    for (place, name) in wanted {
        if !is_at(found, number, *place, name) {
            return false;
        }
        number = number.saturating_add(1);
    }
    found.len() == number
}

fn is_in_order(alloc: Global, case: &Case) -> Result<bool, AllocError> {
    let (tokens, recorded, waiting, wanted) = case;
    let found = in_order(
        alloc,
        errors_at(alloc, tokens)?,
        errors_at(alloc, recorded)?,
        errors_at(alloc, waiting)?,
    )?;
    Ok(are_at(&found, wanted))
}

#[test]
fn errors_are_in_order_of_place(rt: HostRuntime) -> Result<(), Fail> {
    for case in CASES {
        assert!(rt; is_in_order(rt.alloc(), case)?);
    }
    Ok(())
}
