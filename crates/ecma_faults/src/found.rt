//! Errors with where they come from, in order of place.
ghost use Rattle.std.specs.Prelude.{◌≡◌, ◌++◌, map, IfOk, OnOk, OnErr};
ghost use Rattle.ecma_token.specs.View.{error_view};
ghost use Rattle.ecma_faults.specs.Faults as faults;
ghost use Rattle.ecma_faults.specs.Faults.{IsByPlace};

use ecma_span::Spanned;
use ecma_token::Error;
use std::alloc::{AllocError, Global};

/// Where an error comes from.
#[derive(Clone, Copy, Debug, PartialEq, Eq)]
pub enum Origin {
    /// It is a token.
    Token,
    /// It was recorded while a token was read.
    Recorded,
    /// It counts in module code alone.
    Waiting,
}

impl Origin {
    /// The word for it.
    pub fn name(self) -> &'static str
        ensures { result.now ≡ faults.origin_name self }
    {
        match self {
            Origin::Token => "token",
            Origin::Recorded => "recorded",
            Origin::Waiting => "waiting",
        }
    }
}

/// An error of a text.
#[derive(Drop)]
pub struct Found<'a> {
    pub origin: Origin,
    pub error: Error<'a>,
}

/// Adds errors, in order.
///
/// # Errors
///
/// `AllocError` where allocation fails; those of the errors that were added before stay.
fn push_all<'a>(
    found: &mut Vec<Found<'a>>,
    origin: Origin,
    errors: Vec<Error<'a>>,
) -> Result<(), AllocError>
    ensures { OnOk result (map faults.view found.new.items ≡ map faults.view found.old.items ++ faults.views_of origin (map error_view errors.entry.items)) }
{
    for error in errors {
        found.push(Found { origin, error })?;
    }
    Ok(())
}

/// Sorts errors by the place where they begin; those of one place stay in the order that they have.
///
/// # Errors
///
/// `AllocError` where allocation fails; the order is then as before.
fn sort_by_place<'a>(found: &mut Vec<Found<'a>>) -> Result<(), AllocError>
    ensures ok { OnOk result (IsByPlace (map faults.view found.old.items) (map faults.view found.new.items)) }
    ensures err { OnErr result (found.new.items ≡ found.old.items) }
{
    found.sort_by_key(|found| found.error.span().lo.0)?;
    Ok(())
}

/// The errors of a text in order of place: those that are tokens, those that were recorded, and those that wait, each in order.
/// Of those that begin at one place the tokens come first, then those that were recorded. Our own.
///
/// # Errors
///
/// `AllocError` where allocation fails.
pub fn in_order<'a>(
    alloc: Global,
    tokens: Vec<Error<'a>>,
    recorded: Vec<Error<'a>>,
    waiting: Vec<Error<'a>>,
) -> Result<Vec<Found<'a>>, AllocError>
    ensures { IfOk result (λ found. IsByPlace (faults.all_of (map error_view tokens.entry.items) (map error_view recorded.entry.items) (map error_view waiting.entry.items)) (map faults.view found.items)) }
{
    let mut found = Vec::new(alloc);
    push_all(&mut found, Origin::Token, tokens)?;
    push_all(&mut found, Origin::Recorded, recorded)?;
    push_all(&mut found, Origin::Waiting, waiting)?;
    sort_by_place(&mut found)?;
    Ok(found)
}
