//! Errors in order.
ghost use Rattle.std.specs.Prelude.{◌≡◌, ◌++◌, ◌∷◌, ◌==◌, [], length, map, take, OnOk, OnErr, IfErr, IfOk, IsOk};
ghost use Rattle.ecma_token.specs.View.{error_view};

use ecma_token::Error;
use std::alloc::{AllocError, Global};
use std::marker::Model;

/// Errors in order: the list of what is wrong where.
#[derive(Drop)]
pub struct ErrorList<'a> {
    errors: Vec<Error<'a>>,
}

impl<'a> Model for ErrorList<'a> {
    ghost use Rattle.std.specs.Prelude.{List};
    ghost use Rattle.std.specs.Coded.{codes};
    ghost use denote.Signature.{static_lft};
    ghost use Rattle.ecma_token.specs.contracts.error.Error as e;
    ghost use Rattle.ecma_token.specs.declared.error.Error.{Error};

    ghost Value = { List Error };

    ghost coded = { Prim.hlevel (codes, (e.the_row static_lft).coded) };

    ghost view = { λ list. list.errors.items };
}

/// Copies of these errors.
fn copies<'a>(alloc: Global, errors: &[Error<'a>]) -> Result<Vec<Error<'a>>, AllocError>
    ensures { IfOk result (λ copies. map error_view copies.items ≡ map error_view errors.now) }
{
    let mut copies = Vec::new(alloc);
    'errors: for error in errors {
        copies.push(error.copy(alloc)?)?;
    }
    Ok(copies)
}

impl<'a> ErrorList<'a> {
    /// No errors, which does not allocate.
    pub fn new(alloc: Global) -> ErrorList<'a>
        ensures { result ≡ [] }
    {
        ErrorList {
            errors: Vec::new(alloc),
        }
    }

    /// These errors, in order.
    pub fn of(errors: Vec<Error<'a>>) -> ErrorList<'a>
        ensures { result ≡ errors.entry.items }
    {
        ErrorList { errors }
    }

    /// The errors, in order.
    pub fn into_vec(self) -> Vec<Error<'a>>
        ensures { result.items ≡ self.entry }
    {
        self.errors
    }

    /// The errors.
    pub fn as_slice(&self) -> &[Error<'a>]
        ensures { result.now ≡ self.now }
    {
        self.errors.as_slice()
    }

    pub fn len(&self) -> usize
        ensures { result ≡ length self.now }
    {
        self.errors.len()
    }

    pub fn is_empty(&self) -> bool
        ensures { result ≡ length self.now == 0 }
    {
        self.errors.is_empty()
    }

    /// Adds an error at the end.
    ///
    /// # Errors
    ///
    /// The error itself where it can\'t be allocated. The list is then unchanged.
    pub fn push(&mut self, error: Error<'a>) -> Result<(), Error<'a>>
        ensures ok { OnOk result (self.new ≡ self.old ++ error.entry ∷ []) }
        ensures err { OnErr result (self.new ≡ self.old) }
        ensures back { IfErr result (λ e. e ≡ error.entry) }
    {
        match self.errors.push(error) {
            Ok(()) => Ok(()),
            Err(failed) => Err(failed.value),
        }
    }

    /// Moves the errors of another list to the end of this one, which does not allocate where there are none.
    ///
    /// # Errors
    ///
    /// `AllocError` where allocation fails for them. Both lists are then unchanged.
    pub fn append(&mut self, other: &mut ErrorList<'a>) -> Result<(), AllocError>
        ensures ok { OnOk result (self.new ≡ self.old ++ other.old) }
        ensures moved { OnOk result (other.new ≡ []) }
        ensures err { OnErr result (self.new ≡ self.old) }
        ensures kept { OnErr result (other.new ≡ other.old) }
        ensures free { other.old ≡ [] → IsOk result }
    {
        if other.is_empty() {
            return Ok(());
        }
        self.errors.append(&mut other.errors)
    }

    /// The same errors, which allocates for each.
    ///
    /// # Errors
    ///
    /// `AllocError` where allocation fails for them.
    pub fn copy(&self, alloc: Global) -> Result<ErrorList<'a>, AllocError>
        ensures { IfOk result (λ copy. map error_view copy ≡ map error_view self.now) }
    {
        Ok(ErrorList {
            errors: copies(alloc, self.errors.as_slice())?,
        })
    }

    /// Keeps the first `len` errors alone.
    pub fn truncate(&mut self, len: usize)
        ensures { self.new ≡ take len self.old }
    {
        self.errors.truncate(len);
    }
}
