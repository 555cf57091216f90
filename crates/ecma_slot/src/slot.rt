//! The slot that a token is read into: a token takes the place of the one before. Our own, for speed.
ghost use Rattle.std.specs.Prelude.{◌≡◌, true, false, None, Some, IfSome};
ghost use Rattle.ecma_token.specs.View.{token_owns_nothing};

use ecma_syntax::{IdentLike, Word};
use ecma_token::{Token, TokenAndSpan};
use std::mem;

/// A slot of one's own, which tokens are read into one after the other: `read_into(&mut slot.token)`.
///
/// Where a function that owns an `Option<TokenAndSpan>` ends, the prover takes the token apart, variant by variant and on each
/// path; a `Slot` is dropped by a call. So loops that stop at errors own one.
pub struct Slot<'a> {
    pub token: Option<TokenAndSpan<'a>>,
}

impl<'a> Slot<'a> {
    /// A slot with no token in it.
    pub fn new() -> Slot<'a>
        ensures { result.token ≡ None }
    {
        Slot { token: None }
    }
}

impl<'a> Drop for Slot<'a> {
    fn drop(self) {
        let Slot { token: _ } = self;
    }
}

/// Whether the token in the slot may own memory. Most own none: names, keywords, punctuators, and texts that mean what is
/// written.
#[inline(always)]
fn may_own(slot: &Option<TokenAndSpan>) -> bool
    ensures { IfSome slot.now (λ token. result ≡ false → token_owns_nothing token.token ≡ true) }
{
    match slot {
        Some(token) => match &token.token {
            Token::Word(Word::Ident(IdentLike::Other(name))) => !name.is_borrowed(),
            Token::Template {
                raw,
                cooked: Ok(cooked),
            } => !raw.is_borrowed() || !cooked.is_borrowed(),
            Token::Str { value, raw } => !value.is_borrowed() || !raw.is_borrowed(),
            Token::Template { .. }
            | Token::Regex(..)
            | Token::Num { .. }
            | Token::BigInt { .. }
            | Token::JSXName { .. }
            | Token::JSXText { .. }
            | Token::Shebang(..)
            | Token::Error(..) => true,
            _ => false,
        },
        None => false,
    }
}

/// Drops what is in the slot.
#[inline(never)]
fn clear(slot: &mut Option<TokenAndSpan>)
    ensures { slot.new ≡ None }
{
    *slot = None;
}

/// Forgets a token that owns nothing, so that nothing is lost, and none of its parts is asked what to drop.
#[inline(always)]
fn forget(left: Option<TokenAndSpan>)
    requires { IfSome left (λ token. token_owns_nothing token.token ≡ true) }
{
    mem::forget(left);
}

/// Puts a token into the slot, in the place of what is in it.
#[inline(always)]
pub fn put<'a>(slot: &mut Option<TokenAndSpan<'a>>, token: TokenAndSpan<'a>)
    ensures { slot.new ≡ Some token.entry }
{
    if may_own(slot) {
        clear(slot);
    }
    forget(mem::replace(slot, Some(token)));
}
