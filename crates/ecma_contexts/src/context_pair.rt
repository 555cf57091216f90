//! Two contexts in one byte.
ghost use Rattle.std.specs.Prelude.{◌≡◌, ◌<◌};
ghost use Rattle.ecma_contexts.specs.ContextPairs.{context_at, inner_of, number_of, outer_of};

use crate::token_context::TokenContext;

/// Two contexts, one inside the other, in one byte: sixteen times the number of the inner one, and that of the outer.
// A step of a list of steps holds a whole stack of contexts, so that its size is that of the stack: two contexts in a byte
// make it a third as large as one context in two bytes.
#[derive(Clone, Copy, Default)]
pub(crate) struct ContextPair {
    code: u8,
}

/// The number of a context, in the order in which they are declared.
#[inline(always)]
pub fn number_of(context: TokenContext) -> u8
    ensures number { result ≡ number_of context }
    ensures small { result < 12 }
{
    match context {
        TokenContext::BraceStmt => 0,
        TokenContext::BraceExpr => 1,
        TokenContext::TplQuasi => 2,
        TokenContext::ParenStmt { is_for_loop: false } => 3,
        TokenContext::ParenStmt { is_for_loop: true } => 4,
        TokenContext::ParenExpr => 5,
        TokenContext::Tpl => 6,
        TokenContext::FnExpr => 7,
        TokenContext::ClassExpr => 8,
        TokenContext::JSXOpeningTag => 9,
        TokenContext::JSXClosingTag => 10,
        TokenContext::JSXExpr => 11,
    }
}

/// The context of a number.
#[inline(always)]
pub fn context_at(number: u8) -> TokenContext
    ensures { result ≡ context_at number }
{
    match number {
        0 => TokenContext::BraceStmt,
        1 => TokenContext::BraceExpr,
        2 => TokenContext::TplQuasi,
        3 => TokenContext::ParenStmt { is_for_loop: false },
        4 => TokenContext::ParenStmt { is_for_loop: true },
        5 => TokenContext::ParenExpr,
        6 => TokenContext::Tpl,
        7 => TokenContext::FnExpr,
        8 => TokenContext::ClassExpr,
        9 => TokenContext::JSXOpeningTag,
        10 => TokenContext::JSXClosingTag,
        _ => TokenContext::JSXExpr,
    }
}

impl ContextPair {
    /// The pair of these contexts.
    pub(crate) fn of(inner: TokenContext, outer: TokenContext) -> ContextPair
        ensures inner { inner_of result ≡ inner }
        ensures outer { outer_of result ≡ outer }
    {
        ContextPair {
            code: number_of(inner) * 16 + number_of(outer),
        }
    }

    /// The context that is inside of the other.
    pub(crate) fn inner(self) -> TokenContext
        ensures { result ≡ inner_of self }
    {
        context_at(self.code / 16)
    }

    /// The context that is around the other.
    pub(crate) fn outer(self) -> TokenContext
        ensures { result ≡ outer_of self }
    {
        context_at(self.code % 16)
    }
}
