//! What a parser asks of its lexer.
ghost use Rattle.std.specs.Prelude.{◌<◌, ◌^◌, length};

use crate::START;
use ecma_lexer::Lexer;
use ecma_lexer::place::StringInput;
use ecma_lexer::syntax::{EsVersion, Syntax};
use ecma_lexer::token::{Token, TokenAndSpan};
use std::alloc::{AllocError, Global};

/// A lexer of a text, under a parser.
fn lexer_of<'a>(alloc: Global, text: &'a str) -> Lexer<'a>
    requires { length text.now < 2 ^ 32 }
{
    let input = StringInput::new(text, START);
    Lexer::new(alloc, Syntax::default(), EsVersion::EsNext, input, false)
}

/// Reads where an operand is expected: a slash begins a regular expression there.
fn read_operand<'a>(
    lexer: &mut Lexer<'a>,
    slot: &mut Option<TokenAndSpan<'a>>,
) -> Result<(), AllocError> {
    lexer.read_into(slot)?;
    let slash = lexer.last_slash();
    if slash.is_none() {
        return Ok(());
    }
    lexer.set_next_regexp(slash);
    let again = lexer.read_into(slot);
    lexer.set_next_regexp(None);
    again
}

/// Whether the token in the slot is `=>`.
pub(crate) fn is_arrow(slot: &Option<TokenAndSpan>) -> bool {
    match slot {
        Some(found) => matches!(found.token, Token::Arrow),
        None => false,
    }
}

/// Whether the next token is `=>`, which is not read.
fn is_arrow_ahead<'a>(
    lexer: &mut Lexer<'a>,
    slot: &mut Option<TokenAndSpan<'a>>,
) -> Result<bool, AllocError> {
    let here = lexer.checkpoint()?;
    lexer.read_into(slot)?;
    let _went_back = lexer.rewind(&here)?;
    Ok(is_arrow(slot))
}

/// Whether an arrow is behind the first token.
fn is_second_arrow<'a>(
    lexer: &mut Lexer<'a>,
    slot: &mut Option<TokenAndSpan<'a>>,
) -> Result<bool, AllocError> {
    lexer.read_into(slot)?;
    is_arrow_ahead(lexer, slot)
}

/// Whether an arrow is behind the first token of a text.
pub(crate) fn begins_with_arrow(alloc: Global, text: &str) -> Result<bool, AllocError>
    requires { length text.now < 2 ^ 32 }
{
    is_second_arrow(&mut lexer_of(alloc, text), &mut None)
}

/// Whether the token in the slot is a regular expression.
fn is_expression(slot: &Option<TokenAndSpan>) -> bool {
    match slot {
        Some(found) => matches!(found.token, Token::Regex(..)),
        None => false,
    }
}

/// Whether the first operand is a regular expression.
fn reads_expression<'a>(
    lexer: &mut Lexer<'a>,
    slot: &mut Option<TokenAndSpan<'a>>,
) -> Result<bool, AllocError> {
    read_operand(lexer, slot)?;
    Ok(is_expression(slot))
}

/// Whether a regular expression is the first operand of a text.
pub(crate) fn begins_with_expression(alloc: Global, text: &str) -> Result<bool, AllocError>
    requires { length text.now < 2 ^ 32 }
{
    reads_expression(&mut lexer_of(alloc, text), &mut None)
}
