//! What is written of the errors of a text: a line each.
ghost use Rattle.std.specs.Prelude.{◌≡◌, ◌++◌, ◌^◌, ◌<◌, Some, flat_map, length, map, is_some, IfOk, MatchResult, OnOk};
ghost use Rattle.ecma_token.specs.View.{error_view, refusal_of, spanned_view, token_view};
ghost use Rattle.ecma_state.specs.Run.{reading_of, state_behind};
ghost use Rattle.ecma_state.specs.Session.{lexer_state};
ghost use Rattle.ecma_faults.specs.Faults.{origin_name};
ghost use Rattle.ecma_faults.specs.declared.found.Origin.TheVariants as origin;
ghost use Rattle.ecma_program.specs.ErrorLines as rows;
ghost use Rattle.ecma_program.specs.Rereads.{Lacks};

use crate::rereads::{ReadAgain, open};
use ecma_faults::Origin;
use ecma_options::Options;
use ecma_place::{Span, Spanned};
use ecma_stdio::{Fault, push_escaped, push_pair};
use ecma_stream::{Lexer, Slot, Tokens};
use ecma_token::{Error, Token, TokenAndSpan};
use std::alloc::{AllocError, Global};

/// Adds what kind of error it is and where it lies, each with a space behind it.
fn push_head(out: &mut Vec<u8>, what: &str, span: Span) -> Result<(), AllocError>
    ensures { OnOk result (out.new.items ≡ out.old.items ++ rows.error_head what.now span) }
{
    out.extend_from_slice(what.as_bytes())?;
    out.push(b' ')?;
    push_pair(out, span.lo.0, span.hi.0)
}

/// Adds the line of an error.
fn push_error(alloc: Global, out: &mut Vec<u8>, what: &str, error: &Error) -> Result<(), AllocError>
    ensures { OnOk result (out.new.items ≡ out.old.items ++ rows.error_line what.now (error_view error.now)) }
{
    let message = error.kind().msg(alloc)?;
    push_head(out, what, error.span())?;
    push_escaped(out, message.as_bytes())?;
    out.push(b'\n')?;
    Ok(())
}

/// Adds the lines of errors, in order.
fn push_errors(
    alloc: Global,
    out: &mut Vec<u8>,
    what: &str,
    errors: &[Error],
) -> Result<(), AllocError>
    ensures { OnOk result (out.new.items ≡ out.old.items ++ rows.error_lines what.now (map error_view errors.now)) }
{
    for error in errors {
        push_error(alloc, out, what, error)?;
    }
    Ok(())
}

/// Adds the line of the error of a token that is one.
fn push_refusal(alloc: Global, out: &mut Vec<u8>, token: &Token) -> Result<(), AllocError>
    ensures { OnOk result (out.new.items ≡ out.old.items ++ rows.error_lines (origin_name origin.Token) (refusal_of (token_view token.now))) }
{
    match token {
        Token::Error(error) => push_error(alloc, out, Origin::Token.name(), error),
        _ => Ok(()),
    }
}

/// Reads the next token into the slot, adds the line of its error where it is one, and says whether there was a token.
fn push_next<'a>(
    alloc: Global,
    out: &mut Vec<u8>,
    lexer: &mut Lexer<'a>,
    slot: &mut Option<TokenAndSpan<'a>>,
) -> Result<bool, AllocError>
    ensures more { IfOk result (λ more. more ≡ is_some (reading_of (lexer_state lexer.old)).found) }
    ensures lines { OnOk result (out.new.items ≡ out.old.items ++ rows.found_lines (reading_of (lexer_state lexer.old)).found) }
    ensures after { OnOk result (lexer_state lexer.new ≡ state_behind (lexer_state lexer.old) (reading_of (lexer_state lexer.old))) }
{
    lexer.read_into(slot)?;
    match slot {
        Some(token) => {
            push_refusal(alloc, out, &token.token)?;
            Ok(true)
        }
        None => Ok(false),
    }
}

/// Adds the lines of the errors that were recorded, and of those that wait.
fn push_lists(alloc: Global, out: &mut Vec<u8>, lexer: &mut Lexer) -> Result<(), AllocError>
    ensures { OnOk result (out.new.items ≡ out.old.items ++ rows.list_lines (lexer_state lexer.old).errors) }
{
    let recorded = lexer.take_errors();
    push_errors(alloc, out, Origin::Recorded.name(), recorded.as_slice())?;
    push_errors(alloc, out, Origin::Waiting.name(), lexer.module_errors())
}

/// Adds the lines of the errors of these tokens that are one, in order.
fn push_refusals(
    alloc: Global,
    out: &mut Vec<u8>,
    tokens: &[TokenAndSpan],
) -> Result<(), AllocError>
    ensures { OnOk result (out.new.items ≡ out.old.items ++ flat_map rows.token_lines (map spanned_view tokens.now)) }
{
    for token in tokens {
        push_refusal(alloc, out, &token.token)?;
    }
    Ok(())
}

/// The lines of the errors of a text that starts at the place 0, where the tokens with these numbers are read again.
///
/// # Errors
///
/// `NoSlash` where one of those is no slash or isn't there; `OutOfMemory`.
pub fn errors_text(
    alloc: Global,
    options: Options,
    rereads: &[u64],
    text: &str,
) -> Result<Vec<u8>, Fault>
    requires { length text.now < 2 ^ 32 }
    ensures { MatchResult result
        (λ out. rows.errors_text options rereads.now text.now ≡ Some out.items)
        (λ fault. Lacks (rows.errors_text options rereads.now text.now) fault) }
{
    let ReadAgain { mut lexer, tokens } = open(alloc, false, options, rereads, text)?;
    let mut out = Vec::new(alloc);
    push_refusals(alloc, &mut out, &tokens)?;
    let mut slot = Slot::new();
    'tokens: while push_next(alloc, &mut out, &mut lexer, &mut slot.token)? {}
    push_lists(alloc, &mut out, &mut lexer)?;
    Ok(out)
}
