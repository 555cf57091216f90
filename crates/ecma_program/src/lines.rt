//! What is written of the tokens of a text: a line each.
ghost use Rattle.std.specs.Prelude.{◌≡◌, ◌++◌, ◌+◌, ◌^◌, ◌<◌, ◌≤◌, Some, codes, length, map, option_map, IfOk, MatchResult, OnErr, OnOk};
ghost use Rattle.ecma_state.specs.Run.{reading_of, state_behind};
ghost use Rattle.ecma_state.specs.Session.{kept_of, lexer_state};
ghost use Rattle.ecma_token.specs.View.{spanned_view};
ghost use Rattle.ecma_program.specs.Lines as rows;
ghost use Rattle.ecma_program.specs.Rereads.{AllWithin, Lacks};

use crate::rereads::{ReadAgain, open};
use ecma_options::Options;
use ecma_state::Kept;
use ecma_stdio::{Fault, push_escaped, push_pair};
use ecma_stream::{Lexer, Slot};
use ecma_token::{TokenAndSpan, TokenKind};
use std::alloc::{AllocError, Global};

/// Adds whether a line terminator stands before, with a space behind it.
fn push_flag(out: &mut Vec<u8>, flag: bool) -> Result<(), AllocError>
    ensures { OnOk result (out.new.items ≡ out.old.items ++ (rows.flag_text flag ++ codes " ")) }
{
    if flag {
        out.extend_from_slice(b"lf ")
    } else {
        out.extend_from_slice(b"- ")
    }
}

/// Adds where the token begins and ends, its flag and its kind, each with a space behind it.
fn push_head(out: &mut Vec<u8>, token: Kept) -> Result<(), AllocError>
    ensures { OnOk result (out.new.items ≡ out.old.items ++ rows.head token) }
{
    push_pair(out, token.span.lo.0, token.span.hi.0)?;
    push_flag(out, token.flag)?;
    out.extend_from_slice(token.kind.name().as_bytes())?;
    out.push(b' ')?;
    Ok(())
}

/// Adds the line of a token of the text with these bytes, which starts at the place 0.
fn push_line(out: &mut Vec<u8>, bytes: &[u8], token: Kept) -> Result<(), AllocError>
    requires in_order { token.span.lo.0 ≤ token.span.hi.0 }
    requires within { token.span.hi.0 ≤ length bytes.now }
    ensures { OnOk result (out.new.items ≡ out.old.items ++ rows.line bytes.now token) }
{
    push_head(out, token)?;
    push_escaped(
        out,
        &bytes[token.span.lo.0 as usize..token.span.hi.0 as usize],
    )?;
    out.push(b'\n')?;
    Ok(())
}

/// What is kept of the next token, which is read into the slot, or nothing at the end.
pub fn next_kept<'a>(
    lexer: &mut Lexer<'a>,
    slot: &mut Option<TokenAndSpan<'a>>,
) -> Result<Option<Kept>, AllocError>
    ensures kept { IfOk result (λ kept. kept ≡ option_map kept_of (reading_of (lexer_state lexer.old)).found) }
    ensures slot { OnOk result (option_map spanned_view slot.new ≡ (reading_of (lexer_state lexer.old)).found) }
    ensures stays { OnErr result (slot.new ≡ slot.old) }
    ensures after { OnOk result (lexer_state lexer.new ≡ state_behind (lexer_state lexer.old) (reading_of (lexer_state lexer.old))) }
{
    lexer.read_into(slot)?;
    match slot {
        Some(token) => Ok(Some(Kept::of(token))),
        None => Ok(None),
    }
}

/// Adds the lines of these tokens of the text, in order.
fn push_lines(out: &mut Vec<u8>, bytes: &[u8], tokens: &[TokenAndSpan]) -> Result<(), AllocError>
    requires { AllWithin (length bytes.now) (map spanned_view tokens.now) }
    ensures { OnOk result (out.new.items ≡ out.old.items ++ rows.lines bytes.now (map kept_of (map spanned_view tokens.now))) }
{
    for token in tokens {
        push_line(out, bytes, Kept::of(token))?;
    }
    Ok(())
}

/// The lines of the tokens of a text that starts at the place 0, where those with these numbers are read again.
///
/// # Errors
///
/// `NoSlash` where one of those is no slash or isn't there; `OutOfMemory`.
pub fn tokens_text(
    alloc: Global,
    options: Options,
    rereads: &[u64],
    text: &str,
) -> Result<Vec<u8>, Fault>
    requires { length text.now < 2 ^ 32 }
    ensures { MatchResult result
        (λ out. rows.tokens_text options rereads.now text.now ≡ Some out.items)
        (λ fault. Lacks (rows.tokens_text options rereads.now text.now) fault) }
{
    let ReadAgain { mut lexer, tokens } = open(alloc, false, options, rereads, text)?;
    let mut out = Vec::new(alloc);
    push_lines(&mut out, text.as_bytes(), &tokens)?;
    // One slot for all, so that none is made and dropped for each token.
    let mut slot = Slot::new();
    'tokens: while let Some(token) = next_kept(&mut lexer, &mut slot.token)? {
        push_line(&mut out, text.as_bytes(), token)?;
    }
    Ok(out)
}
