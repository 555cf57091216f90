//! Reading a text token by token, as a parser does.
ghost use Rattle.std.specs.Prelude.{◌<◌, ◌^◌, length};

use crate::digest::Digest;
use ecma_options::Options;
use ecma_slashes::read_by_flag;
use ecma_slot::Slot;
use ecma_start::begin;
use ecma_stream::Lexer;
use ecma_token::TokenAndSpan;
use std::alloc::{AllocError, Global};

/// Adds what is in the slot, and says whether there is a token.
#[inline(always)]
fn add_slot(slot: &Option<TokenAndSpan>, digest: &mut Digest) -> bool {
    match slot {
        Some(token) => {
            digest.add_token(token);
            true
        }
        None => false,
    }
}

/// Reads to the end, each token into a slot that is kept.
pub fn keep_rest(lexer: &mut Lexer, digest: &mut Digest) -> Result<(), AllocError> {
    let mut slot = Slot::new();
    for _ in 0..u64::MAX {
        lexer.read_into(&mut slot.token)?;
        if !add_slot(&slot.token, digest) {
            break;
        }
    }
    Ok(())
}

/// Reads the next token, its slash by the flag, and says whether there was one.
pub fn keep_by_flag(lexer: &mut Lexer, digest: &mut Digest) -> Result<bool, AllocError> {
    if lexer.reads_again() {
        return Ok(false);
    }
    let answer = read_by_flag(lexer)?;
    Ok(add_slot(&answer, digest))
}

/// Reads to the end, slashes by the flag.
pub fn keep_rest_by_flag(lexer: &mut Lexer, digest: &mut Digest) -> Result<(), AllocError> {
    for _ in 0..u64::MAX {
        if !keep_by_flag(lexer, digest)? {
            break;
        }
    }
    Ok(())
}

/// Takes the lexer apart, and adds what it gathered.
pub fn finish(lexer: Lexer, digest: &mut Digest) {
    let (errors, comments, ended) = lexer.into_parts();
    digest.add_errors(errors.recorded.as_slice());
    digest.add_errors(errors.waiting.as_slice());
    digest.add_comments(&comments);
    digest.add(u64::from(ended));
}

/// Reads a text into a slot that is kept.
pub fn keep_text(
    alloc: Global,
    comments: bool,
    options: Options,
    text: &str,
    digest: &mut Digest,
) -> Result<(), AllocError>
    requires { length text.now < 2 ^ 32 }
{
    let mut lexer = begin(alloc, comments, options, text)?;
    keep_rest(&mut lexer, digest)?;
    finish(lexer, digest);
    Ok(())
}

/// Reads a text, slashes by the flag.
pub fn keep_text_by_flag(
    alloc: Global,
    comments: bool,
    options: Options,
    text: &str,
    digest: &mut Digest,
) -> Result<(), AllocError>
    requires { length text.now < 2 ^ 32 }
{
    let mut lexer = begin(alloc, comments, options, text)?;
    keep_rest_by_flag(&mut lexer, digest)?;
    finish(lexer, digest);
    Ok(())
}
