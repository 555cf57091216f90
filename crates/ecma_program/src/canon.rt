//! What is written of the canonical text of a text's tokens.
ghost use Rattle.std.specs.Prelude.{◌≡◌, ◌&&◌, ◌^◌, ◌<◌, Ok, Err, not, length, string_bytes, IfOk, MatchResult};
ghost use Rattle.std.specs.List.{list_all};
ghost use Rattle.ecma_state.specs.Session.{lexer_state};
ghost use Rattle.ecma_state.specs.State as state;
ghost use Rattle.ecma_state.specs.TokenAt.{is_empty};
ghost use Rattle.ecma_program.specs.CanonText as canons;
ghost use Rattle.ecma_program.specs.CanonText.{IsReadAgain, KeepsCleanly, unless_too_long};
ghost use Rattle.ecma_program.specs.Rereads.{Fails};

use crate::kept_tokens::keep_tokens;
use crate::rereads::open;
use ecma_canonical::{canonical_text, has_no_error};
use ecma_options::Options;
use ecma_place::{BytePos, StringInput};
use ecma_state::Kept;
use ecma_stdio::Fault;
use ecma_stream::{Lexer, Tokens};
use std::alloc::Global;

/// Whether no token is an error, and none is recorded.
fn is_clean(kept: &[Kept], lexer: &mut Lexer) -> bool
    ensures { result ≡ (list_all (λ k. not (state.is_error k.kind)) kept.now && is_empty (lexer_state lexer.old).errors.recorded) }
{
    has_no_error(kept) && lexer.take_errors().as_slice().is_empty()
}

/// The tokens that are kept of a text that starts at the place 0, where those with these numbers are read again.
fn clean_tokens(
    alloc: Global,
    options: Options,
    rereads: &[u64],
    text: &str,
) -> Result<Vec<Kept>, Fault>
    requires { length text.now < 2 ^ 32 }
    ensures { MatchResult result
        (λ kept. KeepsCleanly options rereads.now text.now kept.items)
        (λ fault. Fails (canons.canon_text options rereads.now text.now) fault) }
{
    let mut opened = open(alloc, false, options, rereads, text)?;
    let kept = keep_tokens(alloc, &mut opened)?;
    if is_clean(&kept, &mut opened.lexer) {
        Ok(kept)
    } else {
        Err(Fault::NotClean)
    }
}

/// The bytes of a text, which has to fit the places from 0 on.
fn fitting(text: String) -> Result<Vec<u8>, Fault>
    ensures { MatchResult result
        (λ out. unless_too_long (string_bytes text) ≡ Ok out.items)
        (λ fault. unless_too_long (string_bytes text) ≡ Err fault) }
{
    if StringInput::fits(text.as_str(), BytePos(0)) {
        Ok(text.into_bytes())
    } else {
        Err(Fault::TooLong)
    }
}

/// The bytes of the canonical text of a text that starts at the place 0, where the tokens with these numbers are read again.
///
/// # Errors
///
/// `NoSlash` where one of those is no slash or isn't there; `NotClean` where an error was recorded or a token is one (errors that
/// wait for module code are no hindrance); `TooLong`, which is judged last, where the canonical text has more bytes than there
/// are places; `OutOfMemory`.
pub fn canon_text(
    alloc: Global,
    options: Options,
    rereads: &[u64],
    text: &str,
) -> Result<Vec<u8>, Fault>
    requires { length text.now < 2 ^ 32 }
    ensures told { MatchResult result
        (λ out. canons.canon_text options rereads.now text.now ≡ Ok out.items)
        (λ fault. Fails (canons.canon_text options rereads.now text.now) fault) }
    // It is read by the same words to the same tokens, and is its own canonical text.
    ensures again { IfOk result (λ out. IsReadAgain options rereads.now text.now out.items) }
{
    let kept = clean_tokens(alloc, options, rereads, text)?;
    fitting(canonical_text(alloc, text, BytePos(0), &kept)?)
}
