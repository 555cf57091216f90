//! What is kept of the tokens of a text.
ghost use Rattle.std.specs.Prelude.{◌≡◌, ◌++◌, None, true, map, reverse, IfOk, OnOk};
ghost use Rattle.ecma_token.specs.View.{spanned_view};
ghost use Rattle.ecma_state.specs.Ending.{comments_of, errors_of, read_out, tokens_of};
ghost use Rattle.ecma_state.specs.HandOver.{has_comments};
ghost use Rattle.ecma_state.specs.Session.{Session, kept_back, kept_of, kept_tokens, lexer_state, state_of};
ghost use Rattle.ecma_program.specs.Rereads.{Stands};

use crate::lines::next_kept;
use crate::rereads::ReadAgain;
use ecma_state::Kept;
use ecma_stream::{Lexer, Slot};
use ecma_token::TokenAndSpan;
use std::alloc::{AllocError, Global};

/// Adds what is kept of these tokens, in order.
fn keep_all(kept: &mut Vec<Kept>, tokens: &[TokenAndSpan]) -> Result<(), AllocError>
    ensures { OnOk result (kept.new.items ≡ kept.old.items ++ map kept_of (map spanned_view tokens.now)) }
{
    for token in tokens {
        kept.push(Kept::of(token))?;
    }
    Ok(())
}

/// Reads to the end, and adds what is kept of each token.
fn keep_rest(kept: &mut Vec<Kept>, lexer: &mut Lexer) -> Result<(), AllocError>
    requires { lexer.old.reread ≡ None }
    ensures tokens { (s : Session) → state_of s ≡ lexer_state lexer.old → kept.old.items ≡ map kept_of (reverse (kept_back s.past)) → OnOk result (kept.new.items ≡ map kept_of (tokens_of s)) }
    ensures errors { (s : Session) → state_of s ≡ lexer_state lexer.old → OnOk result ((lexer_state lexer.new).errors ≡ errors_of s) }
    ensures comments { (s : Session) → state_of s ≡ lexer_state lexer.old → OnOk result ((lexer_state lexer.new).comments ≡ comments_of s) }
    ensures ended { (s : Session) → state_of s ≡ lexer_state lexer.old → OnOk result (has_comments (lexer_state lexer.new) ≡ true) }
{
    let mut slot = Slot::new();
    'tokens: while let Some(token) = next_kept(lexer, &mut slot.token)? {
        kept.push(token)?;
    }
    Ok(())
}

/// What is kept of all tokens of a text: of those up to the last that is read again, and of those behind them. The lexer
/// reads to the end, behind which its comments may be handed over.
pub fn keep_tokens(alloc: Global, opened: &mut ReadAgain) -> Result<Vec<Kept>, AllocError>
    requires { opened.old.lexer.reread ≡ None }
    ensures tokens { (s : Session) → Stands s opened.old → IfOk result (λ kept. kept.items ≡ kept_tokens (read_out s)) }
    ensures errors { (s : Session) → Stands s opened.old → OnOk result ((lexer_state opened.new.lexer).errors ≡ errors_of s) }
    ensures comments { (s : Session) → Stands s opened.old → OnOk result ((lexer_state opened.new.lexer).comments ≡ comments_of s) }
    ensures ended { (s : Session) → Stands s opened.old → OnOk result (has_comments (lexer_state opened.new.lexer) ≡ true) }
{
    let mut kept = Vec::new(alloc);
    keep_all(&mut kept, &opened.tokens)?;
    keep_rest(&mut kept, &mut opened.lexer)?;
    Ok(kept)
}
