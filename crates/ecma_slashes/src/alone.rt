//! Reading with no parser above and the tokens before not at hand.
ghost use Rattle.std.specs.Prelude.{◌≡◌, ◌++◌, ◌<◌, false, true, None, Err, [], alloc_error, is_some, option_map, IfOk, IsOk, OnOk, OnErr};
ghost use Rattle.ecma_place.specs.Cursor.{rest};
ghost use Rattle.ecma_token.specs.View.{spanned_view};
ghost use Rattle.ecma_state.specs.Run.{act_all};
ghost use Rattle.ecma_state.specs.Session.{Session, lexer_state, state_of};
ghost use Rattle.ecma_stream.specs.View.{IsGivenAs};
ghost use Rattle.ecma_rewinding.specs.Rewinding.{GoesOn};
ghost use Rattle.ecma_state.specs.Ending.{most_tokens};
ghost use Rattle.ecma_slashes.specs.Alone.{rule_of};
ghost use Rattle.ecma_slashes.specs.Rereads.{ReadsBy, are_free_by, is_in_order, meets_expression, steps_to_end_by};

use crate::decider::{Decider, Namer};
use crate::reads::{add_steps_deciding, read_naming};
use crate::slashes::Slashes;
use ecma_state::step::Step;
use ecma_stream::lexer::Lexer;
use ecma_token::TokenAndSpan;
use std::alloc::AllocError;

/// Reads the next token, as [`read_by`] returns it, into a slot that is kept, and says whether a slash was read again. Our
/// own.
///
/// The caller knows what that of [`read_by`] does.
///
/// # Errors
///
/// `AllocError` where allocation fails; each later read returns the same. Which token the slot then holds is not said: that
/// which was in it, or the slash.
#[inline]
pub fn read_telling<'a>(
    lexer: &mut Lexer<'a>,
    slot: &mut Option<TokenAndSpan<'a>>,
    slashes: Slashes,
) -> Result<bool, AllocError>
    requires no_reread { lexer.old.reread ≡ None }
    requires in_order { is_in_order (rule_of slashes) ≡ true }
    ensures steps { (s : Session) → state_of s ≡ lexer_state lexer.old → IfOk result (λ again.
        ReadsBy (rule_of slashes.entry) s (option_map spanned_view slot.new) (lexer_state lexer.new) × (again ≡ meets_expression (rule_of slashes.entry) s)) }
    ensures fewer { OnOk result (is_some slot.new ≡ true → most_tokens (lexer_state lexer.new) < most_tokens (lexer_state lexer.old)) }
    ensures no_reread { OnOk result (lexer.new.reread ≡ None) }
    ensures refused { lexer.old.refused ≡ true → (result ≡ Err alloc_error) × (lexer.new ≡ lexer.old) }
    ensures refusal { OnErr result (lexer.new.refused ≡ true) }
    ensures given { OnErr result (IsGivenAs lexer.old lexer.new) }
    // What was recorded before stays, so that a checkpoint of before undoes it.
    ensures on { OnErr result (GoesOn (lexer_state lexer.old) (lexer_state lexer.new)) }
    ensures free { (s : Session) → state_of s ≡ lexer_state lexer.old → lexer.old.refused ≡ false → are_free_by (rule_of slashes.entry) s ≡ true → IsOk result }
    ensures ended { lexer.old.refused ≡ false → rest lexer.old.input ≡ [] → IsOk result }
{
    read_naming(lexer, slot, Namer::Rule(slashes.alone()))
}

/// The next token, or nothing at the end, with no parser to say what a slash is: where `/` or `/=` was read and the slash
/// is among those that begin regular expressions, it is read again, and the token of the expression, or that which says
/// what is wrong with it, is returned in its place. [`Slashes::ByRole`] and [`Slashes::Numbered`], which ask for the tokens
/// before, name no slash here ([`read_deciding`](crate::read_deciding)). Our own.
///
/// The caller knows that no slash is read again ([`Lexer::reads_again`]), and that the places ascend
/// ([`ascend`](crate::ascend)).
///
/// # Errors
///
/// `AllocError` where allocation fails; each later read returns the same.
pub fn read_by<'a>(
    lexer: &mut Lexer<'a>,
    slashes: Slashes,
) -> Result<Option<TokenAndSpan<'a>>, AllocError>
    requires no_reread { lexer.old.reread ≡ None }
    requires in_order { is_in_order (rule_of slashes) ≡ true }
    // It answers what these steps of the run answer last, and leads where they do, from any session.
    ensures steps { (s : Session) → state_of s ≡ lexer_state lexer.old → IfOk result (λ found.
        ReadsBy (rule_of slashes.entry) s (option_map spanned_view found) (lexer_state lexer.new)) }
    // Each token leaves fewer that may come, so that a loop ends.
    ensures fewer { IfOk result (λ found. is_some found ≡ true → most_tokens (lexer_state lexer.new) < most_tokens (lexer_state lexer.old)) }
    ensures no_reread { OnOk result (lexer.new.reread ≡ None) }
    ensures refused { lexer.old.refused ≡ true → (result ≡ Err alloc_error) × (lexer.new ≡ lexer.old) }
    ensures refusal { OnErr result (lexer.new.refused ≡ true) }
    ensures given { OnErr result (IsGivenAs lexer.old lexer.new) }
    // What was recorded before stays, so that a checkpoint of before undoes it.
    ensures on { OnErr result (GoesOn (lexer_state lexer.old) (lexer_state lexer.new)) }
    // It does not allocate where neither of its reads does.
    ensures free { (s : Session) → state_of s ≡ lexer_state lexer.old → lexer.old.refused ≡ false → are_free_by (rule_of slashes.entry) s ≡ true → IsOk result }
    // Nor does the end.
    ensures ended { lexer.old.refused ≡ false → rest lexer.old.input ≡ [] → IsOk result }
{
    let mut answer = None;
    read_telling(lexer, &mut answer, slashes)?;
    Ok(answer)
}

/// Reads to the end ([`read_by`]), and adds the steps by which all was read. Our own.
///
/// The caller knows that no slash is read again ([`Lexer::reads_again`]), and that the places ascend
/// ([`ascend`](crate::ascend)).
///
/// # Errors
///
/// `AllocError` where allocation fails for a token, so that each later read returns the same, or for a step. Which steps
/// were added, and how much was read, is then not said.
pub fn add_steps_by(
    steps: &mut Vec<Step>,
    lexer: &mut Lexer,
    slashes: Slashes,
) -> Result<(), AllocError>
    requires no_reread { lexer.old.reread ≡ None }
    requires in_order { is_in_order (rule_of slashes) ≡ true }
    ensures steps { (s : Session) → state_of s ≡ lexer_state lexer.old → OnOk result (steps.new.items ≡ steps.old.items ++ steps_to_end_by (rule_of slashes.entry) s) }
    ensures after { (s : Session) → state_of s ≡ lexer_state lexer.old → OnOk result (lexer_state lexer.new ≡ state_of (act_all s (steps_to_end_by (rule_of slashes.entry) s))) }
{
    let mut decider = Decider::alone(slashes);
    add_steps_deciding(steps, lexer, &mut decider)
}
