//! Reading with no parser above: the slashes that are named are read again.
ghost use Rattle.std.specs.Prelude.{◌≡◌, ◌⊎◌, ◌+◌, ◌++◌, ◌<◌, ◌^◌, false, true, None, Err, [], alloc_error, is_some, length, option_map, IfOk, IsOk, OnOk, OnErr};
ghost use Rattle.std.specs.Str.{chars};
ghost use Rattle.ecma_place.specs.Cursor.{rest};
ghost use Rattle.ecma_token.specs.View.{spanned_view};
ghost use Rattle.ecma_state.specs.Run.{act_all};
ghost use Rattle.ecma_state.specs.Session.{Session, lexer_state, state_of};
ghost use Rattle.ecma_stream.specs.View.{IsGivenAs};
ghost use Rattle.ecma_state.specs.Ending.{most_tokens};
ghost use Rattle.ecma_rewinding.specs.Rewinding.{GoesOn};
ghost use Rattle.ecma_slashes.specs.Rereads.{Decides, HasRoom, MayName, NamesAs, PassesBy, ReadsBy, SlashRule, StepsOn, are_free_by, behind_by, is_in_order, meets_expression, names, rereads, rule_of, says, steps_to_end_by, text_steps_by};

use crate::decider::{Decider, Namer};
use crate::entry::enter;
use crate::slashes::Slashes;
use ecma_place::BytePos;
use ecma_slot::Slot;
use ecma_state::settings::Settings;
use ecma_state::step::Step;
use ecma_stream::lexer::Lexer;
use ecma_stream::tokens::Tokens;
use ecma_syntax::Context;
use ecma_token::TokenAndSpan;
use std::alloc::{AllocError, Global};

/// Reads the next token into a slot that is kept, and says whether a slash was read again, as is said
/// of a slash.
#[inline(always)]
pub(crate) fn read_naming<'a>(
    lexer: &mut Lexer<'a>,
    slot: &mut Option<TokenAndSpan<'a>>,
    namer: Namer,
) -> Result<bool, AllocError>
    requires no_reread { lexer.old.reread ≡ None }
    requires may_name { MayName namer }
    ensures steps { (rule : SlashRule) (s : Session) → state_of s ≡ lexer_state lexer.old → NamesAs rule s (says namer.entry) → IfOk result (λ again.
        ReadsBy rule s (option_map spanned_view slot.new) (lexer_state lexer.new) × (again ≡ meets_expression rule s)) }
    ensures fewer { OnOk result (is_some slot.new ≡ true → most_tokens (lexer_state lexer.new) < most_tokens (lexer_state lexer.old)) }
    ensures no_reread { OnOk result (lexer.new.reread ≡ None) }
    ensures refused { lexer.old.refused ≡ true → (result ≡ Err alloc_error) × (lexer.new ≡ lexer.old) }
    ensures refusal { OnErr result (lexer.new.refused ≡ true) }
    ensures given { OnErr result (IsGivenAs lexer.old lexer.new) }
    ensures on { OnErr result (GoesOn (lexer_state lexer.old) (lexer_state lexer.new)) }
    ensures free { (rule : SlashRule) (s : Session) → state_of s ≡ lexer_state lexer.old → NamesAs rule s (says namer.entry) → lexer.old.refused ≡ false → are_free_by rule s ≡ true → IsOk result }
    ensures ended { lexer.old.refused ≡ false → rest lexer.old.input ≡ [] → IsOk result }
{
    let allowed = lexer.expr_allowed();
    lexer.read_into(slot)?;
    let Some(slash) = lexer.last_slash() else {
        return Ok(false);
    };
    if !namer.names(allowed, slot, slash) {
        return Ok(false);
    }
    lexer.set_next_regexp(Some(slash));
    let again = lexer.read_into(slot);
    lexer.set_next_regexp(None);
    again?;
    Ok(true)
}

/// The same by a rule that asks nothing of the tokens before.
#[inline(never)]
fn read_plainly<'a>(
    lexer: &mut Lexer<'a>,
    slot: &mut Option<TokenAndSpan<'a>>,
    slashes: Slashes,
) -> Result<bool, AllocError>
    requires no_reread { lexer.old.reread ≡ None }
    requires in_order { is_in_order (rule_of slashes) ≡ true }
    ensures steps { (rule : SlashRule) (s : Session) → state_of s ≡ lexer_state lexer.old → NamesAs rule s (λ allowed is_assign p. names (rule_of slashes.entry) allowed false p) → IfOk result (λ again.
        ReadsBy rule s (option_map spanned_view slot.new) (lexer_state lexer.new) × (again ≡ meets_expression rule s)) }
    ensures fewer { OnOk result (is_some slot.new ≡ true → most_tokens (lexer_state lexer.new) < most_tokens (lexer_state lexer.old)) }
    ensures no_reread { OnOk result (lexer.new.reread ≡ None) }
    ensures refused { lexer.old.refused ≡ true → (result ≡ Err alloc_error) × (lexer.new ≡ lexer.old) }
    ensures refusal { OnErr result (lexer.new.refused ≡ true) }
    ensures given { OnErr result (IsGivenAs lexer.old lexer.new) }
    ensures on { OnErr result (GoesOn (lexer_state lexer.old) (lexer_state lexer.new)) }
    ensures free { (rule : SlashRule) (s : Session) → state_of s ≡ lexer_state lexer.old → NamesAs rule s (λ allowed is_assign p. names (rule_of slashes.entry) allowed false p) → lexer.old.refused ≡ false → are_free_by rule s ≡ true → IsOk result }
    ensures ended { lexer.old.refused ≡ false → rest lexer.old.input ≡ [] → IsOk result }
{
    read_naming(lexer, slot, Namer::Rule(slashes))
}

/// [`read_deciding`], where the rule asks for the tokens before.
#[inline(never)]
fn read_knowing<'a>(
    lexer: &mut Lexer<'a>,
    slot: &mut Option<TokenAndSpan<'a>>,
    decider: &mut Decider,
) -> Result<bool, AllocError>
    requires no_reread { lexer.old.reread ≡ None }
    requires in_order { is_in_order (rule_of decider.old.slashes) ≡ true }
    ensures steps { (rule : SlashRule) (s : Session) → state_of s ≡ lexer_state lexer.old → Decides rule s decider.old → IfOk result (λ again.
        ReadsBy rule s (option_map spanned_view slot.new) (lexer_state lexer.new) × (again ≡ meets_expression rule s)) }
    ensures decides { (rule : SlashRule) (s : Session) → state_of s ≡ lexer_state lexer.old → Decides rule s decider.old → OnOk result (Decides rule (behind_by rule s) decider.new) }
    ensures slashes { decider.new.slashes ≡ decider.old.slashes }
    ensures fewer { OnOk result (is_some slot.new ≡ true → most_tokens (lexer_state lexer.new) < most_tokens (lexer_state lexer.old)) }
    ensures no_reread { OnOk result (lexer.new.reread ≡ None) }
    ensures refused { lexer.old.refused ≡ true → (result ≡ Err alloc_error) × (lexer.new ≡ lexer.old) }
    ensures given { OnErr result (IsGivenAs lexer.old lexer.new) }
    ensures on { OnErr result (GoesOn (lexer_state lexer.old) (lexer_state lexer.new)) }
    ensures err { OnErr result (((lexer.new ≡ lexer.old) × (slot.new ≡ slot.old) × (decider.new ≡ decider.old)) ⊎ (lexer.new.refused ≡ true)) }
    ensures decides_still { (rule : SlashRule) (s : Session) → Decides rule s decider.old → OnErr result (Decides rule s decider.new) }
    ensures free { (rule : SlashRule) (s : Session) → state_of s ≡ lexer_state lexer.old → Decides rule s decider.old → HasRoom decider.old.track → lexer.old.refused ≡ false → are_free_by rule s ≡ true → IsOk result }
    ensures ended { HasRoom decider.old.track → lexer.old.refused ≡ false → rest lexer.old.input ≡ [] → IsOk result }
{
    decider.catch_up()?;
    let again = read_naming(lexer, slot, Namer::Decider(decider))?;
    decider.pass(slot, again);
    Ok(again)
}

/// Reads the next token into a slot that is kept, where a decider says which slashes are read again, and returns whether one
/// was. The token of the expression, or that which says what is wrong with it, is in the place of its slash. Our own.
///
/// The caller knows that no slash is read again ([`Lexer::reads_again`]), and that the places ascend
/// ([`ascend`](crate::ascend)). The decider was made for the lexer's text, and took part in each of its reads.
///
/// # Errors
///
/// `AllocError` where allocation fails. Where it failed in the decider, nothing is changed, so that the read may be
/// tried again. Where it failed in the lexer, each later read returns the same; the decider decides what it did before
/// the read, and which token the slot then holds is not said.
#[inline]
pub fn read_deciding<'a>(
    lexer: &mut Lexer<'a>,
    slot: &mut Option<TokenAndSpan<'a>>,
    decider: &mut Decider,
) -> Result<bool, AllocError>
    requires no_reread { lexer.old.reread ≡ None }
    requires in_order { is_in_order (rule_of decider.old.slashes) ≡ true }
    ensures steps { (rule : SlashRule) (s : Session) → state_of s ≡ lexer_state lexer.old → Decides rule s decider.old → IfOk result (λ again.
        ReadsBy rule s (option_map spanned_view slot.new) (lexer_state lexer.new) × (again ≡ meets_expression rule s)) }
    // The decider goes on with the lexer.
    ensures decides { (rule : SlashRule) (s : Session) → state_of s ≡ lexer_state lexer.old → Decides rule s decider.old → OnOk result (Decides rule (behind_by rule s) decider.new) }
    ensures slashes { decider.new.slashes ≡ decider.old.slashes }
    ensures fewer { OnOk result (is_some slot.new ≡ true → most_tokens (lexer_state lexer.new) < most_tokens (lexer_state lexer.old)) }
    ensures no_reread { OnOk result (lexer.new.reread ≡ None) }
    ensures refused { lexer.old.refused ≡ true → (result ≡ Err alloc_error) × (lexer.new ≡ lexer.old) }
    ensures given { OnErr result (IsGivenAs lexer.old lexer.new) }
    ensures on { OnErr result (GoesOn (lexer_state lexer.old) (lexer_state lexer.new)) }
    ensures err { OnErr result (((lexer.new ≡ lexer.old) × (slot.new ≡ slot.old) × (decider.new ≡ decider.old)) ⊎ (lexer.new.refused ≡ true)) }
    ensures decides_still { (rule : SlashRule) (s : Session) → Decides rule s decider.old → OnErr result (Decides rule s decider.new) }
    ensures free { (rule : SlashRule) (s : Session) → state_of s ≡ lexer_state lexer.old → Decides rule s decider.old → HasRoom decider.old.track → lexer.old.refused ≡ false → are_free_by rule s ≡ true → IsOk result }
    ensures ended { HasRoom decider.old.track → lexer.old.refused ≡ false → rest lexer.old.input ≡ [] → IsOk result }
{
    if decider.asks_nothing() {
        read_plainly(lexer, slot, decider.slashes)
    } else {
        read_knowing(lexer, slot, decider)
    }
}

/// What was read.
#[derive(Clone, Copy)]
struct Passed {
    /// Whether there was a token.
    more: bool,
    /// Whether a slash was read again.
    again: bool,
}

/// Passes the next token, which takes the place of what is in the slot.
fn pass_token<'a>(
    lexer: &mut Lexer<'a>,
    slot: &mut Option<TokenAndSpan<'a>>,
    decider: &mut Decider,
) -> Result<Passed, AllocError>
    requires no_reread { lexer.old.reread ≡ None }
    requires in_order { is_in_order (rule_of decider.old.slashes) ≡ true }
    ensures steps { (rule : SlashRule) (s : Session) → state_of s ≡ lexer_state lexer.old → Decides rule s decider.old → IfOk result (λ passed.
        PassesBy rule s passed.more passed.again (lexer_state lexer.new)) }
    ensures decides { (rule : SlashRule) (s : Session) → state_of s ≡ lexer_state lexer.old → Decides rule s decider.old → OnOk result (Decides rule (behind_by rule s) decider.new) }
    ensures slashes { decider.new.slashes ≡ decider.old.slashes }
    ensures fewer { IfOk result (λ passed. passed.more ≡ true → most_tokens (lexer_state lexer.new) < most_tokens (lexer_state lexer.old)) }
    ensures no_reread { OnOk result (lexer.new.reread ≡ None) }
{
    let again = read_deciding(lexer, slot, decider)?;
    Ok(Passed {
        more: slot.is_some(),
        again,
    })
}

/// Reads the next token, adds the steps by which it was read, and says whether there was one.
fn add_steps<'a>(
    steps: &mut Vec<Step>,
    lexer: &mut Lexer<'a>,
    slot: &mut Option<TokenAndSpan<'a>>,
    decider: &mut Decider,
) -> Result<bool, AllocError>
    requires no_reread { lexer.old.reread ≡ None }
    requires in_order { is_in_order (rule_of decider.old.slashes) ≡ true }
    ensures steps { (rule : SlashRule) (s : Session) → state_of s ≡ lexer_state lexer.old → Decides rule s decider.old → IfOk result (λ more.
        StepsOn rule s steps.old.items steps.new.items more (lexer_state lexer.new)) }
    ensures decides { (rule : SlashRule) (s : Session) → state_of s ≡ lexer_state lexer.old → Decides rule s decider.old → OnOk result (Decides rule (behind_by rule s) decider.new) }
    ensures slashes { decider.new.slashes ≡ decider.old.slashes }
    ensures fewer { IfOk result (λ more. more ≡ true → most_tokens (lexer_state lexer.new) < most_tokens (lexer_state lexer.old)) }
    ensures no_reread { OnOk result (lexer.new.reread ≡ None) }
{
    let passed = pass_token(lexer, slot, decider)?;
    steps.push(Step::Read)?;
    if passed.again {
        steps.push(Step::Reread)?;
        steps.push(Step::Read)?;
        steps.push(Step::Withdraw)?;
    }
    Ok(passed.more)
}

/// Reads to the end, and adds the steps by which all was read.
pub(crate) fn add_steps_deciding(
    steps: &mut Vec<Step>,
    lexer: &mut Lexer,
    decider: &mut Decider,
) -> Result<(), AllocError>
    requires no_reread { lexer.old.reread ≡ None }
    requires in_order { is_in_order (rule_of decider.old.slashes) ≡ true }
    ensures steps { (rule : SlashRule) (s : Session) → state_of s ≡ lexer_state lexer.old → Decides rule s decider.old → OnOk result (steps.new.items ≡ steps.old.items ++ steps_to_end_by rule s) }
    ensures after { (rule : SlashRule) (s : Session) → state_of s ≡ lexer_state lexer.old → Decides rule s decider.old → OnOk result (lexer_state lexer.new ≡ state_of (act_all s (steps_to_end_by rule s))) }
{
    // One slot for all, so that none is made and dropped for each token.
    let mut slot = Slot::new();
    'tokens: while add_steps(steps, lexer, &mut slot.token, decider)? {}
    Ok(())
}

/// The steps by which a text that starts at a place is read to its end ([`read_by`](crate::read_by)), in a context, which the first step
/// sets: a list for `replay`, and for all that takes lists of steps. Places are bytes from the text's start, plus its start
/// place. Our own.
///
/// A place that is not that of a `/` or `/=` which is read there changes nothing: all were met where
/// [`count_rereads`] of the steps is as many as there are places.
///
/// The caller knows that the text fits its places ([`StringInput::fits`](ecma_place::StringInput::fits)), and that the places ascend
/// ([`ascend`](crate::ascend)).
///
/// # Errors
///
/// `AllocError` where allocation fails.
pub fn steps_by(
    alloc: Global,
    settings: &Settings,
    context: Context,
    source: &str,
    start: BytePos,
    slashes: Slashes,
) -> Result<Vec<Step>, AllocError>
    requires fits { start.0 + length source.now < 2 ^ 32 }
    requires in_order { is_in_order (rule_of slashes) ≡ true }
    ensures { IfOk result (λ v. v.items ≡ text_steps_by (rule_of slashes.entry) settings.now context record { start = start.0; text = chars source.now; at = 0 }) }
{
    let mut lexer = enter(alloc, settings, context, source, start)?;
    let mut steps = Vec::new(alloc);
    steps.push(Step::SetCtx(context))?;
    let mut decider = Decider::new(alloc, settings, &context, slashes);
    add_steps_deciding(&mut steps, &mut lexer, &mut decider)?;
    Ok(steps)
}

/// How many slashes these steps read again. Our own.
pub fn count_rereads(steps: &[Step]) -> usize
    ensures { result ≡ rereads steps.now }
{
    let mut count = 0;
    'steps: for step in steps {
        if matches!(step, Step::Reread) {
            count += 1;
        }
    }
    count
}
