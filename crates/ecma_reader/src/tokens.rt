//! The tokens of a text, as they are kept.
ghost use Rattle.std.specs.Prelude.{◌≡◌, ◌+◌, ◌++◌, ◌<◌, ◌^◌, [], length, map, option_map, true, IfOk, OnOk};
ghost use Rattle.std.specs.Str.{chars};
ghost use Rattle.ecma_place.specs.Cursor.{Cursor};
ghost use Rattle.ecma_syntax.specs.declared.context.Context.{Context};
ghost use Rattle.ecma_token.specs.View.{spanned_view};
ghost use Rattle.ecma_state.specs.Run.{start_of};
ghost use Rattle.ecma_state.specs.Session.{Session, kept_of};
ghost use Rattle.ecma_state.specs.declared.settings.Settings.{Settings};
ghost use Rattle.ecma_slashes.specs.Rereads.{SlashRule, entered, is_in_order, rule_of, text_steps_by};
ghost use Rattle.ecma_reader.specs.Outputs.{IsLexed};
ghost use Rattle.ecma_reader.specs.Readers.{HasRead, IsReady, Shows, tokens_by, tokens_found};

use crate::reader::Reader;
use ecma_place::BytePos;
use ecma_replay::Gathered;
use ecma_slashes::Slashes;
use ecma_slot::Slot;
use ecma_state::{Kept, Settings};
use ecma_syntax::Context;
use ecma_token::TokenAndSpan;
use std::alloc::{AllocError, Global};

/// What a text is read to.
#[derive(Drop)]
pub struct LexOutput<'a> {
    /// What the steps by which it is read come to.
    pub gathered: Gathered<'a>,
    /// How many slashes were read again.
    pub rereads: usize,
}

/// Adds what is kept of the token that was read.
pub(crate) fn keep(kept: &mut Vec<Kept>, slot: &Option<TokenAndSpan>) -> Result<(), AllocError>
    ensures { OnOk result (kept.new.items ≡ kept.old.items ++ map kept_of (tokens_found (option_map spanned_view slot.now))) }
{
    if let Some(token) = slot {
        kept.push(Kept::of(token))?;
    }
    Ok(())
}

/// Reads to the end, and adds what is kept of each token.
fn keep_rest(kept: &mut Vec<Kept>, reader: &mut Reader) -> Result<(), AllocError>
    requires ready { IsReady reader.old }
    ensures kept { (rule : SlashRule) (begin : Session) → Shows rule begin [] reader.old → kept.old.items ≡ []
        → OnOk result (kept.new.items ≡ map kept_of (tokens_by rule begin)) }
    ensures read { (rule : SlashRule) (begin : Session) → Shows rule begin [] reader.old → kept.old.items ≡ []
        → OnOk result (HasRead rule begin reader.new) }
{
    // One slot for all, so that none is made and dropped for each token.
    let mut slot = Slot::new();
    'tokens: while reader.read_into(&mut slot.token)? {
        keep(kept, &slot.token)?;
    }
    Ok(())
}

/// What a reader that has come to the end leaves, with the tokens.
pub(crate) fn gathered<'a>(kept: Vec<Kept>, reader: Reader<'a>) -> LexOutput<'a>
    ensures { (rule : SlashRule) (settings : Settings) (context : Context) (input : Cursor) → HasRead rule (entered settings context input) reader.entry
        → kept.items ≡ map kept_of (tokens_by rule (entered settings context input)) → IsLexed (start_of settings input) (text_steps_by rule settings context input) result }
{
    let outcome = reader.finish();
    LexOutput {
        gathered: Gathered {
            kept,
            errors: outcome.errors,
            waiting: outcome.waiting,
            comments: outcome.comments,
            ended: outcome.ended,
        },
        rereads: outcome.rereads,
    }
}

/// What [`gather`](ecma_replay::gather) returns of the steps by which a text that starts at a place is read to its end in a
/// context ([`steps_by`](ecma_slashes::steps_by)), and how many slashes were read again, by one reading and with no list of
/// steps. Our own.
///
/// The caller knows that the text fits its places ([`StringInput::fits`](ecma_place::StringInput::fits)), and that the places
/// of slashes ascend ([`ascend`](ecma_slashes::ascend)).
///
/// # Errors
///
/// `AllocError` where allocation fails.
pub fn tokenize<'a>(
    alloc: Global,
    settings: &Settings,
    context: Context,
    source: &'a str,
    start: BytePos,
    slashes: Slashes<'a>,
) -> Result<LexOutput<'a>, AllocError>
    requires fits { start.0 + length source.now < 2 ^ 32 }
    requires in_order { is_in_order (rule_of slashes) ≡ true }
    ensures { IfOk result (IsLexed (start_of settings.now record { start = start.0; text = chars source.now; at = 0 })
        (text_steps_by (rule_of slashes.entry) settings.now context record { start = start.0; text = chars source.now; at = 0 })) }
{
    let mut reader = Reader::new(alloc, settings, context, source, start, slashes)?;
    let mut kept = Vec::new(alloc);
    keep_rest(&mut kept, &mut reader)?;
    Ok(gathered(kept, reader))
}
