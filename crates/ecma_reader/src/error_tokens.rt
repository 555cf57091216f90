//! What is kept of a text, with the errors of its tokens that are one.
ghost use Rattle.std.specs.Prelude.{◌≡◌, ◌+◌, ◌++◌, ◌<◌, ◌^◌, [], length, map, option_map, true, IfOk, OnOk};
ghost use Rattle.std.specs.Str.{chars};
ghost use Rattle.ecma_token.specs.View.{error_view, spanned_view};
ghost use Rattle.ecma_state.specs.Run.{start_of};
ghost use Rattle.ecma_state.specs.Session.{Session, kept_of};
ghost use Rattle.ecma_slashes.specs.Rereads.{SlashRule, is_in_order, rule_of, text_steps_by};
ghost use Rattle.ecma_reader.specs.Outputs.{IsReadOut, error_in, errors_among};
ghost use Rattle.ecma_reader.specs.Readers.{HasRead, IsReady, Shows, tokens_by, tokens_found};

use crate::reader::Reader;
use crate::tokens::{LexOutput, gathered, keep};
use ecma_place::BytePos;
use ecma_replay::Gathered;
use ecma_slashes::Slashes;
use ecma_slot::Slot;
use ecma_state::{Kept, Settings};
use ecma_syntax::Context;
use ecma_token::{Error, Token, TokenAndSpan};
use std::alloc::{AllocError, Global};

/// What a text is read to, and its error tokens.
#[derive(Drop)]
pub struct ReadOut<'a> {
    /// What the steps by which it is read come to.
    pub gathered: Gathered<'a>,
    /// How many slashes were read again.
    pub rereads: usize,
    /// The errors of the tokens that are one, in order.
    pub refusals: Vec<Error<'a>>,
}

/// What is kept of the tokens so far, and the errors of those that are one.
#[derive(Drop)]
struct Sink<'a> {
    kept: Vec<Kept>,
    errors: Vec<Error<'a>>,
}

/// The error of a token that is one, which is taken out of the slot. What the slot then holds is not said. It does not allocate.
pub fn take_error<'a>(slot: &mut Option<TokenAndSpan<'a>>) -> Option<Error<'a>>
    ensures { error_in result ≡ errors_among (tokens_found (option_map spanned_view slot.old)) }
{
    // Most tokens are none, and stay where they are.
    match slot {
        Some(
            TokenAndSpan {
                token: Token::Error(_),
                ..
            },
        ) => {}
        _ => return None,
    }
    match slot.take()?.token {
        Token::Error(error) => Some(error),
        _ => None,
    }
}

impl<'a> Sink<'a> {
    /// Takes in what a read left in the slot.
    fn take_in(&mut self, slot: &mut Option<TokenAndSpan<'a>>) -> Result<(), AllocError>
        ensures kept { OnOk result (self.new.kept.items ≡ self.old.kept.items ++ map kept_of (tokens_found (option_map spanned_view slot.old))) }
        ensures errors { OnOk result (map error_view self.new.errors.items ≡ map error_view self.old.errors.items ++ errors_among (tokens_found (option_map spanned_view slot.old))) }
    {
        keep(&mut self.kept, slot)?;
        if let Some(error) = take_error(slot) {
            self.errors.push(error)?;
        }
        Ok(())
    }

    /// Reads to the end, and takes in each token.
    fn take_rest(&mut self, reader: &mut Reader<'a>) -> Result<(), AllocError>
        requires ready { IsReady reader.old }
        ensures kept { (rule : SlashRule) (begin : Session) → Shows rule begin [] reader.old → self.old.kept.items ≡ [] → self.old.errors.items ≡ []
            → OnOk result (self.new.kept.items ≡ map kept_of (tokens_by rule begin)) }
        ensures errors { (rule : SlashRule) (begin : Session) → Shows rule begin [] reader.old → self.old.kept.items ≡ [] → self.old.errors.items ≡ []
            → OnOk result (map error_view self.new.errors.items ≡ errors_among (tokens_by rule begin)) }
        ensures read { (rule : SlashRule) (begin : Session) → Shows rule begin [] reader.old → self.old.kept.items ≡ [] → self.old.errors.items ≡ []
            → OnOk result (HasRead rule begin reader.new) }
    {
        let mut slot = Slot::new();
        'tokens: while reader.read_into(&mut slot.token)? {
            self.take_in(&mut slot.token)?;
        }
        Ok(())
    }
}

/// What [`tokenize`](crate::tokenize) returns of a text, and the errors of the tokens that are one, by one reading. What is
/// taken is as of `tokenize`. Our own.
///
/// The caller knows that the text fits its places ([`StringInput::fits`](ecma_place::StringInput::fits)), and that the places
/// of slashes ascend ([`ascend`](ecma_slashes::ascend)).
///
/// # Errors
///
/// `AllocError` where allocation fails.
pub fn read_out<'a>(
    alloc: Global,
    settings: &Settings,
    context: Context,
    source: &'a str,
    start: BytePos,
    slashes: Slashes<'a>,
) -> Result<ReadOut<'a>, AllocError>
    requires fits { start.0 + length source.now < 2 ^ 32 }
    requires in_order { is_in_order (rule_of slashes) ≡ true }
    ensures { IfOk result (IsReadOut (start_of settings.now record { start = start.0; text = chars source.now; at = 0 })
        (text_steps_by (rule_of slashes.entry) settings.now context record { start = start.0; text = chars source.now; at = 0 })) }
{
    let mut reader = Reader::new(alloc, settings, context, source, start, slashes)?;
    let mut sink = Sink {
        kept: Vec::new(alloc),
        errors: Vec::new(alloc),
    };
    sink.take_rest(&mut reader)?;
    let Sink { kept, errors } = sink;
    let output = gathered(kept, reader);
    Ok(ReadOut {
        gathered: output.gathered,
        rereads: output.rereads,
        refusals: errors,
    })
}
