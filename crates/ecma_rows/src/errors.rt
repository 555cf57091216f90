//! Rows of errors, and their messages.
ghost use Rattle.std.specs.Prelude.{◌≡◌, ◌∷◌, ◌++◌, [], List, false, map, option_map, IfOk, OnOk, OnErr};
ghost use Rattle.ecma_token.specs.View.{error_view, spanned_view};
ghost use Rattle.ecma_state.specs.Session.{Session};
ghost use Rattle.ecma_reader.specs.Rereads.{SlashRule};
ghost use Rattle.ecma_reader.specs.Outputs.{error_tokens, errors_among};
ghost use Rattle.ecma_reader.specs.Readers.{HasRead, IsReady, Leaves, Shows, tokens_by, tokens_found};
ghost use Rattle.ecma_rows.specs.Asked.{judged, place_at};
ghost use Rattle.ecma_rows.specs.ErrorRows as rows;
ghost use Rattle.ecma_rows.specs.ErrorRows.{IsGathered, IsSaid, Sourced, TellsErrors, all_errors, of_tokens, sourced};
ghost use Rattle.ecma_rows.specs.Told.{Rows, told_by};

use crate::outcome::Answer;
use crate::request::{judge, places};
use crate::room::write_all;
use ecma_reader::{Outcome, Reader};
use ecma_slot::Slot;
use ecma_span::{Span, Spanned};
use ecma_token::{Error, Token, TokenAndSpan};
use std::alloc::{AllocError, Global};

/// An error: where it lies, in bytes from the text's start; where it was found, 0 as a token, 1 where it was recorded, 2 where
/// it waits until the code is known to be a module; and where its message begins and ends, in bytes of all messages, joined.
/// Our own.
#[repr(C)]
#[derive(Clone, Copy, Debug, PartialEq, Eq)]
pub struct ErrorRow {
    pub lo: u32,
    pub hi: u32,
    pub source: u32,
    pub message_lo: usize,
    pub message_hi: usize,
}

/// Where an error was found.
#[derive(Clone, Copy)]
enum Source {
    Token,
    Recorded,
    Waiting,
}

impl Source {
    fn number(self) -> u32
        ensures { result ≡ rows.source_number self }
    {
        match self {
            Source::Token => 0,
            Source::Recorded => 1,
            Source::Waiting => 2,
        }
    }
}

/// Rows of errors, and their messages, joined.
#[derive(Drop)]
struct Gathered {
    rows: Vec<ErrorRow>,
    messages: Vec<u8>,
}

impl Gathered {
    /// Adds an error that lies there and has this message.
    fn add(&mut self, source: Source, span: Span, message: &[u8]) -> Result<(), AllocError>
        ensures { (es : List Sourced) (e : Sourced) → IsSaid e source span message.now → IsGathered es self.old → OnOk result (IsGathered (es ++ e ∷ []) self.new) }
    {
        let message_lo = self.messages.len();
        self.messages.extend_from_slice(message)?;
        let message_hi = self.messages.len();
        self.rows.push(ErrorRow {
            lo: span.lo.0,
            hi: span.hi.0,
            source: source.number(),
            message_lo,
            message_hi,
        })?;
        Ok(())
    }

    /// Adds an error.
    fn push(&mut self, alloc: Global, source: Source, error: &Error) -> Result<(), AllocError>
        ensures { (es : List Sourced) → IsGathered es self.old → OnOk result (IsGathered (es ++ record { source = source; error = error_view error.now } ∷ []) self.new) }
    {
        let message = error.kind().msg(alloc)?;
        self.add(source, error.span(), message.as_bytes())
    }

    /// Adds errors, in order.
    fn push_all(
        &mut self,
        alloc: Global,
        source: Source,
        errors: &[Error],
    ) -> Result<(), AllocError>
        ensures { (es : List Sourced) → IsGathered es self.old → OnOk result (IsGathered (es ++ sourced source (map error_view errors.now)) self.new) }
    {
        for error in errors {
            self.push(alloc, source, error)?;
        }
        Ok(())
    }

    /// Adds the error of the token that was read, where it is one.
    fn push_token(&mut self, alloc: Global, slot: &Option<TokenAndSpan>) -> Result<(), AllocError>
        ensures { (es : List Sourced) → IsGathered es self.old
            → OnOk result (IsGathered (es ++ of_tokens (errors_among (tokens_found (option_map spanned_view slot.now)))) self.new) }
    {
        match slot {
            Some(
                TokenAndSpan {
                    token: Token::Error(error),
                    ..
                },
            ) => self.push(alloc, Source::Token, error),
            _ => Ok(()),
        }
    }

    /// Reads to the end, and adds the errors of the tokens that are one.
    fn push_tokens(&mut self, alloc: Global, reader: &mut Reader) -> Result<(), AllocError>
        requires ready { IsReady reader.old }
        ensures gathered { (rule : SlashRule) (begin : Session) → Shows rule begin [] reader.old → IsGathered [] self.old
            → OnOk result (IsGathered (of_tokens (errors_among (tokens_by rule begin))) self.new) }
        ensures read { (rule : SlashRule) (begin : Session) → Shows rule begin [] reader.old → IsGathered [] self.old → OnOk result (HasRead rule begin reader.new) }
    {
        let mut slot = Slot::new();
        'tokens: while reader.read_into(&mut slot.token)? {
            self.push_token(alloc, &slot.token)?;
        }
        Ok(())
    }

    /// Adds the errors that a reader leaves, behind those of the tokens.
    fn push_outcome(&mut self, alloc: Global, outcome: &Outcome) -> Result<(), AllocError>
        ensures { (s : Session) → Leaves s outcome.now → IsGathered (of_tokens (error_tokens s)) self.old → OnOk result (IsGathered (all_errors s) self.new) }
    {
        self.push_all(alloc, Source::Recorded, outcome.errors.as_slice())?;
        self.push_all(alloc, Source::Waiting, outcome.waiting.as_slice())?;
        Ok(())
    }

    /// Writes rows and messages, as many as fit, where each place that was named is that of a slash, or not.
    fn write(self, is_met: bool, out: &mut [ErrorRow], messages: &mut [u8]) -> Answer
        ensures { (es : List Sourced) → IsGathered es self → TellsErrors (Rows is_met es) out.old out.new messages.old messages.new result }
    {
        let fits = self.rows.len() <= out.len() && self.messages.len() <= messages.len();
        write_all(&self.rows, out);
        write_all(&self.messages, messages);
        Answer::of_count(is_met, fits, self.rows.len())
    }
}

/// Writes a row for each error of a text to `out`, as many as fit: of the tokens that are one, then of those that were
/// recorded, then of those that wait until the code is known to be a module, each in order. Their messages, joined with
/// nothing between them, are written to `messages`, as many bytes as fit. What is taken and returned is as of
/// [`write_tokens`](crate::write_tokens), but that errors are counted, and that the answer is `NoRoom` also where the messages
/// don't fit: all rows together, where they fit, say how many bytes there are.
///
/// # Errors
///
/// `AllocError` where allocation fails; the rooms are then as before.
pub fn write_errors(
    alloc: Global,
    text: &[u8],
    bits: u32,
    slashes: &[u32],
    out: &mut [ErrorRow],
    messages: &mut [u8],
) -> Result<Answer, AllocError>
    ensures told { IfOk result (TellsErrors (told_by false all_errors (judged bits (map place_at slashes.now) text.now)) out.old out.new messages.old messages.new) }
    ensures err { OnErr result ((out.new ≡ out.old) × (messages.new ≡ messages.old)) }
{
    let places = places(alloc, slashes)?;
    let asked = match judge(text, bits, &places) {
        Ok(asked) => asked,
        Err(status) => return Ok(Answer::of_status(status)),
    };
    let mut reader = asked.reader(alloc, false)?;
    let mut gathered = Gathered {
        rows: Vec::new(alloc),
        messages: Vec::new(alloc),
    };
    gathered.push_tokens(alloc, &mut reader)?;
    let outcome = reader.finish();
    gathered.push_outcome(alloc, &outcome)?;
    let is_met = asked.is_met(outcome.rereads);
    Ok(gathered.write(is_met, out, messages))
}
