//! The canonical text.
ghost use Rattle.std.specs.Prelude.{◌≡◌, ◌<◌, ◌^◌, false, length, map, IfOk, OnErr};
ghost use Rattle.std.specs.Str.{chars};
ghost use Rattle.ecma_state.specs.Run.{start_of};
ghost use Rattle.ecma_options.specs.Begin as reading;
ghost use Rattle.ecma_reader.specs.Outputs.{IsLexed};
ghost use Rattle.ecma_canonical.specs.Canonical.{IsCanon};
ghost use Rattle.ecma_rows.specs.Asked.{asked_view, judged, place_at};
ghost use Rattle.ecma_rows.specs.Canon.{canon_told, steps_of};
ghost use Rattle.ecma_rows.specs.Told.{IsTold};

use crate::outcome::{Answer, Status};
use crate::request::{Asked, judge, places};
use crate::room::write_all;
use ecma_canonical::{Canon, canonical_of_gathered};
use ecma_reader::{LexOutput, tokenize};
use ecma_span::BytePos;
use std::alloc::{AllocError, Global};

/// The canonical text of a text, by what was read of it as it was asked for.
fn canon_of_read(alloc: Global, asked: &Asked, read: &LexOutput) -> Result<Canon, AllocError>
    requires short { length asked.now.text.now < 2 ^ 32 }
    requires read { IsLexed (start_of (reading.settings false asked.now.options) (reading.whole asked.now.text.now)) (steps_of (asked_view asked.now)) read.now }
    ensures { IfOk result (IsCanon (reading.settings false asked.now.options) 0 (chars asked.now.text.now) (steps_of (asked_view asked.now))) }
{
    canonical_of_gathered(alloc, asked.text, BytePos(0), &read.gathered)
}

/// Writes the canonical text of a text to the room, as many bytes as fit. The count is the number of its bytes. What is taken
/// is as of [`write_tokens`](crate::write_tokens). Nothing is written where the answer is `Refused`,
/// `NotUtf8`, `TooLong`, `NoSlash` or `NotClean`, judged in this order, but that `TooLong` is also returned, last, where the
/// canonical text is longer than places go. Our own.
///
/// # Errors
///
/// `AllocError` where allocation fails; the room is then as before.
#[tactic(auto, using(crate::proofs::CanonCases::canon_text, crate::proofs::CanonCases::canon_too_long, crate::proofs::CanonCases::canon_not_clean))]
pub fn write_canonical(
    alloc: Global,
    text: &[u8],
    bits: u32,
    slashes: &[u32],
    out: &mut [u8],
) -> Result<Answer, AllocError>
    ensures told { IfOk result (IsTold (canon_told (judged bits (map place_at slashes.now) text.now)) out.old out.new) }
    ensures err { OnErr result (out.new ≡ out.old) }
{
    let places = places(alloc, slashes)?;
    let asked = match judge(text, bits, &places) {
        Ok(asked) => asked,
        Err(status) => return Ok(Answer::of_status(status)),
    };
    let settings = asked.options.settings(false);
    let context = asked.options.context();
    let start = BytePos(0);
    let read = tokenize(alloc, &settings, context, asked.text, start, asked.slashes)?;
    if !asked.is_met(read.rereads) {
        return Ok(Answer::of_status(Status::NoSlash));
    }
    match canon_of_read(alloc, &asked, &read)? {
        Canon::Text(canon) => {
            let bytes = canon.as_bytes();
            write_all(bytes, out);
            Ok(Answer::of_count(true, bytes.len() <= out.len(), bytes.len()))
        }
        Canon::NotClean => Ok(Answer::of_status(Status::NotClean)),
        Canon::TooLong => Ok(Answer::of_status(Status::TooLong)),
    }
}
