//! Reading all that a reader has, and judging whether it is a text.
ghost use Rattle.std.specs.Prelude.{◌≡◌, ◌⊎◌, ◌<◌, ◌^◌, IfOk, IfErr, IfSome, MatchResult, OnOk, Ok, Err, length};
ghost use Rattle.std.specs.Io.KnownBytes.{IsAtEnd};
ghost use Rattle.ecma_stdio.specs.Faults.{text_reply};

use crate::fault::{Fault, Halt};
use std::alloc::Global;
use std::io::Read;

const CHUNK: usize = 65_536;

/// So many reads a program makes; a reader that has not ended then is taken for one that never ends.
pub const MOST_TURNS: u64 = 4_294_967_296;

/// The longest text whose places all have a number.
const LONGEST: usize = 4_294_967_295;

// A reader that gives the longest text byte by byte, and then ends, is read to its end.
const _: () = prove!(MOST_TURNS > LONGEST as u64);

/// Reads to the end, which has to come within so many reads. A read that a signal interrupts has failed.
///
/// # Errors
///
/// `ReadFailed` where a read fails or the reader has not ended within `most_turns` reads; the fault `OutOfMemory` where
/// there is no memory for what was read.
pub fn read_all<R: Read>(alloc: Global, reader: &mut R, most_turns: u64) -> Result<Vec<u8>, Halt>
    ensures bytes { IfOk result (λ bytes. IfSome (R.remaining reader.old) (λ input. input ≡ bytes.items)) }
    ensures end { OnOk result (IsAtEnd (R.remaining reader.new)) }
    ensures halts { IfErr result (λ halt. (halt ≡ Halt.ReadFailed) ⊎ (halt ≡ Halt.Fault Fault.OutOfMemory)) }
{
    let mut bytes = Vec::new(alloc);
    let mut chunk = [0; CHUNK];
    'turns: for _ in 0..most_turns {
        let Ok(count) = reader.read(&mut chunk) else {
            return Err(Halt::ReadFailed);
        };
        if count == 0 {
            return Ok(bytes);
        }
        bytes.extend_from_slice(&chunk[..count])?;
    }
    Err(Halt::ReadFailed)
}

/// The text of an input.
///
/// # Errors
///
/// `NotUtf8` where it is none; `TooLong` where it has more bytes than there are places.
#[tactic(auto, using(crate::proofs::TextReplies::reply_not_utf8, crate::proofs::TextReplies::reply_too_long, crate::proofs::TextReplies::reply_whole))]
pub fn text_of(input: &[u8]) -> Result<&str, Fault>
    ensures judged { MatchResult result (λ text. text_reply input.now ≡ Ok text.now) (λ fault. text_reply input.now ≡ Err fault) }
    ensures same { IfOk result (λ text. text.now ≡ input.now) }
    ensures short { IfOk result (λ text. length text.now < 2 ^ 32) }
{
    let Ok(text) = str::from_utf8(input) else {
        return Err(Fault::NotUtf8);
    };
    if text.len() > LONGEST {
        return Err(Fault::TooLong);
    }
    Ok(text)
}
