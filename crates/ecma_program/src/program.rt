//! Words and bytes in, lines out.
ghost use Rattle.std.specs.Prelude.{◌≡◌, ◌⊎◌, ℕ, List, MatchResult, Some, None, Ok, Err, map, string_bytes, IsOkAnd};
ghost use Rattle.std.specs.Io.KnownBytes.{Appends};
ghost use Rattle.ecma_program.specs.Command.{request_of, request_view};
ghost use Rattle.ecma_program.specs.Reply.{reply_to, reply_of};
ghost use Rattle.ecma_stdio.specs.Faults.{fault_line};
ghost use Rattle.ecma_stdio.specs.Sending.{Answers, IsInput, Halts, Sends};

use crate::command::Request;
use ecma_stdio::{Fault, Halt, MOST_TURNS, answer, read_all, text_of};
use std::alloc::Global;
use std::io::{Read, Write};

/// What the request makes of the input, which may be no text or one that is too long.
fn text_for(alloc: Global, request: &Request, input: &[u8]) -> Result<Vec<u8>, Fault>
    ensures { MatchResult result
        (λ text. reply_to (Some (request_view request.now)) input.now ≡ Ok text.items)
        (λ fault. (reply_to (Some (request_view request.now)) input.now ≡ Err fault) ⊎ (fault ≡ Fault.OutOfMemory)) }
{
    let text = text_of(input)?;
    request.text(alloc, text)
}

/// Judges the words, reads all of the input, and makes the text that is to be written.
fn reply<R: Read>(alloc: Global, words: &[String], reader: &mut R) -> Result<Vec<u8>, Halt>
    ensures made { (input : List ℕ) × IsInput (R.remaining reader.old) input × MatchResult result
        (λ text. reply_of (map string_bytes words.now) input ≡ Ok text.items)
        (λ halt. Halts (reply_of (map string_bytes words.now) input) halt) }
    ensures bad_words { request_of (map string_bytes words.now) ≡ None →
        (result ≡ Err (Halt.Fault Fault.BadWords)) × (reader.new ≡ reader.old) }
{
    let Some(request) = Request::from_words(alloc, words)? else {
        return Err(Halt::Fault(Fault::BadWords));
    };
    let input = read_all(alloc, reader, MOST_TURNS)?;
    let text = text_for(alloc, &request, input.as_slice())?;
    Ok(text)
}

/// Writes what the words ask for of the input, or one line that names a fault, and answers the exit
/// status.
pub fn run<R: Read, W: Write>(alloc: Global, words: &[String], reader: &mut R, writer: &mut W) -> u8
    // There is an input, the reader's own where it tells its bytes, and the writer was answered to it.
    ensures answers { (input : List ℕ) × IsInput (R.remaining reader.old) input ×
        Answers (reply_of (map string_bytes words.now) input) (W.contents writer.old) (W.contents writer.new) result }
    // Bad words are told of without asking the reader or for memory.
    ensures bad_words { request_of (map string_bytes words.now) ≡ None →
        Sends 2 (fault_line Fault.BadWords) (W.contents writer.old) (W.contents writer.new) result × (reader.new ≡ reader.old) }
    // Status 0: what went out is what the words ask for of the input, and nothing else.
    ensures whole { result ≡ 0 → (input : List ℕ) × IsInput (R.remaining reader.old) input ×
        IsOkAnd (reply_of (map string_bytes words.now) input) (Appends (W.contents writer.old) (W.contents writer.new)) }
    // Status 5: the line went out alone.
    ensures refused { result ≡ 5 → Appends (W.contents writer.old) (W.contents writer.new) (fault_line Fault.OutOfMemory) }
{
    answer(reply(alloc, words, reader), writer)
}
