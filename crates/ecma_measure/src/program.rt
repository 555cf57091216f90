//! Words and bytes in, a line out.
ghost use Rattle.std.specs.Prelude.{◌≡◌, ℕ, Bool, List, Result, MatchResult, Some, Ok, map, string_bytes};
ghost use Rattle.ecma_measure.specs.Command.{count_asked};
ghost use Rattle.ecma_measure.specs.Reply.{count_reply};
ghost use Rattle.ecma_stdio.specs.Sending.{Answers, IsInput, Halts};

use crate::command::{Measure, count_asked};
use crate::count::count_text;
use crate::speed::speed_text;
use crate::timing::measure;
use ecma_stdio::{Halt, MOST_TURNS, answer, read_all, text_of};
use std::alloc::Global;
use std::io::{Read, Write};
use std::time::Clock;

/// What is written of the tokens of the input.
fn counted<R: Read>(alloc: Global, typescript: bool, reader: &mut R) -> Result<Vec<u8>, Halt>
    ensures { (input : List ℕ) × IsInput (R.remaining reader.old) input × MatchResult result
        (λ text. count_reply typescript input ≡ Ok text.items)
        (λ halt. Halts (count_reply typescript input) halt) }
{
    let input = read_all(alloc, reader, MOST_TURNS)?;
    let text = text_of(input.as_slice())?;
    Ok(count_text(alloc, typescript, text)?.into_bytes())
}

/// What is written of the speed at which the input is read.
fn timed<C: Clock, R: Read>(
    clock: &C,
    alloc: Global,
    words: &[String],
    reader: &mut R,
) -> Result<Vec<u8>, Halt> {
    let asked = Measure::from_words(alloc, words)?;
    let input = read_all(alloc, reader, MOST_TURNS)?;
    let text = text_of(input.as_slice())?;
    let measured = measure(clock, alloc, &asked, text)?;
    Ok(speed_text(alloc, &measured, text.len())?.into_bytes())
}

/// Writes what the words ask for of the input, or one line that names a fault, and answers the exit
/// status.
pub fn run<C: Clock, R: Read, W: Write>(
    clock: &C,
    alloc: Global,
    words: &[String],
    reader: &mut R,
    writer: &mut W,
) -> u8
    // Where the tokens are to be counted, the writer was answered to an input, the reader's own where it tells its bytes.
    ensures { (ts : Bool) → count_asked (map string_bytes words.now) ≡ Some ts → (input : List ℕ) × IsInput (R.remaining reader.old) input ×
        Answers (count_reply ts input) (W.contents writer.old) (W.contents writer.new) result }
{
    match count_asked(words) {
        Some(typescript) => answer(counted(alloc, typescript, reader), writer),
        None => answer(timed(clock, alloc, words, reader), writer),
    }
}
