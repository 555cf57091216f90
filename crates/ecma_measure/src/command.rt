//! The words of the command line, and what they ask for.
ghost use Rattle.std.specs.Prelude.{◌≡◌, map, string_bytes};
ghost use Rattle.ecma_measure.specs.Command.{count_asked};

use ecma_stdio::{Fault, number};
use std::alloc::Global;

/// Whether the words ask for the number of tokens, and then whether of TypeScript.
pub fn count_asked(words: &[String]) -> Option<bool>
    ensures { result ≡ count_asked (map string_bytes words.now) }
{
    match words {
        [count] if count.as_str() == "count" => Some(false),
        [count, ts] if count.as_str() == "count" && ts.as_str() == "ts" => Some(true),
        _ => None,
    }
}

/// What becomes of each answer that is read.
#[derive(Debug, Clone, Copy, PartialEq, Eq)]
pub enum Answers {
    /// It is dropped unseen, so that a compiler need not make all of it.
    Unseen,
    /// It is put into a slot that outlives the call, as a parser keeps its token.
    Kept,
}

/// What is done where the lexer saves where it is.
#[derive(Debug, Clone, Copy, PartialEq, Eq)]
pub enum Saves {
    /// Nothing: what the loop takes by itself.
    Nothing,
    /// A checkpoint takes the place of the one before.
    Checkpoint,
    /// The lexer goes back to a checkpoint right away.
    CheckpointAndBack,
    /// The same by a copy.
    CopyAndBack,
}

/// Which slashes are read again as regular expressions.
#[derive(Debug, Drop)]
pub enum Rereads {
    /// Those before which the lexer's own flag allows an expression.
    ByFlag,
    /// The same, with a save every so many tokens.
    ByFlagSaving(Saves, u64),
    /// Those of the tokens with these numbers, which ascend.
    Behind(Vec<u64>),
}

/// What is measured.
#[derive(Debug, Drop)]
pub struct Measure {
    /// How many times the text is read.
    pub times: u64,
    /// Whether it is read as TypeScript.
    pub typescript: bool,
    pub answers: Answers,
    /// Whether comments are collected.
    pub comments: bool,
    pub rereads: Rereads,
}

/// Whether the first word is this one, and the words behind it; else all of them.
fn behind<'w>(words: &'w [String], name: &str) -> (bool, &'w [String]) {
    match words {
        [first, more @ ..] if first.as_str() == name => (true, more),
        _ => (false, words),
    }
}

impl Measure {
    /// What the words ask to be measured.
    pub fn from_words(alloc: Global, words: &[String]) -> Result<Measure, Fault> {
        let [time, times, more @ ..] = words else {
            return Err(Fault::BadWords);
        };
        if time.as_str() != "time" {
            return Err(Fault::BadWords);
        }
        let times = number(times.as_str()).ok_or(Fault::BadWords)?;
        let (typescript, more) = behind(more, "ts");
        let (kept, more) = behind(more, "kept");
        let (comments, more) = behind(more, "comments");
        Ok(Measure {
            times,
            typescript,
            answers: if kept { Answers::Kept } else { Answers::Unseen },
            comments,
            rereads: slashes(alloc, more)?,
        })
    }
}

/// Those by the flag, with saves of this name every so many tokens.
fn saving(name: &str, every: &str) -> Option<Rereads> {
    let saves = match name {
        "idle" => Saves::Nothing,
        "save" => Saves::Checkpoint,
        "back" => Saves::CheckpointAndBack,
        "copies" => Saves::CopyAndBack,
        _ => return None,
    };
    Some(Rereads::ByFlagSaving(saves, number(every)?))
}

/// Those of the word `flag`, perhaps with `idle K`, `save K`, `back K` or `copies K` behind it, or of words `reread K`.
fn slashes(alloc: Global, words: &[String]) -> Result<Rereads, Fault> {
    match words {
        [flag] if flag.as_str() == "flag" => Ok(Rereads::ByFlag),
        [flag, name, every] if flag.as_str() == "flag" => {
            saving(name.as_str(), every.as_str()).ok_or(Fault::BadWords)
        }
        _ => Ok(Rereads::Behind(numbers(alloc, words)?)),
    }
}

/// The numbers of words `reread K`, which ascend.
fn numbers(alloc: Global, words: &[String]) -> Result<Vec<u64>, Fault> {
    let mut numbers = Vec::new(alloc);
    let mut last = 0;
    for pair in words.chunks(2) {
        last = reread(pair, last).ok_or(Fault::BadWords)?;
        numbers.push(last).map_err(|_| Fault::OutOfMemory)?;
    }
    Ok(numbers)
}

/// The number of two words `reread K`, where it is above the last one.
fn reread(pair: &[String], last: u64) -> Option<u64> {
    let [name, word] = pair else {
        return None;
    };
    let number = number(word.as_str())?;
    if name.as_str() == "reread" && number > last {
        Some(number)
    } else {
        None
    }
}
