//! How long it takes to read a text.
ghost use Rattle.std.specs.Prelude.{◌^◌, ◌<◌, length};

use crate::command::{Answers, Measure, Rereads};
use crate::count::options;
use crate::saving::{read_out_saving, read_some};
use ecma_start::{begin, pass_next};
use ecma_stdio::{Fault, Halt};
use ecma_stream::{Lexer, Tokens};
use ecma_token::TokenAndSpan;
use std::alloc::{AllocError, Global};
use std::time::{Clock, Duration, Instant};

/// Reads the next token into the slot, and says whether there was one. A call of its own, so that the slot is written.
#[inline(never)]
fn keep_next<'a>(
    lexer: &mut Lexer<'a>,
    slot: &mut Option<TokenAndSpan<'a>>,
) -> Result<bool, AllocError> {
    lexer.read_into(slot)?;
    Ok(slot.is_some())
}

/// Reads the next token, and says whether there was one.
#[inline(always)]
fn take_next<'a>(
    lexer: &mut Lexer<'a>,
    answers: Answers,
    slot: &mut Option<TokenAndSpan<'a>>,
) -> Result<bool, AllocError> {
    match answers {
        Answers::Unseen => pass_next(lexer),
        Answers::Kept => keep_next(lexer, slot),
    }
}

/// Reads the slash that was read last again, as a regular expression.
fn reread<'a>(
    lexer: &mut Lexer<'a>,
    answers: Answers,
    slot: &mut Option<TokenAndSpan<'a>>,
) -> Result<(), Fault> {
    let slash = lexer.last_slash().ok_or(Fault::NoSlash)?;
    lexer.set_next_regexp(Some(slash));
    take_next(lexer, answers, slot)?;
    lexer.set_next_regexp(None);
    Ok(())
}

/// Reads so many tokens.
fn read_on<'a>(
    lexer: &mut Lexer<'a>,
    answers: Answers,
    slot: &mut Option<TokenAndSpan<'a>>,
    tokens: u64,
) -> Result<(), Fault> {
    for _ in 0..tokens {
        if !take_next(lexer, answers, slot)? {
            return Err(Fault::NoSlash);
        }
    }
    Ok(())
}

/// Reads to the end, and says how many tokens there were.
fn read_rest<'a>(
    lexer: &mut Lexer<'a>,
    answers: Answers,
    slot: &mut Option<TokenAndSpan<'a>>,
) -> Result<u64, Fault> {
    for before in 0..u64::MAX {
        if !take_next(lexer, answers, slot)? {
            return Ok(before);
        }
    }
    Err(Fault::TooLong)
}

/// Reads the tokens up to the last of these numbers, and each with such a number again. Says how many there are.
fn read_again_at<'a>(
    lexer: &mut Lexer<'a>,
    answers: Answers,
    slot: &mut Option<TokenAndSpan<'a>>,
    rereads: &[u64],
) -> Result<u64, Fault> {
    let mut before = 0u64;
    for number in rereads {
        let tokens = number.checked_sub(before).ok_or(Fault::NoSlash)?;
        read_on(lexer, answers, slot, tokens)?;
        reread(lexer, answers, slot)?;
        before = *number;
    }
    Ok(before)
}

/// Reads to the end, and each token with such a number again. Says how many tokens there are.
fn read_out<'a>(
    lexer: &mut Lexer<'a>,
    answers: Answers,
    slot: &mut Option<TokenAndSpan<'a>>,
    rereads: &[u64],
) -> Result<u64, Fault> {
    let before = read_again_at(lexer, answers, slot, rereads)?;
    let behind = read_rest(lexer, answers, slot)?;
    before.checked_add(behind).ok_or(Fault::TooLong)
}

/// Reads to the end as it is asked for, and says how many tokens there are.
fn read_as_asked<'a>(
    lexer: &mut Lexer<'a>,
    slot: &mut Option<TokenAndSpan<'a>>,
    asked: &Measure,
) -> Result<u64, Fault> {
    match &asked.rereads {
        Rereads::ByFlag => read_some(lexer, slot, u64::MAX),
        Rereads::ByFlagSaving(saves, every) => read_out_saving(lexer, slot, *saves, *every),
        Rereads::Behind(numbers) => read_out(lexer, asked.answers, slot, numbers.as_slice()),
    }
}

/// Reads to the end as it is asked for. This function alone drops a token: the proof of each that does is long.
fn read_to_end(lexer: &mut Lexer, asked: &Measure) -> Result<u64, Fault> {
    let mut slot = None;
    read_as_asked(lexer, &mut slot, asked)
}

/// What was measured of a text.
#[derive(Debug, Drop)]
pub struct Measured {
    pub tokens: u64,
    /// How long each reading took, the shortest first.
    pub durations: Vec<Duration>,
}

/// Reads a text to its end with a new lexer, and says how many tokens there are.
fn read_once(alloc: Global, asked: &Measure, text: &str) -> Result<u64, Fault>
    requires { length text.now < 2 ^ 32 }
{
    let mut lexer = begin(alloc, asked.comments, options(asked.typescript), text)?;
    read_to_end(&mut lexer, asked)
}

/// Reads a text to its end as often as is asked for, with a new lexer each time.
pub fn measure<C: Clock>(
    clock: &C,
    alloc: Global,
    asked: &Measure,
    text: &str,
) -> Result<Measured, Halt>
    requires { length text.now < 2 ^ 32 }
{
    let mut tokens = 0;
    let mut durations = Vec::new(alloc);
    for _ in 0..asked.times {
        let start = Instant::now(clock).map_err(|_| Halt::ReadFailed)?;
        tokens = read_once(alloc, asked, text)?;
        let taken = start.elapsed(clock).map_err(|_| Halt::ReadFailed)?;
        durations
            .push(taken)
            .map_err(|_| Halt::Fault(Fault::OutOfMemory))?;
    }
    durations.sort_unstable();
    Ok(Measured { tokens, durations })
}
