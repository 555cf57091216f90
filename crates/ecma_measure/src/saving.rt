//! Reading with saves and ways back: by checkpoints, and by copies.
use crate::command::Saves;
use ecma_slashes::{Slashes, read_telling};
use ecma_stdio::Fault;
use ecma_stream::{Checkpoint, Lexer};
use ecma_token::TokenAndSpan;
use std::alloc::AllocError;

/// Drops what was kept. A call of its own, as is each of the four: what one writes is then no cost of another.
#[inline(never)]
fn keep_nothing(kept: &mut Option<Checkpoint>) {
    *kept = None;
}

/// Saves where the lexer is.
#[inline(never)]
fn keep(lexer: &Lexer, kept: &mut Option<Checkpoint>) -> Result<(), AllocError> {
    *kept = Some(lexer.checkpoint()?);
    Ok(())
}

/// Saves where the lexer is, and goes back.
#[inline(never)]
fn keep_and_rewind(lexer: &mut Lexer) -> Result<(), AllocError> {
    let here = lexer.checkpoint()?;
    lexer.rewind(&here)?;
    Ok(())
}

/// Copies the lexer, and goes back to the copy.
#[inline(never)]
fn copy_and_go_back(lexer: &mut Lexer) -> Result<(), AllocError> {
    let copy = lexer.copy()?;
    lexer.go_back(copy);
    Ok(())
}

fn save(lexer: &mut Lexer, saves: Saves, kept: &mut Option<Checkpoint>) -> Result<(), AllocError> {
    match saves {
        Saves::Nothing => {
            keep_nothing(kept);
            Ok(())
        }
        Saves::Checkpoint => keep(lexer, kept),
        Saves::CheckpointAndBack => keep_and_rewind(lexer),
        Saves::CopyAndBack => copy_and_go_back(lexer),
    }
}

/// Reads so many tokens, or to the end where there are fewer, and each slash again that the lexer's flag names. Says how
/// many there were.
pub(crate) fn read_some<'a>(
    lexer: &mut Lexer<'a>,
    slot: &mut Option<TokenAndSpan<'a>>,
    most: u64,
) -> Result<u64, Fault> {
    for before in 0..most {
        if lexer.reads_again() {
            return Err(Fault::NoSlash);
        }
        read_telling(lexer, slot, Slashes::ByFlag)?;
        if slot.is_none() {
            return Ok(before);
        }
    }
    Ok(most)
}

/// Reads to the end, and each slash again that the lexer's flag names, with a save before every so many tokens. Says how
/// many tokens there are.
fn read_between_saves<'a>(
    lexer: &mut Lexer<'a>,
    slot: &mut Option<TokenAndSpan<'a>>,
    kept: &mut Option<Checkpoint>,
    saves: Saves,
    every: u64,
) -> Result<u64, Fault> {
    let mut tokens = 0u64;
    for _ in 0..u64::MAX {
        save(lexer, saves, kept)?;
        let read = read_some(lexer, slot, every)?;
        tokens = tokens.checked_add(read).ok_or(Fault::TooLong)?;
        if read < every {
            return Ok(tokens);
        }
    }
    Err(Fault::TooLong)
}

/// Reads to the end with saves, for which it has the place. A save is made before the first token too.
pub(crate) fn read_out_saving<'a>(
    lexer: &mut Lexer<'a>,
    slot: &mut Option<TokenAndSpan<'a>>,
    saves: Saves,
    every: u64,
) -> Result<u64, Fault> {
    let mut kept = None;
    read_between_saves(lexer, slot, &mut kept, saves, every.max(1))
}
