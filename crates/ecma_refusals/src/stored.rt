//! A checkpoint as bytes, and a lexer that goes on from it over the rest of a text.
use crate::again;
use crate::reads::rows::{opened_deep, settings};
use ecma_checkpoint::Checkpoint;
use ecma_place::Span;
use ecma_resuming::{begin_of, resume};
use ecma_stored::{decode, encode};
use ecma_stream::{Lexer, Tokens};
use std::alloc::Global;
use std::io;

/// Opens no context, so that its reads do not allocate.
const TEXT: &str = "a b c";

fn tell_span(rt: &impl Print, span: Span) -> io::Result<()> {
    println!(rt; "resume {}..{}", span.lo.0, span.hi.0)
}

/// Writes the token that comes next.
fn tell_next(rt: &impl Print, lexer: &mut Lexer) -> io::Result<()> {
    match lexer.read()? {
        Some(found) => tell_span(rt, found.span),
        None => println!(rt; "resume the end"),
    }
}

/// Writes the token that comes behind a checkpoint.
fn go_on(rt: &impl Print, alloc: Global, from: &Checkpoint) -> io::Result<()> {
    let rest = TEXT.get(begin_of(from).0 as usize..).unwrap_or("");
    match resume(alloc, &settings(), from, rest)? {
        Some(mut lexer) => tell_next(rt, &mut lexer),
        None => println!(rt; "resume none"),
    }
}

fn read_two(lexer: &mut Lexer) -> io::Result<Checkpoint> {
    for _ in 0..2 {
        drop(lexer.read()?);
    }
    Ok(lexer.checkpoint()?)
}

/// Where a lexer is behind two tokens of the text, among many contexts.
fn behind_two(alloc: Global) -> io::Result<Checkpoint> {
    let mut lexer = opened_deep(alloc, TEXT)?;
    read_two(&mut lexer)
}

/// Goes on from the checkpoint that these bytes are of.
fn play_bytes(rt: &impl Print, alloc: Global, bytes: &[u8]) -> io::Result<()> {
    match again!(rt, "refused decode", decode(alloc, bytes)) {
        Some(from) => go_on(rt, alloc, &from),
        None => println!(rt; "decode none"),
    }
}

fn tell_bytes(rt: &impl Print, alloc: Global, bytes: &[u8]) -> io::Result<()> {
    println!(rt; "encode {} bytes", bytes.len())?;
    play_bytes(rt, alloc, bytes)
}

fn play_checkpoint(rt: &impl Print, alloc: Global, from: &Checkpoint) -> io::Result<()> {
    let bytes = again!(rt, "refused encode", encode(alloc, from));
    tell_bytes(rt, alloc, &bytes)
}

/// Stores where a lexer is, and goes on from there.
pub fn play(rt: &impl Print, alloc: Global) -> io::Result<()> {
    let from = behind_two(alloc)?;
    play_checkpoint(rt, alloc, &from)
}
