//! Errors and flags that a parser sets.
use crate::again;
use crate::reads::rows::{module, opened};
use ecma_place::{BytePos, Span, Spanned};
use ecma_stream::{Lexer, Tokens};
use ecma_token::{Error, SyntaxError};
use std::alloc::Global;
use std::io;

/// So many are added that a list grows more than once.
const TIMES: u32 = 6;

/// The place of one of them.
fn span(number: u32) -> Span {
    Span {
        lo: BytePos(number),
        hi: BytePos(number),
    }
}

/// The errors that a parser adds.
#[derive(Clone, Copy)]
enum Added {
    Error,
    ModuleModeError,
}

impl Added {
    fn name(self) -> &'static str {
        match self {
            Added::Error => "add_error",
            Added::ModuleModeError => "add_module_mode_error",
        }
    }

    fn add<'a>(self, lexer: &mut Lexer<'a>, error: Error<'a>) -> Result<(), Error<'a>> {
        match self {
            Added::Error => lexer.add_error(error),
            Added::ModuleModeError => lexer.add_module_mode_error(error),
        }
    }
}

/// Whether these are the errors of so many numbers, in order.
fn are_first(errors: &[Error], count: u32) -> bool {
    let in_order = errors.iter().zip(0..count).all(|(error, number)| {
        error.span() == span(number) && matches!(error.kind(), SyntaxError::TS1185)
    });
    in_order && errors.len() == count as usize
}

/// Whether a lexer has the errors of so many numbers, where they were added, and no other.
fn has_errors(added: Added, lexer: &Lexer, count: u32) -> io::Result<bool> {
    let recorded = lexer.copy()?.take_errors();
    let waiting = lexer.module_errors();
    Ok(match added {
        Added::Error => are_first(recorded.as_slice(), count) && waiting.is_empty(),
        Added::ModuleModeError => recorded.is_empty() && are_first(waiting, count),
    })
}

/// Adds the error of this number, from 0 on, and, where that is refused, the error that is given back.
fn add(
    rt: &impl Print,
    alloc: Global,
    added: Added,
    lexer: &mut Lexer,
    number: u32,
) -> io::Result<()> {
    let error = again!(
        rt,
        "refused error",
        Error::new(alloc, span(number), SyntaxError::TS1185)
    );
    match added.add(lexer, error) {
        Ok(()) => Ok(()),
        Err(back) => add_again(rt, added, lexer, number, back),
    }
}

/// Adds an error that was given back.
fn add_again<'a>(
    rt: &impl Print,
    added: Added,
    lexer: &mut Lexer<'a>,
    number: u32,
    back: Error<'a>,
) -> io::Result<()> {
    let told = tell_refused(rt, added, lexer, number, &back);
    match added.add(lexer, back) {
        Ok(()) => told,
        Err(_) => Err(io::Error::from(io::ErrorKind::OutOfMemory)),
    }
}

/// Says whether a lexer that gave an error back is as it was.
fn tell_refused(
    rt: &impl Print,
    added: Added,
    lexer: &Lexer,
    number: u32,
    back: &Error,
) -> io::Result<()> {
    let same = has_errors(added, lexer, number)?;
    tell_given(rt, added.name(), same, back.span() == span(number))
}

fn tell_given(rt: &impl Print, name: &str, same: bool, given: bool) -> io::Result<()> {
    println!(rt; "refused {name}: same errors {same}, error back {given}")
}

fn tell_flags(rt: &impl Print, same: bool, waiting: usize, outside: bool) -> io::Result<()> {
    println!(rt; "refused set_ctx: same errors {same}, waiting {waiting}, same flags {outside}")
}

/// Says that the code is a module; where that is refused, again.
fn set_module(rt: &impl Print, added: Added, lexer: &mut Lexer) -> io::Result<()> {
    if lexer.set_ctx(module()).is_ok() {
        return Ok(());
    }
    let same = has_errors(added, lexer, TIMES)?;
    tell_flags(rt, same, lexer.module_errors().len(), !lexer.ctx().module)?;
    Ok(lexer.set_ctx(module())?)
}

fn add_each(rt: &impl Print, alloc: Global, added: Added, lexer: &mut Lexer) -> io::Result<()> {
    for number in 0..TIMES {
        add(rt, alloc, added, lexer, number)?;
    }
    Ok(())
}

fn tell_numbers(rt: &impl Print, waiting: usize, recorded: usize) -> io::Result<()> {
    println!(rt; "waiting {waiting}, then recorded {recorded}")
}

/// Adds errors to a lexer, and says that the code is a module.
fn add_all(rt: &impl Print, alloc: Global, added: Added, lexer: &mut Lexer) -> io::Result<()> {
    add_each(rt, alloc, added, lexer)?;
    let waiting = lexer.module_errors().len();
    set_module(rt, added, lexer)?;
    tell_numbers(rt, waiting, lexer.take_errors().len())
}

/// Adds errors of either kind.
pub fn play(rt: &impl Print, alloc: Global) -> io::Result<()> {
    for added in [Added::Error, Added::ModuleModeError] {
        println!(rt; "{}", added.name())?;
        add_all(rt, alloc, added, &mut opened(alloc, "a")?)?;
    }
    Ok(())
}
