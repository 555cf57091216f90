//! Lists of errors, and what becomes of an error under the flags of the context.
use ecma_grammar::Blame;
use ecma_span::{BytePos, Span, Spanned};
use ecma_state::ErrorList;
use ecma_state::errors::ErrorLists;
use ecma_syntax::Context;
use ecma_token::{Error, SyntaxError};
use std::alloc::{AllocError, Global};
use std::process::Abort;
use std::test::Fail;

/// The flags of the context that are set.
#[derive(Clone, Copy)]
enum Code {
    Plain,
    Strict,
    Module,
    Ignoring,
}

fn context(code: Code) -> Context {
    Context {
        strict: matches!(code, Code::Strict),
        module: matches!(code, Code::Module),
        ignore_error: matches!(code, Code::Ignoring),
        ..Context::default()
    }
}

/// An error that is empty at a place.
fn error_at<'a>(alloc: Global, place: u32) -> Result<Error<'a>, AllocError> {
    let span = Span {
        lo: BytePos(place),
        hi: BytePos(place),
    };
    Error::new(alloc, span, SyntaxError::InvalidStrEscape)
}

/// What is done with lists of errors.
#[derive(Clone, Copy)]
enum Command {
    /// Adds an error at a place to those that are recorded.
    Record(u32),
    /// Adds one to those that wait.
    Wait(u32),
    /// Records those that wait.
    Append,
    /// So many stay recorded.
    Truncate(usize),
    /// Takes in one fault of each blame, at the places 1, 2 and 3.
    TakeEach(Code),
    Enter(Code),
    /// Where those stand that are recorded, and those that wait.
    Has(&'static [u32], &'static [u32]),
}

/// The error has no memory.
fn added(pushed: Result<(), Error>) -> Result<(), AllocError> {
    match pushed {
        Ok(()) => Ok(()),
        Err(_) => Err(AllocError),
    }
}

fn take_each(alloc: Global, lists: &mut ErrorLists, context: &Context) -> Result<(), AllocError> {
    for (blame, place) in [(Blame::Always, 1), (Blame::Strict, 2), (Blame::Module, 3)] {
        added(lists.take_fault(context, blame, error_at(alloc, place)?))?;
    }
    Ok(())
}

/// Whether the errors of a list stand there.
fn stand(list: &ErrorList, places: &[u32]) -> bool {
    for (error, place) in list.as_slice().iter().zip(places) {
        if error.span().lo != BytePos(*place) {
            return false;
        }
    }
    list.len() == places.len() && list.is_empty() == places.is_empty()
}

/// Whether the errors stand where the command says, when it is done.
fn is_done(alloc: Global, lists: &mut ErrorLists, command: Command) -> Result<bool, AllocError> {
    match command {
        Command::Record(place) => added(lists.recorded.push(error_at(alloc, place)?))?,
        Command::Wait(place) => added(lists.waiting.push(error_at(alloc, place)?))?,
        Command::Append => lists.recorded.append(&mut lists.waiting)?,
        Command::Truncate(count) => lists.recorded.truncate(count),
        Command::TakeEach(code) => take_each(alloc, lists, &context(code))?,
        Command::Enter(code) => lists.enter(&context(code))?,
        Command::Has(recorded, waiting) => {
            return Ok(stand(&lists.recorded, recorded) && stand(&lists.waiting, waiting));
        }
    }
    Ok(true)
}

fn assert_commands(rt: &impl Abort, alloc: Global, commands: &[Command]) -> Result<(), Fail> {
    let mut lists = ErrorLists::new(alloc);
    for (number, command) in commands.iter().enumerate() {
        assert!(rt; is_done(alloc, &mut lists, *command)?, "command {number}");
    }
    Ok(())
}

const ORDER: &[Command] = &[
    Command::Has(&[], &[]),
    Command::Record(1),
    Command::Record(2),
    Command::Has(&[1, 2], &[]),
    Command::Truncate(1),
    Command::Has(&[1], &[]),
];

#[test]
fn errors_stand_in_order(rt: HostRuntime) -> Result<(), Fail> {
    assert_commands(&rt, rt.alloc(), ORDER)
}

const APPENDED: &[Command] = &[
    Command::Record(1),
    Command::Wait(3),
    Command::Append,
    Command::Has(&[1, 3], &[]),
];

#[test]
fn a_list_takes_in_another(rt: HostRuntime) -> Result<(), Fail> {
    assert_commands(&rt, rt.alloc(), APPENDED)
}

const PLAIN: &[Command] = &[Command::TakeEach(Code::Plain), Command::Has(&[1], &[2, 3])];

const STRICT: &[Command] = &[Command::TakeEach(Code::Strict), Command::Has(&[1, 2], &[3])];

const IGNORING: &[Command] = &[
    Command::TakeEach(Code::Ignoring),
    Command::Has(&[], &[2, 3]),
];

#[test]
fn faults_are_recorded_wait_or_are_dropped(rt: HostRuntime) -> Result<(), Fail> {
    let alloc = rt.alloc();
    assert_commands(&rt, alloc, PLAIN)?;
    assert_commands(&rt, alloc, STRICT)?;
    assert_commands(&rt, alloc, IGNORING)
}

const ENTERED: &[Command] = &[
    Command::TakeEach(Code::Plain),
    Command::Enter(Code::Plain),
    Command::Has(&[1], &[2, 3]),
    Command::Enter(Code::Module),
    Command::Has(&[1, 2, 3], &[]),
];

#[test]
fn what_waits_is_recorded_in_module_code(rt: HostRuntime) -> Result<(), Fail> {
    assert_commands(&rt, rt.alloc(), ENTERED)
}
