//! Runs commands, and answers what they write.
use crate::calls::{add_error, add_module_error, read_times, reread};
use crate::command::Command;
use crate::fixture::Fixture;
use crate::writing::{
    write_all, write_context, write_depths, write_items, write_slashes, write_slots, write_some,
};
use ecma_stream::{Lexer, Tokens};
use listing::listing::{Settings, set_flags, write_note, write_recorded, write_rest};
use listing::shown::write_code;
use std::alloc::{AllocError, Global};

/// Does what a lexer does without memory.
fn set(lexer: &mut Lexer, command: Command) {
    match command {
        Command::Reread => reread(lexer),
        Command::Withdraw => lexer.set_next_regexp(None),
        Command::Allow(allowed) => lexer.set_expr_allowed(allowed),
        Command::PopContext => {
            lexer.pop_context();
        }
        Command::TakeErrors => drop(lexer.take_errors()),
        Command::TakeFound => drop(lexer.take_found()),
        _ => (),
    }
}

fn run_on_lexer(
    alloc: Global,
    out: &mut String,
    lexer: &mut Lexer,
    command: Command,
) -> Result<(), AllocError> {
    match command {
        Command::Read(times) => read_times(lexer, times),
        Command::Flags(settings) => set_flags(lexer, settings),
        Command::AddError => add_error(alloc, lexer),
        Command::AddModuleError => add_module_error(alloc, lexer),
        Command::Write(times) => write_some(out, lexer, times),
        Command::WriteSlashes(times) => write_slashes(out, lexer, times),
        Command::WriteItems(times) => write_items(out, lexer, times),
        Command::WriteSlots(times) => write_slots(out, lexer, times),
        Command::WriteAll => write_all(out, lexer),
        Command::WriteDepths => write_depths(out, lexer),
        Command::WriteContext => write_context(out, lexer),
        Command::WriteCode => write_code(out, lexer),
        Command::WriteRecorded => write_recorded(out, lexer),
        Command::WriteRest => write_rest(alloc, out, lexer),
        Command::Note(words) => write_note(out, words),
        _ => {
            set(lexer, command);
            Ok(())
        }
    }
}

/// Does what is done with the store of comments.
fn run_on_store(
    alloc: Global,
    out: &mut String,
    fixture: &mut Fixture,
    command: Command,
) -> Result<(), AllocError> {
    match command {
        Command::Store(room) => fixture.begin_store(alloc, room),
        Command::Room(room) => fixture.give_room(room),
        Command::Hand => fixture.write_handed(out)?,
        Command::WriteStore => fixture.write_store(out)?,
        _ => run_on_lexer(alloc, out, &mut fixture.lexer, command)?,
    }
    Ok(())
}

fn run_one(
    alloc: Global,
    out: &mut String,
    fixture: &mut Fixture,
    command: Command,
) -> Result<(), AllocError> {
    match command {
        Command::Copy => fixture.copy(),
        Command::Open(settings, text) => fixture.open(alloc, settings, text),
        Command::Save => fixture.save(alloc),
        Command::Go(number) => fixture.write_gone(alloc, out, number),
        Command::Resume(rest) => fixture.resume(alloc, out, rest),
        Command::ResumeRest => fixture.resume_rest(alloc, out),
        Command::ResumeWhole => fixture.resume_whole(alloc, out),
        Command::Swap => {
            fixture.swap();
            Ok(())
        }
        Command::Forge(forgery) => {
            fixture.forge(forgery);
            Ok(())
        }
        _ => run_on_store(alloc, out, fixture, command),
    }
}

fn run_all(
    alloc: Global,
    out: &mut String,
    fixture: &mut Fixture,
    commands: &[Command],
) -> Result<(), AllocError> {
    for command in commands {
        run_one(alloc, out, fixture, *command)?;
    }
    Ok(())
}

/// What the commands write of a lexer over a text.
///
/// # Errors
///
/// `AllocError` where there is no memory.
pub fn run(
    alloc: Global,
    settings: Settings,
    text: &str,
    commands: &[Command],
) -> Result<String, AllocError> {
    let mut out = String::new(alloc);
    let mut fixture = Fixture::new(alloc, settings, text)?;
    run_all(alloc, &mut out, &mut fixture, commands)?;
    Ok(out)
}
