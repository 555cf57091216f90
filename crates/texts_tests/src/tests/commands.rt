//! Steps over a text, as tables of tests hold them.
use ecma_state::{Step, TokenContext};
use listing::listing::{Settings, contexts_of, flags};
use std::alloc::{AllocError, Global};

/// What is done with a text.
#[derive(Clone, Copy)]
pub(super) enum Command {
    Read,
    /// Reads to the end, and some times behind it.
    ReadAll,
    /// Sets the flags of the code.
    Flags(Settings),
    Allow(bool),
    /// Puts these contexts, the innermost last, in the place of those that the lexer is in.
    Contexts(&'static [TokenContext]),
    Pop,
    /// Takes all contexts away, and some times more.
    PopAll,
    Reread,
    Withdraw,
    Save,
    Back(usize),
    Take,
}

/// How many steps a command stands for, over a text of so many bytes.
fn times(command: Command, bytes: usize) -> usize {
    match command {
        // As many reads as a text takes at most, until the end is answered; no more contexts are opened.
        Command::ReadAll | Command::PopAll => bytes.saturating_mul(2).saturating_add(2),
        _ => 1,
    }
}

fn step_of(alloc: Global, command: Command) -> Result<Step, AllocError> {
    Ok(match command {
        Command::Read | Command::ReadAll => Step::Read,
        Command::Flags(settings) => Step::SetCtx(flags(settings)),
        Command::Allow(allowed) => Step::SetExprAllowed(allowed),
        Command::Contexts(contexts) => Step::SetContexts(contexts_of(alloc, contexts)?),
        Command::Pop | Command::PopAll => Step::PopContext,
        Command::Reread => Step::Reread,
        Command::Withdraw => Step::Withdraw,
        Command::Save => Step::Save,
        Command::Back(n) => Step::Back(n),
        Command::Take => Step::TakeErrors,
    })
}

/// The steps of commands over a text of so many bytes.
pub(super) fn steps_of(
    alloc: Global,
    commands: &[Command],
    bytes: usize,
) -> Result<Vec<Step>, AllocError> {
    let mut steps = Vec::new(alloc);
    for command in commands {
        for _ in 0..times(*command, bytes) {
            steps.push(step_of(alloc, *command)?)?;
        }
    }
    Ok(steps)
}
