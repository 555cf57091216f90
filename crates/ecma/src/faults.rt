//! Lines on standard error.
ghost use Rattle.std.specs.Prelude.{◌≡◌, ◌++◌, [], IfOk};
ghost use Rattle.ecma_messages.specs.Visible.{lines_text, line_about};

use crate::source::refusal;
use clap::Error;
use ecma_messages::{push_line, push_lines};
use ecma_stdio::{Halt, send};
use std::alloc::{AllocError, Global};
use std::io;
use std::io::{ErrorKind, Write};

/// The status where a text has an error, or there is none.
pub const FAULTY: u8 = 1;

/// Why there is no text.
#[derive(Clone, Copy)]
pub struct Refusal {
    pub halt: Halt,
    /// Where the system gave a reason.
    pub failure: Option<io::Error>,
}

impl From<Halt> for Refusal {
    fn from(halt: Halt) -> Refusal {
        Refusal {
            halt,
            failure: None,
        }
    }
}

/// A line about a file, in which nothing controls a terminal.
fn line_for(alloc: Global, name: &str, message: &str) -> Result<Vec<u8>, AllocError>
    ensures { IfOk result (λ line. line.items ≡ [] ++ line_about name.now message.now) }
{
    let mut line = Vec::new(alloc);
    push_line(&mut line, name, message)?;
    Ok(line)
}

/// Writes a line about a file, and answers the status.
pub fn refuse(rt: &HostRuntime, name: &str, message: &str) -> u8 {
    match line_for(rt.alloc(), name, message) {
        Ok(line) => send(&mut rt.stderr(), FAULTY, &line),
        Err(_) => send(&mut rt.stderr(), FAULTY, b"ecma: out of memory\n"),
    }
}

/// Writes a line about a file with the reason that the system gave, and answers the status.
pub fn refuse_for(rt: &HostRuntime, name: &str, message: &str, failure: Option<io::Error>) -> u8 {
    let Some(error) = failure else {
        return refuse(rt, name, message);
    };
    match format!(in rt.alloc(); "{message}: {error}") {
        Ok(message) => refuse(rt, name, message.as_str()),
        Err(_) => refuse(rt, name, message),
    }
}

/// Writes why a file has no text, and answers the status.
pub fn refuse_text(rt: &HostRuntime, name: &str, refused: Refusal) -> u8 {
    match (refused.halt, refused.failure) {
        (Halt::ReadFailed, Some(error)) if error.kind() == ErrorKind::IsADirectory => {
            refuse(rt, name, "is a directory; -r reads the files in it")
        }
        (Halt::ReadFailed, failure) => refuse_for(rt, name, refusal(Halt::ReadFailed), failure),
        (halt, _) => refuse(rt, name, refusal(halt)),
    }
}

/// Writes why standard output took no more, and answers the status. A pipe that the reader closed is no fault of the run.
pub fn refuse_output(rt: &HostRuntime, failure: Option<io::Error>) -> u8 {
    match failure {
        Some(error) if error.kind() == ErrorKind::BrokenPipe => FAULTY,
        failure => refuse_for(rt, "standard output", "cannot be written", failure),
    }
}

/// Lines, in which nothing controls a terminal.
fn visible_lines(alloc: Global, lines: &str) -> Result<Vec<u8>, AllocError>
    ensures { IfOk result (λ bytes. bytes.items ≡ [] ++ lines_text lines.now) }
{
    let mut bytes = Vec::new(alloc);
    push_lines(&mut bytes, lines)?;
    Ok(bytes)
}

/// Writes why words were refused, and answers the status.
///
/// # Errors
///
/// `AllocError` where there is no memory.
pub fn refuse_words(rt: &HostRuntime, error: &Error, status: u8) -> Result<u8, AllocError> {
    let text = format!(in rt.alloc(); "{error}")?;
    let lines = visible_lines(rt.alloc(), text.as_str())?;
    let _ = send(&mut rt.stderr(), status, &lines);
    Ok(status)
}
