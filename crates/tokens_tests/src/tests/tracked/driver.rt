//! Runs commands over a tracked lexer and writes what they show, for rows of tests.
use super::tracking::{
    TOKENS, begin_strict, opened, read_some, write_expected, write_items, write_part, write_some,
};
use ecma_tracked::{Tracked, TrackedCheckpoint};
use listing::listing::Settings;
use std::alloc::{AllocError, Global};
use std::mem;

/// A call of the row's tracked lexer, or something written of it.
#[derive(Clone, Copy)]
pub enum Command {
    /// Reads so many tokens.
    Read(usize),
    /// Has strict code begin.
    Strict,
    /// Writes so many of the next tokens, or all up to the end.
    Write(usize),
    /// Writes the tokens up to the end.
    WriteAll,
    /// The same as the iterator has them.
    WriteItems,
    /// Writes what is expected before each token and at the end: `+` an operand, `-` none; with `=` behind it, where that
    /// is another, behind that.
    WriteExpected,
    /// Makes a copy.
    Copy,
    /// Puts the copy that was made last in the place of the tracked lexer, and that in the place of the copy.
    Swap,
    /// Puts a new one there.
    Open(Settings, &'static str),
    /// Makes a checkpoint.
    Save,
    /// Goes back to the checkpoint of this number. Writes `stayed` where it doesn't.
    Go(usize),
    /// The same to a copy of the checkpoint.
    GoToCopy(usize),
}

/// What commands work on.
#[derive(Drop)]
struct Fixture<'a> {
    text: &'a str,
    tracked: Tracked<'a>,
    /// The copy that was made last.
    other: Option<Tracked<'a>>,
    saved: Vec<TrackedCheckpoint>,
}

/// Goes back to a checkpoint, or writes that it doesn't.
fn write_gone(
    out: &mut String,
    tracked: &mut Tracked,
    to: &TrackedCheckpoint,
) -> Result<(), AllocError> {
    if tracked.rewind(to)? {
        Ok(())
    } else {
        write_part(out, "stayed")
    }
}

impl<'a> Fixture<'a> {
    fn new(alloc: Global, settings: Settings, text: &'a str) -> Result<Fixture<'a>, AllocError> {
        Ok(Fixture {
            text,
            tracked: opened(alloc, settings, text)?,
            other: None,
            saved: Vec::new(alloc),
        })
    }

    fn open(&mut self, alloc: Global, settings: Settings, text: &'a str) -> Result<(), AllocError> {
        self.tracked = opened(alloc, settings, text)?;
        self.text = text;
        Ok(())
    }

    fn copy(&mut self) -> Result<(), AllocError> {
        self.other = Some(self.tracked.copy()?);
        Ok(())
    }

    fn swap(&mut self) {
        if let Some(other) = self.other.take() {
            self.other = Some(mem::replace(&mut self.tracked, other));
        }
    }

    fn save(&mut self) -> Result<(), AllocError> {
        self.saved.push(self.tracked.checkpoint()?)?;
        Ok(())
    }

    fn go(&mut self, out: &mut String, number: usize) -> Result<(), AllocError> {
        match self.saved.get(number) {
            Some(to) => write_gone(out, &mut self.tracked, to),
            None => write_part(out, "no checkpoint"),
        }
    }

    fn go_to_copy(&mut self, out: &mut String, number: usize) -> Result<(), AllocError> {
        match self.saved.get(number) {
            Some(to) => write_gone(out, &mut self.tracked, &to.copy()?),
            None => write_part(out, "no checkpoint"),
        }
    }

    fn run_one(
        &mut self,
        alloc: Global,
        out: &mut String,
        command: Command,
    ) -> Result<(), AllocError> {
        match command {
            Command::Read(times) => read_some(&mut self.tracked, times),
            Command::Strict => begin_strict(&mut self.tracked),
            Command::Write(times) => write_some(out, self.text, &mut self.tracked, times),
            Command::WriteAll => write_some(out, self.text, &mut self.tracked, TOKENS),
            Command::WriteItems => write_items(out, self.text, &mut self.tracked),
            Command::WriteExpected => write_expected(out, &mut self.tracked),
            Command::Copy => self.copy(),
            Command::Open(settings, text) => self.open(alloc, settings, text),
            Command::Save => self.save(),
            Command::Go(number) => self.go(out, number),
            Command::GoToCopy(number) => self.go_to_copy(out, number),
            Command::Swap => {
                self.swap();
                Ok(())
            }
        }
    }
}

fn run_all(
    alloc: Global,
    out: &mut String,
    fixture: &mut Fixture,
    commands: &[Command],
) -> Result<(), AllocError> {
    for command in commands {
        fixture.run_one(alloc, out, *command)?;
    }
    Ok(())
}

/// What the commands write of a tracked lexer over a text.
pub fn run(
    alloc: Global,
    settings: Settings,
    text: &str,
    commands: &[Command],
) -> Result<String, AllocError> {
    let mut out = String::new(alloc);
    let mut fixture = Fixture::new(alloc, settings, text)?;
    run_all(alloc, &mut out, &mut fixture, commands)?;
    Ok(out)
}
