//! The lexers, checkpoints and comments that the commands of a row work on.
use crate::command::{Forgery, forge};
use crate::writing::ahead;
use ecma_place::{BytePos, StringInput};
use ecma_resuming::{begin_of, resume};
use ecma_stream::{Checkpoint, Lexer, hand_comments};
use listing::listing::{
    PLAIN, Settings, lexer_settings, opened, set_flags, write_comments, write_note,
};
use listing::store::Store;
use std::alloc::{AllocError, Global};
use std::mem;

/// A checkpoint, and what was ahead there.
#[derive(Drop)]
pub struct Saved {
    pub to: Checkpoint,
    ahead: String,
}

/// What commands work on.
#[derive(Drop)]
pub struct Fixture<'a> {
    settings: Settings,
    text: &'a str,
    pub lexer: Lexer<'a>,
    /// The copy that was made last.
    other: Option<Lexer<'a>>,
    saved: Vec<Saved>,
    store: Store<'a>,
}

/// A lexer with its context flags.
fn begun<'a>(alloc: Global, settings: Settings, text: &'a str) -> Result<Lexer<'a>, AllocError> {
    let mut lexer = opened(alloc, settings, text)?;
    set_flags(&mut lexer, settings)?;
    Ok(lexer)
}

/// The rest of a text that a lexer goes on over from a checkpoint.
fn rest_of<'a>(settings: Settings, text: &'a str, from: &Checkpoint) -> &'a str {
    let begin = begin_of(from).0;
    match begin.checked_sub(settings.start) {
        Some(before) => text.get(before as usize..).unwrap_or(""),
        None => "",
    }
}

/// The lexer that goes on in a whole text, if any does.
fn resumed_in<'a>(
    alloc: Global,
    settings: Settings,
    from: &Checkpoint,
    text: &'a str,
) -> Result<Option<Lexer<'a>>, AllocError> {
    let start = BytePos(settings.start);
    if !StringInput::fits(text, start) {
        return Err(AllocError);
    }
    let input = StringInput::new(text, start);
    Lexer::resume(alloc, &lexer_settings(settings), from, input)
}

/// How a lexer went back.
fn gone(went: bool, is_as_there: bool, is_as_before: bool) -> &'static str {
    match (went, is_as_there, is_as_before) {
        (true, true, _) => "back",
        (true, false, _) => "went",
        (false, _, true) => "stayed",
        (false, _, false) => "changed",
    }
}

/// Writes whether the lexer goes back to a checkpoint, and whether it is as it was there, or before.
fn write_gone_to(
    alloc: Global,
    out: &mut String,
    lexer: &mut Lexer,
    saved: &Saved,
) -> Result<(), AllocError> {
    let before = ahead(alloc, lexer)?;
    let went = lexer.rewind(&saved.to)?;
    let now = ahead(alloc, lexer)?;
    let words = gone(
        went,
        now.as_str() == saved.ahead.as_str(),
        now.as_str() == before.as_str(),
    );
    write_note(out, words)
}

impl<'a> Fixture<'a> {
    pub fn new(
        alloc: Global,
        settings: Settings,
        text: &'a str,
    ) -> Result<Fixture<'a>, AllocError> {
        Ok(Fixture {
            settings,
            text,
            lexer: begun(alloc, settings, text)?,
            other: None,
            saved: Vec::new(alloc),
            store: Store::new(alloc, 0),
        })
    }

    pub fn open(
        &mut self,
        alloc: Global,
        settings: Settings,
        text: &'a str,
    ) -> Result<(), AllocError> {
        self.lexer = begun(alloc, settings, text)?;
        Ok(())
    }

    pub fn copy(&mut self) -> Result<(), AllocError> {
        self.other = Some(self.lexer.copy()?);
        Ok(())
    }

    pub fn swap(&mut self) {
        if let Some(other) = self.other.take() {
            self.other = Some(mem::replace(&mut self.lexer, other));
        }
    }

    pub fn save(&mut self, alloc: Global) -> Result<(), AllocError> {
        let ahead = ahead(alloc, &self.lexer)?;
        let to = self.lexer.checkpoint()?.copy()?;
        self.saved.push(Saved { to, ahead })?;
        Ok(())
    }

    pub fn forge(&mut self, forgery: Forgery) {
        if let Some(saved) = self.saved.last_mut() {
            forge(&mut saved.to, forgery);
        }
    }

    /// Writes whether the lexer goes back to a checkpoint, and whether it changes where it doesn't.
    pub fn write_gone(
        &mut self,
        alloc: Global,
        out: &mut String,
        number: usize,
    ) -> Result<(), AllocError> {
        match self.saved.get(number) {
            Some(saved) => write_gone_to(alloc, out, &mut self.lexer, saved),
            None => write_note(out, "no checkpoint"),
        }
    }

    /// Puts a lexer there that goes on, or writes that there is none and puts one there that is at its end.
    fn put(
        &mut self,
        alloc: Global,
        out: &mut String,
        lexer: Option<Lexer<'a>>,
    ) -> Result<(), AllocError> {
        match lexer {
            Some(lexer) => self.lexer = lexer,
            None => {
                self.lexer = begun(alloc, PLAIN, "")?;
                write_note(out, "none")?;
            }
        }
        Ok(())
    }

    /// Goes on over a rest of a text, from the checkpoint that was made last.
    pub fn resume(
        &mut self,
        alloc: Global,
        out: &mut String,
        rest: &'a str,
    ) -> Result<(), AllocError> {
        let lexer = match self.saved.last() {
            Some(saved) => resume(alloc, &lexer_settings(self.settings), &saved.to, rest)?,
            None => None,
        };
        self.put(alloc, out, lexer)
    }

    /// The same over what is the rest of the row's text.
    pub fn resume_rest(&mut self, alloc: Global, out: &mut String) -> Result<(), AllocError> {
        let rest = match self.saved.last() {
            Some(saved) => rest_of(self.settings, self.text, &saved.to),
            None => "",
        };
        self.resume(alloc, out, rest)
    }

    /// The same in the row's whole text.
    pub fn resume_whole(&mut self, alloc: Global, out: &mut String) -> Result<(), AllocError> {
        let lexer = match self.saved.last() {
            Some(saved) => resumed_in(alloc, self.settings, &saved.to, self.text)?,
            None => None,
        };
        self.put(alloc, out, lexer)
    }

    /// Begins a store of comments with room for so many.
    pub fn begin_store(&mut self, alloc: Global, room: usize) {
        self.store = Store::new(alloc, room);
    }

    pub fn give_room(&mut self, room: usize) {
        self.store.room = room;
    }

    /// Writes whether comments are handed over to the store, and how many it has then.
    pub fn write_handed(&mut self, out: &mut String) -> Result<(), AllocError> {
        let words = match hand_comments(&mut self.lexer, &mut self.store) {
            Ok(true) => "handed",
            Ok(false) => "not yet",
            Err(_) => "refused",
        };
        write_note(out, words)?;
        write!(out, " {}", self.store.given.as_slice().len())
    }

    pub fn write_store(&self, out: &mut String) -> Result<(), AllocError> {
        write_comments(out, self.store.given.as_slice())
    }
}
