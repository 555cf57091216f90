//! A lexer that goes back to copies, and one that goes back to checkpoints.
use crate::drives::act::{Act, answer};
use ecma_stream::{Checkpoint, Lexer};
use listing::listing::{Settings, opened, set_flags, write_tokens};
use listing::shown::{now, write_now};
use std::alloc::{AllocError, Global};

/// Two lexers of one text, with what they go back to, the newest last.
#[derive(Drop)]
pub struct Sides<'a> {
    alloc: Global,
    by_copies: Lexer<'a>,
    by_checkpoints: Lexer<'a>,
    copies: Vec<Lexer<'a>>,
    checkpoints: Vec<Checkpoint>,
}

/// A lexer of the text, with its flags set.
fn begun<'a>(alloc: Global, settings: Settings, text: &'a str) -> Result<Lexer<'a>, AllocError> {
    let mut lexer = opened(alloc, settings, text)?;
    set_flags(&mut lexer, settings)?;
    Ok(lexer)
}

/// What is ahead of a lexer, and what it has at the end. A slash is not read again.
fn ahead(alloc: Global, lexer: &mut Lexer) -> Result<String, AllocError> {
    let mut out = String::new(alloc);
    lexer.set_next_regexp(None);
    write_tokens(&mut out, lexer)?;
    write_now(alloc, &mut out, lexer)?;
    Ok(out)
}

impl<'a> Sides<'a> {
    pub fn new(alloc: Global, settings: Settings, text: &'a str) -> Result<Sides<'a>, AllocError> {
        Ok(Sides {
            alloc,
            by_copies: begun(alloc, settings, text)?,
            by_checkpoints: begun(alloc, settings, text)?,
            copies: Vec::new(alloc),
            checkpoints: Vec::new(alloc),
        })
    }

    /// How many places there are to go back to.
    pub fn len(&self) -> usize {
        self.checkpoints.len()
    }

    /// Whether both show and have the same.
    pub fn are_same(&self) -> Result<bool, AllocError> {
        let one = now(self.alloc, &self.by_copies)?;
        let other = now(self.alloc, &self.by_checkpoints)?;
        Ok(one.as_str() == other.as_str())
    }

    /// Whether both read the same up to the end, and have the same there.
    pub fn end_same(&mut self) -> Result<bool, AllocError> {
        let one = ahead(self.alloc, &mut self.by_copies)?;
        let other = ahead(self.alloc, &mut self.by_checkpoints)?;
        Ok(one.as_str() == other.as_str())
    }

    pub fn save(&mut self) -> Result<(), AllocError> {
        self.copies.push(self.by_copies.copy()?)?;
        self.checkpoints.push(self.by_checkpoints.checkpoint()?)?;
        Ok(())
    }

    /// Goes back to a place, behind which no other is kept; whether both do.
    pub fn back(&mut self, place: usize) -> Result<bool, AllocError> {
        let (Some(copy), Some(to)) = (self.copies.get(place), self.checkpoints.get(place)) else {
            return Ok(false);
        };
        self.by_copies.go_back(copy.copy()?);
        let went = self.by_checkpoints.rewind(to)?;
        self.forget(place.saturating_add(1));
        Ok(went)
    }

    /// Keeps the first places alone.
    fn forget(&mut self, places: usize) {
        self.copies.truncate(places);
        self.checkpoints.truncate(places);
    }

    /// Does it with both; whether they answer the same. Where lists are taken there is no way back to before.
    pub fn act(&mut self, act: Act) -> Result<bool, AllocError> {
        if act.takes(&self.by_copies) {
            self.forget(0);
        }
        let one = answer(self.alloc, &mut self.by_copies, act)?;
        let other = answer(self.alloc, &mut self.by_checkpoints, act)?;
        Ok(one.as_str() == other.as_str())
    }
}
