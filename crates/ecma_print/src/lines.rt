//! The lines and columns of places of a text, counted from the last place that was asked for.
ghost use Rattle.std.specs.Prelude.{◌≡◌, ◌≤◌, ◌<◌, ◌^◌, ℕ, List, length, min};
ghost use Rattle.ecma_positions.specs.Columns.{position_by};
ghost use Rattle.ecma_positions.specs.Positions.{position_in};
ghost use Rattle.ecma_print.specs.Lines.{Counts};

use crate::units::Units;
use ecma_positions::{Columns, Position};
use ecma_span::BytePos;
use memchr::{memchr_iter, memrchr};

/// Where the last place that was asked for lies. Rows mostly go forward, so that each byte is passed once, and no table of
/// lines is held.
#[derive(Clone, Copy, Debug)]
pub struct Lines {
    /// The place, in bytes, no further than the end of the text.
    place: usize,
    /// Its line, from 1.
    line: usize,
    /// The place where that line begins.
    start: usize,
    /// The units of UTF-16 before a place of a line, for columns that count these.
    units: Units,
}

impl Lines {
    /// At the beginning of a text.
    pub fn new() -> Lines
        ensures { (bytes : List ℕ) → Counts bytes result }
    {
        Lines {
            place: 0,
            line: 1,
            start: 0,
            units: Units::new(),
        }
    }

    /// Goes on to a place that is not before the last one.
    fn go_on(&mut self, bytes: &[u8], place: usize)
        requires order { self.old.place ≤ place }
        requires short { place < 2 ^ 32 }
        requires within { place ≤ length bytes.now }
        ensures counts { Counts bytes.now self.old → Counts bytes.now self.new }
        ensures place { self.new.place ≡ place }
    {
        let passed = &bytes[self.place..place];
        // Most places are in the line of the last one.
        if let Some(last) = memrchr(b'\n', passed) {
            self.line = self.line.saturating_add(memchr_iter(b'\n', passed).count());
            self.start = self.place + last + 1;
        }
        self.place = place;
    }

    /// Goes back to a place that is not behind the last one.
    fn go_back(&mut self, bytes: &[u8], place: usize)
        requires order { place ≤ self.old.place }
        requires within { self.old.place ≤ length bytes.now }
        ensures counts { Counts bytes.now self.old → Counts bytes.now self.new }
        ensures place { self.new.place ≡ place }
    {
        if place < self.start {
            let passed = memchr_iter(b'\n', &bytes[place..self.place]).count();
            self.line = self.line.saturating_sub(passed);
            self.start = match memrchr(b'\n', &bytes[..place]) {
                Some(last) => last + 1,
                None => 0,
            };
        }
        self.place = place;
    }

    /// The line and the column, in bytes, of a place of the text with these bytes, of which all places before were asked for; a
    /// place behind its end counts as one of its last line.
    fn byte_position(&mut self, bytes: &[u8], place: BytePos) -> Position
        ensures position { Counts bytes.now self.old → result ≡ position_in bytes.now place }
        ensures counts { Counts bytes.now self.old → Counts bytes.now self.new }
        ensures at { self.new.place ≡ min (length bytes.now) place.0 }
    {
        let to = bytes.len().min(place.0 as usize);
        let from = bytes.len().min(self.place);
        self.place = from;
        if from <= to {
            self.go_on(bytes, to);
        } else {
            self.go_back(bytes, to);
        }
        Position {
            line: self.line,
            column: (place.0 as usize).saturating_sub(self.start) + 1,
        }
    }

    /// The line and the column of a place of the text with these bytes, of which all places before were asked for. A place behind
    /// its end counts as one of its last line; where columns count units of UTF-16, as the end.
    pub fn position(&mut self, bytes: &[u8], columns: Columns, place: BytePos) -> Position
        ensures position { Counts bytes.now self.old → result ≡ position_by columns bytes.now place }
        ensures counts { Counts bytes.now self.old → Counts bytes.now self.new }
    {
        let position = self.byte_position(bytes, place);
        match columns {
            Columns::Bytes => position,
            Columns::Utf16 => {
                let before = self.units.count(bytes, self.start, self.place);
                Position {
                    line: position.line,
                    column: before.saturating_add(1),
                }
            }
        }
    }
}
