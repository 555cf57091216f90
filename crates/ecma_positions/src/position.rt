//! Where lines begin, and the lines and columns of places.
ghost use Rattle.std.specs.Prelude.{◌≡◌, ◌≤◌, ℕ, List, nat_le, length, take, IfOk};
ghost use Rattle.ecma_positions.specs.Positions.{line_starts, position_in};

use ecma_span::BytePos;
use std::alloc::{AllocError, Global};

/// A line and a column, both from 1. A column counts bytes, or what was asked for ([`Columns`](crate::Columns)).
#[derive(Clone, Copy, Debug, PartialEq, Eq)]
pub struct Position {
    pub line: usize,
    pub column: usize,
}

/// Where the lines of a text begin, which starts at the place 0.
#[derive(Debug, Drop)]
pub struct LineStarts {
    /// The places behind the line feeds of the text, in order.
    pub starts: Vec<usize>,
}

impl LineStarts {
    /// Where the lines of a text begin that has these bytes. Line feeds alone end a line, as most tools count. Our own.
    ///
    /// # Errors
    ///
    /// `AllocError` where allocation fails.
    pub fn of(alloc: Global, bytes: &[u8]) -> Result<LineStarts, AllocError>
        ensures { IfOk result (λ lines. lines.starts.items ≡ line_starts bytes.now) }
    {
        let mut starts = Vec::new(alloc);
        let mut place = 0;
        for byte in bytes {
            place += 1;
            if *byte == b'\n' {
                starts.push(place)?;
            }
        }
        Ok(LineStarts { starts })
    }

    /// How many lines begin behind the first one, at or before a place.
    fn count_at(&self, place: usize) -> usize
        ensures bound { result ≤ length self.now.starts.items }
        ensures counted { (bytes : List ℕ) → self.now.starts.items ≡ line_starts bytes → result ≡ length (line_starts (take place bytes)) }
    {
        self.starts.as_slice().partition_point(
            |start: &usize| -> bool
                ensures { result ≡ nat_le start.now place }
            { *start <= place },
        )
    }

    /// The same number, found without a search where it is `near`.
    fn count_near(&self, place: usize, near: usize) -> usize
        ensures bound { result ≤ length self.now.starts.items }
        ensures counted { (bytes : List ℕ) → self.now.starts.items ≡ line_starts bytes → result ≡ length (line_starts (take place bytes)) }
    {
        let starts = self.starts.as_slice();
        if 0 < near && near < starts.len() && starts[near - 1] <= place && place < starts[near] {
            near
        } else {
            self.count_at(place)
        }
    }

    /// The position of a place, at or before which so many lines begin behind the first one.
    fn position_behind(&self, place: BytePos, count: usize) -> Position
        requires { count ≤ length self.now.starts.items }
        ensures { (bytes : List ℕ) → self.now.starts.items ≡ line_starts bytes → count ≡ length (line_starts (take place.0 bytes)) → result ≡ position_in bytes place }
    {
        let place = place.0 as usize;
        let start = if count == 0 {
            0
        } else {
            self.starts[count - 1]
        };
        Position {
            line: count + 1,
            column: place.saturating_sub(start) + 1,
        }
    }

    /// The line and the column of a place of the text whose lines these are; a place behind its end counts as one of its
    /// last line. Our own.
    pub fn position(&self, place: BytePos) -> Position
        ensures { (bytes : List ℕ) → self.now.starts.items ≡ line_starts bytes → result ≡ position_in bytes place }
    {
        self.position_behind(place, self.count_at(place.0 as usize))
    }

    /// The same position, found without a search where it is in the line `line`, as one often is in that of the one before.
    pub fn position_near(&self, place: BytePos, line: usize) -> Position
        ensures { (bytes : List ℕ) → self.now.starts.items ≡ line_starts bytes → result ≡ position_in bytes place }
    {
        let count = self.count_near(place.0 as usize, line.saturating_sub(1));
        self.position_behind(place, count)
    }
}
