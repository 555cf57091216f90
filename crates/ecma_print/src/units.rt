//! Units of UTF-16 in the line of a place, counted from the last place that was asked for.
ghost use Rattle.std.specs.Prelude.{◌≡◌, ◌≤◌, ◌<◌, ◌^◌, ℕ, List, length, slice_range};
ghost use Rattle.ecma_positions.specs.Units.{utf16_length};
ghost use Rattle.ecma_print.specs.Units.{CountsUnits};

use ecma_positions::utf16_length;

/// How many units of UTF-16 lie between two places of a text. Rows mostly go on in a line, so that each byte is passed once.
#[derive(Clone, Copy, Debug)]
pub(crate) struct Units {
    /// Where the line begins, in bytes.
    start: usize,
    /// The place, in bytes.
    place: usize,
    count: usize,
}

/// The bytes from one place to another, as far as there are any.
fn part(bytes: &[u8], from: usize, to: usize) -> &[u8]
    ensures { result.now ≡ slice_range bytes.now from to }
{
    let to = to.min(bytes.len());
    let from = from.min(to);
    &bytes[from..to]
}

impl Units {
    /// Those of nothing, at the beginning of a text.
    pub(crate) fn new() -> Units
        ensures { (bytes : List ℕ) → CountsUnits bytes result }
    {
        Units {
            start: 0,
            place: 0,
            count: 0,
        }
    }

    /// How many units lie between two places, counted on from the last one where the line is the same.
    fn counted(&self, bytes: &[u8], start: usize, place: usize) -> usize
        requires { place < 2 ^ 32 }
        ensures { CountsUnits bytes.now self.now → start ≤ place → place ≤ length bytes.now → result ≡ utf16_length (slice_range bytes.now start place) }
    {
        if start != self.start || place < self.place {
            return utf16_length(part(bytes, start, place));
        }
        let more = utf16_length(part(bytes, self.place, place));
        self.count.saturating_add(more)
    }

    /// How many units lie between the place where a line begins and a place in it.
    pub(crate) fn count(&mut self, bytes: &[u8], start: usize, place: usize) -> usize
        requires { place < 2 ^ 32 }
        ensures units { CountsUnits bytes.now self.old → start ≤ place → place ≤ length bytes.now → result ≡ utf16_length (slice_range bytes.now start place) }
        ensures counts { CountsUnits bytes.now self.old → start ≤ place → place ≤ length bytes.now → CountsUnits bytes.now self.new }
    {
        let count = self.counted(bytes, start, place);
        *self = Units {
            start,
            place,
            count,
        };
        count
    }
}
