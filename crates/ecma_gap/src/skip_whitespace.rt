//! White space in a text.
ghost use Rattle.std.specs.Prelude.{◌≡◌, ◌+◌, ◌^◌, ◌<◌, ◌||◌, length, drop};
ghost use Rattle.std.specs.Str.{chars, IsCharBoundary};
ghost use Rattle.std.specs.List.{prefix_len, take_while, list_any};
ghost use Rattle.ecma_place.specs.Cursor.{passed, rest};
ghost use Rattle.ecma_place.specs.Text.{byte_len};
ghost use Rattle.ecma_place.specs.Character.{is_white_space, is_line_terminator};

use crate::white_space::white_space_at;
use ecma_place::{ByteClass, BytePos, CharExt, StringInput};

/// Moves behind the white space at the cursor, by runs of blanks and the single characters between them, and says whether
/// it held a line terminator.
fn pass_blanks(input: &mut StringInput) -> bool
    ensures terminator { result ≡ list_any is_line_terminator (take_while is_white_space (rest input.old)) }
    ensures moved { input.new ≡ passed (prefix_len is_white_space (rest input.old)) input.old }
{
    let mut terminator = false;
    input.bump_bytes(input.run_bytes(ByteClass::Blank) as usize);
    'chars: while let Some(c) = white_space_at(input) {
        terminator |= c.is_line_terminator();
        input.bump();
        input.bump_bytes(input.run_bytes(ByteClass::Blank) as usize);
    }
    terminator
}

/// A way over the white space and line terminators of a text (ECMA-262, 12.2 and 12.3), by bytes.
#[derive(Debug, Clone, Copy, PartialEq, Eq)]
pub struct SkipWhitespace<'a> {
    /// The text.
    pub input: &'a str,
    /// How many bytes of the text were passed.
    pub offset: usize,
    /// Whether a line terminator was passed.
    pub newline: bool,
}

impl<'a> SkipWhitespace<'a> {
    /// Moves the offset behind the longest run of white space that begins there, and notes a line terminator in it.
    ///
    /// The offset is between two characters (`str::is_char_boundary` tests it), and the text is at most
    /// 4,294,967,295 bytes long. Does not allocate.
    pub fn scan(&mut self)
        requires cut { IsCharBoundary self.old.input.now self.old.offset }
        requires fits { length self.old.input.now < 2 ^ 32 }
        ensures input { self.new.input ≡ self.old.input }
        ensures offset { self.new.offset ≡
            self.old.offset + byte_len (take_while is_white_space (chars (drop self.old.offset self.old.input.now))) }
        ensures newline { self.new.newline ≡ (self.old.newline
            || list_any is_line_terminator (take_while is_white_space (chars (drop self.old.offset self.old.input.now)))) }
    {
        let mut rest = StringInput::new(&self.input[self.offset..], BytePos(0));
        self.newline |= pass_blanks(&mut rest);
        self.offset += rest.cur_pos().0 as usize;
    }
}
