//! The characters that the lexical grammar names.
ghost use Rattle.std.specs.Prelude.{◌≡◌, ℕ, Some};
ghost use Rattle.ecma_place.specs.Character.{is_ident_start, is_ident_part, is_line_break, is_line_terminator, is_white_space, is_ws};

use unicode::ident::{is_xid_continue, is_xid_start};

/// The classes of characters of ECMA-262, as questions to a character.
pub trait CharExt: Copy {
    ghost code: { Self → ℕ };

    /// The character. That of a `char` is always there.
    fn to_char(self) -> Option<char>
        ensures { result ≡ Some (code self) };

    /// Whether a name may begin with the character: `$`, `_`, an ASCII letter, or XID_Start past
    /// ASCII.
    ///
    /// IdentifierStartChar of ECMA-262, 12.7. That it is XID_Start, where the standard has
    /// ID_Start, is our own choice.
    fn is_ident_start(self) -> bool
        ensures { result ≡ is_ident_start (code self) };

    /// Whether a name may go on with the character: `$`, `_`, an ASCII letter or digit, U+200C,
    /// U+200D, or XID_Continue past ASCII.
    ///
    /// IdentifierPartChar of ECMA-262, 12.7. That it is XID_Continue, where the standard has
    /// ID_Continue, is our own choice.
    fn is_ident_part(self) -> bool
        ensures { result ≡ is_ident_part (code self) };

    /// Whether the character is CR or LF, which are the line terminators that no string literal
    /// holds (ECMA-262, 12.9.4).
    fn is_line_break(self) -> bool
        ensures { result ≡ is_line_break (code self) };

    /// Whether the character is CR, LF, U+2028 or U+2029: LineTerminator of ECMA-262, 12.3.
    fn is_line_terminator(self) -> bool
        ensures { result ≡ is_line_terminator (code self) };

    /// Whether the character is white space and no line terminator.
    ///
    /// WhiteSpace of ECMA-262, 12.2, and U+0085, which `char::is_whitespace` adds to it.
    fn is_ws(self) -> bool
        ensures { result ≡ is_ws (code self) };
}

impl CharExt for char {
    ghost code = { λ c. c };

    #[inline]
    fn to_char(self) -> Option<char> {
        Some(self)
    }

    #[inline]
    #[tactic(auto, unfolding(crate::specs::Character::is_ident_start))]
    fn is_ident_start(self) -> bool {
        if self.is_ascii() {
            self == '$' || self == '_' || self.is_ascii_alphabetic()
        } else {
            is_xid_start(self)
        }
    }

    #[inline]
    #[tactic(auto, unfolding(crate::specs::Character::is_ident_part))]
    fn is_ident_part(self) -> bool {
        if self.is_ascii() {
            self == '$' || self == '_' || self.is_ascii_alphanumeric()
        } else {
            self == '\u{200c}' || self == '\u{200d}' || is_xid_continue(self)
        }
    }

    #[inline]
    #[tactic(auto, unfolding(crate::specs::Character::is_line_break))]
    fn is_line_break(self) -> bool {
        self == '\r' || self == '\n'
    }

    #[inline]
    #[tactic(auto, unfolding(crate::specs::Character::is_line_terminator))]
    fn is_line_terminator(self) -> bool {
        matches!(self, '\r' | '\n' | '\u{2028}' | '\u{2029}')
    }

    #[inline]
    #[tactic(auto, unfolding(crate::specs::Character::is_ws))]
    fn is_ws(self) -> bool {
        is_white_space(self) && !self.is_line_terminator()
    }
}

/// Whether the character is white space or a line terminator: what may come between two tokens
/// beside comments.
///
/// WhiteSpace and LineTerminator of ECMA-262, 12.2 and 12.3, and U+0085, which
/// `char::is_whitespace` adds to them.
#[inline]
#[tactic(auto, unfolding(crate::specs::Character::is_white_space))]
pub fn is_white_space(c: char) -> bool
    ensures { result ≡ is_white_space c }
{
    matches!(c, '\t' | '\u{b}' | '\u{c}' | ' ' | '\u{feff}')
        || c.is_whitespace()
        || c.is_line_terminator()
}
