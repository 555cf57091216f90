//! A character in quotes, as messages show it.
ghost use Rattle.ecma_token.specs.Quoted.{quoted_char};

use std::fmt;

/// A character whose text is the character in single quotes. A quote or a backslash, NUL, tab, LF and CR are escaped,
/// another ASCII control character is its number in braces; all else is written as itself.
#[derive(Clone, Copy)]
pub struct Quoted(pub char);

impl fmt::Display for Quoted {
    ghost use Rattle.std.specs.Prelude.{Some};

    ghost output = { λ q. Some (quoted_char q.0) };

    fn fmt<W: fmt::Write>(&self, f: &mut fmt::Formatter<W>) -> fmt::Result {
        match self.0 {
            '\'' => f.write_str("'\\''"),
            '\\' => f.write_str("'\\\\'"),
            '\0' => f.write_str("'\\0'"),
            '\t' => f.write_str("'\\t'"),
            '\n' => f.write_str("'\\n'"),
            '\r' => f.write_str("'\\r'"),
            c if c.is_ascii_control() => write!(f, "'\\u{{{:x}}}'", c as u32),
            c => write!(f, "'{c}'"),
        }
    }
}
