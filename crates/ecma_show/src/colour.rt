//! Colours of a terminal.
ghost use Rattle.std.specs.Prelude.{◌≡◌};
ghost use Rattle.ecma_show.specs.Colours as colours;

/// A colour of the sixteen whose tone the terminal's user chooses.
#[derive(Clone, Copy, Debug, PartialEq, Eq)]
pub enum Colour {
    Red,
    Green,
    Yellow,
    Blue,
    Magenta,
    Cyan,
    Grey,
}

/// The sequence behind which text is written as by default.
pub(crate) const UNSET: &[u8] = b"\x1b[0m";

impl Colour {
    /// The sequence behind which text is written in this colour (ECMA-48, 8.3.117, and for grey the terminals that xterm set
    /// the pattern for).
    pub(crate) fn set(self) -> &'static [u8]
        ensures { result.now ≡ colours.set self }
    {
        match self {
            Colour::Red => b"\x1b[31m",
            Colour::Green => b"\x1b[32m",
            Colour::Yellow => b"\x1b[33m",
            Colour::Blue => b"\x1b[34m",
            Colour::Magenta => b"\x1b[35m",
            Colour::Cyan => b"\x1b[36m",
            Colour::Grey => b"\x1b[90m",
        }
    }
}
