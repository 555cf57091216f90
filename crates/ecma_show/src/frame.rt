//! The margin in which the number of a line stands.
ghost use Rattle.std.specs.Prelude.{◌≡◌, ◌++◌, replicate, OnOk};
ghost use Rattle.ecma_show.specs.Shown as shows;

use ecma_stdio::push_number;
use std::alloc::AllocError;

/// What is the same for all lines of a text.
#[derive(Clone, Copy, Debug, PartialEq, Eq)]
pub struct Frame {
    /// How many columns the longest number of a line has.
    pub width: usize,
    pub colours: bool,
}

/// What stands between a number and its line.
const BAR: &[u8] = b" | ";

/// Adds so many spaces.
fn push_spaces(out: &mut Vec<u8>, count: usize) -> Result<(), AllocError>
    ensures { OnOk result (out.new.items ≡ out.old.items ++ replicate count 32) }
{
    let more = out.len().saturating_add(count);
    out.resize(more, b' ')
}

/// Adds the margin of a line with this number.
pub(crate) fn push_margin(out: &mut Vec<u8>, width: usize, number: usize) -> Result<(), AllocError>
    ensures { OnOk result (out.new.items ≡ out.old.items ++ shows.margin width number) }
{
    let before = out.len();
    push_number(out, number)?;
    let long = out.len() - before;
    push_spaces(out, width.saturating_sub(long))?;
    out.extend_from_slice(BAR)
}

/// Adds a margin without a number.
pub(crate) fn push_blank(out: &mut Vec<u8>, width: usize) -> Result<(), AllocError>
    ensures { OnOk result (out.new.items ≡ out.old.items ++ shows.blank width) }
{
    push_spaces(out, width)?;
    out.extend_from_slice(BAR)
}
