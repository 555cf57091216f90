//! The line about a file.
ghost use Rattle.std.specs.Prelude.{◌≡◌, ◌++◌, OnOk};
ghost use Rattle.ecma_messages.specs.Visible as visible;

use crate::visible::{push_message, push_name};
use std::alloc::AllocError;

/// Adds a line about a file: its name, and what is said of it.
///
/// # Errors
///
/// `AllocError` where allocation fails; a part of it may have been added then.
pub fn push_line(out: &mut Vec<u8>, name: &str, message: &str) -> Result<(), AllocError>
    ensures { OnOk result (out.new.items ≡ out.old.items ++ visible.line_about name.now message.now) }
{
    push_name(out, name)?;
    out.extend_from_slice(b": ")?;
    push_message(out, message)?;
    Ok(out.push(b'\n')?)
}
