//! Bytes written so that they stand in one line.
ghost use Rattle.std.specs.Prelude.{◌≡◌, ◌++◌, OnOk};
ghost use Rattle.ecma_stdio.specs.Escaped as escapes;

use memchr::memchr3;
use std::alloc::AllocError;

/// Adds the byte, with a backslash where it is one, a line feed or a carriage return.
fn push_escaped_byte(out: &mut Vec<u8>, byte: u8) -> Result<(), AllocError>
    ensures { OnOk result (out.new.items ≡ out.old.items ++ escapes.escaped_byte byte) }
{
    match byte {
        b'\\' => out.extend_from_slice(b"\\\\"),
        b'\n' => out.extend_from_slice(b"\\n"),
        b'\r' => out.extend_from_slice(b"\\r"),
        _ => Ok(out.push(byte)?),
    }
}

/// Adds the bytes so that they take one line: a backslash, a line feed and a carriage return are `\\`, `\n` and `\r`.
/// Our own.
///
/// # Errors
///
/// `AllocError` where there is no memory.
pub fn push_escaped(out: &mut Vec<u8>, bytes: &[u8]) -> Result<(), AllocError>
    ensures { OnOk result (out.new.items ≡ out.old.items ++ escapes.escaped bytes.now) }
{
    // What stands for itself goes out in runs; most texts are one run.
    let mut left = bytes;
    'runs: while let Some(plain) = memchr3(b'\\', b'\n', b'\r', left) {
        out.extend_from_slice(&left[..plain])?;
        push_escaped_byte(out, left[plain])?;
        left = &left[plain + 1..];
    }
    out.extend_from_slice(left)
}
