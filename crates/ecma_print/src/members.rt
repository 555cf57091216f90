//! Members of a JSON object, as `serde_json` writes them.
ghost use Rattle.std.specs.Prelude.{◌≡◌, ◌++◌, ◌<◌, decimal, OnOk};
ghost use Rattle.std.specs.Char.{digit_char};
ghost use Rattle.json.specs.Print.{escape, escape_byte, quoted};
ghost use Rattle.ecma_print.specs.Rows as row_specs;

use ecma_stdio::push_number;
use std::alloc::AllocError;

/// Whether a byte of a JSON string has to be written as an escape.
fn needs_escape(byte: u8) -> bool
    ensures { result ≡ row_specs.needs_escape byte }
{
    byte < b' ' || byte == b'"' || byte == b'\\'
}

/// The hexadecimal digit of a number below 16.
fn hex_digit(number: u8) -> u8
    requires { number < 16 }
    ensures { result ≡ digit_char number }
{
    if number < 10 {
        b'0' + number
    } else {
        b'a' - 10 + number
    }
}

/// Adds a byte as JSON strings have it.
#[tactic(auto, unfolding(json::specs::Print::escape_byte))]
fn push_escape(out: &mut Vec<u8>, byte: u8) -> Result<(), AllocError>
    ensures { OnOk result (out.new.items ≡ out.old.items ++ escape_byte byte) }
{
    match byte {
        b'"' => out.extend_from_slice(b"\\\""),
        b'\\' => out.extend_from_slice(b"\\\\"),
        8 => out.extend_from_slice(b"\\b"),
        12 => out.extend_from_slice(b"\\f"),
        b'\n' => out.extend_from_slice(b"\\n"),
        b'\r' => out.extend_from_slice(b"\\r"),
        b'\t' => out.extend_from_slice(b"\\t"),
        0..=31 => out.extend_from_slice(&[
            b'\\',
            b'u',
            b'0',
            b'0',
            hex_digit(byte / 16),
            hex_digit(byte % 16),
        ]),
        _ => Ok(out.push(byte)?),
    }
}

/// Adds bytes as JSON strings have them. What lies between two escapes goes in at once.
pub(crate) fn push_inside(out: &mut Vec<u8>, bytes: &[u8]) -> Result<(), AllocError>
    ensures { OnOk result (out.new.items ≡ out.old.items ++ escape bytes.now) }
{
    let mut done = 0;
    for (place, byte) in bytes.iter().enumerate() {
        if needs_escape(*byte) {
            out.extend_from_slice(&bytes[done..place])?;
            push_escape(out, *byte)?;
            done = place + 1;
        }
    }
    out.extend_from_slice(&bytes[done..])
}

/// Adds a member of a JSON object that is a number, behind what comes before it.
pub(crate) fn push_number_member(
    out: &mut Vec<u8>,
    before: &[u8],
    number: usize,
) -> Result<(), AllocError>
    ensures { OnOk result (out.new.items ≡ out.old.items ++ (before.now ++ decimal number)) }
{
    out.extend_from_slice(before)?;
    push_number(out, number)
}

/// Adds a member of a JSON object that is a string, behind what comes before it.
pub(crate) fn push_text_member(
    out: &mut Vec<u8>,
    before: &[u8],
    text: &str,
) -> Result<(), AllocError>
    ensures { OnOk result (out.new.items ≡ out.old.items ++ (before.now ++ quoted text.now)) }
{
    out.extend_from_slice(before)?;
    out.push(b'"')?;
    push_inside(out, text.as_bytes())?;
    out.push(b'"')?;
    Ok(())
}

/// Adds a member of a JSON object that is a truth value, behind what comes before it.
pub(crate) fn push_flag_member(
    out: &mut Vec<u8>,
    before: &[u8],
    flag: bool,
) -> Result<(), AllocError>
    ensures { OnOk result (out.new.items ≡ out.old.items ++ (before.now ++ row_specs.flag_text flag)) }
{
    out.extend_from_slice(before)?;
    if flag {
        out.extend_from_slice(b"true")
    } else {
        out.extend_from_slice(b"false")
    }
}
