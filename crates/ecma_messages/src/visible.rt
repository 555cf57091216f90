//! Text written so that nothing in it controls a terminal.
ghost use Rattle.std.specs.Prelude.{◌≡◌, ◌++◌, flat_map, OnOk};
ghost use Rattle.std.specs.Str.{chars};
ghost use Rattle.ecma_messages.specs.Visible as visible;

use std::alloc::AllocError;

/// Whether a character reorders what stands around it (Unicode Standard Annex 9, 2: embeddings, overrides and isolates).
fn is_reordering(c: char) -> bool
    ensures { result ≡ visible.is_reordering c }
{
    matches!(c, '\u{202a}'..='\u{202e}' | '\u{2066}'..='\u{2069}')
}

/// Whether a terminal does something for a character besides showing it.
fn is_obeyed(c: char) -> bool
    ensures { result ≡ visible.is_obeyed c }
{
    c.is_control() || is_reordering(c)
}

/// Adds a character as it is.
fn push_char(out: &mut Vec<u8>, c: char) -> Result<(), AllocError>
    ensures { OnOk result (out.new.items ≡ out.old.items ++ visible.encode_utf8 c) }
{
    let mut bytes = [0; 4];
    out.extend_from_slice(c.encode_utf8(&mut bytes).as_bytes())
}

/// The last hexadecimal digit of a number.
fn digit(number: u32) -> u8
    ensures { result ≡ visible.hex_digit number }
{
    b"0123456789abcdef"[(number % 16) as usize]
}

/// Adds the escape that names a character of at most four hexadecimal digits, as `\u001b`.
fn push_escape(out: &mut Vec<u8>, c: char) -> Result<(), AllocError>
    ensures { OnOk result (out.new.items ≡ out.old.items ++ visible.escape c) }
{
    let number = c as u32;
    out.extend_from_slice(&[
        b'\\',
        b'u',
        digit(number / 4096),
        digit(number / 256),
        digit(number / 16),
        digit(number),
    ])
}

/// Adds a character, or its escape where a terminal would obey it.
fn push_shown(out: &mut Vec<u8>, c: char) -> Result<(), AllocError>
    ensures { OnOk result (out.new.items ≡ out.old.items ++ visible.shown_char c) }
{
    if is_obeyed(c) {
        push_escape(out, c)
    } else {
        push_char(out, c)
    }
}

/// Adds a character of a name.
fn push_name_char(out: &mut Vec<u8>, c: char) -> Result<(), AllocError>
    ensures { OnOk result (out.new.items ≡ out.old.items ++ visible.name_char c) }
{
    match c {
        '\\' => out.extend_from_slice(b"\\\\"),
        '\n' => out.extend_from_slice(b"\\n"),
        '\r' => out.extend_from_slice(b"\\r"),
        _ => push_shown(out, c),
    }
}

/// Adds a character of a message.
fn push_message_char(out: &mut Vec<u8>, c: char) -> Result<(), AllocError>
    ensures { OnOk result (out.new.items ≡ out.old.items ++ visible.message_char c) }
{
    match c {
        '\n' | '\r' => Ok(out.push(b' ')?),
        '\t' => Ok(out.push(b'\t')?),
        _ => push_shown(out, c),
    }
}

/// Adds a character of lines.
fn push_line_char(out: &mut Vec<u8>, c: char) -> Result<(), AllocError>
    ensures { OnOk result (out.new.items ≡ out.old.items ++ visible.line_char c) }
{
    match c {
        '\n' => Ok(out.push(b'\n')?),
        '\t' => Ok(out.push(b'\t')?),
        _ => push_shown(out, c),
    }
}

/// Adds the name of a file: a backslash, a line feed and a carriage return are `\\`, `\n` and `\r`, as in rows, and any other
/// character that a terminal would obey is its escape, as `\u001b`. Our own.
///
/// # Errors
///
/// `AllocError` where allocation fails; a part of it may have been added then.
pub fn push_name(out: &mut Vec<u8>, name: &str) -> Result<(), AllocError>
    ensures { OnOk result (out.new.items ≡ out.old.items ++ visible.name_text name.now) }
{
    for c in name.chars() {
        push_name_char(out, c)?;
    }
    Ok(())
}

/// Adds a message in one line: a line feed and a carriage return are spaces, a tab is itself, and any other character that a
/// terminal would obey is its escape. Our own.
///
/// # Errors
///
/// `AllocError` where allocation fails; a part of it may have been added then.
pub fn push_message(out: &mut Vec<u8>, message: &str) -> Result<(), AllocError>
    ensures { OnOk result (out.new.items ≡ out.old.items ++ visible.message_text message.now) }
{
    for c in message.chars() {
        push_message_char(out, c)?;
    }
    Ok(())
}

/// Adds lines: line feeds and tabs are themselves, and any other character that a terminal would obey is its escape. Our own.
///
/// # Errors
///
/// `AllocError` where allocation fails; a part of it may have been added then.
pub fn push_lines(out: &mut Vec<u8>, lines: &str) -> Result<(), AllocError>
    ensures { OnOk result (out.new.items ≡ out.old.items ++ visible.lines_text lines.now) }
{
    for c in lines.chars() {
        push_line_char(out, c)?;
    }
    Ok(())
}

/// Adds a byte of a name that is no UTF-8.
fn push_byte(out: &mut Vec<u8>, byte: u8) -> Result<(), AllocError>
    ensures { OnOk result (out.new.items ≡ out.old.items ++ visible.byte_text byte) }
{
    match byte {
        b'\\' => out.extend_from_slice(b"\\\\"),
        32..=126 => Ok(out.push(byte)?),
        _ => {
            let number = byte as u32;
            out.extend_from_slice(&[b'\\', b'x', digit(number / 16), digit(number)])
        }
    }
}

/// Adds the bytes of a name that is no UTF-8: a backslash as `\\`, the others of ASCII that are shown as themselves, and each
/// other byte as `\xff`. Our own.
///
/// # Errors
///
/// `AllocError` where allocation fails; a part of it may have been added then.
pub fn push_bytes(out: &mut Vec<u8>, bytes: &[u8]) -> Result<(), AllocError>
    ensures { OnOk result (out.new.items ≡ out.old.items ++ flat_map visible.byte_text bytes.now) }
{
    for byte in bytes {
        push_byte(out, *byte)?;
    }
    Ok(())
}
