//! What is written of a row: a JSON object, as `serde_json` writes one, or what comes before the text of a row in its line.
ghost use Rattle.std.specs.Prelude.{◌≡◌, ◌∷◌, ◌++◌, codes, decimal, map, OnOk};
ghost use Rattle.serde_json.specs.Written.{compact_text};
ghost use Rattle.ecma_print.specs.Rows as row_specs;
ghost use Rattle.ecma_print.specs.Values as value_specs;

use crate::members::{push_flag_member, push_inside, push_number_member, push_text_member};
use crate::row::{Imported, More, Row, Value};
use crate::values::{push_digits, push_field, push_flags, push_form, push_value};
use ecma_positions::Position;
use ecma_span::{BytePos, Span};
use ecma_stdio::{push_escaped, push_number};
use std::alloc::AllocError;

/// Adds what a whole text of a file begins with as a JSON object, before its own bytes. [`push_text_part`] adds these, and
/// [`push_text_end`] what is behind them.
///
/// # Errors
///
/// `AllocError` where allocation fails; a part may have been added then.
pub fn push_text_begin(out: &mut Vec<u8>, file: &str) -> Result<(), AllocError>
    ensures { OnOk result (out.new.items ≡ out.old.items ++ row_specs.text_begin file.now) }
{
    push_text_member(out, b"{\"file\":", file)?;
    out.extend_from_slice(b",\"text\":\"")?;
    Ok(())
}

/// Adds bytes of such a text.
///
/// # Errors
///
/// `AllocError` where allocation fails; a part may have been added then.
pub fn push_text_part(out: &mut Vec<u8>, bytes: &[u8]) -> Result<(), AllocError>
    ensures { OnOk result (out.new.items ≡ out.old.items ++ row_specs.text_part bytes.now) }
{
    push_inside(out, bytes)
}

/// Adds what such a text ends with.
///
/// # Errors
///
/// `AllocError` where allocation fails; a part may have been added then.
pub fn push_text_end(out: &mut Vec<u8>) -> Result<(), AllocError>
    ensures { OnOk result (out.new.items ≡ out.old.items ++ row_specs.text_end) }
{
    out.extend_from_slice(b"\"}")
}

/// The value of a token, where it is told.
fn value_in(more: More) -> Value
    ensures { value_specs.value_view result ≡ row_specs.value_in (row_specs.more_view more.entry) }
{
    match more {
        More::Valued { value, .. } => value,
        _ => Value::Nothing,
    }
}

/// Adds the member that says whether a line terminator comes before a token.
fn push_line_break(out: &mut Vec<u8>, more: More) -> Result<(), AllocError>
    ensures { OnOk result (out.new.items ≡ out.old.items ++ row_specs.line_break_text (row_specs.more_view more.entry)) }
{
    match more {
        More::LineBreak(flag)
        | More::Valued {
            line_break: flag,
            ..
        } => { push_flag_member(out, b",\"line_break_before\":", flag) }
        _ => Ok(()),
    }
}

/// The name of the phase up to which a module is brought.
fn phase_name(phase: Option<&'static str>) -> &'static str
    ensures { result.now ≡ row_specs.phase_name (row_specs.text_behind phase.entry) }
{
    match phase {
        Some(phase) => phase,
        None => "evaluation",
    }
}

/// Adds the phase up to which a module is brought, and where its statement lies.
fn push_statement(out: &mut Vec<u8>, import: Imported) -> Result<(), AllocError>
    ensures { OnOk result (out.new.items ≡ out.old.items ++ row_specs.statement_text (row_specs.import_view import)) }
{
    let statement = import.statement;
    push_text_member(out, b",\"phase\":", phase_name(import.phase))?;
    push_number_member(out, b",\"statement_hi\":", statement.hi.0 as usize)?;
    push_number_member(out, b",\"statement_lo\":", statement.lo.0 as usize)?;
    Ok(())
}

/// Adds the members that not each row has and that stand before its text.
fn push_before_text(out: &mut Vec<u8>, more: More) -> Result<(), AllocError>
    ensures { OnOk result (out.new.items ≡ out.old.items ++ row_specs.before_text (row_specs.more_view more.entry)) }
{
    match more {
        More::Beside { side, .. } => push_text_member(out, b",\"side\":", side),
        More::Import(import) => push_statement(out, import),
        More::Export {
            local: Some(local),
            ..
        } => push_text_member(out, b",\"local\":", local),
        More::Valued { value, .. } => push_form(out, value),
        _ => Ok(()),
    }
}

/// Adds where the attributes of an import lie, where it has any.
fn push_attributes(out: &mut Vec<u8>, attributes: Option<Span>) -> Result<(), AllocError>
    ensures { OnOk result (out.new.items ≡ out.old.items ++ row_specs.attributes_text attributes) }
{
    let Some(span) = attributes else {
        return Ok(());
    };
    push_number_member(out, b",\"with_hi\":", span.hi.0 as usize)?;
    push_number_member(out, b",\"with_lo\":", span.lo.0 as usize)?;
    Ok(())
}

/// Adds whether types alone are imported, and where the attributes lie.
fn push_import_end(out: &mut Vec<u8>, import: Imported) -> Result<(), AllocError>
    ensures { OnOk result (out.new.items ≡ out.old.items ++ row_specs.import_end_text (row_specs.import_view import)) }
{
    push_flag_member(out, b",\"type\":", import.is_type)?;
    push_attributes(out, import.attributes)?;
    Ok(())
}

/// Adds the members that not each row has and that stand behind its text.
fn push_behind_text(out: &mut Vec<u8>, more: More) -> Result<(), AllocError>
    ensures { OnOk result (out.new.items ≡ out.old.items ++ row_specs.behind_text (row_specs.more_view more.entry)) }
{
    match more {
        More::Beside { token, .. } => push_number_member(out, b",\"token\":", token.0 as usize),
        More::Import(import) => push_import_end(out, import),
        More::Export { is_type, .. } => push_flag_member(out, b",\"type\":", is_type),
        More::Valued { value, .. } => push_value(out, value),
        _ => Ok(()),
    }
}

/// Adds a row of a file as a JSON object. Its members stand in the order of their names.
///
/// # Errors
///
/// `AllocError` where allocation fails; a part of the object may have been added then.
pub fn push_object(
    out: &mut Vec<u8>,
    file: &str,
    position: Position,
    row: Row,
) -> Result<(), AllocError>
    ensures { OnOk result (out.new.items ≡ out.old.items ++ compact_text (row_specs.row_data file.now position row.entry)) }
{
    let value = value_in(row.more);
    push_number_member(out, b"{\"column\":", position.column)?;
    push_digits(out, value)?;
    push_text_member(out, b",\"file\":", file)?;
    push_flags(out, value)?;
    push_number_member(out, b",\"hi\":", row.span.hi.0 as usize)?;
    push_text_member(out, b",\"kind\":", row.kind)?;
    push_number_member(out, b",\"line\":", position.line)?;
    push_line_break(out, row.more)?;
    push_number_member(out, b",\"lo\":", row.span.lo.0 as usize)?;
    push_before_text(out, row.more)?;
    push_text_member(out, b",\"text\":", row.text)?;
    push_behind_text(out, row.more)?;
    out.push(b'}')?;
    Ok(())
}

/// Adds a byte, and a number behind it.
fn push_behind(out: &mut Vec<u8>, byte: u8, number: usize) -> Result<(), AllocError>
    ensures { OnOk result (out.new.items ≡ out.old.items ++ byte ∷ decimal number) }
{
    out.push(byte)?;
    push_number(out, number)
}

/// Adds a line and a column, behind a space.
fn push_position(out: &mut Vec<u8>, position: Option<Position>) -> Result<(), AllocError>
    ensures { OnOk result (out.new.items ≡ out.old.items ++ row_specs.position_text position) }
{
    let Some(Position { line, column }) = position else {
        return Ok(());
    };
    push_behind(out, b' ', line)?;
    push_behind(out, b':', column)
}

/// Adds a text between two spaces.
fn push_between(out: &mut Vec<u8>, text: &[u8]) -> Result<(), AllocError>
    ensures { OnOk result (out.new.items ≡ out.old.items ++ row_specs.between text.now) }
{
    out.push(b' ')?;
    out.extend_from_slice(text)?;
    Ok(out.push(b' ')?)
}

/// Adds the side of a comment and the place of its token, between spaces.
fn push_beside(out: &mut Vec<u8>, side: &str, token: BytePos) -> Result<(), AllocError>
    ensures { OnOk result (out.new.items ≡ out.old.items ++ row_specs.beside side.now token) }
{
    out.push(b' ')?;
    out.extend_from_slice(side.as_bytes())?;
    push_behind(out, b' ', token.0 as usize)?;
    Ok(out.push(b' ')?)
}

/// Adds that types alone are imported, or a phase other than evaluation, between spaces.
fn push_mark(out: &mut Vec<u8>, import: Imported) -> Result<(), AllocError>
    ensures { OnOk result (out.new.items ≡ out.old.items ++ row_specs.mark (row_specs.import_view import)) }
{
    match import.phase {
        _ if import.is_type => out.extend_from_slice(b" type "),
        Some(phase) => push_between(out, phase.as_bytes()),
        None => Ok(out.push(b' ')?),
    }
}

/// Adds the name that an export has in the module, between spaces; a hyphen where it has none.
fn push_local(out: &mut Vec<u8>, local: Option<&str>) -> Result<(), AllocError>
    ensures { OnOk result (out.new.items ≡ out.old.items ++ row_specs.local_text (row_specs.text_behind local.entry)) }
{
    let Some(local) = local else {
        return out.extend_from_slice(b" - ");
    };
    out.push(b' ')?;
    push_escaped(out, local.as_bytes())?;
    Ok(out.push(b' ')?)
}

/// Adds whether a line terminator comes before a token, between spaces.
#[inline(always)]
fn push_break(out: &mut Vec<u8>, flag: bool) -> Result<(), AllocError>
    ensures { OnOk result (out.new.items ≡ out.old.items ++ row_specs.flag_field flag) }
{
    if flag {
        out.extend_from_slice(b" lf ")
    } else {
        out.extend_from_slice(b" - ")
    }
}

/// Adds whether a line terminator comes before a token, and its value, between spaces.
fn push_valued(out: &mut Vec<u8>, flag: bool, value: Value) -> Result<(), AllocError>
    ensures { OnOk result (out.new.items ≡ out.old.items ++ (row_specs.flag_field flag ++ (value_specs.value_field (value_specs.value_view value.entry) ++ codes " "))) }
{
    push_break(out, flag)?;
    push_field(out, value)?;
    Ok(out.push(b' ')?)
}

/// Adds what is told of a row besides what all rows have, between spaces.
fn push_more(out: &mut Vec<u8>, more: More) -> Result<(), AllocError>
    ensures { OnOk result (out.new.items ≡ out.old.items ++ row_specs.more_text (row_specs.more_view more.entry)) }
{
    match more {
        More::Nothing | More::Message => Ok(out.push(b' ')?),
        More::LineBreak(flag) => push_break(out, flag),
        More::Valued { line_break, value } => push_valued(out, line_break, value),
        More::Beside { side, token } => push_beside(out, side, token),
        More::Import(import) => push_mark(out, import),
        More::Export { local, .. } => push_local(out, local),
    }
}

/// Adds what comes before the text of a row in its line, with its line and column where they are given.
///
/// # Errors
///
/// `AllocError` where allocation fails; a part of it may have been added then.
pub fn push_head(out: &mut Vec<u8>, position: Option<Position>, row: Row) -> Result<(), AllocError>
    ensures { OnOk result (out.new.items ≡ out.old.items ++ row_specs.head position row.entry) }
{
    out.extend_from_slice(row.kind.as_bytes())?;
    push_position(out, position)?;
    push_behind(out, b' ', row.span.lo.0 as usize)?;
    push_behind(out, b' ', row.span.hi.0 as usize)?;
    push_more(out, row.more)
}

/// The byte in a message that takes one line.
fn one_line(byte: u8) -> u8
    ensures { result ≡ row_specs.one_line byte }
{
    if byte == b'\n' || byte == b'\r' {
        b' '
    } else {
        byte
    }
}

/// Adds a message for people, in one line: a space stands for each line feed and carriage return in it.
///
/// # Errors
///
/// `AllocError` where allocation fails; a part of it may have been added then.
pub fn push_message(out: &mut Vec<u8>, message: &[u8]) -> Result<(), AllocError>
    ensures { OnOk result (out.new.items ≡ out.old.items ++ map row_specs.one_line message.now) }
{
    for byte in message {
        out.push(one_line(*byte))?;
    }
    Ok(())
}

/// Adds the text of a row in its line.
///
/// # Errors
///
/// `AllocError` where allocation fails; a part of it may have been added then.
pub fn push_own_text(out: &mut Vec<u8>, row: Row) -> Result<(), AllocError>
    ensures { OnOk result (out.new.items ≡ out.old.items ++ row_specs.own_text (row_specs.more_view row.entry.more) row.entry.text.now) }
{
    match row.more {
        More::Message => push_message(out, row.text.as_bytes()),
        _ => push_escaped(out, row.text.as_bytes()),
    }
}
