//! The value of a token as members of a JSON object, and as a field of a line.
ghost use Rattle.std.specs.Prelude.{◌≡◌, ◌++◌, codes, decimal, OnOk};
ghost use Rattle.json.specs.Print.{quoted};
ghost use Rattle.ecma_print.specs.Values as value_specs;

use crate::members::{push_number_member, push_text_member};
use crate::row::Value;
use ecma_stdio::push_number;
use std::alloc::AllocError;

/// Adds the digits of a number.
pub(crate) fn push_digits(out: &mut Vec<u8>, value: Value) -> Result<(), AllocError>
    ensures { OnOk result (out.new.items ≡ out.old.items ++ value_specs.digits_text (value_specs.value_view value.entry)) }
{
    match value {
        Value::Digits { digits, .. } => push_text_member(out, b",\"digits\":", digits),
        _ => Ok(()),
    }
}

/// Adds the flags of a regular expression.
pub(crate) fn push_flags(out: &mut Vec<u8>, value: Value) -> Result<(), AllocError>
    ensures { OnOk result (out.new.items ≡ out.old.items ++ value_specs.flags_text (value_specs.value_view value.entry)) }
{
    match value {
        Value::Expression { flags, .. } => push_text_member(out, b",\"flags\":", flags),
        _ => Ok(()),
    }
}

/// Adds the pattern of a regular expression, or the radix of a number.
pub(crate) fn push_form(out: &mut Vec<u8>, value: Value) -> Result<(), AllocError>
    ensures { OnOk result (out.new.items ≡ out.old.items ++ value_specs.form_text (value_specs.value_view value.entry)) }
{
    match value {
        Value::Digits { radix, .. } => push_number_member(out, b",\"radix\":", radix),
        Value::Expression { pattern, .. } => push_text_member(out, b",\"pattern\":", pattern),
        _ => Ok(()),
    }
}

/// Adds what a text stands for, or a number where it is told.
pub(crate) fn push_value(out: &mut Vec<u8>, value: Value) -> Result<(), AllocError>
    ensures { OnOk result (out.new.items ≡ out.old.items ++ value_specs.value_text (value_specs.value_view value.entry)) }
{
    match value {
        Value::Text(text) => push_text_member(out, b",\"value\":", text),
        Value::Null => out.extend_from_slice(b",\"value\":null"),
        Value::Digits {
            exact: Some(number),
            ..
        } => push_number_member(out, b",\"value\":", number),
        _ => Ok(()),
    }
}

/// Adds a string behind what comes before it, and the end of an array.
fn push_last(out: &mut Vec<u8>, before: &[u8], text: &str) -> Result<(), AllocError>
    ensures { OnOk result (out.new.items ≡ out.old.items ++ ((before.now ++ quoted text.now) ++ codes "]")) }
{
    push_text_member(out, before, text)?;
    Ok(out.push(b']')?)
}

/// Adds the radix of a number and its digits as an array, or the number itself where it is told.
fn push_number_field(
    out: &mut Vec<u8>,
    radix: usize,
    digits: &str,
    exact: Option<usize>,
) -> Result<(), AllocError>
    ensures { OnOk result (out.new.items ≡ out.old.items ++ value_specs.value_field (value_specs.number_value radix digits.now exact)) }
{
    if let Some(number) = exact {
        return push_number(out, number);
    }
    push_number_member(out, b"[", radix)?;
    push_last(out, b",", digits)
}

/// Adds the pattern and the flags of a regular expression as an array.
fn push_expression_field(out: &mut Vec<u8>, pattern: &str, flags: &str) -> Result<(), AllocError>
    ensures { OnOk result (out.new.items ≡ out.old.items ++ value_specs.value_field (value_specs.expression_value pattern.now flags.now)) }
{
    push_text_member(out, b"[", pattern)?;
    push_last(out, b",", flags)
}

/// Adds a value as a field of a line.
pub(crate) fn push_field(out: &mut Vec<u8>, value: Value) -> Result<(), AllocError>
    ensures { OnOk result (out.new.items ≡ out.old.items ++ value_specs.value_field (value_specs.value_view value.entry)) }
{
    match value {
        Value::Nothing => Ok(out.push(b'-')?),
        Value::Text(text) => push_text_member(out, b"", text),
        Value::Null => out.extend_from_slice(b"null"),
        Value::Digits {
            radix,
            digits,
            exact,
        } => push_number_field(out, radix, digits, exact),
        Value::Expression { pattern, flags } => push_expression_field(out, pattern, flags),
    }
}
