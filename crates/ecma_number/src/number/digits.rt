//! The digits of a number, and their value.
ghost use Rattle.std.specs.Prelude.{◌≡◌, ◌<◌, ◌++◌, ◌∷◌, [], false, length, IfOk, OnOk, IsOk, encode_utf8_all, string_bytes};
ghost use Rattle.std.specs.List.{list_any};
ghost use Rattle.std.specs.Str.Parse.{AllDigits};
ghost use Rattle.ecma_grammar.specs.Numbers as numbers;

use crate::number::runs::base;
use ecma_place::Atom;
use ecma_token::Radix;
use std::alloc::{AllocError, Global};

/// Whether a separator is in the text.
pub(super) fn has_separator(text: &str) -> bool
    ensures { result ≡ list_any numbers.is_separator text.now }
{
    text.as_bytes().contains(&b'_')
}

/// Adds an ASCII character that is no separator.
fn push_digit(digits: &mut String, b: u8) -> Result<(), AllocError>
    ensures { OnOk result (string_bytes digits.new ≡ string_bytes digits.old ++ encode_utf8_all (numbers.without_separators (b ∷ []))) }
{
    if b != b'_' {
        digits.push(b as char)?;
    }
    Ok(())
}

/// The ASCII text without its separators.
fn without_separators(alloc: Global, text: &str) -> Result<String, AllocError>
    ensures { IfOk result (λ s. string_bytes s ≡ encode_utf8_all (numbers.without_separators text.now)) }
{
    let mut digits = String::new(alloc);
    'bytes: for b in text.as_bytes() {
        push_digit(&mut digits, *b)?;
    }
    Ok(digits)
}

/// The ASCII text without its separators, which borrows where there is none, and then does not allocate.
pub(super) fn digits_atom<'a>(alloc: Global, text: &'a str) -> Result<Atom<'a>, AllocError>
    requires ascii { encode_utf8_all text.now ≡ text.now }
    ensures value { IfOk result (λ a. a ≡ numbers.digits_atom text.now) }
    ensures free { list_any numbers.is_separator text.now ≡ false → IsOk result }
{
    if has_separator(text) {
        Ok(Atom::from(without_separators(alloc, text)?))
    } else {
        Ok(Atom::from(text))
    }
}

/// The value of the digits, where it fits 128 bits.
pub(super) fn fitting_value(digits: &str, radix: Radix) -> Option<u128>
    requires all { AllDigits (numbers.base radix) digits.now }
    requires some { 0 < length digits.now }
    ensures { result ≡ numbers.fitting_value radix digits.now }
{
    u128::from_str_radix(digits, base(radix)).ok()
}
