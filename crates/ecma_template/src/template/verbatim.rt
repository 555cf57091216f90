//! Template text that means what is written, without escape and CR.
ghost use Rattle.std.specs.Prelude.{◌≡◌, None, false, length};
ghost use Rattle.ecma_place.specs.Cursor.{rest, passed};
ghost use Rattle.ecma_grammar.specs.Templates as templates;
ghost use Rattle.ecma_template.specs.VerbatimTexts.{PassesVerbatim, break_if_verbatim, run_length, verbatim_text};

use crate::template::pieces::stops;
use ecma_place::{ByteClass, CharExt, StringInput, template_lanes};
use std::simd::prelude::*;

/// Moves behind the run of bytes at the cursor that template text holds as they are, of any length.
#[inline(never)]
fn pass_long_run(input: &mut StringInput)
    ensures { input.new ≡ passed (run_length (rest input.old)) input.old }
{
    input.bump_bytes(input.run_bytes(ByteClass::Template) as usize);
}

/// Moves behind the run of bytes at the cursor that template text holds as they are.
#[inline(always)]
fn pass_run(input: &mut StringInput)
    ensures moved { input.new ≡ passed (run_length (rest input.old)) input.old }
    ensures verbatim { PassesVerbatim false input.old input.new }
{
    // Most runs end within the 16 bytes at the cursor.
    if let Some(chunk) = input.chunk() {
        let length = template_lanes(u8x16::from_array(*chunk));
        if length < 16 {
            input.bump_bytes(length as usize);
            return;
        }
    }
    pass_long_run(input);
}

/// Moves behind the piece at the cursor, if one begins there that means what is written, and says whether it is a line
/// terminator. Such a piece is one character.
fn eat_verbatim(input: &mut StringInput) -> Option<bool>
    ensures value { result ≡ break_if_verbatim (templates.template_piece (rest input.old)) }
    ensures moved { input.new ≡ passed (length (verbatim_text (templates.template_piece (rest input.old)))) input.old }
{
    let c = input.cur()?;
    if stops(input, c) || c == '\\' || c == '\r' {
        return None;
    }
    input.bump();
    Some(c.is_line_terminator())
}

/// Moves behind the pieces at the cursor that mean what is written, and says whether a line terminator is among them.
pub(super) fn pass_verbatim(input: &mut StringInput) -> bool
    ensures passed { PassesVerbatim result input.old input.new }
    ensures stops { break_if_verbatim (templates.template_piece (rest input.new)) ≡ None }
{
    let mut line_break = false;
    pass_run(input);
    'pieces: while let Some(is_break) = eat_verbatim(input) {
        line_break |= is_break;
        pass_run(input);
    }
    line_break
}
