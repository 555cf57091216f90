//! Lines.
ghost use Rattle.std.specs.Prelude.{◌≡◌, length, encode_utf8_all};
ghost use Rattle.ecma_place.specs.Cursor.{rest, passed};
ghost use Rattle.ecma_grammar.specs.Fronts as fronts;

use ecma_place::{ByteClass, CharExt, StringInput};

/// Moves behind the line at the cursor, before its line terminator or the end, and returns its text.
#[tactic(auto, using(crate::proofs::LineLemmas::lines))]
pub fn read_line<'a>(input: &mut StringInput<'a>) -> &'a str
    ensures text { result.now ≡ encode_utf8_all (fronts.line (rest input.old)) }
    ensures moved { input.new ≡ passed (length (fronts.line (rest input.old))) input.old }
{
    let start = input.cur_pos();
    input.bump_bytes(input.run_bytes(ByteClass::Line) as usize);
    'chars: while let Some(c) = input.cur() {
        if c.is_line_terminator() {
            break;
        }
        input.bump();
        input.bump_bytes(input.run_bytes(ByteClass::Line) as usize);
    }
    input.slice(start, input.cur_pos())
}
