//! Block comments.
ghost use Rattle.std.specs.Prelude.{◌≡◌, ◌<◌, ◌∷◌, [], length, encode_utf8_all};
ghost use Rattle.std.specs.List.{list_any};
ghost use Rattle.ecma_place.specs.Character.{is_line_terminator};
ghost use Rattle.ecma_place.specs.Cursor.{rest, passed};
ghost use Rattle.ecma_grammar.specs.Fronts.{begins_with};
ghost use Rattle.ecma_grammar.specs.Gaps as gaps;

use ecma_place::{ByteClass, CharExt, StringInput};

/// Whether these two characters, which are ASCII, are at the cursor. None is decoded.
#[inline(always)]
pub(crate) fn stands_pair(input: &StringInput, one: u8, other: u8) -> bool
    requires { (one < 128) × (other < 128) }
    ensures { result ≡ begins_with (one ∷ other ∷ []) (rest input.now) }
{
    if !input.is_byte(one) {
        return false;
    }
    match input.byte_ahead(1) {
        Some(b) => b == other,
        None => false,
    }
}

/// Moves to the first `*/` or the end, and says whether a line terminator was passed.
#[tactic(auto, using(crate::proofs::BodyLemmas::bodies))]
pub(crate) fn skip_body(input: &mut StringInput) -> bool
    ensures terminator { result ≡ list_any is_line_terminator (gaps.body_before (rest input.old)) }
    ensures moved { input.new ≡ passed (length (gaps.body_before (rest input.old))) input.old }
{
    let mut terminator = false;
    input.bump_bytes(input.run_bytes(ByteClass::Block) as usize);
    'chars: while let Some(c) = input.cur() {
        if stands_pair(input, b'*', b'/') {
            break;
        }
        terminator |= c.is_line_terminator();
        input.bump();
        input.bump_bytes(input.run_bytes(ByteClass::Block) as usize);
    }
    terminator
}

/// Moves to the first `*/` or the end, and returns the text that was passed, and whether it holds a line terminator.
#[tactic(auto, using(crate::proofs::BodyLemmas::body_texts))]
pub(crate) fn read_body<'a>(input: &mut StringInput<'a>) -> (&'a str, bool)
    ensures text { result.0.now ≡ encode_utf8_all (gaps.body_before (rest input.old)) }
    ensures terminator { result.1 ≡ list_any is_line_terminator (gaps.body_before (rest input.old)) }
    ensures moved { input.new ≡ passed (length (gaps.body_before (rest input.old))) input.old }
{
    let start = input.cur_pos();
    let terminator = skip_body(input);
    (input.slice(start, input.cur_pos()), terminator)
}
