//! Conflict markers. They are our own choice; ECMA-262 knows none.
ghost use Rattle.std.specs.Prelude.{◌≡◌, is_some};
ghost use Rattle.ecma_place.specs.Cursor.{rest};
ghost use Rattle.ecma_grammar.specs.Gaps.{is_marker, marker};

use ecma_place::StringInput;

/// Whether a marker of the character is at the cursor: seven times `=`, or, outside of types, seven times `<` or
/// `>` before a space.
#[tactic(auto, using(crate::proofs::MarkerLemmas::markers))]
pub(crate) fn stands_marker(input: &StringInput, type_mode: bool, first: char) -> bool
    ensures { result ≡ is_marker type_mode first (rest input.now) }
{
    match first {
        '=' => input.is_str("======="),
        '<' => !type_mode && input.is_str("<<<<<<< "),
        '>' => !type_mode && input.is_str(">>>>>>> "),
        _ => false,
    }
}

/// Whether a marker is at the cursor.
pub(crate) fn stands_conflict(input: &StringInput, type_mode: bool) -> bool
    ensures { result ≡ is_some (marker type_mode (rest input.now)) }
{
    match input.cur() {
        Some(first) => stands_marker(input, type_mode, first),
        None => false,
    }
}
