//! Whether a name begins.
ghost use Rattle.std.specs.Prelude.{◌≡◌};
ghost use Rattle.ecma_place.specs.Character.{is_ident_start};
ghost use Rattle.ecma_place.specs.Cursor.{rest};
ghost use Rattle.ecma_grammar.specs.Fronts.{next_passes};

use ecma_place::{CharExt, StringInput};

/// Whether a start character is at the cursor.
pub fn begins_name(input: &StringInput) -> bool
    ensures { result ≡ next_passes is_ident_start (rest input.now) }
{
    match input.cur() {
        Some(c) => c.is_ident_start(),
        None => false,
    }
}
