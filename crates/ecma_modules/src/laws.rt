//! Laws of rows.
ghost use Rattle.ecma_modules.specs.Places.{ExportsGoOn, GatheredGoesOn, ImportsGoOn, RowsLieInTokens};

/// The rows of tokens, one after the other, are those of the first of them, gone on with the others.
pub fn rows_go_on()
    ensures imports { ImportsGoOn }
    ensures exports { ExportsGoOn }
    ensures gathered { GatheredGoesOn }
{}

/// What a token tells lies within the tokens up to it, and the specifier, the argument and the attributes of an import lie within
/// its statement.
pub fn rows_lie_in_tokens()
    ensures { RowsLieInTokens }
{}
