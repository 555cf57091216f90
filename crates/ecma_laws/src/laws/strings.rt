//! Laws of strings.
ghost use Rattle.ecma_scan.specs.Strings.{StringTiles, StringIsPieces, StringIsFront, StringIsLocal, StringBeginsNoGap};
ghost use Rattle.ecma_laws.specs.FreeTexts.{StringIsFree};

/// The pieces of a string and what follows them are the text behind its quote, and no piece begins what follows.
pub fn string_tiles()
    ensures { StringTiles }
{}

/// A string that is read cleanly is a quote, its pieces in a row, and the same quote.
pub fn string_is_pieces()
    ensures { StringIsPieces }
{}

/// What is read as a string is a front of the text.
pub fn string_is_front()
    ensures { StringIsFront }
{}

/// A string that is read cleanly is read the same in front of any text.
pub fn string_is_local()
    ensures { StringIsLocal }
{}

/// No string begins an element of a gap.
pub fn string_begins_no_gap()
    ensures { StringBeginsNoGap }
{}

/// A string that is not refused and has no backslash borrows its value: without a fault nothing is allocated for it.
pub fn string_is_free()
    ensures { StringIsFree }
{}
