//! Laws of words and escapes.
ghost use Rattle.ecma_scan.specs.Escapes.{EscapeIsFront, EscapeIsSettled};
ghost use Rattle.ecma_scan.specs.Words.{WordTiles, WordIsPieces, WordIsFront, WordIsLocal, NameIsLocal, WordIsItsRow, PlainWordIsItsRow, WordBeginsNoGap};
ghost use Rattle.ecma_laws.specs.FreeTexts.{WordIsFree};

/// What is written of an escape is a front of the text at its backslash.
pub fn escape_is_front()
    ensures { EscapeIsFront }
{}

/// An escape is settled by what is written of it and one character more.
pub fn escape_is_settled()
    ensures { EscapeIsSettled }
{}

/// The pieces of a word and what follows them are the text, and no piece begins what follows.
pub fn word_tiles()
    ensures { WordTiles }
{}

/// A word that is not refused is its pieces in a row.
pub fn word_is_pieces()
    ensures { WordIsPieces }
{}

/// What is read as a word is a front of the text.
pub fn word_is_front()
    ensures { WordIsFront }
{}

/// A word that is read cleanly is read the same at the end of the text and in front of a space or a line feed.
pub fn word_is_local()
    ensures { WordIsLocal }
{}

/// The unescaped text of a word that is read cleanly is read the same in front of every separator.
pub fn name_is_local()
    ensures { NameIsLocal }
{}

/// The kind and the text of a word are those of the table row of its unescaped text, wherever its escapes are.
pub fn word_is_its_row()
    ensures { WordIsItsRow }
{}

/// A run of part characters with no backslash behind it is the table row of what is written.
pub fn plain_word_is_its_row()
    ensures { PlainWordIsItsRow }
{}

/// No word begins an element of a gap.
pub fn word_begins_no_gap()
    ensures { WordBeginsNoGap }
{}

/// A word that is not refused and has no backslash borrows its text: nothing is allocated for it.
pub fn word_is_free()
    ensures { WordIsFree }
{}
