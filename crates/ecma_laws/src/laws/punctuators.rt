//! Laws of punctuators.
ghost use Rattle.ecma_scan.specs.Punctuators.{TableIsLongestFirst, PunctuatorIsLongest, PunctuatorIsMember, NoPunctuatorIsMissed, PunctuatorTiles, PunctuatorIsLocal, ClosersAreLocal, PunctuatorBeginsNoGap};

/// No spelling of the table of punctuators begins one further down.
pub fn table_is_longest_first()
    ensures { TableIsLongestFirst }
{}

/// Whichever member of the table of punctuators begins the text, what is found is no shorter.
pub fn punctuator_is_longest()
    ensures { PunctuatorIsLongest }
{}

/// What is found as a punctuator is a member of the table, and the text begins with it.
pub fn punctuator_is_member()
    ensures { PunctuatorIsMember }
{}

/// Where no punctuator is found, no member of the table begins the text.
pub fn no_punctuator_is_missed()
    ensures { NoPunctuatorIsMissed }
{}

/// What is read as a punctuator and what follows it are the text.
pub fn punctuator_tiles()
    ensures { PunctuatorTiles }
{}

/// A punctuator is read the same at the end of the text and in front of a space or a line feed; there none begins.
pub fn punctuator_is_local()
    ensures { PunctuatorIsLocal }
{}

/// A back quote, `}` and `)` are read whatever follows.
pub fn closers_are_local()
    ensures { ClosersAreLocal }
{}

/// At the end of the text and in front of a space or a line feed no punctuator begins an element of a gap.
pub fn punctuator_begins_no_gap()
    ensures { PunctuatorBeginsNoGap }
{}
