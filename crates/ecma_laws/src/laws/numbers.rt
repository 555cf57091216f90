//! Laws of numbers.
ghost use Rattle.ecma_scan.specs.Numbers.{NumberTiles, NumberIsSome, NumberHasItsForm, NumberIsRead, SeparatorIsFaulty, NumberIsLocal, CleanByBothRules, WholeFits, NumberBeginsNoGap};
ghost use Rattle.ecma_laws.specs.FreeTexts.{NumberIsFree};

/// The parts of a number in a row are a front of the text.
pub fn number_tiles()
    ensures { NumberTiles }
{}

/// Where a number begins the text, it is not empty.
pub fn number_is_some()
    ensures { NumberIsSome }
{}

/// What is read of a number has the forms of its parts.
pub fn number_has_its_form()
    ensures { NumberHasItsForm }
{}

/// Parts of a number in these forms are read as they are, at the end of the text and in front of a space or a line
/// feed.
pub fn number_is_read()
    ensures { NumberIsRead }
{}

/// A separator in a run is faulty unless the run may hold some, a digit of it comes before, and one comes next.
pub fn separator_is_faulty()
    ensures { SeparatorIsFaulty }
{}

/// A number that is read cleanly is read the same at the end of the text and in front of a space or a line feed.
pub fn number_is_local()
    ensures { NumberIsLocal }
{}

/// A number that is read cleanly by the standard's rule is read the same by the crate's.
pub fn clean_by_both_rules()
    ensures { CleanByBothRules }
{}

/// The whole value of a number fits 128 bits.
pub fn whole_fits()
    ensures { WholeFits }
{}

/// No number begins an element of a gap.
pub fn number_begins_no_gap()
    ensures { NumberBeginsNoGap }
{}

/// A number that is not refused and means what is written has no separator: without a fault nothing is allocated for it.
pub fn number_is_free()
    ensures { NumberIsFree }
{}
