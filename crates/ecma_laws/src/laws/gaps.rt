//! Laws of gaps, their comments, markers of bars, and shebangs.
ghost use Rattle.ecma_scan.specs.Bars.{BarsTile};
ghost use Rattle.ecma_scan.specs.Comments.{SemicolonFollows, CommentsLieInOrder};
ghost use Rattle.ecma_scan.specs.Gaps.{ElementsAreRuled, GapTiles, GapIsFront, FlagIsBehind, CommentBodyIsFirst, NoElement, NothingIsTheGap, SpaceIsTheGap, LineFeedIsTheGap, GapFaultsMove};
ghost use Rattle.ecma_scan.specs.Shebangs.{ShebangIsLocal, ShebangBeginsNoGap};
ghost use Rattle.ecma_scan.specs.Telling.{ElementsTell, OpeningFaultIsNext};
ghost use Rattle.ecma_laws.specs.FreeTexts.{GapIsFree};

/// The elements of a text are as the rules of gaps say, and are the only ones that are so.
pub fn elements_are_ruled()
    ensures { ElementsAreRuled }
{}

/// The elements of a gap and what follows them are the text, and no element begins what follows.
pub fn gap_tiles()
    ensures { GapTiles }
{}

/// In every mode the gap and what follows it are the text.
pub fn gap_is_front()
    ensures { GapIsFront }
{}

/// The gap's flag is the one behind its last element.
pub fn flag_is_behind()
    ensures { FlagIsBehind }
{}

/// A block comment ends at the first `*/`: where there is one in the text the body ends no later.
pub fn comment_body_is_first()
    ensures { CommentBodyIsFirst }
{}

/// No element of a gap begins a text whose first character is inert.
pub fn no_element()
    ensures { NoElement }
{}

/// Before a text that begins no element of a gap the gap is empty.
pub fn nothing_is_the_gap()
    ensures { NothingIsTheGap }
{}

/// A space before a text that begins no element of a gap is the whole gap, and the flag is as before.
pub fn space_is_the_gap()
    ensures { SpaceIsTheGap }
{}

/// A line feed before a text that begins no element of a gap where the flag is set is the whole gap, and the flag
/// stays set.
pub fn line_feed_is_the_gap()
    ensures { LineFeedIsTheGap }
{}

/// The faults of a gap are the same wherever it is.
pub fn gap_faults_move()
    ensures { GapFaultsMove }
{}

/// The fault of a `<!--` comes right behind the faults of the white space, line and block comments that are directly
/// behind it, and before those of all that follows.
pub fn opening_fault_is_next()
    ensures { OpeningFaultIsNext }
{}

/// The comments of elements in a row depend on the elements alone: one of each that has one, in order, with its kind,
/// span and text.
pub fn elements_tell()
    ensures { ElementsTell }
{}

/// A semicolon follows a comment where the elements behind it are white space alone and the semicolon comes behind
/// the gap.
pub fn semicolon_follows()
    ensures { SemicolonFollows }
{}

/// The comments of a gap lie in it, in order.
pub fn comments_lie_in_order()
    ensures { CommentsLieInOrder }
{}

/// A marker of bars, the elements behind it and what follows them are the text, and no such element begins what
/// follows.
pub fn bars_tile()
    ensures { BarsTile }
{}

/// A shebang is read the same in front of a line feed and at the end.
pub fn shebang_is_local()
    ensures { ShebangIsLocal }
{}

/// No shebang begins an element of a gap.
pub fn shebang_begins_no_gap()
    ensures { ShebangBeginsNoGap }
{}

/// A gap of white space, and of closed comments where none is collected, has no fault and tells of no comment: nothing is
/// allocated for it.
pub fn gap_is_free()
    ensures { GapIsFree }
{}
