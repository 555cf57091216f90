//! Laws of regular expressions.
ghost use Rattle.ecma_scan.specs.Expressions.{ExpressionIsRead, ExpressionIsPieces, BodyTiles, ExpressionIsFront, ExpressionIsLocal, FirstSlashIsLocal, ExpressionBeginsNoGap};
ghost use Rattle.ecma_laws.specs.FreeTexts.{ExpressionIsFree};

/// A slash, pieces of a regular expression and a slash are read as these pieces, with the flags behind them.
pub fn expression_is_read()
    ensures { ExpressionIsRead }
{}

/// What is read of the body of a regular expression is its pieces, without line terminators.
pub fn expression_is_pieces()
    ensures { ExpressionIsPieces }
{}

/// The pieces of the body of a regular expression and what follows them are the text, and no piece begins what
/// follows.
pub fn body_tiles()
    ensures { BodyTiles }
{}

/// What is read as a regular expression is a front of the text.
pub fn expression_is_front()
    ensures { ExpressionIsFront }
{}

/// A regular expression that is read cleanly is read the same at the end of the text and in front of a space or a
/// line feed.
pub fn expression_is_local()
    ensures { ExpressionIsLocal }
{}

/// The slash of a regular expression that is read cleanly is read the same by itself, as `/` or `/=`.
pub fn first_slash_is_local()
    ensures { FirstSlashIsLocal }
{}

/// What begins no element of a gap, and is read cleanly as a regular expression, begins none in front of any text.
pub fn expression_begins_no_gap()
    ensures { ExpressionBeginsNoGap }
{}

/// A regular expression that is not refused and has no backslash borrows its body and flags: nothing is allocated for it.
pub fn expression_is_free()
    ensures { ExpressionIsFree }
{}
