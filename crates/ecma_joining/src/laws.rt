//! Laws of tokens of code, of the text of templates, and of contexts.
ghost use Rattle.ecma_joining.specs.Code.{CodeBeginsNoGap, CodeIsLocal, CodeIsToken, CodeOpensNoShebang};
ghost use Rattle.ecma_joining.specs.Faultless.{ExpressionIsFaultless};
ghost use Rattle.ecma_joining.specs.Separators.{ClosersAreReadAgain, SeparatorIsTheGap, SlashIsReadAgain, StartIsTheGap};
ghost use Rattle.ecma_joining.specs.CodeKinds.{CloserIsWritten, CodeHoldsNoBreak, CodeIsNeither};
ghost use Rattle.ecma_joining.specs.Boundaries.{NothingBehindTheGap, ShebangStandsAlone};
ghost use Rattle.ecma_joining.specs.Texts.{TextsStandAlone};
ghost use Rattle.ecma_joining.specs.OwnContexts.{ContextsStayOwn, TemplatesAreOpened};

/// What is read of code is the token at a place outside of templates.
pub fn code_is_token()
    ensures { CodeIsToken }
{}

/// A token of code that is read cleanly is read the same at the end of the text and in front of a space or a line feed.
pub fn code_is_local()
    ensures { CodeIsLocal }
{}

/// It begins no element of a gap there.
pub fn code_begins_no_gap()
    ensures { CodeBeginsNoGap }
{}

/// It begins no shebang there.
pub fn code_opens_no_shebang()
    ensures { CodeOpensNoShebang }
{}

/// One character is the whole gap before a text that begins no element of one.
pub fn separator_is_the_gap()
    ensures { SeparatorIsTheGap }
{}

/// At the start no character is needed.
pub fn start_is_the_gap()
    ensures { StartIsTheGap }
{}

/// The slash of a regular expression that is read cleanly is read again.
pub fn slash_is_read_again()
    ensures { SlashIsReadAgain }
{}

/// A back quote, `}` and `)` are read again in front of every text.
pub fn closers_are_read_again()
    ensures { ClosersAreReadAgain }
{}

/// Template text is read again in front of a back quote and `${`.
pub fn texts_stand_alone()
    ensures { TextsStandAlone }
{}

/// No token of code is template text or a shebang.
pub fn code_is_neither()
    ensures { CodeIsNeither }
{}

/// No token of code holds a line terminator that counts.
pub fn code_holds_no_break()
    ensures { CodeHoldsNoBreak }
{}

/// A token of code that is a back quote, `}` or `)` is written so.
pub fn closer_is_written()
    ensures { CloserIsWritten }
{}

/// Behind a gap no element begins.
pub fn nothing_behind_the_gap()
    ensures { NothingBehindTheGap }
{}

/// A shebang is one with the same line at the end of the text and in front of a line feed.
pub fn shebang_stands_alone()
    ensures { ShebangStandsAlone }
{}

/// Nothing is wrong with a regular expression that is read cleanly.
pub fn expression_is_faultless()
    ensures { ExpressionIsFaultless }
{}

/// In own contexts, without template text on top, every token leaves own contexts.
pub fn contexts_stay_own()
    ensures { ContextsStayOwn }
{}

/// Template text comes on top behind a back quote, `}` and `)` alone.
pub fn templates_are_opened()
    ensures { TemplatesAreOpened }
{}
