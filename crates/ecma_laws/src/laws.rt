//! Laws over the definitions alone.
ghost use Rattle.ecma_laws.specs.Collecting.{CollectingChangesNothing, CommentsAreKept};
ghost use Rattle.ecma_laws.specs.EmptyTokens.{EmptyTokensStandAlone};
ghost use Rattle.ecma_laws.specs.Excursion.{GoingBackUndoes, NestedExcursionsAreUndone};
ghost use Rattle.ecma_state.specs.Ending.{ReadsOut, TokensRunOut};
ghost use Rattle.ecma_laws.specs.FewTokens.{TokensAreFew};
ghost use Rattle.ecma_laws.specs.FreeReads.{ReadsAreFree};
ghost use Rattle.ecma_laws.specs.NothingBehind.{NothingBehindTheEnd};
ghost use Rattle.ecma_laws.specs.Order.{AnswersAreInOrder, TokensAreInOrder};
ghost use Rattle.ecma_state.specs.Reading.{ReadingIsDetermined};
ghost use Rattle.ecma_laws.specs.Tiling.{NoGapInTemplates, Tiles};
ghost use Rattle.ecma_laws.specs.ToldComments.{CommentsAreTold};

pub mod expressions;
pub mod gaps;
pub mod numbers;
pub mod punctuators;
pub mod strings;
pub mod templates;
pub mod words;

/// From where a run began each piece begins where the one before it ends: the gap that a read reads in its mode, own
/// bytes, the next read's gap, own bytes and so on, the last a gap once the end was answered. Joined they are the text up
/// to where the run is; once the end was answered, all of the text.
pub fn kept_and_gaps_tile()
    ensures { Tiles }
{}

/// No gap is read inside a template.
pub fn no_gap_in_templates()
    ensures { NoGapInTemplates }
{}

/// Enough reads answer the end, from any session, and more of them keep the same tokens and errors.
pub fn reads_end()
    ensures { ReadsOut }
{}

/// What a read finds depends on the mode, on what is left, and on the place of that alone.
pub fn reading_is_determined()
    ensures { ReadingIsDetermined }
{}

/// The iterator gives nothing behind its end, where no slash is read again: no token, and no refusal of memory.
pub fn nothing_behind_the_end()
    ensures { NothingBehindTheEnd }
{}

/// Each token that is read leaves fewer that may come: at most two for a character, and one.
pub fn tokens_run_out()
    ensures { TokensRunOut }
{}

/// No two tokens without characters come one after the other.
pub fn empty_tokens_stand_alone()
    ensures { EmptyTokensStandAlone }
{}

/// Every run keeps at most two tokens for each byte of its text.
pub fn tokens_are_few()
    ensures { TokensAreFew }
{}

/// The tokens that a run keeps lie in order, and none over another, whatever its steps were.
pub fn tokens_are_in_order()
    ensures { TokensAreInOrder }
{}

/// So do the tokens that are answered where no step goes back or has a slash read again: they are those that are kept.
pub fn answers_are_in_order()
    ensures { AnswersAreInOrder }
{}

/// Going back undoes all that came since the save, whatever that was: what follows answers as if it had never been.
pub fn going_back_undoes()
    ensures { GoingBackUndoes }
{}

/// It undoes also what an excursion saved and went back on inside itself.
pub fn nested_excursions_are_undone()
    ensures { NestedExcursionsAreUndone }
{}

/// Collecting comments changes no answer, token, flag or error, nor anything else but the comments.
pub fn collecting_changes_nothing()
    ensures { CollectingChangesNothing }
{}

/// Each comment that the reads of a run find is kept once, with its kind, span and text.
pub fn comments_are_kept()
    ensures { CommentsAreKept }
{}

/// A read does not allocate, where fewer than 128 contexts are on the stack, that finds no fault and no comment that is collected, and a
/// token that means what is written of it: no error, with no backslash in its spelling, a number with no `_`, a template's
/// text with no CR.
pub fn reads_are_free()
    ensures { ReadsAreFree }
{}

/// The elements of the gaps that a run reads, and of its markers of bars, decide which comments it keeps: the line comments,
/// closed block comments, `<!--`, `-->` and markers, each once, with its kind, span and text.
pub fn comments_are_told()
    ensures { CommentsAreTold }
{}
