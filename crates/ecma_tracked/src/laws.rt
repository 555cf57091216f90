//! Laws of tracked lexers, over the definitions alone.
ghost use Rattle.ecma_tracked.specs.Marks.{RewindingUndoes};
ghost use Rattle.ecma_tracked.specs.Runs.{ExcursionsAreUndone, ReadingBegins, ReadingEnds, ReadingGoesOn, TextsAreRead};

/// Reading token by token begins at any session in which no slash is read again.
pub fn reading_begins()
    ensures { ReadingBegins }
{}

/// It goes on with each token that is found.
pub fn reading_goes_on()
    ensures { ReadingGoesOn }
{}

/// Where none is found it has come to the end of the run, whose tokens are those that were read.
pub fn reading_ends()
    ensures { ReadingEnds }
{}

/// So the tokens of a text are those of the run by which it is read by roles: what holds of such runs holds of them.
pub fn texts_are_read()
    ensures { TextsAreRead }
{}

/// Where a tracked lexer goes on from where another was, it goes back there, and nothing is left of what came between.
pub fn rewinding_undoes()
    ensures { RewindingUndoes }
{}

/// So is what was read behind a checkpoint, however many tokens.
pub fn excursions_are_undone()
    ensures { ExcursionsAreUndone }
{}
