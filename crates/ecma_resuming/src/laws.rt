//! Laws of going on from a checkpoint over the rest of a text, over the definitions alone.
ghost use Rattle.ecma_resuming.specs.Resuming.{RestsAreThere, ResumingBegins, StepsAnswerOverTheRest, StepsGoOnOverTheRest};

/// A checkpoint that fits a text fits the rest of it from where it wants that: a lexer's own is never refused.
pub fn rests_are_there()
    ensures { RestsAreThere }
{}

/// A lexer that is resumed goes on from a session, so that the laws on sessions are laws on it.
pub fn resuming_begins()
    ensures { ResumingBegins }
{}

/// Whatever steps follow a checkpoint, over the rest of the text they answer what they answer over the whole text.
pub fn steps_answer_over_the_rest()
    ensures { StepsAnswerOverTheRest }
{}

/// And they come to the same: the same is left at the same place, with the same contexts, tokens and flags, and the errors,
/// those that wait and the comments are those of before and behind them those that came since, where no step takes errors away.
pub fn steps_go_on_over_the_rest()
    ensures { StepsGoOnOverTheRest }
{}
