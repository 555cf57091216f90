//! Laws of going back to a checkpoint (`Lexer::checkpoint`, `Lexer::rewind`), over the definitions alone.
ghost use Rattle.ecma_rewinding.specs.Rewinding.{RefusalIsUndone, RewindingUndoes, StepsGoOn};

/// A lexer that goes on from where it was when a checkpoint was made goes back to that, and nothing is left of what came
/// between: no token, no flag, no error, recorded or waiting, and no comment.
pub fn rewinding_undoes()
    ensures { RewindingUndoes }
{}

/// Whatever steps a lexer takes, it goes on from where it was, where none of them takes errors away: where the errors are not
/// taken, and none that waits is recorded since the code turns out to be a module.
pub fn steps_go_on()
    ensures { StepsGoOn }
{}

/// Where a read is refused memory, going back to a checkpoint of before undoes that too, so that the lexer reads on.
pub fn refusal_is_undone()
    ensures { RefusalIsUndone }
{}
