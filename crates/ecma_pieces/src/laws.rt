//! Laws of the tokens and comments of a run.
ghost use Rattle.ecma_pieces.specs.Covered.{ReplaysMayBeCovered, RunsMayBeCovered};

/// The tokens that a run keeps lie in its text in order, its comments lie in it, no byte in two of them, and each in one kept
/// token or outside all, whatever the steps of the run were.
pub fn runs_may_be_covered()
    ensures { RunsMayBeCovered }
{}

/// So do the tokens and comments that a replay returns.
pub fn replays_may_be_covered()
    ensures { ReplaysMayBeCovered }
{}
