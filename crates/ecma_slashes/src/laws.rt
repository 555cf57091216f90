//! Laws of runs in which the slashes that a rule names are read again.
ghost use Rattle.ecma_slashes.specs.Rereads.{RereadsCountMet, RunsByRuleAreRuns, RunsByRuleEnd, TextsAreReadOut, TextsAreReadPlainly};

/// Whichever slashes are read again, reading comes to the end of every text.
pub fn runs_by_rule_end()
    ensures { RunsByRuleEnd }
{}

/// Behind any steps of a run, to read up to the end is to take a list of steps like any other, in which each counts: so all
/// that holds of what lists of steps come to holds of it, whichever slashes are read again.
pub fn runs_by_rule_are_runs()
    ensures { RunsByRuleAreRuns }
{}

/// The steps by which a text is read lead to its end.
pub fn texts_are_read_out()
    ensures { TextsAreReadOut }
{}

/// The steps by which a text is read, in a context in which errors are not ignored, are plain and take no error: so the run
/// is clean exactly where it leaves nothing wrong, and `canonical` returns `NotClean` only for errors.
pub fn texts_are_read_plainly()
    ensures { TextsAreReadPlainly }
{}

/// Where the slashes at places are named, the steps by which a text is read read as many slashes again as are met, each at
/// one of the places, in their order; and where these are as many as there are places, each place was that of a slash.
pub fn rereads_count_met()
    ensures { RereadsCountMet }
{}
