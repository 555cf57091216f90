//! Laws of clean runs and of canonical texts.
ghost use Rattle.ecma_clean.specs.Rules.{CleanRunsByBothRules};
ghost use Rattle.ecma_clean.specs.Sharing.{CanonicalIsRead, CanonicalIsShared, CanonicalRunsAlike};

/// The canonical text of a text that is read cleanly by plain steps is read cleanly by the same steps, under the same
/// settings and from the same start place; its tokens agree in kind, characters and flag; and it is its own canonical text.
pub fn canonical_is_read()
    ensures { CanonicalIsRead }
{}

/// Two texts that are read cleanly by the same steps have one canonical text exactly where their tokens agree.
pub fn canonical_is_shared()
    ensures { CanonicalIsShared }
{}

/// The runs over a text and over its canonical text go step by step through the same, apart from places: settings, context,
/// contexts, expression flag, the token before and its flag, whether a slash is read again, the tokens that are read; and
/// neither records an error on the way.
pub fn canonical_runs_alike()
    ensures { CanonicalRunsAlike }
{}

/// A text that is read cleanly by plain steps and by the standard's rule for numbers is read by the crate's to the same kept
/// tokens, recorded and waiting errors, and comments, and differs in nothing else.
pub fn clean_runs_by_both_rules()
    ensures { CleanRunsByBothRules }
{}
