//! Laws of template text.
ghost use Rattle.ecma_scan.specs.Templates.{TemplateTiles, TemplateIsPieces, TemplateIsFront, TemplateIsLocal, TemplateIsEnded, TemplateMarksAreLocal, TemplateGoesOn, CookedIsRaw};
ghost use Rattle.ecma_laws.specs.FreeTexts.{TemplateIsFree};

/// The pieces of template text and what follows them are the text, and no piece begins what follows.
pub fn template_tiles()
    ensures { TemplateTiles }
{}

/// Template text is its pieces in a row.
pub fn template_is_pieces()
    ensures { TemplateIsPieces }
{}

/// What is read in a template is a front of the text.
pub fn template_is_front()
    ensures { TemplateIsFront }
{}

/// What is read in a template without refusal is read the same in front of every back quote and `${`.
pub fn template_is_local()
    ensures { TemplateIsLocal }
{}

/// A back quote or `${` follows template text.
pub fn template_is_ended()
    ensures { TemplateIsEnded }
{}

/// Behind template text, a back quote and `${` are read whatever follows.
pub fn template_marks_are_local()
    ensures { TemplateMarksAreLocal }
{}

/// Behind template text something is read, so no two empty tokens follow one another.
pub fn template_goes_on()
    ensures { TemplateGoesOn }
{}

/// Template text without escapes and CR means what is written, and borrows it.
pub fn cooked_is_raw()
    ensures { CookedIsRaw }
{}

/// Template text that is not refused and has no backslash and no CR stands for itself: nothing is allocated for it.
pub fn template_is_free()
    ensures { TemplateIsFree }
{}
