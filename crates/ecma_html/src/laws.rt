//! Laws of HTML: what a reader makes of it.
ghost use Rattle.ecma_html.specs.Laws.{HtmlIsTheText, PagesAreTheText};

/// The HTML of a text is the text once its markup is taken away, with U+FFFD for each NUL: for all pieces that are the text
/// when they are joined, all classes of its tokens, and all places of errors.
pub fn html_is_the_text()
    ensures { HtmlIsTheText }
{}

/// So is a page of the text, whatever its title is.
pub fn pages_are_the_text()
    ensures { PagesAreTheText }
{}
