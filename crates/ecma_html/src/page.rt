//! A page of a text.
ghost use Rattle.std.specs.Prelude.{◌≡◌, ◌++◌, ◌<◌, ◌^◌, length, IfOk, OnOk};
ghost use Rattle.std.specs.Str.{chars};
ghost use Rattle.ecma_classes.specs.Classes.{begin};
ghost use Rattle.ecma_pieces.specs.Covered.{MayBeCovered};
ghost use Rattle.ecma_html.specs.Marked.{AreInOrder};
ghost use Rattle.ecma_html.specs.Page as page;
ghost use Rattle.ecma_html.specs.Text.{html_marked_kept};
ghost use Rattle.ecma_html.specs.Unmark.{shown, unmark};

use crate::markup::push_escaped;
use crate::text::html_with_errors;
use ecma_reader::Gathered;
use ecma_span::BytePos;
use std::alloc::{AllocError, Global};

/// What is before the title.
pub const HEAD: &str = "\
<!doctype html>
<html lang=\"en\">
<head>
<meta charset=\"utf-8\">
<meta name=\"viewport\" content=\"width=device-width, initial-scale=1\">
<meta name=\"color-scheme\" content=\"light dark\">
<title>";

/// What is between the title and the marks of lines. Each colour has a contrast of at least 4.5 to its ground (WCAG 2.2, 1.4.3).
pub const STYLE: &str = "\
</title>
<style>
:root {
  color-scheme: light dark;
  --paper: #ffffff; --ink: #24292f; --line: #6a737d; --keyword: #a626a4; --literal: #8a5a00; --property: #005cc5;
  --string: #2a7030; --regexp: #b93c0b; --comment: #5f6871; --error: #b31d28; --function: #6f42c1; --type: #1b6f80;
  --decorator: #9a4a00;
}
@media (prefers-color-scheme: dark) {
  :root {
    --paper: #1e2127; --ink: #d4d7dd; --line: #8b929e; --keyword: #cf8ae2; --literal: #d19a66; --property: #61afef;
    --string: #98c379; --regexp: #e5936c; --comment: #949ca8; --error: #ff7b83; --function: #dcbdfb; --type: #4ec9b0;
    --decorator: #e5c07b;
  }
}
body { margin: 0; background: var(--paper); color: var(--ink); }
.page { display: flex; font: 14px/1.5 ui-monospace, Menlo, Consolas, \"DejaVu Sans Mono\", monospace; tab-size: 4; }
pre { margin: 0; padding: 1em; font: inherit; }
.lines { flex: none; text-align: right; color: var(--line); -webkit-user-select: none; user-select: none; counter-reset: line; }
.lines i { font-style: normal; counter-increment: line; }
.lines i::before { content: counter(line); }
.ecma { flex: 1 1 0; min-width: 0; overflow-x: auto; }
.keyword, .builtin, .meta { color: var(--keyword); }
.literal, .number { color: var(--literal); }
.property { color: var(--property); }
.function { color: var(--function); }
.class, .type { color: var(--type); }
.decorator { color: var(--decorator); }
.string, .template { color: var(--string); }
.regexp { color: var(--regexp); }
.comment { color: var(--comment); font-style: italic; }
.error { color: var(--error); text-decoration: underline wavy; }
</style>
</head>
<body>
<div class=\"page\" translate=\"no\">
<pre class=\"lines\" aria-hidden=\"true\">
";

/// What is between the marks of lines and the text.
pub const MIDDLE: &str = "</pre>\n";

/// What is behind the text.
pub const TAIL: &str = "</div>\n</body>\n</html>\n";

/// Adds the mark of a line, whose number the stylesheet counts.
fn push_mark(out: &mut Vec<u8>) -> Result<(), AllocError>
    ensures { OnOk result (out.new.items ≡ out.old.items ++ page.line_mark) }
{
    out.extend_from_slice(b"<i></i>\n")
}

/// Adds the mark of a line behind a byte that ends one.
fn push_mark_behind(out: &mut Vec<u8>, byte: u8) -> Result<(), AllocError>
    ensures { OnOk result (out.new.items ≡ out.old.items ++ page.mark_behind byte) }
{
    if byte == b'\n' {
        return push_mark(out);
    }
    Ok(())
}

/// Adds the marks of the lines of a text.
fn push_marks(out: &mut Vec<u8>, bytes: &[u8]) -> Result<(), AllocError>
    ensures { OnOk result (out.new.items ≡ out.old.items ++ page.line_marks bytes.now) }
{
    push_mark(out)?;
    for byte in bytes {
        push_mark_behind(out, *byte)?;
    }
    Ok(())
}

/// Adds all that is before the text.
pub(crate) fn push_front(out: &mut Vec<u8>, title: &str, bytes: &[u8]) -> Result<(), AllocError>
    ensures { OnOk result (out.new.items ≡ out.old.items ++ page.front_of title.now bytes.now) }
{
    out.extend_from_slice(HEAD.as_bytes())?;
    push_escaped(out, title.as_bytes())?;
    out.extend_from_slice(STYLE.as_bytes())?;
    push_marks(out, bytes)?;
    out.extend_from_slice(MIDDLE.as_bytes())?;
    Ok(())
}

/// A whole page of a text (HTML of today), with this title: the text as [`html_with_errors`] has it, beside it a number for each
/// line, which is not copied with the text, and a stylesheet for light and dark. It names no other file. Line feeds alone end
/// lines, and a line is also behind the last one. The places are those where errors of the text begin, in order. Our own.
///
/// Whatever the places are, what is left of it without its markup is the text, with U+FFFD for each NUL, as of
/// [`html_with_errors`].
///
/// The caller knows that pieces can cover the text with these tokens and comments.
///
/// # Errors
///
/// `AllocError` where allocation fails.
pub fn page_of_gathered(
    alloc: Global,
    title: &str,
    source: &str,
    gathered: &Gathered,
    places: &[BytePos],
) -> Result<Vec<u8>, AllocError>
    requires fits { length source.now < 2 ^ 32 }
    requires covered { MayBeCovered (begin 0 (chars source.now)) gathered.now.kept.items gathered.now.comments.items }
    ensures same { AreInOrder places.now → IfOk result (λ v. v.items ≡ page.page_of title.now source.now (html_marked_kept source.now gathered.now.kept.items gathered.now.comments.items places.now)) }
    ensures back { IfOk result (λ v. unmark v.items ≡ shown source.now) }
{
    let html = html_with_errors(alloc, source, gathered, places)?;
    let mut out = Vec::new(alloc);
    push_front(&mut out, title, source.as_bytes())?;
    out.extend_from_slice(&html)?;
    out.extend_from_slice(TAIL.as_bytes())?;
    Ok(out)
}
