//! A text as HTML.
ghost use Rattle.std.specs.Prelude.{◌≡◌, ◌<◌, ◌^◌, length, IfOk};
ghost use Rattle.std.specs.Str.{chars};
ghost use Rattle.ecma_classes.specs.Classes.{begin};
ghost use Rattle.ecma_pieces.specs.Covered.{MayBeCovered};
ghost use Rattle.ecma_html.specs.Marked.{AreInOrder};
ghost use Rattle.ecma_html.specs.Text.{html_kept, html_marked_kept, html_of_steps, html_text_of};
ghost use Rattle.ecma_html.specs.Unmark.{IsClosed, shown, unmark};

use crate::markup::html_marked;
use ecma_classes::classes;
use ecma_reader::{Gathered, Slashes, gather, tokenize};
use ecma_span::BytePos;
use ecma_state::{Settings, Step};
use ecma_styles::token_classes;
use ecma_syntax::Context;
use std::alloc::{AllocError, Global};

/// A text as HTML ([`html_of_gathered`]), in which each piece that one of the places lies in is shown as an error, in place
/// of its own class ([`html_marked`]). The places are those where errors of the text begin, in order. Our own.
///
/// Whatever the places are, what is left without the markup is the text, with U+FFFD for each NUL.
///
/// The caller knows that pieces can cover the text with these tokens and comments.
///
/// # Errors
///
/// `AllocError` where allocation fails.
pub fn html_with_errors(
    alloc: Global,
    source: &str,
    gathered: &Gathered,
    places: &[BytePos],
) -> Result<Vec<u8>, AllocError>
    requires fits { length source.now < 2 ^ 32 }
    requires covered { MayBeCovered (begin 0 (chars source.now)) gathered.now.kept.items gathered.now.comments.items }
    ensures same { AreInOrder places.now → IfOk result (λ v. v.items ≡ html_marked_kept source.now gathered.now.kept.items gathered.now.comments.items places.now) }
    ensures back { IfOk result (λ v. unmark v.items ≡ shown source.now) }
    ensures closed { IfOk result (λ v. IsClosed v.items) }
{
    let kept = gathered.kept.as_slice();
    let comments = gathered.comments.as_slice();
    let pieces = classes(alloc, source, BytePos(0), kept, comments)?;
    let styles = token_classes(alloc, kept)?;
    html_marked(alloc, source, &styles, &pieces, places)
}

/// A text as HTML ([`html`](crate::html)), by what was gathered of it: the tokens that were kept, and the comments that were
/// collected. The text starts at the place 0. Our own.
///
/// The caller knows that pieces can cover the text with these tokens and comments, as with what
/// [`gather`](ecma_replay::gather), or one reading, gathered of it.
///
/// # Errors
///
/// `AllocError` where allocation fails.
pub fn html_of_gathered(
    alloc: Global,
    source: &str,
    gathered: &Gathered,
) -> Result<Vec<u8>, AllocError>
    requires fits { length source.now < 2 ^ 32 }
    requires covered { MayBeCovered (begin 0 (chars source.now)) gathered.now.kept.items gathered.now.comments.items }
    ensures same { IfOk result (λ v. v.items ≡ html_kept source.now gathered.now.kept.items gathered.now.comments.items) }
    ensures back { IfOk result (λ v. unmark v.items ≡ shown source.now) }
{
    html_with_errors(alloc, source, gathered, &[])
}

/// A text as HTML ([`html`](crate::html)), by what a list of steps keeps of it and collects: tokens and comments that the
/// steps did not come to have no class, nor have comments where the settings collect none. The text starts at the place 0.
/// Our own.
///
/// # Errors
///
/// `AllocError` where allocation fails.
pub fn html_of_steps(
    alloc: Global,
    settings: &Settings,
    source: &str,
    steps: &[Step],
) -> Result<Vec<u8>, AllocError>
    requires { length source.now < 2 ^ 32 }
    ensures same { IfOk result (λ v. v.items ≡ html_of_steps settings.now source.now steps.now) }
    // Whatever the text is, it is what is left without the markup.
    ensures back { IfOk result (λ v. unmark v.items ≡ shown source.now) }
{
    let gathered = gather(alloc, settings, source, BytePos(0), steps)?;
    html_of_gathered(alloc, source, &gathered)
}

/// A text as HTML ([`html_of_steps`]), read to its end in a context, its slashes by the flag.
///
/// # Errors
///
/// `AllocError` where allocation fails.
pub fn html_text(
    alloc: Global,
    settings: &Settings,
    context: Context,
    source: &str,
) -> Result<Vec<u8>, AllocError>
    requires { length source.now < 2 ^ 32 }
    ensures same { IfOk result (λ v. v.items ≡ html_text_of settings.now context source.now) }
    ensures back { IfOk result (λ v. unmark v.items ≡ shown source.now) }
{
    let read = tokenize(
        alloc,
        settings,
        context,
        source,
        BytePos(0),
        Slashes::ByFlag,
    )?;
    html_of_gathered(alloc, source, &read.gathered)
}
