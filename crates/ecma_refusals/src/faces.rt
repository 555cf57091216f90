//! Texts read with their slashes named, as HTML, what they import, and where their lines begin.

use crate::again;
use crate::reads::rows::{START, settings};
use ecma_html::html_text;
use ecma_imports::imports_text;
use ecma_place::BytePos;
use ecma_positions::LineStarts;
use ecma_slashes::{Slashes, count_rereads, steps_by, steps_by_flag};
use ecma_state::Step;
use ecma_syntax::Context;
use std::alloc::Global;
use std::{io, str};

/// A text with slashes of either kind, comments, characters that HTML escapes, and imports.
const SHOWN: &str = "import 'a\\nb'; x = /<b>/g; c / d /*&*/; import('e')";

/// The place of its regular expression.
const PLACES: [BytePos; 1] = [BytePos(19)];

fn tell_steps(rt: &impl Print, by: &str, steps: &[Step]) -> io::Result<()> {
    println!(rt;
        "steps by {by} {}, rereads {}",
        steps.len(),
        count_rereads(steps)
    )
}

fn play_steps(rt: &impl Print, alloc: Global) -> io::Result<()> {
    let (settings, context) = (settings(), Context::default());
    let steps = again!(
        rt,
        "refused steps_by_flag",
        steps_by_flag(alloc, &settings, context, SHOWN, START)
    );
    tell_steps(rt, "the flag", &steps)?;
    let steps = again!(
        rt,
        "refused steps_by",
        steps_by(
            alloc,
            &settings,
            context,
            SHOWN,
            START,
            Slashes::At(&PLACES)
        )
    );
    tell_steps(rt, "places", &steps)
}

fn tell_shown(rt: &impl Print, call: &str, bytes: &[u8]) -> io::Result<()> {
    match str::from_utf8(bytes) {
        Ok(text) => println!(rt; "{call} {text:?}"),
        Err(_) => Ok(()),
    }
}

fn play_shown(rt: &impl Print, alloc: Global) -> io::Result<()> {
    let (settings, context) = (settings(), Context::default());
    let html = again!(
        rt,
        "refused html_text",
        html_text(alloc, &settings, context, SHOWN)
    );
    tell_shown(rt, "html_text", &html)?;
    let imports = again!(
        rt,
        "refused imports_text",
        imports_text(alloc, &settings, context, SHOWN)
    );
    tell_shown(rt, "imports_text", &imports)
}

/// Plays each call over the text.
pub fn play(rt: &impl Print, alloc: Global) -> io::Result<()> {
    play_steps(rt, alloc)?;
    play_shown(rt, alloc)?;
    let lines = again!(rt, "refused LineStarts::of", LineStarts::of(alloc, b"a\nb"));
    println!(rt; "LineStarts::of {:?}", lines.position(BytePos(2)))
}
