//! Pieces that cover a text.
use crate::again;
use crate::reads::rows::{START, settings};
use ecma_classes::{Piece, classes};
use ecma_pieces::classes_of_steps;
use ecma_place::StringInput;
use ecma_state::Step;
use std::alloc::Global;
use std::io;

/// Texts with tokens and comments, also comments that a token holds or that hold no byte, and with neither.
const COVERED: &[&str] = &[
    "f() /*a*/ //b",
    "x<!--y\nz",
    "``",
    "\n||||||| base\ny",
    "a\n-->\nb",
    "/*a",
    "",
];

fn tell_pieces(rt: &impl Print, pieces: &[Piece]) -> io::Result<()> {
    for piece in pieces {
        let span = piece.span;
        println!(rt; "{}..{} {:?}", span.lo.0, span.hi.0, piece.class)?;
    }
    Ok(())
}

/// Covers a text that is read to its end.
fn cover_text(rt: &impl Print, alloc: Global, text: &str, reads: &[Step]) -> io::Result<()> {
    if !StringInput::fits(text, START) {
        return Ok(());
    }
    println!(rt; "classes_of_steps {text:?}")?;
    let settings = settings();
    let pieces = again!(
        rt,
        "refused classes_of_steps",
        classes_of_steps(alloc, &settings, text, START, reads)
    );
    tell_pieces(rt, &pieces)
}

/// Covers a text of which nothing is kept: no tokens and no comments meet what `classes` asks of any.
fn cover_bare(rt: &impl Print, alloc: Global) -> io::Result<()> {
    println!(rt; "classes")?;
    let pieces = again!(
        rt,
        "refused classes",
        classes(alloc, " \n", START, &[], &[])
    );
    tell_pieces(rt, &pieces)
}

/// Covers texts with pieces.
pub fn play(rt: &impl Print, alloc: Global) -> io::Result<()> {
    cover_bare(rt, alloc)?;
    let reads = [Step::Read, Step::Read, Step::Read, Step::Read];
    for text in COVERED {
        cover_text(rt, alloc, text, &reads)?;
    }
    Ok(())
}
