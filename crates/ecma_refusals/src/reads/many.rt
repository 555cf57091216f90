//! Texts of so many comments that a lexer and its copies share some of them.
use crate::again;
use crate::reads::asked::Way;
use crate::reads::reading::read_out;
use crate::reads::rows::opened;
use std::alloc::{AllocError, Global};
use std::io;

/// Stands before and behind what adds comments to lists that hold as many as make a block: the request for a block is
/// told of in no line.
pub const SHARED: &str = "comments shared";

/// So many comments make a block.
const BLOCK: usize = 64;

/// A text of two tokens with so many comments, of which as many as make a block stand before the first, which has a fault, and
/// the others before the second.
fn commented(alloc: Global, count: usize) -> Result<String, AllocError> {
    let mut text = String::new(alloc);
    for number in 0..count {
        if number == BLOCK {
            text.push_str("1__2\n")?;
        }
        text.push_str("/**/")?;
    }
    text.push_str("b")?;
    Ok(text)
}

/// Reads a text by copies and by checkpoints.
fn play_text(rt: &impl Print, alloc: Global, text: &str) -> io::Result<()> {
    println!(rt; "{SHARED}")?;
    for way in [Way::Read, Way::GoingBack] {
        read_out(rt, alloc, way, &mut opened(alloc, text)?)?;
    }
    println!(rt; "{SHARED}")
}

/// Reads texts with so many comments.
pub fn play(rt: &impl Print, alloc: Global) -> io::Result<()> {
    for count in [65, 200] {
        let text = again!(rt, "refused text", commented(alloc, count));
        play_text(rt, alloc, text.as_str())?;
    }
    Ok(())
}
