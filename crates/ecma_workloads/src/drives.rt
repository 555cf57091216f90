//! Random lists of steps, by copies and by checkpoints.
//!
//! `drive` and `act` play random lists of steps over texts that are hard to read (`text`), with a lexer that goes back
//! to copies and one that goes back to checkpoints (`sides`), and compare all that the two return, show and have.
mod act;
mod drive;
mod sides;
mod text;

use crate::drives::drive::{Tally, drive};
use std::io;

/// Plays so many drives from this seed on, and writes which differ. Whether none does.
pub fn run(rt: &HostRuntime, count: u64, seed: u64) -> io::Result<bool> {
    let mut tally = Tally::new();
    for number in 0..count {
        let seed = seed.wrapping_add(number);
        if !drive(rt.alloc(), seed, &mut tally)? {
            println!(rt; "drive {seed} differs")?;
        }
    }
    let differ = tally.differ;
    println!(rt;
        "{count} drives: {} saves, {} ways back, {differ} differ",
        tally.saves, tally.backs
    )?;
    Ok(differ == 0)
}
