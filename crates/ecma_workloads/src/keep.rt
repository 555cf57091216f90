//! A parser or minifier keeps each token of bundles, minified files and declarations.
//!
//! `Lexer::read_into` and `read_by_flag`, with and without comments, on 120 MB of all kinds.
use crate::job::Job;
use crate::reading::{keep_text, keep_text_by_flag};
use crate::settings::{fits, options};
use ecma_samples::{Pool, Sample};
use std::alloc::AllocError;

/// How a parser reads.
#[derive(Clone, Copy)]
enum Way {
    Slot,
    ByFlag,
    ByFlagWithComments,
}

fn read_text(job: &mut Job, typescript: bool, way: Way, text: &str) -> Result<(), AllocError> {
    let options = options(typescript, false);
    if !fits(text) {
        return Ok(());
    }
    match way {
        Way::Slot => keep_text(job.alloc, false, options, text, &mut job.digest),
        Way::ByFlag => keep_text_by_flag(job.alloc, false, options, text, &mut job.digest),
        Way::ByFlagWithComments => {
            keep_text_by_flag(job.alloc, true, options, text, &mut job.digest)
        }
    }
}

/// Reads the next text of a pool.
fn read_next(job: &mut Job, pool: &mut Pool, typescript: bool, way: Way) -> Result<(), AllocError> {
    let text = pool.text(job.alloc, job.bytes(1_000_000))?;
    read_text(job, typescript, way, text.as_str())
}

fn read_texts(
    job: &mut Job,
    sample: Sample,
    typescript: bool,
    way: Way,
    count: usize,
) -> Result<(), AllocError> {
    let mut pool = job.pool(sample)?;
    for _ in 0..job.texts(count) {
        read_next(job, &mut pool, typescript, way)?;
    }
    Ok(())
}

pub fn run(job: &mut Job) -> Result<(), AllocError> {
    read_texts(job, Sample::Script, false, Way::Slot, 36)?;
    read_texts(job, Sample::Minified, false, Way::Slot, 20)?;
    read_texts(job, Sample::Declarations, true, Way::Slot, 24)?;
    read_texts(job, Sample::Script, false, Way::ByFlag, 20)?;
    read_texts(job, Sample::TypeScript, true, Way::ByFlagWithComments, 20)
}
