//! A parser keeps each token of texts in which much is rare elsewhere.
//!
//! `Lexer::read_into` on templates, operators, numbers, escapes, names beyond ASCII.
use crate::job::Job;
use crate::reading::keep_text;
use crate::settings::{fits, options};
use ecma_samples::{Pool, Sample};
use std::alloc::AllocError;

fn read_text(job: &mut Job, text: &str) -> Result<(), AllocError> {
    if !fits(text) {
        return Ok(());
    }
    keep_text(
        job.alloc,
        false,
        options(false, false),
        text,
        &mut job.digest,
    )
}

/// Reads the next text of a pool.
fn read_next(job: &mut Job, pool: &mut Pool) -> Result<(), AllocError> {
    let text = pool.text(job.alloc, job.bytes(1_000_000))?;
    read_text(job, text.as_str())
}

fn read_texts(job: &mut Job, sample: Sample, count: usize) -> Result<(), AllocError> {
    let mut pool = job.pool(sample)?;
    for _ in 0..job.texts(count) {
        read_next(job, &mut pool)?;
    }
    Ok(())
}

pub fn run(job: &mut Job) -> Result<(), AllocError> {
    read_texts(job, Sample::Templates, 4)?;
    read_texts(job, Sample::ForeignNames, 9)?;
    read_texts(job, Sample::Operators, 5)?;
    read_texts(job, Sample::Numbers, 6)?;
    read_texts(job, Sample::Escapes, 8)?;
    read_texts(job, Sample::Data, 8)?;
    read_texts(job, Sample::Chinese, 20)
}
