//! A TypeScript parser looks ahead again and again, and goes back: by checkpoints, and by lists of steps.
//!
//! `Lexer::checkpoint` and `rewind` every 20 tokens (at the start of the work `copy` and `go_back`); `Save` and `Back`
//! every 40. On TypeScript with comments and errors.
ghost use Rattle.std.specs.Prelude.{◌<◌, ◌^◌, length};

use crate::job::Job;
use crate::reading::{finish, keep_by_flag};
use crate::settings::{fits, options};
use ecma_place::BytePos;
use ecma_replay::{Replay, replay};
use ecma_samples::{Pool, Random, Sample};
use ecma_start::begin;
use ecma_state::Step;
use ecma_stream::Lexer;
use std::alloc::{AllocError, Global};

/// How many tokens lie between two places where a parser looks ahead.
const BETWEEN: u64 = 20;

/// How many tokens it looks ahead at most.
const AHEAD: usize = 12;

/// Reads so many tokens.
fn keep_ahead(job: &mut Job, lexer: &mut Lexer, tokens: usize) -> Result<(), AllocError> {
    for _ in 0..tokens {
        if !keep_by_flag(lexer, &mut job.digest)? {
            break;
        }
    }
    Ok(())
}

/// Reads so many tokens ahead, and goes back.
fn look_ahead(job: &mut Job, lexer: &mut Lexer, tokens: usize) -> Result<(), AllocError> {
    let here = lexer.checkpoint()?;
    keep_ahead(job, lexer, tokens)?;
    lexer.rewind(&here)?;
    Ok(())
}

/// Reads to the end, and looks ahead every so many tokens.
fn parse_rest(job: &mut Job, random: &mut Random, lexer: &mut Lexer) -> Result<(), AllocError> {
    for number in 0..u64::MAX {
        if number % BETWEEN == 0 {
            look_ahead(job, lexer, random.below(AHEAD))?;
        }
        if !keep_by_flag(lexer, &mut job.digest)? {
            break;
        }
    }
    Ok(())
}

/// Reads a text, and looks ahead.
fn parse(job: &mut Job, random: &mut Random, comments: bool, text: &str) -> Result<(), AllocError>
    requires { length text.now < 2 ^ 32 }
{
    let mut lexer = begin(job.alloc, comments, options(true, true), text)?;
    parse_rest(job, random, &mut lexer)?;
    finish(lexer, &mut job.digest);
    Ok(())
}

/// Steps that read a text of so many bytes, with a save every so many tokens that is gone back to.
fn steps_for(alloc: Global, random: &mut Random, bytes: usize) -> Result<Vec<Step>, AllocError> {
    let mut steps = Vec::new(alloc);
    for save in 0..bytes / 200 {
        steps.push(Step::Save)?;
        for _ in 0..random.below(AHEAD) {
            steps.push(Step::Read)?;
        }
        steps.push(Step::Back(save))?;
        for _ in 0..2 * BETWEEN {
            steps.push(Step::Read)?;
        }
    }
    Ok(steps)
}

fn add_replay(job: &mut Job, played: &Replay) {
    job.digest.add(played.answers.len() as u64);
    job.digest.add_kept(&played.kept);
    job.digest.add_errors(played.errors.as_slice());
    job.digest.add_errors(played.waiting.as_slice());
    job.digest.add(u64::from(played.ended));
    job.digest.add_comments(&played.comments);
}

/// Plays such steps over a text.
fn play(job: &mut Job, random: &mut Random, comments: bool, text: &str) -> Result<(), AllocError>
    requires { length text.now < 2 ^ 32 }
{
    let steps = steps_for(job.alloc, random, text.len())?;
    let settings = options(true, true).settings(comments);
    let played = replay(job.alloc, &settings, text, BytePos(0), &steps)?;
    add_replay(job, &played);
    Ok(())
}

/// What the texts of a part of the job are made from.
#[derive(Drop)]
struct Source {
    pool: Pool,
    random: Random,
    comments: bool,
}

/// The next text by checkpoints.
fn parse_next(job: &mut Job, source: &mut Source, bytes: usize) -> Result<(), AllocError> {
    let text = source.pool.text(job.alloc, job.bytes(bytes))?;
    if !fits(text.as_str()) {
        return Ok(());
    }
    parse(job, &mut source.random, source.comments, text.as_str())
}

/// The next text by steps.
fn play_next(job: &mut Job, source: &mut Source, bytes: usize) -> Result<(), AllocError> {
    let text = source.pool.text(job.alloc, job.bytes(bytes))?;
    if !fits(text.as_str()) {
        return Ok(());
    }
    play(job, &mut source.random, source.comments, text.as_str())
}

/// One text by checkpoints, and another by steps, so many times.
fn look_twice(job: &mut Job, comments: bool, count: usize, bytes: usize) -> Result<(), AllocError> {
    let mut source = Source {
        pool: job.pool(Sample::TypeScript)?,
        random: Random::new(job.seed),
        comments,
    };
    for _ in 0..job.texts(count) {
        parse_next(job, &mut source, bytes)?;
        play_next(job, &mut source, bytes / 2)?;
    }
    Ok(())
}

pub fn run(job: &mut Job) -> Result<(), AllocError> {
    look_twice(job, true, 100, 20_000)?;
    look_twice(job, true, 4, 200_000)?;
    look_twice(job, false, 1, 600_000)?;
    look_twice(job, true, 1, 400_000)
}
