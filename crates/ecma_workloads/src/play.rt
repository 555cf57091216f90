//! Lists of steps are made and played: for the tokens, the canonical text, the pieces, HTML and imports.
//!
//! `steps_by_flag`, `replay`, `canonical`, `classes_of_steps`, HTML and imports, on bundles of 1 MB.
ghost use Rattle.std.specs.Prelude.{◌<◌, ◌^◌, length};

use crate::job::Job;
use crate::settings::{fits, options};
use ecma_canonical::{Canon, canonical};
use ecma_classes::{Class, Piece};
use ecma_html::html_of_steps;
use ecma_imports::imports_of_steps;
use ecma_pieces::classes_of_steps;
use ecma_place::BytePos;
use ecma_replay::{Answer, Replay, replay};
use ecma_samples::{Pool, Sample};
use ecma_slashes::steps_by_flag;
use ecma_state::Step;
use std::alloc::AllocError;

const START: BytePos = BytePos(0);

/// What steps are played for.
#[derive(Clone, Copy)]
enum Asked {
    Tokens,
    Canonical,
    Pieces,
    Html,
    Imports,
}

fn add_answers(job: &mut Job, answers: &[Answer]) {
    for answer in answers {
        if let Answer::Token(token) = answer {
            job.digest.add_token(token);
        }
    }
}

fn add_replay(job: &mut Job, played: &Replay) {
    add_answers(job, &played.answers);
    job.digest.add_kept(&played.kept);
    job.digest.add_errors(played.errors.as_slice());
    job.digest.add_errors(played.waiting.as_slice());
    job.digest.add(u64::from(played.ended));
    job.digest.add_comments(&played.comments);
}

fn add_canon(job: &mut Job, canon: &Canon) {
    match canon {
        Canon::Text(text) => job.digest.add_bytes(text.as_str().as_bytes()),
        Canon::NotClean => job.digest.add(1),
        Canon::TooLong => job.digest.add(2),
    }
}

fn add_pieces(job: &mut Job, pieces: &[Piece]) {
    for piece in pieces {
        job.digest.add_span(piece.span);
        job.digest.add(match piece.class {
            Class::Token => 1,
            Class::Comment => 2,
            Class::Trivia => 3,
        });
    }
}

fn play_tokens(job: &mut Job, text: &str, steps: &[Step]) -> Result<(), AllocError>
    requires { length text.now < 2 ^ 32 }
{
    let settings = options(false, false).settings(true);
    let played = replay(job.alloc, &settings, text, START, steps)?;
    add_replay(job, &played);
    Ok(())
}

fn play_canonical(job: &mut Job, text: &str, steps: &[Step]) -> Result<(), AllocError>
    requires { length text.now < 2 ^ 32 }
{
    let settings = options(false, false).settings(true);
    let canon = canonical(job.alloc, &settings, text, START, steps)?;
    add_canon(job, &canon);
    Ok(())
}

fn play_pieces(job: &mut Job, text: &str, steps: &[Step]) -> Result<(), AllocError>
    requires { length text.now < 2 ^ 32 }
{
    let settings = options(false, false).settings(true);
    let pieces = classes_of_steps(job.alloc, &settings, text, START, steps)?;
    add_pieces(job, &pieces);
    Ok(())
}

fn play_html(job: &mut Job, text: &str, steps: &[Step]) -> Result<(), AllocError>
    requires { length text.now < 2 ^ 32 }
{
    let settings = options(false, false).settings(true);
    let html = html_of_steps(job.alloc, &settings, text, steps)?;
    job.digest.add_bytes(&html);
    Ok(())
}

fn play_imports(job: &mut Job, text: &str, steps: &[Step]) -> Result<(), AllocError>
    requires { length text.now < 2 ^ 32 }
{
    let settings = options(false, false).settings(true);
    let imports = imports_of_steps(job.alloc, &settings, text, steps)?;
    job.digest.add_bytes(&imports);
    Ok(())
}

/// Plays the steps over the text that they were made for.
fn play(job: &mut Job, asked: Asked, text: &str, steps: &[Step]) -> Result<(), AllocError>
    requires { length text.now < 2 ^ 32 }
{
    match asked {
        Asked::Tokens => play_tokens(job, text, steps),
        Asked::Canonical => play_canonical(job, text, steps),
        Asked::Pieces => play_pieces(job, text, steps),
        Asked::Html => play_html(job, text, steps),
        Asked::Imports => play_imports(job, text, steps),
    }
}

/// Makes the steps of a text, and plays them.
fn step_through(job: &mut Job, asked: Asked, text: &str) -> Result<(), AllocError>
    requires { length text.now < 2 ^ 32 }
{
    let options = options(false, false);
    let settings = options.settings(true);
    let steps = steps_by_flag(job.alloc, &settings, options.context(), text, START)?;
    play(job, asked, text, &steps)
}

/// Plays the steps of the next text of a pool.
fn play_next(job: &mut Job, pool: &mut Pool, asked: Asked) -> Result<(), AllocError> {
    let text = pool.text(job.alloc, job.bytes(1_000_000))?;
    if !fits(text.as_str()) {
        return Ok(());
    }
    step_through(job, asked, text.as_str())
}

/// Plays the steps of a text for each that is asked.
fn play_all(job: &mut Job, pool: &mut Pool) -> Result<(), AllocError> {
    for asked in [
        Asked::Tokens,
        Asked::Canonical,
        Asked::Pieces,
        Asked::Html,
        Asked::Imports,
    ] {
        play_next(job, pool, asked)?;
    }
    Ok(())
}

pub fn run(job: &mut Job) -> Result<(), AllocError> {
    let mut pool = job.pool(Sample::Script)?;
    for _ in 0..job.texts(3) {
        play_all(job, &mut pool)?;
    }
    Ok(())
}
