//! The programs on large files: lines of tokens, pieces, comments and errors, and JSON.
//!
//! Rows of `ecma_lex` and of `ecma tokens`, as lines and JSON, on bundles.
ghost use Rattle.std.specs.Prelude.{◌<◌, ◌^◌, length};

use crate::job::Job;
use crate::settings::{fits, options};
use ecma_command::words::{Asked, Face};
use ecma_options::Options;
use ecma_place::BytePos;
use ecma_positions::Columns;
use ecma_program::run as run_program;
use ecma_replay::replay;
use ecma_report::report::{More, Report, Row};
use ecma_samples::{Pool, Sample};
use ecma_slashes::steps_by_flag;
use ecma_state::{Kept, Settings, Step};
use ecma_styles::Class;
use std::alloc::{AllocError, Global};

const START: BytePos = BytePos(0);

/// What a program writes of a text, asked for by a word.
fn write_lines(job: &mut Job, word: &str, text: &str) -> Result<(), AllocError> {
    let mut words = Vec::new(job.alloc);
    words.push(String::from_str(job.alloc, word)?)?;
    let mut reader = text.as_bytes();
    let mut writer = Vec::new(job.alloc);
    let status = run_program(job.alloc, &words, &mut reader, &mut writer);
    job.digest.add(u64::from(status));
    job.digest.add_bytes(&writer);
    Ok(())
}

fn push_rows(report: &mut Report, kept: &[Kept]) -> Result<(), AllocError> {
    let mut previous = None;
    for token in kept {
        let text = report.at(token.span);
        report.push_row(Row {
            kind: match Class::of(token.kind, previous) {
                Some(class) => class.name(),
                None => "punctuator",
            },
            span: token.span,
            more: More::LineBreak(token.flag),
            text,
        })?;
        previous = Some(token.kind);
    }
    Ok(())
}

/// Pushes a row for each token that these steps read.
fn push_played(
    alloc: Global,
    settings: &Settings,
    report: &mut Report,
    text: &str,
    steps: &[Step],
) -> Result<(), AllocError>
    requires { length text.now < 2 ^ 32 }
{
    let played = replay(alloc, settings, text, START, steps)?;
    push_rows(report, &played.kept)
}

/// Pushes a row for each token of a text.
fn push_tokens(
    alloc: Global,
    options: Options,
    report: &mut Report,
    text: &str,
) -> Result<(), AllocError>
    requires { length text.now < 2 ^ 32 }
{
    let settings = options.settings(true);
    let steps = steps_by_flag(alloc, &settings, options.context(), text, START)?;
    push_played(alloc, &settings, report, text, &steps)
}

/// Reports the tokens of a text as the command does, in lines or as JSON.
fn report_tokens(
    job: &mut Job,
    options: Options,
    json: bool,
    text: &str,
) -> Result<(), AllocError> {
    if !fits(text) {
        return Ok(());
    }
    let asked = Asked {
        face: Face::Tokens,
        options,
        json,
        lines: true,
        columns: Columns::Bytes,
        colours: false,
        commonjs: false,
        values: false,
        page: false,
    };
    let mut report = Report::new(job.alloc, asked, "bundle.js", text);
    push_tokens(job.alloc, options, &mut report, text)?;
    job.digest.add_bytes(&report.out);
    Ok(())
}

/// What a program writes of the next texts of a pool.
fn write_texts(job: &mut Job, pool: &mut Pool, word: &str) -> Result<(), AllocError> {
    for _ in 0..job.texts(5) {
        let text = pool.text(job.alloc, job.bytes(1_000_000))?;
        write_lines(job, word, text.as_str())?;
    }
    Ok(())
}

/// Reports the tokens of the next texts of a pool.
fn report_texts(job: &mut Job, pool: &mut Pool, json: bool) -> Result<(), AllocError> {
    for _ in 0..job.texts(2) {
        let text = pool.text(job.alloc, job.bytes(500_000))?;
        report_tokens(job, options(false, false), json, text.as_str())?;
    }
    Ok(())
}

pub fn run(job: &mut Job) -> Result<(), AllocError> {
    let mut pool = job.pool(Sample::Script)?;
    for word in ["tokens", "classes", "comments", "errors"] {
        write_texts(job, &mut pool, word)?;
    }
    for json in [true, false] {
        report_texts(job, &mut pool, json)?;
    }
    Ok(())
}
