//! The command `ecma`: what a lexer finds in files.
//!
//! `arguments.rt` reads its words, `files.rt` finds the files that they name, in directories and lists too, `source.rt`
//! reads one, `faults.rt` has the lines on standard error, `progress.rt` shows on a terminal how many files are done, and
//! `main.rt` reports on each file (docs/COMMAND.md).
#![tactic(auto)]

ghost use Rattle.std.specs.Prelude.{◌≡◌, ◌<◌, ◌^◌, IsErr, length};
ghost use Rattle.clap.specs.Values.{kind_of};
ghost use Rattle.clap.specs.declared.error.kind.ErrorKind.TheVariants.{OutOfMemory};

mod arguments;
mod colours;
mod faults;
mod files;
mod progress;
mod source;

use crate::arguments::arguments;
use crate::colours::takes_colours;
use crate::faults::{FAULTY, Refusal, refuse, refuse_output, refuse_text, refuse_words};
use crate::files::{Files, NameEnds};
use crate::progress::Progress;
use crate::source::{STANDARD_INPUT, read, refuse_bytes};
use clap::error::ErrorKind;
use clap::{ArgMatches, Error};
use ecma_command::file_names::{Chosen, has_jsx};
use ecma_command::words::{Among, Asked, Named, command, is_by_flag, slash_places};
use ecma_faces::telling::tell;
use ecma_messages::looks_like_jsx;
use ecma_report::report::{Report, Stop};
use ecma_span::BytePos;
use ecma_stdio::{Watched, exit_code, send, text_of};
use std::alloc::AllocError;
use std::io::Write;
use std::process::ExitCode;

/// The status where the words are wrong.
const BAD_WORDS: u8 = 2;

/// The status where there is no memory for the words.
const NO_WORDS: u8 = 5;

/// What is reported of a file that has JSX.
const JSX: &str = "JSX is not read yet; --as-is reads the file as what it is without it";

/// What is said of a text with an error that looks as if it had JSX.
const LOOKS_LIKE_JSX: &str = "looks like JSX, which is not read yet";

/// What is reported of a file that has no canonical text for this alone.
const TOO_LONG: &str = "its canonical text is longer than 4,294,967,295 bytes";

/// What the words ask for of all files.
#[derive(Clone, Copy)]
struct Job<'a> {
    asked: Asked,
    among: Among,
    named: Named<'a>,
    /// Whether files that have JSX are read too.
    as_is: bool,
    progress: Progress,
}

/// How the report on a file ended.
#[derive(Clone, Copy)]
enum Ended {
    /// With this status.
    Status(u8),
    /// Standard output takes no more, and this is the status.
    Closed(u8),
}

/// Writes the faults of a text, and that its canonical text is too long, and answers the status.
fn tell_faults(rt: &HostRuntime, name: &str, report: &Report) -> u8 {
    let status = if report.is_faulty { FAULTY } else { 0 };
    let status = send(&mut rt.stderr(), status, &report.faults);
    if report.is_too_long {
        refuse(rt, name, TOO_LONG).max(status)
    } else {
        status
    }
}

/// Says of a text that has an error that it looks like JSX, where it does.
fn hint_at_jsx(rt: &HostRuntime, name: &str, report: &Report) {
    if report.is_faulty && looks_like_jsx(report.text.as_bytes()) {
        let _ = refuse(rt, name, LOOKS_LIKE_JSX);
    }
}

/// Says how many files in directories were passed over for their JSX, where some were.
fn tell_left(rt: &HostRuntime, files: &Files) {
    let count = files.left_for_jsx;
    if count == 0 {
        return;
    }
    if let Ok(message) = format!(in rt.alloc();
        "passed over for JSX: {count}; --as-is reads them"
    ) {
        let _ = refuse(rt, "ecma", message.as_str());
    }
}

/// Writes what is asked for of a text, and its faults.
fn tell_text<'t, W: Write>(
    rt: &HostRuntime,
    job: Job<'t>,
    name: &'t str,
    text: &'t str,
    out: &mut Watched<W>,
) -> Ended
    requires { length text.now < 2 ^ 32 }
{
    let mut report = Report::new(rt.alloc(), job.asked.for_file(name), name, text);
    report.among = job.among;
    let told = tell(&mut report, job.named, out);
    job.progress.clear(rt);
    match told {
        Ok(()) => {
            let status = tell_faults(rt, name, &report);
            hint_at_jsx(rt, name, &report);
            Ended::Status(status)
        }
        Err(Stop::Closed) => Ended::Closed(refuse_output(rt, out.failure())),
        Err(Stop::OutOfMemory) => Ended::Status(refuse(rt, name, "out of memory")),
    }
}

/// Writes why there is nothing to report of a file.
fn refuse_file(rt: &HostRuntime, job: Job, name: &str, refusal: Refusal) -> Ended {
    job.progress.clear(rt);
    Ended::Status(refuse_text(rt, name, refusal))
}

/// Writes what is asked for of a file, and its faults.
fn tell_file<W: Write>(rt: &HostRuntime, job: Job, name: &str, out: &mut Watched<W>) -> Ended {
    if has_jsx(name) && !job.as_is {
        job.progress.clear(rt);
        return Ended::Status(refuse(rt, name, JSX));
    }
    let bytes = match read(rt, name) {
        Ok(bytes) => bytes,
        Err(refusal) => return refuse_file(rt, job, name, refusal),
    };
    match text_of(&bytes) {
        Ok(text) => tell_text(rt, job, name, text, out),
        Err(fault) => {
            job.progress.clear(rt);
            Ended::Status(refuse_bytes(rt, name, &bytes, fault))
        }
    }
}

/// Reports on each file, and answers the status. Where standard output takes no more, no further file is read.
fn tell_all<W: Write>(rt: &HostRuntime, job: Job, files: &[String], out: &mut Watched<W>) -> u8 {
    let mut status = 0;
    for (done, file) in files.iter().enumerate() {
        job.progress.show(rt, done, files.len());
        match tell_file(rt, job, file.as_str(), out) {
            Ended::Status(own) => status = own.max(status),
            Ended::Closed(own) => return own.max(status),
        }
    }
    status
}

/// Whether a word is empty and may stand for one that was reported.
fn is_lost(word: &str, lacks_words: bool) -> bool {
    lacks_words && word.is_empty()
}

/// What ends the names of a list, as the words say.
fn name_ends(matches: &ArgMatches) -> NameEnds {
    if matches.get_flag("null") {
        NameEnds::Nul
    } else {
        NameEnds::Line
    }
}

/// The files that the words ask for; standard input where there is none.
fn files_of(
    rt: &HostRuntime,
    matches: &ArgMatches,
    lacks_words: bool,
) -> Result<Files, AllocError> {
    let chosen = Chosen::of(matches);
    let names = matches.get_strs("files").unwrap_or(&[]);
    let mut files = Files::new(rt);
    for name in names {
        if !is_lost(name, lacks_words) {
            files.add(rt, chosen, name)?;
        }
    }
    match matches.get_str("files-from") {
        Some(list) if is_lost(list, lacks_words) => {}
        Some(list) => files.add_list(rt, chosen, list, name_ends(matches))?,
        None if names.is_empty() => files.add(rt, None, STANDARD_INPUT)?,
        None => {}
    }
    Ok(files)
}

/// Whether several files may be read.
fn are_several(matches: &ArgMatches, files: &Files) -> bool {
    files.names.len() > 1
        || matches.get_flag("recursive")
        || matches.get_str("files-from").is_some()
}

/// Does what a subcommand asks for, with the words behind it.
fn run_subcommand(
    rt: &HostRuntime,
    subcommand: &str,
    matches: &ArgMatches,
    lacks_words: bool,
) -> Result<u8, AllocError> {
    let Some(asked) = Asked::of(subcommand, matches, takes_colours(rt)) else {
        return Ok(BAD_WORDS);
    };
    let places: Vec<BytePos> = slash_places(rt.alloc(), matches)?;
    let files = files_of(rt, matches, lacks_words)?;
    let job = Job {
        asked,
        among: Among::of(matches, are_several(matches, &files)),
        named: Named {
            places: &places,
            by_flag: is_by_flag(matches),
        },
        as_is: matches.get_flag("as-is"),
        progress: Progress::new(rt),
    };
    let mut out = Watched::new(rt.stdout());
    let status = tell_all(rt, job, &files.names, &mut out).max(files.status);
    tell_left(rt, &files);
    Ok(status)
}

/// Answers the status where the words give nothing to do: help and the version are written, else it is told what is wrong.
///
/// # Errors
///
/// `AllocError` where the words could not be parsed for lack of memory, or there is none for what is told.
fn refuse_parse(rt: &HostRuntime, error: &Error) -> Result<u8, AllocError>
    ensures { kind_of error.now ≡ OutOfMemory → IsErr result }
{
    if error.kind() == ErrorKind::OutOfMemory {
        return Err(AllocError);
    }
    if error.use_stderr() {
        return refuse_words(rt, error, BAD_WORDS);
    }
    match error.print(rt) {
        Ok(()) => Ok(0),
        Err(failure) => Ok(refuse_output(rt, Some(failure))),
    }
}

/// Parses the words, and does what they ask for.
fn run(rt: &HostRuntime, words: &[String], lacks_words: bool) -> Result<u8, AllocError> {
    match command(rt.alloc())?.try_get_matches_from(words) {
        Ok(matches) => match matches.subcommand() {
            Some((name, behind)) => run_subcommand(rt, name, behind, lacks_words),
            None => Ok(BAD_WORDS),
        },
        Err(error) => refuse_parse(rt, &error),
    }
}

/// Reads the words, and does what they ask for.
fn run_words(rt: &HostRuntime) -> Result<u8, AllocError> {
    let (words, status) = arguments(rt)?;
    Ok(run(rt, words.as_slice(), status != 0)?.max(status))
}

fn main(rt: HostRuntime) -> ExitCode {
    match run_words(&rt) {
        Ok(status) => exit_code(status),
        Err(_) => exit_code(send(&mut rt.stderr(), NO_WORDS, b"ecma: out of memory\n")),
    }
}
