//! Jobs that users wait for, over texts that a number gives: `NAME SEED` does one, and writes a digest of all its
//! results. `drives COUNT SEED` plays random lists of steps, and writes how many differ by copies and by checkpoints. With
//! no words each job is done in its small form, and 300 drives are played.
#![tactic(auto)]

mod awkward;
mod digest;
mod drives;
mod job;
mod keep;
mod lookahead;
mod modules;
mod play;
mod reading;
mod report;
mod settings;

use crate::job::Job;
use ecma_stdio::{arguments, exit_code, exit_without_words, number, words};
use std::alloc::AllocError;
use std::io;
use std::process::ExitCode;

/// The status where the words name no job, no count or no seed.
const BAD_WORDS: u8 = 2;

/// The status where there was no memory, what is written did not go out, or a drive differs.
const FAILED: u8 = 1;

/// How many drives are played with no words.
const DRIVES: u64 = 300;

const JOBS: [&str; 6] = ["keep", "lookahead", "play", "report", "awkward", "modules"];

/// Does the job of this name, and says whether there is one.
fn run_job(job: &mut Job, name: &str) -> Result<bool, AllocError> {
    match name {
        "keep" => keep::run(job)?,
        "lookahead" => lookahead::run(job)?,
        "play" => play::run(job)?,
        "report" => report::run(job)?,
        "awkward" => awkward::run(job)?,
        "modules" => modules::run(job)?,
        _ => return Ok(false),
    }
    Ok(true)
}

/// Does a job, writes its digest, and answers the status.
fn tell_job(rt: &HostRuntime, name: &str, seed: u64, small: bool) -> u8 {
    let mut job = Job::new(rt.alloc(), seed, small);
    match run_job(&mut job, name) {
        Ok(true) => {
            let digest = job.digest.value();
            let told: io::Result<()> = println!(rt; "{name} {digest}");
            if told.is_ok() { 0 } else { FAILED }
        }
        Ok(false) => BAD_WORDS,
        Err(_) => FAILED,
    }
}

/// The seed that a word writes.
fn seed_of(word: &str) -> Option<u64> {
    if word == "0" { Some(0) } else { number(word) }
}

/// Plays so many drives, and answers the status.
fn tell_drives(rt: &HostRuntime, count: u64, seed: u64) -> u8 {
    match drives::run(rt, count, seed) {
        Ok(true) => 0,
        Ok(false) | Err(_) => FAILED,
    }
}

/// Does each job in its small form, plays some drives, and answers the worst status.
fn tell_all(rt: &HostRuntime) -> u8 {
    let mut status = 0;
    for name in JOBS {
        status = tell_job(rt, name, 1, true).max(status);
    }
    tell_drives(rt, DRIVES, 1).max(status)
}

/// Does what the words ask for, and answers the status.
fn run(rt: &HostRuntime, words: &[String]) -> u8 {
    match words {
        [] => tell_all(rt),
        [name, seed] => match seed_of(seed.as_str()) {
            Some(seed) => tell_job(rt, name.as_str(), seed, false),
            None => BAD_WORDS,
        },
        [name, count, seed] if name.as_str() == "drives" => {
            match (number(count.as_str()), seed_of(seed.as_str())) {
                (Some(count), Some(seed)) => tell_drives(rt, count, seed),
                _ => BAD_WORDS,
            }
        }
        _ => BAD_WORDS,
    }
}

fn main(rt: HostRuntime) -> ExitCode {
    match arguments(&rt) {
        Ok(arguments) => exit_code(run(&rt, words(arguments.as_slice()))),
        Err(_) => exit_without_words(),
    }
}
