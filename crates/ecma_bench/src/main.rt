//! The program `ecma_bench`: counts the tokens of a text from standard input, or measures how fast they are read.
#![tactic(auto)]

use ecma_measure::run;
use ecma_stdio::{arguments, exit_code, exit_without_words, words};
use std::process::ExitCode;

fn main(rt: HostRuntime) -> ExitCode {
    match arguments(&rt) {
        Ok(arguments) => exit_code(run(
            &rt,
            rt.alloc(),
            words(arguments.as_slice()),
            &mut rt.stdin(),
            &mut rt.stdout(),
        )),
        Err(_) => exit_without_words(),
    }
}
