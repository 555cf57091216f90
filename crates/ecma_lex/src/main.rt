//! The program `ecma_lex`: reads a text from standard input, and writes what the words of the command line ask for.
//!
//! docs/COMMAND.md has its words, lines and statuses; its work is in `ecma_program`.
#![tactic(auto)]

use ecma_program::{explanation, run};
use ecma_stdio::{arguments, exit_code, exit_without_words, send, words};
use std::process::ExitCode;

fn main(rt: HostRuntime) -> ExitCode {
    let Ok(arguments) = arguments(&rt) else {
        return exit_without_words();
    };
    let status = run(
        rt.alloc(),
        words(arguments.as_slice()),
        &mut rt.stdin(),
        &mut rt.stdout(),
    );
    // Whether standard error took the line changes no status.
    send(&mut rt.stderr(), status, explanation(status));
    exit_code(status)
}
