//! The edge of a program: the words of its command line, the numbers among them, and the status that it ends with.
ghost use Rattle.std.specs.Prelude.{◌≡◌, drop};
ghost use Rattle.std.specs.Process.{exit_status};
ghost use Rattle.ecma_stdio.specs.Numbers.{number_of};

use std::env::Env;
use std::process::ExitCode;
use std::{env, io};

/// The status where the arguments can't be had: that of a refused allocation, the usual reason.
const NO_WORDS: u8 = 5;

/// The arguments that the program was started with, its name first.
///
/// # Errors
///
/// Where one of them is no UTF-8, or there is no memory for them.
pub fn arguments<R: Env + AllocGlobal>(rt: &R) -> io::Result<Vec<String>> {
    let arguments = env::args(rt)?.collect(rt.alloc())?;
    Ok(arguments)
}

/// The words of the command line: all arguments but the first, which is the program's name, in order.
pub fn words(arguments: &[String]) -> &[String]
    ensures { result.now ≡ drop 1 arguments.now }
{
    match arguments {
        [_, words @ ..] => words,
        [] => arguments,
    }
}

/// The number that a word writes, from 1 to 18,446,744,073,709,551,615, without a leading zero.
#[tactic(auto, using(crate::proofs::Numbers::number_parsed, crate::proofs::Numbers::number_none))]
pub fn number(word: &str) -> Option<u64>
    ensures { result ≡ number_of word.now }
{
    match word.as_bytes().first() {
        Some(first) if b'1' <= *first && *first <= b'9' => word.parse().ok(),
        _ => None,
    }
}

/// The exit code with this status.
pub fn exit_code(status: u8) -> ExitCode
    ensures { exit_status result ≡ status }
{
    ExitCode::from(status)
}

/// The exit code where the arguments can't be had. No line is written then.
pub fn exit_without_words() -> ExitCode
    ensures { exit_status result ≡ 5 }
{
    exit_code(NO_WORDS)
}
