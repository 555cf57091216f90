//! The texts that are reported on.

use crate::faults::{Refusal, refuse, refuse_text};
use ecma_messages::not_text;
use ecma_stdio::{Fault, Halt, MOST_TURNS, Watched, read_all};
use std::fs;
use std::io::Read;

/// The name of standard input.
pub const STANDARD_INPUT: &str = "-";

/// What is said of a file that has no text.
pub fn refusal(halt: Halt) -> &'static str {
    match halt {
        Halt::ReadFailed => "cannot be read",
        Halt::Fault(Fault::NotUtf8) => "is not UTF-8",
        Halt::Fault(Fault::TooLong) => "is longer than 4,294,967,295 bytes",
        Halt::Fault(_) => "out of memory",
    }
}

/// All that a reader has.
fn read_watched<R: Read + Drop>(rt: &HostRuntime, reader: R) -> Result<Vec<u8>, Refusal> {
    let mut watched = Watched::new(reader);
    match read_all(rt.alloc(), &mut watched, MOST_TURNS) {
        Ok(bytes) => Ok(bytes),
        Err(halt) => Err(Refusal {
            halt,
            failure: watched.failure(),
        }),
    }
}

/// All that a file has, or standard input.
pub fn read(rt: &HostRuntime, name: &str) -> Result<Vec<u8>, Refusal> {
    if name == STANDARD_INPUT {
        return read_watched(rt, rt.stdin());
    }
    match fs::open(rt, name) {
        Ok(file) => read_watched(rt, file),
        Err(error) => Err(Refusal {
            halt: Halt::ReadFailed,
            failure: Some(error),
        }),
    }
}

/// Writes why these bytes of a file are no text, and answers the status.
pub fn refuse_bytes(rt: &HostRuntime, name: &str, bytes: &[u8], fault: Fault) -> u8 {
    match not_text(bytes) {
        Some(why) if fault == Fault::NotUtf8 => {
            let (message, place) = (why.message(), why.place);
            match format!(in rt.alloc(); "{message} {place}") {
                Ok(message) => refuse(rt, name, message.as_str()),
                Err(_) => refuse(rt, name, refusal(Halt::Fault(fault))),
            }
        }
        _ => refuse_text(rt, name, Refusal::from(Halt::Fault(fault))),
    }
}
