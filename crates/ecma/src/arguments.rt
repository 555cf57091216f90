//! The words of the command line.

use crate::faults::{FAULTY, refuse};
use ecma_messages::push_bytes;
use std::alloc::{AllocError, Global};
use std::env::{Env, FillError};

/// The bytes that an argument is first looked for in; each time that it is longer, twice as many.
const SHORT: usize = 4096;

/// How many times they are doubled at most.
const MOST_DOUBLINGS: u32 = 32;

/// The bytes of an argument, where there is one with this number.
fn argument(rt: &HostRuntime, number: usize) -> Result<Option<Vec<u8>>, AllocError> {
    let mut bytes = Vec::new(rt.alloc());
    let mut room = SHORT;
    'sizes: for _ in 0..MOST_DOUBLINGS {
        bytes.resize(room, 0)?;
        match rt.arg(number, &mut bytes) {
            Ok(count) => {
                bytes.truncate(count);
                return Ok(Some(bytes));
            }
            Err(FillError::NotPresent) => return Ok(None),
            Err(FillError::TooLong) => room = room.saturating_mul(2),
        }
    }
    Err(AllocError)
}

/// A word that is no UTF-8, as a message has it.
fn shown_word(alloc: Global, bytes: &[u8]) -> Result<String, AllocError> {
    let mut shown = Vec::new(alloc);
    push_bytes(&mut shown, bytes)?;
    match String::from_utf8(shown) {
        Ok(word) => Ok(word),
        Err(_) => Ok(String::new(alloc)),
    }
}

/// Reports a word that is not UTF-8, and answers the status.
fn refuse_word(rt: &HostRuntime, number: usize, bytes: &[u8]) -> Result<u8, AllocError> {
    let shown = shown_word(rt.alloc(), bytes)?;
    let name = format!(in rt.alloc(); "argument {number}")?;
    let message = format!(in rt.alloc(); "is not UTF-8: {shown}")?;
    Ok(refuse(rt, name.as_str(), message.as_str()).max(FAULTY))
}

/// The words that the program was started with, its name first, and the status: a word that is not UTF-8 is reported, and an
/// empty one stands in its place, since no file can be opened by it.
///
/// # Errors
///
/// `AllocError` where there is no memory.
pub fn arguments(rt: &HostRuntime) -> Result<(Vec<String>, u8), AllocError> {
    let mut words = Vec::new(rt.alloc());
    let mut status = 0;
    'arguments: for number in 0..usize::MAX {
        let Some(bytes) = argument(rt, number)? else {
            return Ok((words, status));
        };
        match String::from_utf8(bytes) {
            Ok(word) => words.push(word)?,
            Err(error) => {
                status = refuse_word(rt, number, error.as_bytes())?;
                words.push(String::new(rt.alloc()))?;
            }
        }
    }
    Ok((words, status))
}
