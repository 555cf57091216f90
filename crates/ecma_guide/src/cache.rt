//! A cache by canonical texts.
ghost use Rattle.std.specs.Prelude.{◌<◌, ◌^◌, length};

use crate::{START, settings};
use ecma_lexer::syntax::Context;
use ecma_lexer::{Canon, Slashes, canonical, steps_by};
use std::alloc::{AllocError, Global};
use std::io;

/// The key of a text in a cache: texts with the same tokens have the same one. None where the text has an error.
fn key_of(alloc: Global, text: &str) -> Result<Option<String>, AllocError>
    requires { length text.now < 2 ^ 32 }
{
    let (settings, context) = (settings(false), Context::default());
    let steps = steps_by(alloc, &settings, context, text, START, Slashes::ByRole)?;
    match canonical(alloc, &settings, text, START, &steps)? {
        Canon::Text(key) => Ok(Some(key)),
        Canon::NotClean | Canon::TooLong => Ok(None),
    }
}

/// Writes the key of a text.
pub(crate) fn write_key(rt: &HostRuntime, text: &str) -> io::Result<()>
    requires { length text.now < 2 ^ 32 }
{
    match key_of(rt.alloc(), text)? {
        Some(key) => println!(rt; "{}", key.as_str()),
        None => println!(rt; "an error"),
    }
}
