//! How many tokens a text has.
ghost use Rattle.std.specs.Prelude.{◌≡◌, ◌^◌, ◌<◌, length, string_bytes, IfOk};
ghost use Rattle.ecma_state.specs.Ending.{tokens_of};
ghost use Rattle.ecma_measure.specs.Begin as starts;
ghost use Rattle.ecma_measure.specs.Reply.{count_line, count_text};

use ecma_options::Options;
use ecma_start::{begin, pass_next};
use std::alloc::{AllocError, Global};

/// A script in sloppy mode, of TypeScript or not.
pub fn options(typescript: bool) -> Options
    ensures { result ≡ starts.options typescript }
{
    Options {
        typescript,
        module: false,
        strict: false,
        standard: false,
    }
}

/// How many tokens the text has.
fn count_tokens(alloc: Global, typescript: bool, text: &str) -> Result<u64, AllocError>
    requires { length text.now < 2 ^ 32 }
    ensures { IfOk result (λ count. count ≡ length (tokens_of (starts.begin typescript text.now))) }
{
    let mut lexer = begin(alloc, false, options(typescript), text)?;
    let mut count = 0;
    'tokens: while pass_next(&mut lexer)? {
        count += 1;
    }
    Ok(count)
}

/// So many tokens and bytes, and a line feed.
fn count_line(alloc: Global, tokens: u64, bytes: usize) -> Result<String, AllocError>
    ensures { IfOk result (λ line. string_bytes line ≡ count_line tokens bytes) }
{
    format!(in alloc; "{tokens} tokens {bytes} bytes\n")
}

/// What is written of the number of tokens of a text.
pub fn count_text(alloc: Global, typescript: bool, text: &str) -> Result<String, AllocError>
    requires { length text.now < 2 ^ 32 }
    ensures { IfOk result (λ line. string_bytes line ≡ count_text typescript text.now) }
{
    let tokens = count_tokens(alloc, typescript, text)?;
    count_line(alloc, tokens, text.len())
}
