//! The words of the command line, and what they ask for.
ghost use Rattle.std.specs.Prelude.{◌≡◌, ◌^◌, ◌<◌, true, Ok, MatchResult, is_some, length, map, option_map, string_bytes};
ghost use Rattle.ecma_program.specs.Command as commands;
ghost use Rattle.ecma_program.specs.Command.{named_command, request_of, request_view};
ghost use Rattle.ecma_program.specs.Rereads.{Fails};
ghost use Rattle.ecma_program.specs.Reply.{program_text};

use crate::canon::canon_text;
use crate::classes::classes_text;
use crate::comments::comments_text;
use crate::errors::errors_text;
use crate::lines::tokens_text;
use crate::particulars::Particulars;
use ecma_options::Options;
use ecma_stdio::Fault;
use std::alloc::{AllocError, Global};

/// What is to be written of a text.
#[derive(Clone, Copy, Debug, PartialEq, Eq)]
pub enum Command {
    /// The tokens, a line each.
    Tokens,
    /// The errors, a line each.
    Errors,
    /// The comments, a line each.
    Comments,
    /// The canonical text.
    Canon,
    /// The pieces that cover the text, a line each.
    Classes,
}

impl Command {
    /// The command that a word names.
    fn named(word: &str) -> Option<Command>
        ensures { result ≡ named_command word.now }
    {
        match word {
            "tokens" => Some(Command::Tokens),
            "errors" => Some(Command::Errors),
            "comments" => Some(Command::Comments),
            "canon" => Some(Command::Canon),
            "classes" => Some(Command::Classes),
            _ => None,
        }
    }
}

/// The options, unless that which a word names was there before.
fn once(options: Options, was_given: bool) -> Option<Options>
    ensures { result ≡ commands.once was_given options }
{
    if was_given { None } else { Some(options) }
}

/// The options with one more, which a word names, and which was not there before.
pub fn with_option(options: Options, word: &str) -> Option<Options>
    ensures { result ≡ commands.with_option options word.now }
{
    let Options {
        typescript,
        module,
        strict,
        standard,
    } = options;
    match word {
        "ts" => once(
            Options {
                typescript: true,
                ..options
            },
            typescript,
        ),
        "module" => once(
            Options {
                module: true,
                ..options
            },
            module,
        ),
        "strict" => once(
            Options {
                strict: true,
                ..options
            },
            strict,
        ),
        "standard" => once(
            Options {
                standard: true,
                ..options
            },
            standard,
        ),
        _ => None,
    }
}

/// What the words ask for.
#[derive(Drop)]
pub struct Request {
    pub command: Command,
    pub options: Options,
    /// The numbers of the tokens that are read again, in order.
    pub rereads: Vec<u64>,
}

impl Request {
    /// What the words ask for, or nothing where they are bad. No word asks for the tokens.
    ///
    /// # Errors
    ///
    /// `AllocError` where the words are good, and there is no memory for the numbers in them.
    pub fn from_words(alloc: Global, words: &[String]) -> Result<Option<Request>, AllocError>
        ensures { MatchResult result
            (λ request. option_map request_view request ≡ request_of (map string_bytes words.now))
            (λ _. is_some (request_of (map string_bytes words.now)) ≡ true) }
    {
        let [word, behind @ ..] = words else {
            return Ok(Some(Request {
                command: Command::Tokens,
                options: Options::default(),
                rereads: Vec::new(alloc),
            }));
        };
        let Some(command) = Command::named(word.as_str()) else {
            return Ok(None);
        };
        match Particulars::from_words(alloc, behind) {
            Some(particulars) => Ok(Some(particulars.with_command(command)?)),
            None => Ok(None),
        }
    }

    /// What is written for a text.
    ///
    /// # Errors
    ///
    /// `NoSlash` where a token that is to be read again is no slash or isn't there; `NotClean` and `TooLong` of the canonical
    /// text, as [`canon_text`] says; `OutOfMemory`.
    pub fn text(&self, alloc: Global, text: &str) -> Result<Vec<u8>, Fault>
        requires { length text.now < 2 ^ 32 }
        ensures { MatchResult result
            (λ written. program_text (request_view self.now) text.now ≡ Ok written.items)
            (λ fault. Fails (program_text (request_view self.now) text.now) fault) }
    {
        let rereads = self.rereads.as_slice();
        match self.command {
            Command::Tokens => tokens_text(alloc, self.options, rereads, text),
            Command::Errors => errors_text(alloc, self.options, rereads, text),
            Command::Comments => comments_text(alloc, self.options, rereads, text),
            Command::Canon => canon_text(alloc, self.options, rereads, text),
            Command::Classes => classes_text(alloc, self.options, rereads, text),
        }
    }
}
