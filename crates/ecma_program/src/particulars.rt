//! The words behind a command, and what they ask for.
ghost use Rattle.std.specs.Prelude.{◌≡◌, false, None, Some, MatchOption, MatchResult, map, string_bytes};
ghost use Rattle.ecma_program.specs.Command as commands;
ghost use Rattle.ecma_program.specs.Command.{behind, no_particulars, request_view, with_number, with_word};
ghost use Rattle.ecma_program.specs.Gathered.{Follows, Holds};

use crate::command::{Command, Request, with_option};
use ecma_options::Options;
use ecma_stdio::number;
use std::alloc::{AllocError, Global};

/// What the words behind the command ask for.
#[derive(Drop)]
pub struct Particulars {
    options: Options,
    /// The numbers of the tokens that are read again, in order.
    rereads: Vec<u64>,
    /// The last of them, or 0 where there is none.
    last: u64,
    /// Whether the next word has to be one.
    awaits_number: bool,
    /// Whether there was memory for them all.
    holds_all: bool,
}

impl Particulars {
    fn new(alloc: Global) -> Particulars
        ensures { Holds no_particulars result }
    {
        Particulars {
            options: Options::default(),
            rereads: Vec::new(alloc),
            last: 0,
            awaits_number: false,
            holds_all: true,
        }
    }

    /// Adds the number of a token, unless it is not greater than the one before; whether it is.
    fn add(&mut self, number: u64) -> bool
        ensures { (p : commands.Particulars) → Holds p self.old → Follows (with_number p (Some number)) result self.new }
    {
        if number <= self.last {
            return false;
        }
        self.last = number;
        self.awaits_number = false;
        self.holds_all = self.holds_all && self.rereads.push(number).is_ok();
        true
    }

    /// Takes in one more word; whether it is good.
    fn take(&mut self, word: &str) -> bool
        ensures { (p : commands.Particulars) → Holds p self.old → Follows (with_word p word.now) result self.new }
    {
        if self.awaits_number {
            return match number(word) {
                Some(number) => self.add(number),
                None => false,
            };
        }
        if word == "reread" {
            self.awaits_number = true;
            return true;
        }
        match with_option(self.options, word) {
            Some(options) => {
                self.options = options;
                true
            }
            None => false,
        }
    }

    /// What the words behind the command ask for, or nothing where they are bad.
    pub fn from_words(alloc: Global, words: &[String]) -> Option<Particulars>
        ensures { MatchOption result
            (behind (Some no_particulars) (map string_bytes words.now) ≡ None)
            (λ g. (p : commands.Particulars) × (behind (Some no_particulars) (map string_bytes words.now) ≡ Some p) × Holds p g) }
    {
        let mut particulars = Particulars::new(alloc);
        for word in words {
            if !particulars.take(word.as_str()) {
                return None;
            }
        }
        if particulars.awaits_number {
            return None;
        }
        Some(particulars)
    }

    /// The request of this command.
    ///
    /// # Errors
    ///
    /// `AllocError` where there was no memory for the numbers.
    pub fn with_command(self, command: Command) -> Result<Request, AllocError>
        ensures { (p : commands.Particulars) → Holds p self → MatchResult result (λ request. request_view request ≡ commands.of_particulars command p) (λ _. self.holds_all ≡ false) }
    {
        if self.holds_all {
            Ok(Request {
                command,
                options: self.options,
                rereads: self.rereads,
            })
        } else {
            Err(AllocError)
        }
    }
}
