//! The slashes that are read again as regular expressions.
ghost use Rattle.std.specs.Prelude.{◌≡◌, ◌∷◌, ◌^◌, ◌<◌, true, List, Some, MatchResult, IfOk, OnOk, drop, is_some, length, map, reverse};
ghost use Rattle.ecma_token.specs.View.{SpannedView, spanned_view};
ghost use Rattle.ecma_state.specs.Ending.{behind_reads};
ghost use Rattle.ecma_state.specs.Run.{act_all};
ghost use Rattle.ecma_state.specs.Session.{Session, state_of};
ghost use Rattle.ecma_state.specs.Slashes.{slash_answered};
ghost use Rattle.ecma_program.specs.Rereads.{CameTo, Lacks, Stands, behind_rereads, session_behind, rereading};

use ecma_options::Options;
use ecma_start::begin;
use ecma_stdio::Fault;
use ecma_stream::{Lexer, Tokens};
use ecma_token::TokenAndSpan;
use std::alloc::{AllocError, Global};

/// A lexer behind the last token that is read again, and the tokens up to there, in order.
#[derive(Drop)]
pub struct ReadAgain<'a> {
    pub lexer: Lexer<'a>,
    pub tokens: Vec<TokenAndSpan<'a>>,
}

impl<'a> ReadAgain<'a> {
    /// Reads so many tokens; whether there were so many.
    fn read_on(&mut self, count: u64) -> Result<bool, AllocError>
        ensures { (s : Session) → Stands s self.old → IfOk result (λ all. CameTo (behind_reads count s) all self.new) }
    {
        'reads: for _ in 0..count {
            match self.lexer.read()? {
                Some(token) => self.tokens.push(token)?,
                None => return Ok(false),
            }
        }
        Ok(true)
    }

    /// Puts a token in the place of the last one.
    fn replace_last(&mut self, token: TokenAndSpan<'a>) -> Result<(), AllocError>
        ensures lexer { OnOk result (self.new.lexer ≡ self.old.lexer) }
        ensures tokens { (ks : List SpannedView) → map spanned_view self.old.tokens.items ≡ reverse ks → OnOk result (map spanned_view self.new.tokens.items ≡ reverse (spanned_view token.entry ∷ drop 1 ks)) }
    {
        self.tokens.pop();
        self.tokens.push(token)?;
        Ok(())
    }

    /// Reads the last token again, which then takes its own place.
    fn read_last_again(&mut self) -> Result<(), Fault>
        ensures { (s : Session) → Stands s self.old → MatchResult result
            (λ _. (is_some (slash_answered (state_of s)) ≡ true) × Stands (act_all s rereading) self.new)
            (λ fault. Lacks (slash_answered (state_of s)) fault) }
    {
        let Some(slash) = self.lexer.last_slash() else {
            return Err(Fault::NoSlash);
        };
        self.lexer.set_next_regexp(Some(slash));
        if let Some(token) = self.lexer.read()? {
            self.replace_last(token)?;
        }
        self.lexer.set_next_regexp(None);
        Ok(())
    }

    /// Reads so many tokens, and the last of them again.
    fn read_to_slash(&mut self, count: u64) -> Result<(), Fault>
        ensures { (s : Session) → Stands s self.old → MatchResult result
            (λ _. (is_some (slash_answered (state_of (behind_reads count s))) ≡ true) × Stands (act_all (behind_reads count s) rereading) self.new)
            (λ fault. Lacks (slash_answered (state_of (behind_reads count s))) fault) }
    {
        if !self.read_on(count)? {
            return Err(Fault::NoSlash);
        }
        self.read_last_again()
    }

    /// Reads up to the last of the tokens with these numbers, and each of those again.
    fn read_again(&mut self, numbers: &[u64]) -> Result<(), Fault>
        ensures { (s : Session) → Stands s self.old → MatchResult result
            (λ _. (t : Session) × (behind_rereads 0 s numbers.now ≡ Some t) × Stands t self.new)
            (λ fault. Lacks (behind_rereads 0 s numbers.now) fault) }
    {
        let mut before = 0;
        for number in numbers {
            self.read_to_slash(number.saturating_sub(before))?;
            before = *number;
        }
        Ok(())
    }
}

/// The lexer of a text that starts at the place 0, once the tokens with these numbers were read again. `comments` says whether
/// comments are collected.
pub fn open<'a>(
    alloc: Global,
    comments: bool,
    options: Options,
    rereads: &[u64],
    text: &'a str,
) -> Result<ReadAgain<'a>, Fault>
    requires { length text.now < 2 ^ 32 }
    ensures { MatchResult result
        (λ opened. (s : Session) × (session_behind comments options rereads.now text.now ≡ Some s) × Stands s opened)
        (λ fault. Lacks (session_behind comments options rereads.now text.now) fault) }
{
    let mut opened = ReadAgain {
        lexer: begin(alloc, comments, options, text)?,
        tokens: Vec::new(alloc),
    };
    opened.read_again(rereads)?;
    Ok(opened)
}
