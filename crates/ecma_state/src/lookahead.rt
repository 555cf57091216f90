//! What the first characters of a text open.
ghost use Rattle.std.specs.Prelude.{◌≡◌, ◌||◌, ◌==◌, Some, slice_get};
ghost use Rattle.ecma_place.specs.Character.{is_ident_start};
ghost use Rattle.ecma_place.specs.Cursor.{rest};
ghost use Rattle.ecma_grammar.specs.Bars.{opens_bars};
ghost use Rattle.ecma_grammar.specs.Numbers.{opens_number};
ghost use Rattle.ecma_state.specs.TokenAt as tokens;

use crate::mode::Mode;
use ecma_place::{CharExt, StringInput};

/// What the first characters of a text open.
#[derive(Debug, Clone, Copy, PartialEq, Eq)]
pub enum Lookahead {
    /// What is in a template: its text, or a sign behind that.
    Template,
    Number,
    String,
    Word,
    /// A marker of bars, which is our own choice.
    Bars,
    /// A punctuator, or nothing.
    Other,
}

/// Whether a number is at the cursor, which is before the character `c`.
#[inline(always)]
fn stands_number(input: &StringInput, c: char) -> bool
    requires { slice_get (rest input.now) 0 ≡ Some c }
    ensures { result ≡ opens_number (rest input.now) }
{
    c.is_digit(10) || c == '.' && matches!(input.peek(), Some('0'..='9'))
}

/// Whether a word begins with the character. Only past ASCII it is looked up.
#[tactic(auto, unfolding(ecma_place::specs::Character::is_ident_start))]
#[inline(always)]
fn begins_word(c: char) -> bool
    ensures { result ≡ (is_ident_start c || c == 92) }
{
    if c.is_ascii() {
        c.is_ascii_alphabetic() || matches!(c, '$' | '_' | '\\')
    } else {
        c.is_ident_start()
    }
}

/// Whether a marker of bars is at the cursor, which is before the character `c`.
#[inline(always)]
fn stands_bars(input: &StringInput, c: char) -> bool
    requires { slice_get (rest input.now) 0 ≡ Some c }
    ensures { result ≡ opens_bars (rest input.now) }
{
    c == '|' && input.is_str("||||||| ")
}

impl Lookahead {
    /// What is at the cursor, which is before the character `c`, behind a gap with this flag.
    #[inline(always)]
    pub fn at(input: &StringInput, mode: &Mode, flag: bool, c: char) -> Lookahead
        requires { slice_get (rest input.now) 0 ≡ Some c }
        ensures { result ≡ tokens.lookahead mode.now flag (rest input.now) }
    {
        if mode.is_in_template() {
            Lookahead::Template
        } else if stands_number(input, c) {
            Lookahead::Number
        } else if c == '"' || c == '\'' {
            Lookahead::String
        } else if begins_word(c) {
            Lookahead::Word
        } else if flag && stands_bars(input, c) {
            Lookahead::Bars
        } else {
            Lookahead::Other
        }
    }
}
