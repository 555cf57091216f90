//! One reader, without a lexer.
ghost use Rattle.std.specs.Prelude.{◌≡◌, IsTrue, true};
ghost use Rattle.ecma_lexer.specs.Cursor.{rest};
ghost use Rattle.ecma_lexer.specs.Numbers.{opens_number};

use ecma_lexer::place::StringInput;
use ecma_lexer::scan::{Found, scan_number};
use ecma_lexer::syntax::NumberRule;
use ecma_lexer::token::Token;
use std::alloc::{AllocError, Global};

/// Whether a digit is at the cursor: a number begins there.
fn is_at_digit(input: &StringInput) -> bool
    ensures { IsTrue result → opens_number (rest input.now) ≡ true }
{
    match input.cur() {
        Some(c) => c.is_digit(10),
        None => false,
    }
}

/// The whole value of a number that was found.
fn whole_of(found: &Found<Token>) -> Option<u128> {
    match &found.value {
        Ok(Token::Num { whole, .. }) => *whole,
        _ => None,
    }
}

/// The whole value of the number at the cursor.
pub(crate) fn whole_value(
    alloc: Global,
    input: &mut StringInput,
) -> Result<Option<u128>, AllocError> {
    if !is_at_digit(input) {
        return Ok(None);
    }
    let found = scan_number(alloc, input, false, NumberRule::Standard)?;
    let whole = whole_of(&found);
    drop(found);
    Ok(whole)
}
