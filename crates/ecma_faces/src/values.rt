//! What a token means, as a row tells it.
ghost use Rattle.std.specs.Prelude.{◌≡◌};
ghost use Rattle.ecma_token.specs.View.{spanned_view, token_view};
ghost use Rattle.ecma_print.specs.Rows.{more_view};
ghost use Rattle.ecma_print.specs.Values.{value_view};
ghost use Rattle.ecma_faces.specs.Values as rows;

use ecma_print::row::{More, Value};
use ecma_token::{Radix, Token, TokenAndSpan};

fn radix_number(radix: Radix) -> usize
    ensures { result ≡ rows.radix_number radix }
{
    match radix {
        Radix::Binary => 2,
        Radix::Octal => 8,
        Radix::Decimal => 10,
        Radix::Hex => 16,
    }
}

/// A whole number that a JSON number says exactly, also to readers for which each number is one of 64 bits with a point.
fn exact(whole: Option<u128>) -> Option<usize>
    ensures { result ≡ rows.exact whole }
{
    match whole {
        Some(number) if number < 9_007_199_254_740_992 => Some(number as usize),
        _ => None,
    }
}

/// What a token means. It is a call of its own, as it is seldom asked for and its locals are large.
#[inline(never)]
fn value_of<'t>(token: &'t Token) -> Value<'t>
    ensures { value_view result ≡ rows.value_of (token_view token.now) }
{
    match token {
        Token::Word(word) => Value::Text(word.as_str()),
        Token::Str { value, .. } => Value::Text(value.as_str()),
        Token::Template {
            cooked: Ok(cooked),
            ..
        } => Value::Text(cooked.as_str()),
        Token::Template { .. } => Value::Null,
        Token::Num {
            radix,
            digits,
            whole,
            ..
        } => Value::Digits {
            radix: radix_number(*radix),
            digits: digits.as_str(),
            exact: exact(*whole),
        },
        Token::BigInt { radix, digits, .. } => Value::Digits {
            radix: radix_number(*radix),
            digits: digits.as_str(),
            exact: None,
        },
        Token::Regex(pattern, flags) => Value::Expression {
            pattern: pattern.as_str(),
            flags: flags.as_str(),
        },
        _ => Value::Nothing,
    }
}

/// What is told of a token besides what all rows have: its value where that is asked for.
pub(crate) fn told<'t>(values: bool, token: &'t TokenAndSpan) -> More<'t>
    ensures { more_view result ≡ rows.told values (spanned_view token.now) }
{
    let line_break = token.had_line_break;
    if values {
        More::Valued {
            line_break,
            value: value_of(&token.token),
        }
    } else {
        More::LineBreak(line_break)
    }
}
