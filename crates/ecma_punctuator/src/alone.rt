//! Punctuators of one character, found by that character and the byte behind it: our own, for speed.
ghost use Rattle.std.specs.Prelude.{◌≡◌, ◌<◌, ◌||◌, ◌&&◌, ◌==◌, Bool, true, false, None, Some, [], ◌∷◌, slice_get, IfNone, IfSome};
ghost use Rattle.std.specs.Char.{is_ascii_digit};
ghost use Rattle.ecma_place.specs.Cursor.{rest};
ghost use Rattle.ecma_grammar.specs.Punctuators.{is_lone, punctuator_in};
ghost use Rattle.ecma_punctuator.specs.Alone.{IsSpelledBy, StandsAlone};

use crate::punctuator_kind::PunctuatorKind;
use ecma_place::StringInput;
use ecma_syntax::{AssignOp, BinOpToken};

/// The punctuator that the character alone spells (ECMA-262 Punctuator, 12.8), if there is one.
#[inline(always)]
#[tactic(auto, unfolding(ecma_grammar::specs::Punctuators::is_lone, ecma_grammar::specs::Punctuators::begins_more))]
pub fn alone_kind(c: u8) -> Option<PunctuatorKind>
    ensures spelled { IfSome result (IsSpelledBy c) }
    ensures ascii { IfSome result (λ _. c < 128) }
    ensures none { IfNone result ((type_mode : Bool) → punctuator_in type_mode (c ∷ []) ≡ None) }
    ensures lone { IfNone result (is_lone c ≡ false) }
{
    match c {
        b'{' => Some(PunctuatorKind::LBrace),
        b'}' => Some(PunctuatorKind::RBrace),
        b'(' => Some(PunctuatorKind::LParen),
        b')' => Some(PunctuatorKind::RParen),
        b'[' => Some(PunctuatorKind::LBracket),
        b']' => Some(PunctuatorKind::RBracket),
        b';' => Some(PunctuatorKind::Semi),
        b',' => Some(PunctuatorKind::Comma),
        b'~' => Some(PunctuatorKind::Tilde),
        b'@' => Some(PunctuatorKind::At),
        b'#' => Some(PunctuatorKind::Hash),
        b':' => Some(PunctuatorKind::Colon),
        b'`' => Some(PunctuatorKind::BackQuote),
        b'.' => Some(PunctuatorKind::Dot),
        b'=' => Some(PunctuatorKind::AssignOp(AssignOp::Assign)),
        b'!' => Some(PunctuatorKind::Bang),
        b'<' => Some(PunctuatorKind::BinOp(BinOpToken::Lt)),
        b'>' => Some(PunctuatorKind::BinOp(BinOpToken::Gt)),
        b'+' => Some(PunctuatorKind::BinOp(BinOpToken::Add)),
        b'-' => Some(PunctuatorKind::BinOp(BinOpToken::Sub)),
        b'*' => Some(PunctuatorKind::BinOp(BinOpToken::Mul)),
        b'/' => Some(PunctuatorKind::BinOp(BinOpToken::Div)),
        b'%' => Some(PunctuatorKind::BinOp(BinOpToken::Mod)),
        b'|' => Some(PunctuatorKind::BinOp(BinOpToken::BitOr)),
        b'&' => Some(PunctuatorKind::BinOp(BinOpToken::BitAnd)),
        b'^' => Some(PunctuatorKind::BinOp(BinOpToken::BitXor)),
        b'?' => Some(PunctuatorKind::QuestionMark),
        _ => None,
    }
}

/// Whether no punctuator of two or more characters begins with the character.
#[inline(always)]
#[tactic(auto, unfolding(ecma_grammar::specs::Punctuators::is_lone))]
pub(crate) fn is_lone(c: u8) -> bool
    ensures { result ≡ is_lone c }
{
    matches!(
        c,
        b'{' | b'}' | b'(' | b')' | b'[' | b']' | b';' | b',' | b'~' | b'@' | b'#' | b':' | b'`'
    )
}

/// Whether a punctuator of two or more characters may begin with these two: its second is the first again or `=`, or the
/// `>` of `=>`.
#[inline(always)]
fn goes_on(c: u8, next: u8) -> bool
    ensures { result ≡ ((next == c || next == 61) || (c == 61 && next == 62)) }
{
    next == c || next == b'=' || (c == b'=' && next == b'>')
}

/// Whether the two are a point and a digit, with which a number begins.
#[inline(always)]
fn opens_fraction(c: u8, next: u8) -> bool
    ensures { result ≡ (c == 46 && is_ascii_digit next) }
{
    c == b'.' && next.is_ascii_digit()
}

/// Whether the byte behind the character `c`, which is at the cursor, shows that the character is no part of a longer
/// punctuator and begins no number.
///
/// False where nothing follows, though the character may be alone.
#[inline(always)]
pub fn stands_alone(input: &StringInput, c: u8) -> bool
    requires ascii { c < 128 }
    requires first { slice_get (rest input.now) 0 ≡ Some c }
    ensures { result ≡ true → StandsAlone (rest input.now) }
{
    match input.byte_ahead(1) {
        Some(next) => !goes_on(c, next) && !opens_fraction(c, next),
        None => false,
    }
}
