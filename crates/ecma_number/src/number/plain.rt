//! Plain decimal numbers, which most numbers are: our own, for speed.
ghost use Rattle.std.specs.Prelude.{◌≡◌, ◌==◌, ◌||◌, ◌<◌, ◌≤◌, [], Ok, true, false, Bool, length, take, slice_index_or, IfSome, IfNone, IsSome, IsTrue, ◌↔◌};
ghost use Rattle.std.specs.Char.{is_ascii_alphabetic};
ghost use Rattle.std.specs.List.{prefix_len};
ghost use Rattle.std.specs.Str.Parse.{digits_value};
ghost use Rattle.ecma_place.specs.Cursor.{rest, place, passed};
ghost use Rattle.ecma_syntax.specs.declared.settings.NumberRule.{NumberRule};
ghost use Rattle.ecma_token.specs.declared.token.Radix.TheVariants.{Decimal};
ghost use Rattle.ecma_token.specs.View.{token_view};
ghost use Rattle.ecma_grammar.specs.Found.{found_at, span_of, token_behind};
ghost use Rattle.ecma_grammar.specs.Numbers as numbers;
ghost use Rattle.ecma_number.specs.PlainNumbers.{IsPlain, StartsPlain, ends_number};

use ecma_place::{Atom, StringInput};
use ecma_token::{Radix, Token};

/// Whether the byte is a decimal digit.
#[inline(always)]
fn is_decimal(b: u8) -> bool
    ensures { result ≡ numbers.digit Decimal b }
{
    b.is_ascii_digit()
}

/// How many decimal digits the bytes begin with, and their value. `None` where that may not fit 64 bits; that
/// of 18 digits does.
#[inline(always)]
fn leading_value(bytes: &[u8]) -> Option<(usize, u64)>
    ensures count { IfSome result (λ r. r.0 ≡ prefix_len (numbers.digit Decimal) bytes.now) }
    ensures value { IfSome result (λ r. r.1 ≡ digits_value 10 (take r.0 bytes.now)) }
    ensures within { IfSome result (λ r. r.0 ≤ length bytes.now) }
    ensures long { IfNone result (18 < prefix_len (numbers.digit Decimal) bytes.now) }
{
    let mut value: u64 = 0;
    let mut count = 0;
    'digits: while count < bytes.len() && is_decimal(bytes[count]) {
        if value >= 100_000_000_000_000_000 {
            return None;
        }
        value = value * 10 + (bytes[count] - b'0') as u64;
        count += 1;
    }
    Some((count, value))
}

/// How many decimal digits the bytes begin with.
#[inline(always)]
fn leading_digits(bytes: &[u8]) -> usize
    ensures count { result ≡ prefix_len (numbers.digit Decimal) bytes.now }
    ensures within { result ≤ length bytes.now }
{
    let mut count = 0;
    'digits: while count < bytes.len() && is_decimal(bytes[count]) {
        count += 1;
    }
    count
}

/// Whether there is more than one digit, and the first is `0`.
#[inline(always)]
fn is_padded(bytes: &[u8], count: usize) -> bool
    requires { count ≤ length bytes.now }
    ensures { result ≡ numbers.is_legacy (take count bytes.now) }
{
    count > 1 && bytes[0] == b'0'
}

/// Whether a name begins with the ASCII character, or an escape.
#[inline(always)]
fn is_start(b: u8) -> bool
    ensures { result ≡ (((b == 36 || b == 95) || is_ascii_alphabetic b) || b == 92) }
{
    b == b'$' || b == b'_' || b.is_ascii_alphabetic() || b == b'\\'
}

/// Whether the byte is an ASCII character with which neither a name begins nor an escape.
#[inline(always)]
#[tactic(auto, unfolding(ecma_place::specs::Character::is_ident_start))]
fn ends_number(b: u8) -> bool
    ensures { result ≡ ends_number b }
{
    b < 128 && !is_start(b)
}

/// Whether such a byte comes behind so many.
#[inline(always)]
fn ends_at(bytes: &[u8], count: usize) -> bool
    ensures { IsTrue result ↔ (count < length bytes.now) × (ends_number (slice_index_or bytes.now count 0) ≡ true) }
{
    count < bytes.len() && ends_number(bytes[count])
}

/// How many bytes the plain number has that the bytes begin with, and its value where it is whole.
#[inline(always)]
fn plain_extent(bytes: &[u8]) -> Option<(usize, Option<u128>)>
    ensures plain { IfSome result (λ r. IsPlain bytes.now r.0 r.1) }
    ensures answered { (start : StartsPlain bytes.now) → length start.run ≤ 18 → IsSome result }
{
    let (count, value) = leading_value(bytes)?;
    if count == bytes.len() {
        return None;
    }
    if is_padded(bytes, count) {
        return None;
    }
    if bytes[count] != b'.' {
        return if ends_at(bytes, count) {
            Some((count, Some(value as u128)))
        } else {
            None
        };
    }
    let end = count + 1 + leading_digits(&bytes[count + 1..]);
    if ends_at(bytes, end) {
        Some((end, None))
    } else {
        None
    }
}

/// Moves behind the number at the cursor and returns its token, where it is plain: decimal digits with no zero before
/// others, whose value fits 64 bits, then perhaps a point and digits, if any, and behind them an ASCII character with which
/// neither a name begins nor an escape (ECMA-262 DecimalLiteral, 12.9.3). By each rule
/// [`scan_number`](crate::scan_number) finds the same token, with nothing else to report.
///
/// Each such number with at most 18 digits before its point is read. Of any other, and of one that ends the text,
/// it returns `None`, and the cursor is where it was.
///
/// The cursor is at a digit, or at a point and a digit. Nothing is allocated.
#[inline(always)]
pub fn eat_plain_number<'a>(input: &mut StringInput<'a>) -> Option<Token<'a>>
    requires { numbers.opens_number (rest input.old) ≡ true }
    ensures found { IfSome result (λ t. (ts1085 : Bool) (rule : NumberRule) →
        found_at token_behind (place input.old) (numbers.number ts1085 rule (rest input.old))
        ≡ record { value = Ok (token_view t); faults = []; extent = span_of (place input.old) (place input.new); line_break = false }) }
    ensures moved { IfSome result (λ _. (ts1085 : Bool) (rule : NumberRule) →
        input.new ≡ passed (length (numbers.number ts1085 rule (rest input.old)).spelling) input.old) }
    ensures same { IfNone result (input.new ≡ input.old) }
    ensures answered { (start : StartsPlain (rest input.old)) → length start.run ≤ 18 → IsSome result }
{
    let (count, whole) = plain_extent(input.as_str().as_bytes())?;
    let start = input.cur_pos();
    input.bump_bytes(count);
    let raw = input.slice(start, input.cur_pos());
    Some(Token::Num {
        raw: Atom::from(raw),
        radix: Radix::Decimal,
        digits: Atom::from(raw),
        whole,
    })
}
