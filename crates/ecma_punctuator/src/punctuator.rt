//! Punctuators.
ghost use Rattle.std.specs.Prelude.{◌≡◌, ◌∷◌, ◌<◌, [], Bool, true, false, Some, length, option_map, slice_get, IfSome, IfNone, if◌then◌else◌, IfOk, IsOk, OnOk};
ghost use Rattle.ecma_place.specs.Cursor.{rest, place, passed};
ghost use Rattle.ecma_grammar.specs.Found.{found_view, found_at, token_behind};
ghost use Rattle.ecma_grammar.specs.Punctuators as table;
ghost use Rattle.ecma_grammar.specs.Numbers.{opens_fraction};
ghost use Rattle.ecma_punctuator.specs.PunctuatorKinds.{kind_token};
ghost use Rattle.ecma_grammar.specs.Fronts.{begins_with};
ghost use Rattle.ecma_grammar.specs.Punctuators.{first_of, punctuators, token_in, spelling_in, count_behind, is_lone, begins_more, punctuator_in, angle_in, spells};
ghost use Rattle.ecma_place.specs.Text.{Text};
ghost use Rattle.ecma_token.specs.View.{token_view};

use crate::alone::{alone_kind, is_lone};
use crate::punctuator_kind::PunctuatorKind;
use ecma_grammar::found::Found;
use ecma_place::{Span, StringInput};
use ecma_syntax::{AssignOp, BinOpToken};
use ecma_token::Token;
use std::alloc::{AllocError, Global};

/// Moves behind the character, where the rest begins with it.
#[tactic(auto, using(ecma_grammar::proofs::PunctuatorLemmas::eating))]
fn eat_one(input: &mut StringInput, first: u8) -> bool
    requires { first < 128 }
    ensures value { result ≡ begins_with (first ∷ []) (rest input.old) }
    ensures moved { input.new ≡ (if result then passed 1 input.old else input.old) }
{
    input.eat_byte(first)
}

/// Moves behind the two characters, where the rest begins with them.
#[tactic(auto, using(ecma_grammar::proofs::PunctuatorLemmas::eating))]
pub(crate) fn eat_two(input: &mut StringInput, first: u8, second: u8) -> bool
    requires { first < 128 }
    ensures value { result ≡ begins_with (first ∷ second ∷ []) (rest input.old) }
    ensures moved { input.new ≡ (if result then passed 2 input.old else input.old) }
{
    if input.is_byte(first) && input.peek() == Some(second as char) {
        input.bump();
        input.bump();
        true
    } else {
        false
    }
}

/// Moves behind the three characters, where the rest begins with them.
#[tactic(auto, using(ecma_grammar::proofs::PunctuatorLemmas::eating))]
fn eat_three(input: &mut StringInput, first: u8, second: u8, third: u8) -> bool
    requires { first < 128 }
    ensures value { result ≡ begins_with (first ∷ second ∷ third ∷ []) (rest input.old) }
    ensures moved { input.new ≡ (if result then passed 3 input.old else input.old) }
{
    if input.is_byte(first)
        && input.peek() == Some(second as char)
        && input.peek_ahead() == Some(third as char)
    {
        input.bump();
        input.bump();
        input.bump();
        true
    } else {
        false
    }
}

/// The punctuator that begins with `.`, which is just before the cursor.
#[tactic(auto, using(ecma_grammar::proofs::PunctuatorLemmas::eating))]
fn behind_dot(input: &mut StringInput) -> PunctuatorKind
    ensures token { token_in (first_of punctuators (46 ∷ rest input.old)) ≡ Some (kind_token result) }
    ensures moved { input.new ≡ passed (count_behind (first_of punctuators (46 ∷ rest input.old))) input.old }
{
    if eat_two(input, b'.', b'.') {
        PunctuatorKind::DotDotDot
    } else {
        PunctuatorKind::Dot
    }
}

/// The punctuator that begins with `=`, which is just before the cursor.
#[tactic(auto, using(ecma_grammar::proofs::PunctuatorLemmas::eating))]
fn behind_equals(input: &mut StringInput) -> PunctuatorKind
    ensures token { token_in (first_of punctuators (61 ∷ rest input.old)) ≡ Some (kind_token result) }
    ensures moved { input.new ≡ passed (count_behind (first_of punctuators (61 ∷ rest input.old))) input.old }
{
    if eat_two(input, b'=', b'=') {
        PunctuatorKind::BinOp(BinOpToken::EqEqEq)
    } else if eat_one(input, b'=') {
        PunctuatorKind::BinOp(BinOpToken::EqEq)
    } else if eat_one(input, b'>') {
        PunctuatorKind::Arrow
    } else {
        PunctuatorKind::AssignOp(AssignOp::Assign)
    }
}

/// The punctuator that begins with `!`, which is just before the cursor.
#[tactic(auto, using(ecma_grammar::proofs::PunctuatorLemmas::eating))]
fn behind_bang(input: &mut StringInput) -> PunctuatorKind
    ensures token { token_in (first_of punctuators (33 ∷ rest input.old)) ≡ Some (kind_token result) }
    ensures moved { input.new ≡ passed (count_behind (first_of punctuators (33 ∷ rest input.old))) input.old }
{
    if eat_two(input, b'=', b'=') {
        PunctuatorKind::BinOp(BinOpToken::NotEqEq)
    } else if eat_one(input, b'=') {
        PunctuatorKind::BinOp(BinOpToken::NotEq)
    } else {
        PunctuatorKind::Bang
    }
}

/// The punctuator that begins with `<`, which is just before the cursor.
#[tactic(auto, using(ecma_grammar::proofs::PunctuatorLemmas::eating))]
fn behind_less(input: &mut StringInput) -> PunctuatorKind
    ensures token { token_in (first_of punctuators (60 ∷ rest input.old)) ≡ Some (kind_token result) }
    ensures moved { input.new ≡ passed (count_behind (first_of punctuators (60 ∷ rest input.old))) input.old }
{
    if eat_two(input, b'<', b'=') {
        PunctuatorKind::AssignOp(AssignOp::LShiftAssign)
    } else if eat_one(input, b'<') {
        PunctuatorKind::BinOp(BinOpToken::LShift)
    } else if eat_one(input, b'=') {
        PunctuatorKind::BinOp(BinOpToken::LtEq)
    } else {
        PunctuatorKind::BinOp(BinOpToken::Lt)
    }
}

/// The punctuator that begins with `>`, which is just before the cursor.
#[tactic(auto, using(ecma_grammar::proofs::PunctuatorLemmas::eating))]
fn behind_greater(input: &mut StringInput) -> PunctuatorKind
    ensures token { token_in (first_of punctuators (62 ∷ rest input.old)) ≡ Some (kind_token result) }
    ensures moved { input.new ≡ passed (count_behind (first_of punctuators (62 ∷ rest input.old))) input.old }
{
    if eat_three(input, b'>', b'>', b'=') {
        PunctuatorKind::AssignOp(AssignOp::ZeroFillRShiftAssign)
    } else if eat_two(input, b'>', b'>') {
        PunctuatorKind::BinOp(BinOpToken::ZeroFillRShift)
    } else if eat_two(input, b'>', b'=') {
        PunctuatorKind::AssignOp(AssignOp::RShiftAssign)
    } else if eat_one(input, b'>') {
        PunctuatorKind::BinOp(BinOpToken::RShift)
    } else if eat_one(input, b'=') {
        PunctuatorKind::BinOp(BinOpToken::GtEq)
    } else {
        PunctuatorKind::BinOp(BinOpToken::Gt)
    }
}

/// The punctuator that begins with `+`, which is just before the cursor.
#[tactic(auto, using(ecma_grammar::proofs::PunctuatorLemmas::eating))]
fn behind_plus(input: &mut StringInput) -> PunctuatorKind
    ensures token { token_in (first_of punctuators (43 ∷ rest input.old)) ≡ Some (kind_token result) }
    ensures moved { input.new ≡ passed (count_behind (first_of punctuators (43 ∷ rest input.old))) input.old }
{
    if eat_one(input, b'+') {
        PunctuatorKind::PlusPlus
    } else if eat_one(input, b'=') {
        PunctuatorKind::AssignOp(AssignOp::AddAssign)
    } else {
        PunctuatorKind::BinOp(BinOpToken::Add)
    }
}

/// The punctuator that begins with `-`, which is just before the cursor.
#[tactic(auto, using(ecma_grammar::proofs::PunctuatorLemmas::eating))]
fn behind_minus(input: &mut StringInput) -> PunctuatorKind
    ensures token { token_in (first_of punctuators (45 ∷ rest input.old)) ≡ Some (kind_token result) }
    ensures moved { input.new ≡ passed (count_behind (first_of punctuators (45 ∷ rest input.old))) input.old }
{
    if eat_one(input, b'-') {
        PunctuatorKind::MinusMinus
    } else if eat_one(input, b'=') {
        PunctuatorKind::AssignOp(AssignOp::SubAssign)
    } else {
        PunctuatorKind::BinOp(BinOpToken::Sub)
    }
}

/// The punctuator that begins with `*`, which is just before the cursor.
#[tactic(auto, using(ecma_grammar::proofs::PunctuatorLemmas::eating))]
fn behind_star(input: &mut StringInput) -> PunctuatorKind
    ensures token { token_in (first_of punctuators (42 ∷ rest input.old)) ≡ Some (kind_token result) }
    ensures moved { input.new ≡ passed (count_behind (first_of punctuators (42 ∷ rest input.old))) input.old }
{
    if eat_two(input, b'*', b'=') {
        PunctuatorKind::AssignOp(AssignOp::ExpAssign)
    } else if eat_one(input, b'*') {
        PunctuatorKind::BinOp(BinOpToken::Exp)
    } else if eat_one(input, b'=') {
        PunctuatorKind::AssignOp(AssignOp::MulAssign)
    } else {
        PunctuatorKind::BinOp(BinOpToken::Mul)
    }
}

/// The punctuator that begins with `/`, which is just before the cursor.
#[tactic(auto, using(ecma_grammar::proofs::PunctuatorLemmas::eating))]
fn behind_slash(input: &mut StringInput) -> PunctuatorKind
    ensures token { token_in (first_of punctuators (47 ∷ rest input.old)) ≡ Some (kind_token result) }
    ensures moved { input.new ≡ passed (count_behind (first_of punctuators (47 ∷ rest input.old))) input.old }
{
    if eat_one(input, b'=') {
        PunctuatorKind::AssignOp(AssignOp::DivAssign)
    } else {
        PunctuatorKind::BinOp(BinOpToken::Div)
    }
}

/// The punctuator that begins with `%`, which is just before the cursor.
#[tactic(auto, using(ecma_grammar::proofs::PunctuatorLemmas::eating))]
fn behind_percent(input: &mut StringInput) -> PunctuatorKind
    ensures token { token_in (first_of punctuators (37 ∷ rest input.old)) ≡ Some (kind_token result) }
    ensures moved { input.new ≡ passed (count_behind (first_of punctuators (37 ∷ rest input.old))) input.old }
{
    if eat_one(input, b'=') {
        PunctuatorKind::AssignOp(AssignOp::ModAssign)
    } else {
        PunctuatorKind::BinOp(BinOpToken::Mod)
    }
}

/// The punctuator that begins with `|`, which is just before the cursor.
#[tactic(auto, using(ecma_grammar::proofs::PunctuatorLemmas::eating))]
fn behind_bar(input: &mut StringInput) -> PunctuatorKind
    ensures token { token_in (first_of punctuators (124 ∷ rest input.old)) ≡ Some (kind_token result) }
    ensures moved { input.new ≡ passed (count_behind (first_of punctuators (124 ∷ rest input.old))) input.old }
{
    if eat_two(input, b'|', b'=') {
        PunctuatorKind::AssignOp(AssignOp::OrAssign)
    } else if eat_one(input, b'|') {
        PunctuatorKind::BinOp(BinOpToken::LogicalOr)
    } else if eat_one(input, b'=') {
        PunctuatorKind::AssignOp(AssignOp::BitOrAssign)
    } else {
        PunctuatorKind::BinOp(BinOpToken::BitOr)
    }
}

/// The punctuator that begins with `&`, which is just before the cursor.
#[tactic(auto, using(ecma_grammar::proofs::PunctuatorLemmas::eating))]
fn behind_ampersand(input: &mut StringInput) -> PunctuatorKind
    ensures token { token_in (first_of punctuators (38 ∷ rest input.old)) ≡ Some (kind_token result) }
    ensures moved { input.new ≡ passed (count_behind (first_of punctuators (38 ∷ rest input.old))) input.old }
{
    if eat_two(input, b'&', b'=') {
        PunctuatorKind::AssignOp(AssignOp::AndAssign)
    } else if eat_one(input, b'&') {
        PunctuatorKind::BinOp(BinOpToken::LogicalAnd)
    } else if eat_one(input, b'=') {
        PunctuatorKind::AssignOp(AssignOp::BitAndAssign)
    } else {
        PunctuatorKind::BinOp(BinOpToken::BitAnd)
    }
}

/// The punctuator that begins with `^`, which is just before the cursor.
#[tactic(auto, using(ecma_grammar::proofs::PunctuatorLemmas::eating))]
fn behind_caret(input: &mut StringInput) -> PunctuatorKind
    ensures token { token_in (first_of punctuators (94 ∷ rest input.old)) ≡ Some (kind_token result) }
    ensures moved { input.new ≡ passed (count_behind (first_of punctuators (94 ∷ rest input.old))) input.old }
{
    if eat_one(input, b'=') {
        PunctuatorKind::AssignOp(AssignOp::BitXorAssign)
    } else {
        PunctuatorKind::BinOp(BinOpToken::BitXor)
    }
}

/// The punctuator that begins with `?`, which is just before the cursor.
#[tactic(auto, using(ecma_grammar::proofs::PunctuatorLemmas::eating))]
fn behind_question(input: &mut StringInput) -> PunctuatorKind
    ensures token { token_in (first_of punctuators (63 ∷ rest input.old)) ≡ Some (kind_token result) }
    ensures moved { input.new ≡ passed (count_behind (first_of punctuators (63 ∷ rest input.old))) input.old }
{
    if eat_two(input, b'?', b'=') {
        PunctuatorKind::AssignOp(AssignOp::NullishAssign)
    } else if eat_one(input, b'?') {
        PunctuatorKind::BinOp(BinOpToken::NullishCoalescing)
    } else {
        PunctuatorKind::QuestionMark
    }
}

/// The punctuator that is this character, whatever follows it.
#[inline(always)]
fn lone(first: char) -> Option<PunctuatorKind>
    ensures some { IfSome result (λ kind. (text : Text) →
        first_of punctuators (first ∷ text) ≡ Some (spells (first ∷ []) (kind_token kind))) }
    ensures lone { IfSome result (λ _. is_lone first ≡ true) }
    ensures none { IfNone result (is_lone first ≡ false) }
{
    if !first.is_ascii() {
        return None;
    }
    let first = first as u8;
    if is_lone(first) {
        alone_kind(first)
    } else {
        None
    }
}

/// Whether punctuators begin with the character that go on by what follows it.
#[tactic(auto, unfolding(ecma_grammar::specs::Punctuators::begins_more))]
fn begins_more(first: char) -> bool
    ensures { result ≡ begins_more first }
{
    matches!(
        first,
        '.' | '=' | '!' | '<' | '>' | '+' | '-' | '*' | '/' | '%' | '|' | '&' | '^' | '?'
    )
}

/// The punctuator whose first character is just before the cursor.
#[tactic(auto, unfolding(ecma_grammar::specs::Punctuators::begins_more))]
fn behind_first(input: &mut StringInput, first: char) -> PunctuatorKind
    requires { begins_more first ≡ true }
    ensures token { token_in (first_of punctuators (first ∷ rest input.old)) ≡ Some (kind_token result) }
    ensures moved { input.new ≡ passed (count_behind (first_of punctuators (first ∷ rest input.old))) input.old }
{
    match first {
        '.' => behind_dot(input),
        '=' => behind_equals(input),
        '!' => behind_bang(input),
        '<' => behind_less(input),
        '>' => behind_greater(input),
        '+' => behind_plus(input),
        '-' => behind_minus(input),
        '*' => behind_star(input),
        '/' => behind_slash(input),
        '%' => behind_percent(input),
        '|' => behind_bar(input),
        '&' => behind_ampersand(input),
        '^' => behind_caret(input),
        _ => behind_question(input),
    }
}

/// `<` or `>`, which are single characters among types.
fn angle(type_mode: bool, first: char) -> Option<PunctuatorKind>
    ensures { option_map kind_token result ≡ angle_in type_mode first }
{
    match first {
        '<' if type_mode => Some(PunctuatorKind::BinOp(BinOpToken::Lt)),
        '>' if type_mode => Some(PunctuatorKind::BinOp(BinOpToken::Gt)),
        _ => None,
    }
}

/// Whether a point and a digit is at the cursor, with which a number begins.
fn opens_fraction(input: &StringInput) -> bool
    ensures { result ≡ opens_fraction (rest input.now) }
{
    if !input.is_byte(b'.') {
        return false;
    }
    match input.peek() {
        Some(second) => second.is_digit(10),
        None => false,
    }
}

/// Moves behind the punctuator at the cursor, which begins with this character.
fn longest(input: &mut StringInput, first: char) -> Option<PunctuatorKind>
    requires { slice_get (rest input.old) 0 ≡ Some first }
    ensures token { option_map kind_token result ≡ token_in (first_of punctuators (rest input.old)) }
    ensures moved { input.new ≡ passed (length (spelling_in (first_of punctuators (rest input.old)))) input.old }
{
    if let Some(kind) = lone(first) {
        input.bump();
        Some(kind)
    } else if begins_more(first) {
        input.bump();
        Some(behind_first(input, first))
    } else {
        None
    }
}

/// Moves behind the punctuator at the cursor, where that is one character whatever follows it.
#[inline(always)]
fn eat_lone(input: &mut StringInput) -> Option<PunctuatorKind>
    ensures token { IfSome result (λ kind. (type_mode : Bool) → Some (kind_token kind) ≡ token_in (punctuator_in type_mode (rest input.old))) }
    ensures moved { IfSome result (λ _. (type_mode : Bool) → input.new ≡ passed (length (spelling_in (punctuator_in type_mode (rest input.old)))) input.old) }
    ensures same { IfNone result (input.new ≡ input.old) }
{
    let first = input.cur_as_ascii()?;
    let kind = lone(first as char)?;
    input.bump();
    Some(kind)
}

/// Moves behind the punctuator at the cursor, if there is one, and returns it.
#[inline(never)]
fn eat_any(input: &mut StringInput, type_mode: bool) -> Option<PunctuatorKind>
    ensures token { option_map kind_token result ≡ token_in (punctuator_in type_mode (rest input.old)) }
    ensures moved { input.new ≡ passed (length (spelling_in (punctuator_in type_mode (rest input.old)))) input.old }
{
    match input.cur() {
        None => None,
        Some(first) => match angle(type_mode, first) {
            Some(kind) => {
                input.bump();
                Some(kind)
            }
            None => {
                if opens_fraction(input) {
                    None
                } else {
                    longest(input, first)
                }
            }
        },
    }
}

/// Moves behind the punctuator at the cursor, if there is one, and returns it: what [`scan_punct`] finds, without its extent.
/// Nothing is allocated. Our own, for speed.
#[inline(always)]
pub fn eat_punctuator(input: &mut StringInput, type_mode: bool) -> Option<PunctuatorKind>
    ensures token { option_map kind_token result ≡ token_in (punctuator_in type_mode (rest input.old)) }
    ensures moved { input.new ≡ passed (length (spelling_in (punctuator_in type_mode (rest input.old)))) input.old }
{
    // Most punctuators are one character.
    match eat_lone(input) {
        Some(kind) => Some(kind),
        None => eat_any(input, type_mode),
    }
}

/// The token of a punctuator, if there is one.
fn token_of<'a>(kind: Option<PunctuatorKind>) -> Option<Token<'a>>
    ensures { result ≡ option_map kind_token kind }
{
    match kind {
        Some(kind) => Some(kind.token()),
        None => None,
    }
}

/// Reads the punctuator at the cursor (ECMA-262 Punctuator), the longest there is, or nothing.
///
/// In type mode `<` and `>` are always single. None begins at a point before a digit. A punctuator does not allocate.
pub fn scan_punct<'a>(
    alloc: Global,
    input: &mut StringInput<'a>,
    type_mode: bool,
) -> Result<Found<'a, Option<Token<'a>>>, AllocError>
    ensures found { IfOk result (λ f. found_view (option_map token_view) f ≡
        found_at (λ n. option_map (token_behind n)) (place input.old) (table.punctuator type_mode (rest input.old))) }
    ensures moved { OnOk result
        (input.new ≡ passed (length (table.punctuator type_mode (rest input.old)).spelling) input.old) }
    ensures free { IsOk result }
{
    let start = input.cur_pos();
    let kind = eat_punctuator(input, type_mode);
    Ok(Found {
        value: Ok(token_of(kind)),
        faults: Vec::new(alloc),
        extent: Span::new(start, input.cur_pos()),
        line_break: false,
    })
}
