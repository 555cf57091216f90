//! Reads of tokens with nothing else to report: most reads, without lists. Our own, for speed.
ghost use Rattle.std.specs.Prelude.{◌≡◌, ◌<◌, ◌≤◌, ℕ, Bool, true, false, Some, length, slice_get, IfNone, IfOk, IfSome, IsOk, OnErr, OnOk};
ghost use Rattle.ecma_place.specs.Cursor.{Cursor, HasPlace, rest, place, passed};
ghost use Rattle.ecma_syntax.specs.declared.settings.NumberRule.{NumberRule};
ghost use Rattle.ecma_syntax.specs.declared.settings.NumberRule.TheVariants.{Crate};
ghost use Rattle.ecma_token.specs.View.{spanned_view, token_view};
ghost use Rattle.ecma_reads.specs.Found.{found_at, found_view, span_of, token_behind};
ghost use Rattle.ecma_reads.specs.Numbers.{number, opens_number};
ghost use Rattle.ecma_reads.specs.Strings.{opens_string, string_literal};
ghost use Rattle.ecma_reads.specs.Templates.{template_found, template_text};
ghost use Rattle.ecma_plain.specs.Plain.{IsAhead, IsKept, IsPlain, PassesWord, StandsPlain, begins_word, plain_reading, plain_view, text_view};
ghost use Rattle.ecma_reads.specs.Alone.{IsSpelledBy, StandsAlone};
ghost use Rattle.ecma_state.specs.Mode.{is_template, is_tpl_element};
ghost use Rattle.ecma_state.specs.Reading.{reading};
ghost use Rattle.ecma_state.specs.TokenAt.{is_free_token, lookahead, ts1085};
ghost use Rattle.ecma_state.specs.declared.lookahead.Lookahead.TheVariants as opens;
ghost use Rattle.ecma_state.specs.declared.mode.Mode.{Mode};
ghost use Rattle.ecma_state.specs.declared.lookahead.Lookahead.{Lookahead};

use ecma_place::{BytePos, CharExt, Span, StringInput};
use ecma_reads::{
    BlankGap, Found, PunctuatorKind, eat_plain_kind, eat_plain_number, eat_plain_string,
    eat_punctuator, scan_blank_gap, scan_number, scan_string, scan_template, skip_white_space,
};
use ecma_state::kept::Kept;
use ecma_state::mode::Mode;
use ecma_syntax::{Word, WordKind};
use ecma_token::{Token, TokenAndSpan, TokenKind};
use std::alloc::{AllocError, Global};

/// A token that was found, behind a gap with this flag, where there is nothing else to report.
#[inline(always)]
fn plain_found<'a>(found: Found<'a, Token<'a>>, flag: bool) -> Option<TokenAndSpan<'a>>
    ensures token { IfSome result (λ t. found_view token_view found.entry ≡ plain_view (spanned_view t)) }
    ensures flag { IfSome result (λ t. t.had_line_break ≡ flag) }
{
    let Found {
        value,
        faults,
        extent,
        line_break,
    } = found;
    if line_break || !faults.is_empty() {
        return None;
    }
    match value {
        Ok(token) => Some(TokenAndSpan {
            token,
            had_line_break: flag,
            span: extent,
        }),
        Err(_) => None,
    }
}

/// A token, with nothing else to report, and what is kept of it.
#[derive(Drop)]
pub struct Plain<'a> {
    pub token: TokenAndSpan<'a>,
    pub kept: Kept,
}

/// A token with what is kept of it.
#[inline(always)]
pub fn with_kept<'a>(token: TokenAndSpan<'a>) -> Plain<'a>
    ensures token { result.token ≡ token.entry }
    ensures kept { IsKept result }
{
    let kept = Kept::of(&token);
    Plain { token, kept }
}

/// Whether a word begins with the character, which is ASCII, and is no backslash.
#[inline(always)]
pub fn begins_word(c: u8) -> bool
    ensures { result ≡ begins_word c }
{
    c == b'$' || c == b'_' || c.is_ascii_alphabetic()
}

/// The word of this kind between the place and the cursor, which is all of a word with no escape, behind a gap with this flag.
#[inline(always)]
fn word_between<'a>(
    input: &StringInput<'a>,
    flag: bool,
    start: BytePos,
    kind: WordKind,
) -> Plain<'a>
    requires there { HasPlace input.now start.0 }
    requires before { start.0 ≤ place input.now }
    ensures token { (mode : Mode) (old : Cursor) → lookahead mode flag (rest old) ≡ opens.Word → start.0 ≡ place old → PassesWord old input.now kind
        → IsPlain mode (spanned_view result.token) old input.now }
    ensures flag { result.token.had_line_break ≡ flag }
    ensures kept { IsKept result }
{
    let end = input.cur_pos();
    let span = Span::new(start, end);
    let word = Word::of_kind(kind, input.slice(start, end));
    Plain {
        token: TokenAndSpan {
            token: Token::Word(word),
            had_line_break: flag,
            span,
        },
        kept: Kept {
            kind: TokenKind::Word(kind),
            span,
            flag,
        },
    }
}

/// The word of this kind between the place and the cursor, which is all of a word with no escape, behind this gap.
#[inline(always)]
pub fn word_behind<'a>(
    input: &StringInput<'a>,
    gap: BlankGap,
    start: BytePos,
    kind: WordKind,
) -> Plain<'a>
    requires there { HasPlace input.now start.0 }
    requires before { start.0 ≤ place input.now }
    ensures token { (mode : Mode) (old : Cursor) → is_template mode.top ≡ false → start.0 ≡ place old
        → slice_get (rest old) 0 ≡ Some gap.next → begins_word gap.next ≡ true → PassesWord old input.now kind
        → IsPlain mode (spanned_view result.token) old input.now }
    ensures flag { result.token.had_line_break ≡ gap.line_break }
    ensures kept { IsKept result }
{
    word_between(input, gap.line_break, start, kind)
}

/// The punctuator at the cursor, behind this gap, which the character there spells alone.
#[inline(always)]
pub fn plain_alone<'a>(
    input: &mut StringInput<'a>,
    gap: BlankGap,
    kind: PunctuatorKind,
) -> Plain<'a>
    requires first { slice_get (rest input.old) 0 ≡ Some gap.next }
    requires spelled { IsSpelledBy gap.next kind }
    requires alone { StandsAlone (rest input.old) }
    ensures token { (mode : Mode) → is_template mode.top ≡ false → IsPlain mode (spanned_view result.token) input.old input.new }
    ensures flag { result.token.had_line_break ≡ gap.line_break }
    ensures kept { IsKept result }
    ensures moved { input.new ≡ passed 1 input.old }
{
    let start = input.cur_pos();
    input.bump();
    let span = Span::new(start, input.cur_pos());
    Plain {
        token: TokenAndSpan {
            token: kind.token(),
            had_line_break: gap.line_break,
            span,
        },
        kept: Kept {
            kind: kind.kind(),
            span,
            flag: gap.line_break,
        },
    }
}

/// The punctuator at the cursor, behind a gap with this flag, if there is one.
#[inline(always)]
pub fn plain_punctuator<'a>(
    input: &mut StringInput<'a>,
    mode: &Mode,
    flag: bool,
) -> Option<Plain<'a>>
    requires { lookahead mode.now flag (rest input.old) ≡ opens.Other }
    ensures token { IfSome result (λ plain. IsPlain mode.now (spanned_view plain.token) input.old input.new) }
    ensures flag { IfSome result (λ plain. plain.token.had_line_break ≡ flag) }
    ensures kept { IfSome result IsKept }
    ensures moved { IsAhead input.old input.new }
{
    let start = input.cur_pos();
    let kind = eat_punctuator(input, mode.type_mode())?;
    Some(with_kept(TokenAndSpan {
        token: kind.token(),
        had_line_break: flag,
        span: Span::new(start, input.cur_pos()),
    }))
}

/// The number at the cursor, behind a gap with this flag, where it is written with few decimal digits alone.
#[inline(always)]
pub fn eaten_number<'a>(input: &mut StringInput<'a>, flag: bool) -> Option<Plain<'a>>
    requires { opens_number (rest input.old) ≡ true }
    ensures token { IfSome result (λ plain. (legacy : Bool) (rule : NumberRule) →
        found_at token_behind (place input.old) (number legacy rule (rest input.old)) ≡ plain_view (spanned_view plain.token)) }
    ensures flag { IfSome result (λ plain. plain.token.had_line_break ≡ flag) }
    ensures kept { IfSome result IsKept }
    ensures moved { IfSome result (λ _. (legacy : Bool) (rule : NumberRule) → input.new ≡ passed (length (number legacy rule (rest input.old)).spelling) input.old) }
    ensures ahead { IfSome result (λ _. input.new ≡ passed (length (number false Crate (rest input.old)).spelling) input.old) }
    ensures same { IfNone result (input.new ≡ input.old) }
{
    let start = input.cur_pos();
    let token = eat_plain_number(input)?;
    Some(with_kept(TokenAndSpan {
        token,
        had_line_break: flag,
        span: Span::new(start, input.cur_pos()),
    }))
}

/// The number at the cursor, behind a gap with this flag, where nothing is wrong with it.
#[inline(always)]
pub fn plain_number<'a>(
    alloc: Global,
    input: &mut StringInput<'a>,
    mode: &Mode,
    flag: bool,
) -> Result<Option<TokenAndSpan<'a>>, AllocError>
    requires { opens_number (rest input.old) ≡ true }
    ensures token { IfOk result (λ found. IfSome found (λ t. found_at token_behind (place input.old) (number (ts1085 mode.now) mode.now.settings.numbers (rest input.old)) ≡ plain_view (spanned_view t))) }
    ensures flag { IfOk result (λ found. IfSome found (λ t. t.had_line_break ≡ flag)) }
    ensures moved { OnOk result (input.new ≡ passed (length (number (ts1085 mode.now) mode.now.settings.numbers (rest input.old)).spelling) input.old) }
    ensures same { OnErr result (input.new ≡ input.old) }
    ensures free { is_free_token Lookahead.Number (rest input.old) (number (ts1085 mode.now) mode.now.settings.numbers (rest input.old)) ≡ true → IsOk result }
{
    let found = scan_number(alloc, input, mode.ts1085(), mode.settings.numbers)?;
    Ok(plain_found(found, flag))
}

/// The string at the cursor, behind a gap with this flag, where it is written with no escape.
#[inline(always)]
pub fn eaten_string<'a>(input: &mut StringInput<'a>, flag: bool) -> Option<Plain<'a>>
    requires { opens_string (rest input.old) ≡ true }
    ensures token { IfSome result (λ plain. found_at token_behind (place input.old) (string_literal (rest input.old)) ≡ plain_view (spanned_view plain.token)) }
    ensures flag { IfSome result (λ plain. plain.token.had_line_break ≡ flag) }
    ensures kept { IfSome result IsKept }
    ensures moved { IfSome result (λ _. input.new ≡ passed (length (string_literal (rest input.old)).spelling) input.old) }
    ensures same { IfNone result (input.new ≡ input.old) }
{
    let start = input.cur_pos();
    let token = eat_plain_string(input)?;
    Some(with_kept(TokenAndSpan {
        token,
        had_line_break: flag,
        span: Span::new(start, input.cur_pos()),
    }))
}

/// The string at the cursor, behind a gap with this flag, where nothing is wrong with it and it holds no line
/// terminator.
#[inline(always)]
pub fn plain_string<'a>(
    alloc: Global,
    input: &mut StringInput<'a>,
    flag: bool,
) -> Result<Option<TokenAndSpan<'a>>, AllocError>
    requires { opens_string (rest input.old) ≡ true }
    ensures token { IfOk result (λ found. IfSome found (λ t. found_at token_behind (place input.old) (string_literal (rest input.old)) ≡ plain_view (spanned_view t))) }
    ensures flag { IfOk result (λ found. IfSome found (λ t. t.had_line_break ≡ flag)) }
    ensures moved { OnOk result (input.new ≡ passed (length (string_literal (rest input.old)).spelling) input.old) }
    ensures same { OnErr result (input.new ≡ input.old) }
    ensures free { is_free_token Lookahead.String (rest input.old) (string_literal (rest input.old)) ≡ true → IsOk result }
{
    let found = scan_string(alloc, input)?;
    Ok(plain_found(found, flag))
}

/// What is at the cursor in a template, its text or the sign behind that, where nothing is wrong with it.
#[inline(always)]
pub fn plain_text<'a>(
    alloc: Global,
    input: &mut StringInput<'a>,
    mode: &Mode,
) -> Result<Option<Plain<'a>>, AllocError>
    requires more { 0 < length (rest input.old) }
    requires opened { mode.now.opened.0 ≤ place input.old }
    ensures token { IfOk result (λ found. IfSome found (λ plain.
        template_found mode.now.opened.0 (place input.old) (template_text (is_tpl_element mode.now.previous) (rest input.old)) ≡ text_view (spanned_view plain.token))) }
    ensures kept { IfOk result (λ found. IfSome found IsKept) }
    ensures moved { OnOk result (input.new ≡ passed (length (template_text (is_tpl_element mode.now.previous) (rest input.old)).spelling) input.old) }
    ensures same { OnErr result (input.new ≡ input.old) }
    ensures free { is_free_token Lookahead.Template (rest input.old) (template_text (is_tpl_element mode.now.previous) (rest input.old)) ≡ true → IsOk result }
{
    let Found {
        value,
        faults,
        extent,
        line_break,
    } = scan_template(alloc, input, mode.opened, mode.is_after_template())?;
    // There are none: why an escape is refused is in the token.
    if !faults.is_empty() {
        return Ok(None);
    }
    match value {
        Ok(token) => Ok(Some(with_kept(TokenAndSpan {
            token,
            had_line_break: line_break,
            span: extent,
        }))),
        Err(_) => Ok(None),
    }
}

/// Template text, or the sign behind that, between two places.
#[inline(always)]
pub fn text_between<'a>(
    token: Token<'a>,
    line_break: bool,
    start: BytePos,
    end: BytePos,
) -> Plain<'a>
    requires { start.0 ≤ end.0 }
    ensures token { spanned_view result.token ≡ record { token = token_view token.entry; span = span_of start.0 end.0; had_line_break = line_break } }
    ensures kept { IsKept result }
{
    with_kept(TokenAndSpan {
        token,
        had_line_break: line_break,
        span: Span::new(start, end),
    })
}

/// The gap at the cursor with which a read begins, where there is nothing to report of it but the flag.
#[inline(always)]
pub fn plain_gap(input: &mut StringInput, mode: &Mode) -> Option<BlankGap>
    ensures { IfSome result (λ gap. StandsPlain mode.now input.old input.new gap) }
{
    if mode.shebang_allowed || !mode.passes_space() {
        return None;
    }
    scan_blank_gap(input, mode.first, mode.settings.comments)
}

/// The gap at the cursor with which a read begins behind a token, where it is nothing or one space, and no comment may begin
/// behind it: most gaps.
#[inline(always)]
pub fn plain_space(input: &mut StringInput, mode: &Mode) -> Option<BlankGap>
    ensures { IfSome result (λ gap. StandsPlain mode.now input.old input.new gap) }
{
    if mode.shebang_allowed || mode.first || !mode.passes_space() {
        return None;
    }
    let _ = input.eat_byte(b' ');
    match input.cur_as_ascii() {
        Some(next) if next > b' ' && next != b'/' && next != b'<' => Some(BlankGap {
            line_break: false,
            next,
        }),
        _ => None,
    }
}

/// The name behind the white space at the cursor, where it begins past ASCII and is written with no escape.
#[inline(always)]
pub fn plain_foreign<'a>(input: &mut StringInput<'a>, mode: &Mode) -> Option<Plain<'a>>
    ensures found { IfSome result (λ plain. reading mode.now input.old ≡ plain_reading (spanned_view plain.token) input.new) }
    ensures kept { IfSome result IsKept }
    ensures ahead { IfSome result (λ _. IsAhead input.old input.new) }
    ensures more { IfSome result (λ _. (c : ℕ) × (slice_get (rest input.old) 0 ≡ Some c)) }
{
    if mode.shebang_allowed || !mode.passes_space() {
        return None;
    }
    let terminator = skip_white_space(input);
    let c = input.cur()?;
    if c.is_ascii() || !c.is_ident_start() {
        return None;
    }
    let start = input.cur_pos();
    let kind = eat_plain_kind(input)?;
    Some(word_between(input, mode.first | terminator, start, kind))
}
