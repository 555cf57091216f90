//! One read: the gap, and then the end or the token at its place.
ghost use Rattle.std.specs.Prelude.{◌≡◌, ◌≤◌, true, None, option_map, if◌then◌else◌, IfOk, IsOk, OnOk};
ghost use Rattle.ecma_dispatch.specs.Besides.{IsBeside};
ghost use Rattle.ecma_token.specs.View.{spanned_view, token_view};
ghost use Rattle.ecma_reads.specs.Found.{found_view, value_view};
ghost use Rattle.ecma_place.specs.Cursor.{rest, place};
ghost use Rattle.ecma_reads.specs.Expressions.{opens_expression};
ghost use Rattle.ecma_reads.specs.Shebangs.{opens_shebang};
ghost use Rattle.ecma_state.specs.Reading.{reading, reading_again, reading_code, shebang_reading, spanned, is_free, is_free_again, is_free_code};
ghost use Rattle.ecma_state.specs.TokenAt as tokens;

use crate::token_at::{Taken, token_at};
use ecma_place::{Comment, StringInput};
use ecma_reads::{Blame, Found, scan_gap, scan_regexp, scan_shebang};
use ecma_state::mode::Mode;
use ecma_token::{Error, Token, TokenAndSpan};
use std::alloc::{AllocError, Global};

/// What a read found.
#[derive(Drop)]
pub struct Reading<'a> {
    /// A token, or nothing at the end.
    pub found: Option<TokenAndSpan<'a>>,
    pub besides: Besides<'a>,
}

/// What a read found beside the token.
#[derive(Drop)]
pub struct Besides<'a> {
    /// Whether no token came before, or there is a line terminator in the gap.
    pub end_flag: bool,
    /// What is wrong in the gap.
    pub gap_faults: Vec<(Blame, Error<'a>)>,
    /// What is wrong in the token.
    pub token_faults: Vec<(Blame, Error<'a>)>,
    /// The comments of the gap, each with whether it is for the next token.
    pub gap_comments: Vec<(Comment<'a>, bool)>,
    /// The comments in the token, likewise.
    pub token_comments: Vec<(Comment<'a>, bool)>,
}

/// A refused text is a token too.
fn token_of<'a>(value: Result<Token<'a>, Error<'a>>) -> Token<'a>
    ensures { token_view result ≡ tokens.token_of (value_view token_view value.entry) }
{
    match value {
        Ok(token) => token,
        Err(error) => Token::Error(error),
    }
}

/// What was found as a token, behind a gap with this flag, and what else is wrong with it.
fn spanned_token<'a>(
    found: Found<'a, Token<'a>>,
    flag: bool,
) -> (TokenAndSpan<'a>, Vec<(Blame, Error<'a>)>)
    ensures token { spanned_view result.0 ≡ spanned flag (found_view token_view found.entry) }
    ensures faults { result.1.items ≡ found.entry.faults.items }
{
    let token = TokenAndSpan {
        token: token_of(found.value),
        had_line_break: flag | found.line_break,
        span: found.extent,
    };
    (token, found.faults)
}

/// The shebang at the cursor, if there is one. Its flag is false.
fn shebang_at<'a>(
    alloc: Global,
    input: &mut StringInput<'a>,
) -> Result<Option<TokenAndSpan<'a>>, AllocError>
    ensures found { IfOk result (λ t. option_map spanned_view t ≡
        (if opens_shebang (rest input.old) then (shebang_reading input.old).found else None)) }
    ensures moved { OnOk result (input.new ≡
        (if opens_shebang (rest input.old) then (shebang_reading input.old).input else input.old)) }
    ensures free { IsOk result }
{
    let Found {
        value,
        faults: _,
        extent,
        line_break: _,
    } = scan_shebang(alloc, input)?;
    match value {
        Ok(Some(token)) => Ok(Some(TokenAndSpan {
            token,
            had_line_break: false,
            span: extent,
        })),
        Ok(None) => Ok(None),
        Err(_) => unreachable!(),
    }
}

/// Reads from the cursor on, where there is no shebang.
#[tactic(auto, unfolding(ecma_state::specs::Reading::reading_code))]
fn read_code<'a>(
    alloc: Global,
    input: &mut StringInput<'a>,
    mode: &Mode,
) -> Result<Reading<'a>, AllocError>
    requires { mode.now.opened.0 ≤ place input.old }
    ensures found { IfOk result (λ r. option_map spanned_view r.found ≡ (reading_code mode.now input.old).found) }
    ensures besides { IfOk result (λ r. IsBeside r.besides (reading_code mode.now input.old)) }
    ensures moved { OnOk result (input.new ≡ (reading_code mode.now input.old).input) }
    ensures free { is_free_code mode.now input.old ≡ true → IsOk result }
{
    let gap = scan_gap(alloc, input, &mode.gap_mode())?;
    let end_flag = gap.line_break;
    let Some(c) = input.cur() else {
        return Ok(Reading {
            found: None,
            besides: Besides {
                end_flag,
                gap_faults: gap.faults,
                token_faults: Vec::new(alloc),
                gap_comments: gap.comments,
                token_comments: Vec::new(alloc),
            },
        });
    };
    let Taken { found, comments } = token_at(alloc, input, mode, end_flag, c)?;
    let (token, token_faults) = spanned_token(found, end_flag);
    Ok(Reading {
        found: Some(token),
        besides: Besides {
            end_flag,
            gap_faults: gap.faults,
            token_faults,
            gap_comments: gap.comments,
            token_comments: comments,
        },
    })
}

/// Reads the regular expression at the cursor, which is at a slash with this flag.
pub fn read_again<'a>(
    alloc: Global,
    input: &mut StringInput<'a>,
    flag: bool,
) -> Result<Reading<'a>, AllocError>
    requires { opens_expression (rest input.old) ≡ true }
    ensures found { IfOk result (λ r. option_map spanned_view r.found ≡ (reading_again flag input.old).found) }
    ensures besides { IfOk result (λ r. IsBeside r.besides (reading_again flag input.old)) }
    ensures moved { OnOk result (input.new ≡ (reading_again flag input.old).input) }
    ensures free { is_free_again (rest input.old) ≡ true → IsOk result }
{
    let found = scan_regexp(alloc, input)?;
    let (token, token_faults) = spanned_token(found, flag);
    Ok(Reading {
        found: Some(token),
        besides: Besides {
            end_flag: flag,
            gap_faults: Vec::new(alloc),
            token_faults,
            gap_comments: Vec::new(alloc),
            token_comments: Vec::new(alloc),
        },
    })
}

/// Reads from the cursor on. No template was opened behind it.
pub fn read_from<'a>(
    alloc: Global,
    input: &mut StringInput<'a>,
    mode: &Mode,
) -> Result<Reading<'a>, AllocError>
    requires { mode.now.opened.0 ≤ place input.old }
    ensures found { IfOk result (λ r. option_map spanned_view r.found ≡ (reading mode.now input.old).found) }
    ensures besides { IfOk result (λ r. IsBeside r.besides (reading mode.now input.old)) }
    ensures moved { OnOk result (input.new ≡ (reading mode.now input.old).input) }
    ensures free { is_free mode.now input.old ≡ true → IsOk result }
{
    if !mode.shebang_allowed {
        return read_code(alloc, input, mode);
    }
    match shebang_at(alloc, input)? {
        Some(token) => Ok(Reading {
            found: Some(token),
            besides: Besides {
                end_flag: false,
                gap_faults: Vec::new(alloc),
                token_faults: Vec::new(alloc),
                gap_comments: Vec::new(alloc),
                token_comments: Vec::new(alloc),
            },
        }),
        None => read_code(alloc, input, mode),
    }
}
