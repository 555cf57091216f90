//! Rows of slashes that are read by the flag, and by their places.
use super::canonical::{NOT_CLEAN, canon_told};
use super::texts::{Case, assert_read, in_order, steps_told, tokenized};
use super::told::{Way, assert_text, replay_told};
use ecma_place::{BytePos, StringInput};
use ecma_slashes::Slashes::{At, ByFlag};
use ecma_slashes::{Lexer, Slashes, ascend, read_by, read_by_flag, steps_by_flag};
use ecma_state::{Kept, Step};
use ecma_syntax::{AssignOp, BinOpToken, Context};
use ecma_token::TokenKind;
use listing::listing::{PLAIN, lexer_settings, opened};
use std::alloc::{AllocError, Global};
use std::process::Abort;
use std::test::Fail;

/// More reads than any row takes.
const READS: usize = 16;

pub(super) const DIVISION: TokenKind = TokenKind::BinOp(BinOpToken::Div);

pub(super) const REGEX: TokenKind = TokenKind::Regex;

pub(super) const ERROR: TokenKind = TokenKind::Error;

/// A text, which slashes begin regular expressions in it, how many of these are met, and a token of it: where it begins
/// and ends, and its kind.
pub(super) type Row = (&'static str, Slashes<'static>, usize, u32, u32, TokenKind);

const ROWS: &[Row] = &[
    ("a = /b/g", ByFlag, 1, 4, 8, REGEX),
    ("a / b / c", ByFlag, 0, 2, 3, DIVISION),
    ("a / b / c", ByFlag, 0, 6, 7, DIVISION),
    ("if (x) /c/", ByFlag, 1, 7, 10, REGEX),
    ("a++ / 2", ByFlag, 0, 4, 5, DIVISION),
    ("a.return / 2", ByFlag, 0, 9, 10, DIVISION),
    ("(x) / 2", ByFlag, 0, 4, 5, DIVISION),
    ("`${a}` /b", ByFlag, 0, 7, 8, DIVISION),
    ("for (x of /b/)", ByFlag, 1, 10, 13, REGEX),
    ("x = /=/", ByFlag, 1, 4, 7, REGEX),
    (
        "x /= 2",
        ByFlag,
        0,
        2,
        4,
        TokenKind::AssignOp(AssignOp::DivAssign),
    ),
    // Told wrongly, as the flag alone goes: this is a division by 42.
    ("{} /42", ByFlag, 1, 3, 6, ERROR),
];

const PLACED: &[Row] = &[
    ("a / b / c", At(&[]), 0, 2, 3, DIVISION),
    ("a / b / c", At(&[]), 0, 6, 7, DIVISION),
    ("a / b / c", At(&[BytePos(2)]), 1, 2, 7, REGEX),
    ("a = /b/g", At(&[]), 0, 4, 5, DIVISION),
    ("a = /b/g", At(&[BytePos(4)]), 1, 4, 8, REGEX),
    // The flag has no say: behind a name it allows no expression.
    ("a /b/g", At(&[BytePos(2)]), 1, 2, 6, REGEX),
    ("a /= b/", At(&[BytePos(2)]), 1, 2, 7, REGEX),
    ("/a/, /b/", At(&[BytePos(0), BytePos(5)]), 2, 5, 8, REGEX),
    // Of the places of a name, of a slash within an expression, and behind the text none is met.
    ("a / b", At(&[BytePos(0)]), 0, 2, 3, DIVISION),
    ("/a/, b", At(&[BytePos(0), BytePos(2)]), 1, 0, 3, REGEX),
    ("a / b", At(&[BytePos(2000)]), 0, 2, 3, DIVISION),
];

pub(super) fn case_of<'a>(text: &'a str, slashes: Slashes<'a>) -> Case<'a> {
    Case {
        settings: PLAIN,
        text,
        slashes,
    }
}

/// Whether such a token is among these, of texts of one line.
pub(super) fn holds(tokens: &[Kept], lo: u32, hi: u32, kind: TokenKind) -> bool {
    for token in tokens {
        if token.span.lo.0 == lo && token.span.hi.0 == hi && token.kind == kind {
            return token.flag == (lo == 0);
        }
    }
    false
}

/// Whether a text has the token of its row, and so many slashes are read again.
fn is_told(alloc: Global, row: &Row) -> Result<bool, AllocError> {
    let (text, slashes, met, lo, hi, kind) = row;
    let output = tokenized(alloc, case_of(text, *slashes))?;
    let holds = output.rereads == *met && holds(&output.gathered.kept, *lo, *hi, *kind);
    drop(output);
    Ok(holds)
}

pub(super) fn assert_rows(rt: &impl Abort, alloc: Global, rows: &[Row]) -> Result<(), Fail> {
    for row in rows {
        let (text, slashes, _, _, _, _) = row;
        assert_read(rt, alloc, case_of(text, *slashes))?;
        assert!(rt; is_told(alloc, row)?, "{text}: {slashes:?}");
    }
    Ok(())
}

/// What is kept of the next token.
fn next_kept(lexer: &mut Lexer, slashes: Slashes) -> Result<Option<Kept>, AllocError> {
    if lexer.reads_again() {
        return Ok(None);
    }
    let token = match slashes {
        Slashes::ByFlag => read_by_flag(lexer)?,
        _ => read_by(lexer, in_order(slashes))?,
    };
    let kept = Kept::of_answer(&token);
    drop(token);
    Ok(kept)
}

/// What is kept of the tokens, and of reads behind the end.
fn kept_of(alloc: Global, lexer: &mut Lexer, slashes: Slashes) -> Result<Vec<Kept>, AllocError> {
    let mut kept = Vec::new(alloc);
    for _ in 0..READS {
        if let Some(token) = next_kept(lexer, slashes)? {
            kept.push(token)?;
        }
    }
    Ok(kept)
}

/// What is kept where the tokens of a text are read one by one.
pub(super) fn one_by_one(alloc: Global, case: Case) -> Result<Vec<Kept>, AllocError> {
    let mut lexer = opened(alloc, case.settings, case.text)?;
    let kept = kept_of(alloc, &mut lexer, case.slashes);
    drop(lexer);
    kept
}

/// Whether the tokens that are read one by one are those of the text.
fn are_same(alloc: Global, case: Case) -> Result<bool, AllocError> {
    let alone = one_by_one(alloc, case)?;
    let output = tokenized(alloc, case)?;
    let are_same = alone.as_slice() == output.gathered.kept.as_slice();
    drop(output);
    Ok(are_same)
}

fn assert_one_by_one(rt: &impl Abort, alloc: Global, rows: &[Row]) -> Result<(), Fail> {
    for (text, slashes, _, _, _, _) in rows {
        assert!(rt;
            are_same(alloc, case_of(text, *slashes))?,
            "{text}: {slashes:?}"
        );
    }
    Ok(())
}

/// The steps by the flag.
fn flag_steps(alloc: Global, text: &str) -> Result<Vec<Step>, AllocError> {
    if !StringInput::fits(text, BytePos(0)) {
        return Err(AllocError);
    }
    steps_by_flag(
        alloc,
        &lexer_settings(PLAIN),
        Context::default(),
        text,
        BytePos(0),
    )
}

/// The steps by the flag are those of the rule, and their canonical text is there where no token is an error.
fn assert_by_flag(
    rt: &impl Abort,
    alloc: Global,
    text: &str,
    has_error: bool,
) -> Result<(), AllocError> {
    let steps = flag_steps(alloc, text)?;
    assert_steps(rt, alloc, text, &steps)?;
    assert!(rt; is_clean(alloc, text, &steps)? != has_error, "{text}");
    Ok(())
}

fn assert_steps(
    rt: &impl Abort,
    alloc: Global,
    text: &str,
    steps: &[Step],
) -> Result<(), AllocError> {
    let found = replay_told(alloc, PLAIN, text, steps, Way::WithoutAnswers)?;
    let wanted = steps_told(alloc, case_of(text, Slashes::ByFlag))?;
    assert_text(rt, text, found.as_str(), wanted.as_str());
    Ok(())
}

/// Whether a text has a canonical text.
fn is_clean(alloc: Global, text: &str, steps: &[Step]) -> Result<bool, AllocError> {
    let canon = canon_told(alloc, PLAIN, text, steps)?;
    Ok(canon.as_str() != NOT_CLEAN)
}

#[test]
fn slashes_are_told_by_the_flag(rt: HostRuntime) -> Result<(), Fail> {
    assert_rows(&rt, rt.alloc(), ROWS)?;
    assert_one_by_one(&rt, rt.alloc(), ROWS)
}

#[test]
fn steps_are_told_by_the_flag(rt: HostRuntime) -> Result<(), Fail> {
    for (text, _, _, _, _, kind) in ROWS {
        let has_error = matches!(kind, TokenKind::Error);
        assert_by_flag(&rt, rt.alloc(), text, has_error)?;
    }
    Ok(())
}

#[test]
fn slashes_are_told_by_their_places(rt: HostRuntime) -> Result<(), Fail> {
    assert_rows(&rt, rt.alloc(), PLACED)?;
    assert_one_by_one(&rt, rt.alloc(), PLACED)
}

#[test]
fn places_ascend_or_not(rt: HostRuntime) -> Result<(), Fail> {
    assert!(rt; ascend(&[]) && ascend(&[BytePos(7)]) && ascend(&[BytePos(0), BytePos(2)]));
    assert!(rt;
        !ascend(&[BytePos(2), BytePos(2)]) && !ascend(&[BytePos(0), BytePos(3), BytePos(1)])
    );
    Ok(())
}
