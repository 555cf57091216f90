//! How deep the contexts of a lexer are behind its tokens, and what it says of its settings.
use super::rows::{Row, assert_rows, assert_written};
use driver::command::Command::{
    Allow, PopContext, Read, WriteAll, WriteContext, WriteDepths, WriteRecorded,
};
use ecma_span::BytePos;
use ecma_stream::{Lexer, Tokens};
use ecma_syntax::{EsVersion, Syntax};
use listing::listing::{FROM_SEVEN, PLAIN, opened};
use std::alloc::{AllocError, Global};
use std::test::Fail;

const DEPTHS: &[Row] = &[(
    PLAIN,
    "x=function(){}",
    &[WriteDepths],
    "0..1 lf name [x] (1); 1..2 - AssignOp(Assign) (1); 2..10 - keyword function (2); 10..11 - LParen (3); \
     11..12 - RParen (2); 12..13 - LBrace (3); 13..14 - RBrace (1)",
)];

#[test]
fn contexts_go_by_the_tokens(rt: HostRuntime) -> Result<(), Fail> {
    assert_rows(&rt, rt.alloc(), DEPTHS)
}

/// In no context, where no expression may begin. A function begins one there.
const OUTSIDE: &[Row] = &[(
    PLAIN,
    "} function",
    &[PopContext, Allow(false), WriteDepths, WriteContext],
    "0..1 lf RBrace (0); 2..10 - keyword function (1); contexts 1 Some(FnExpr)",
)];

#[test]
fn contexts_may_be_none(rt: HostRuntime) -> Result<(), Fail> {
    assert_rows(&rt, rt.alloc(), OUTSIDE)
}

fn push_times(all: &mut String, text: &str, times: usize) -> Result<(), AllocError> {
    for _ in 0..times {
        all.push_str(text)?;
    }
    Ok(())
}

/// A text that opens 129 contexts, and closes them.
fn nested(alloc: Global) -> Result<String, AllocError> {
    let mut text = String::new(alloc);
    push_times(&mut text, "(", 129)?;
    push_times(&mut text, ")", 129)?;
    Ok(text)
}

/// Up to 128 contexts stand in place.
#[test]
fn contexts_may_be_many(rt: HostRuntime) -> Result<(), Fail> {
    let text = nested(rt.alloc())?;
    assert_written(
        &rt,
        rt.alloc(),
        (PLAIN, text.as_str()),
        &[
            Read(126),
            WriteContext,
            Read(1),
            WriteContext,
            Read(1),
            WriteContext,
            Read(1),
            WriteContext,
            Read(1),
            WriteContext,
            Read(1),
            WriteContext,
            Read(127),
            WriteContext,
        ],
        "contexts 127 Some(ParenExpr); contexts 128 Some(ParenExpr); contexts 129 Some(ParenExpr); contexts 130 Some(ParenExpr); \
         contexts 129 Some(ParenExpr); contexts 128 Some(ParenExpr); contexts 1 Some(BraceStmt)",
    )?;
    Ok(())
}

/// Writes the tokens of one opening of a template and of what stands in it, which begins there.
fn write_opening(out: &mut String, flag: &str, lo: u32) -> Result<(), AllocError> {
    let text = lo.saturating_add(1);
    let hi = lo.saturating_add(3);
    write!(out, "{lo}..{text} {flag} BackQuote; ")?;
    write!(out, "{text}..{text} - Template [] []; ")?;
    write!(out, "{text}..{hi} - DollarLBrace")
}

/// The tokens of a thousand openings, one in the other.
fn openings(alloc: Global) -> Result<String, AllocError> {
    let mut out = String::new(alloc);
    write_opening(&mut out, "lf", 0)?;
    for number in 1..1000u32 {
        out.push_str("; ")?;
        write_opening(&mut out, "-", number.saturating_mul(3))?;
    }
    Ok(out)
}

/// A template between whose parts nothing stands has an empty text in each place.
#[test]
fn empty_texts_stand_alone(rt: HostRuntime) -> Result<(), Fail> {
    let mut text = String::new(rt.alloc());
    push_times(&mut text, "`${", 1000)?;
    let expected = openings(rt.alloc())?;
    let commands = [WriteAll, WriteRecorded];
    assert_written(
        &rt,
        rt.alloc(),
        (PLAIN, text.as_str()),
        &commands,
        expected.as_str(),
    )?;
    Ok(())
}

/// Where the text of a lexer starts, the version that it is for, and whether its settings are the usual ones.
fn settings_of(lexer: &Lexer) -> (BytePos, EsVersion, bool) {
    let is_usual = lexer.syntax() == Syntax::default();
    (lexer.start_pos(), lexer.target(), is_usual)
}

#[test]
fn says_its_settings(rt: HostRuntime) -> Result<(), Fail> {
    let lexer = opened(rt.alloc(), FROM_SEVEN, "a b")?;
    assert!(rt; settings_of(&lexer) == (BytePos(7), EsVersion::Es2020, true));
    Ok(())
}
