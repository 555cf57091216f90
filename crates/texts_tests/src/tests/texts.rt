//! Texts that are read to their end once: each reading comes to what the steps of its text come to.
ghost use Rattle.std.specs.Prelude.{◌≡◌, true};
ghost use Rattle.ecma_slashes.specs.Rereads.{is_in_order, rule_of};

use super::agreement::{SCRIPT, TEXTS};
use super::told::{assert_text, gather_told, write_gathered, write_left};
use ecma_place::{BytePos, Spanned, StringInput};
use ecma_reader::{LexOutput, Outcome, ReadOut, Reader, read_out, tokenize};
use ecma_slashes::{Slashes, ascend, steps_by};
use ecma_token::Error;
use listing::listing::{Settings, flags, lexer_settings, write_note};
use std::alloc::{AllocError, Global};
use std::process::Abort;
use std::test::Fail;

/// The same slashes, or those by the flag where places are not in order.
pub(super) fn in_order<'a>(slashes: Slashes<'a>) -> Slashes<'a>
    ensures { is_in_order (rule_of result) ≡ true }
{
    match slashes {
        Slashes::At(places) => {
            if ascend(places) {
                Slashes::At(places)
            } else {
                Slashes::ByFlag
            }
        }
        Slashes::ByFlag => Slashes::ByFlag,
        Slashes::ByRole => Slashes::ByRole,
        Slashes::Numbered(numbers) => Slashes::Numbered(numbers),
    }
}

/// A text, and how it is read.
#[derive(Clone, Copy)]
pub(super) struct Case<'a> {
    pub settings: Settings,
    pub text: &'a str,
    pub slashes: Slashes<'a>,
}

/// What the steps of a text come to.
pub(super) fn steps_told(alloc: Global, case: Case) -> Result<String, AllocError> {
    let start = BytePos(case.settings.start);
    if !StringInput::fits(case.text, start) {
        return Err(AllocError);
    }
    let settings = lexer_settings(case.settings);
    let context = flags(case.settings);
    let slashes = in_order(case.slashes);
    let steps = steps_by(alloc, &settings, context, case.text, start, slashes)?;
    gather_told(alloc, case.settings, case.text, &steps)
}

pub(super) fn tokenized<'a>(alloc: Global, case: Case<'a>) -> Result<LexOutput<'a>, AllocError> {
    let start = BytePos(case.settings.start);
    if !StringInput::fits(case.text, start) {
        return Err(AllocError);
    }
    let settings = lexer_settings(case.settings);
    let context = flags(case.settings);
    let slashes = in_order(case.slashes);
    tokenize(alloc, &settings, context, case.text, start, slashes)
}

fn tokenize_told(alloc: Global, case: Case) -> Result<String, AllocError> {
    let output = tokenized(alloc, case)?;
    let mut out = String::new(alloc);
    let written = write_gathered(&mut out, &output.gathered, output.rereads);
    drop(output);
    written?;
    Ok(out)
}

fn all_read<'a>(alloc: Global, case: Case<'a>) -> Result<ReadOut<'a>, AllocError> {
    let start = BytePos(case.settings.start);
    if !StringInput::fits(case.text, start) {
        return Err(AllocError);
    }
    let settings = lexer_settings(case.settings);
    let context = flags(case.settings);
    let slashes = in_order(case.slashes);
    read_out(alloc, &settings, context, case.text, start, slashes)
}

fn read_out_told(alloc: Global, case: Case) -> Result<String, AllocError> {
    let output = all_read(alloc, case)?;
    let mut out = String::new(alloc);
    let written = write_gathered(&mut out, &output.gathered, output.rereads);
    drop(output);
    written?;
    Ok(out)
}

/// Writes what a reader has left behind so many tokens, as it is written before the tokens that are kept.
fn write_outcome(out: &mut String, left: &Outcome, tokens: usize) -> Result<(), AllocError> {
    let (recorded, waiting) = (left.errors.as_slice(), left.waiting.as_slice());
    write!(out, "{} again", left.rereads)?;
    write_left(out, recorded, waiting, &left.comments, left.ended)?;
    write!(out, "; kept {tokens}:")
}

/// What a reader comes to that counts its tokens, and whether it told before how many slashes are read again.
fn count_told(alloc: Global, case: Case) -> Result<(String, bool), AllocError> {
    let start = BytePos(case.settings.start);
    if !StringInput::fits(case.text, start) {
        return Err(AllocError);
    }
    let settings = lexer_settings(case.settings);
    let context = flags(case.settings);
    let slashes = in_order(case.slashes);
    let mut reader = Reader::new(alloc, &settings, context, case.text, start, slashes)?;
    let tokens = reader.count_rest()?;
    let rereads = reader.rereads();
    let left = reader.finish();
    let is_told = left.rereads == rereads;
    let mut out = String::new(alloc);
    let written = write_outcome(&mut out, &left, tokens);
    drop(left);
    written?;
    Ok((out, is_told))
}

/// A text is read to its end, and a reader that counts its tokens has there what else was read.
fn assert_counted(
    rt: &impl Abort,
    alloc: Global,
    case: Case,
    read: &str,
) -> Result<(), AllocError> {
    let (counted, is_told) = count_told(alloc, case)?;
    let holds = is_told && read.starts_with(counted.as_str());
    assert!(rt;
        holds && read.contains("; ended; kept "),
        "{read}, counted {counted}"
    );
    Ok(())
}

/// The text comes to the same read once in each way, and by its steps.
pub(super) fn assert_read(rt: &impl Abort, alloc: Global, case: Case) -> Result<(), AllocError> {
    let by_steps = steps_told(alloc, case)?;
    assert_text(
        rt,
        case.text,
        tokenize_told(alloc, case)?.as_str(),
        by_steps.as_str(),
    );
    assert_text(
        rt,
        case.text,
        read_out_told(alloc, case)?.as_str(),
        by_steps.as_str(),
    );
    assert_counted(rt, alloc, case, by_steps.as_str())
}

/// Which slashes of the texts are read again.
const RULES: &[Slashes] = &[
    Slashes::ByFlag,
    Slashes::At(&[BytePos(3)]),
    Slashes::At(&[BytePos(5), BytePos(7)]),
    Slashes::At(&[BytePos(4), BytePos(6), BytePos(8), BytePos(10)]),
];

const MODULE: Settings = Settings {
    module: true,
    ..SCRIPT
};

fn assert_texts(
    rt: &impl Abort,
    alloc: Global,
    settings: Settings,
    slashes: Slashes,
) -> Result<(), AllocError> {
    for text in TEXTS {
        let case = Case {
            settings,
            text,
            slashes,
        };
        assert_read(rt, alloc, case)?;
    }
    Ok(())
}

#[test]
fn texts_read_once_come_to_their_steps(rt: HostRuntime) -> Result<(), Fail> {
    for slashes in RULES {
        assert_texts(&rt, rt.alloc(), SCRIPT, *slashes)?;
        assert_texts(&rt, rt.alloc(), MODULE, *slashes)?;
    }
    Ok(())
}

/// Texts, and where their tokens that are errors lie.
const REFUSED: &[(&str, &str)] = &[
    ("a / /b/g", ""),
    ("'a\nb", ""),
    ("3in 0x", "4..4; 9..9"),
    ("(/b\n= /[/", "4..6; 9..12"),
    ("", ""),
];

fn write_places(out: &mut String, errors: &[Error]) -> Result<(), AllocError> {
    for error in errors {
        let span = error.span();
        write_note(out, "")?;
        write!(out, "{}..{}", span.lo.0, span.hi.0)?;
    }
    Ok(())
}

/// Where the tokens of a text that are errors lie.
fn refusals_told(alloc: Global, text: &str) -> Result<String, AllocError> {
    let case = Case {
        settings: SCRIPT,
        text,
        slashes: Slashes::ByFlag,
    };
    let output = all_read(alloc, case)?;
    let mut out = String::new(alloc);
    let written = write_places(&mut out, &output.refusals);
    drop(output);
    written?;
    Ok(out)
}

#[test]
fn refused_tokens_are_told(rt: HostRuntime) -> Result<(), Fail> {
    for (text, expected) in REFUSED {
        assert_text(
            &rt,
            text,
            refusals_told(rt.alloc(), text)?.as_str(),
            expected,
        );
    }
    Ok(())
}
