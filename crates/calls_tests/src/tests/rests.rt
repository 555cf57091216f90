//! The rest of a text is read as in the whole text, from each token on; also from checkpoints that don't fit it, or are of a lexer
//! that went on before.
use super::rows::{Row, assert_rows, assert_written};
use driver::command::Command::{
    self, Copy, Forge, Go, Read, Resume, ResumeRest, ResumeWhole, Save, Swap, TakeFound, WriteAll,
    WriteRest,
};
use driver::command::Forgery::{self, At, Opened, Reread};
use driver::run::run;
use ecma_resuming::begin_of;
use ecma_stream::Lexer;
use listing::listing::{COLLECTING, FROM_SEVEN, MODULE, PLAIN, STRICT, Settings, TS, opened};
use std::alloc::{AllocError, Global};
use std::process::Abort;
use std::test::Fail;

/// What a text is read by, the text, how many tokens come before, and what is read behind these, over the rest of the text.
type Rest = (Settings, &'static str, usize, &'static str);

const RESTS: &[Rest] = &[
    (PLAIN, "a b", 0, "0..1 lf name [a]; 2..3 - name [b]"),
    (PLAIN, "a b", 1, "2..3 - name [b]"),
    (PLAIN, "a b", 2, ""),
    (PLAIN, "a\nb", 1, "2..3 lf name [b]"),
    (FROM_SEVEN, "a b", 1, "9..10 - name [b]"),
    // A slash that was answered may be read again; none is here.
    (PLAIN, "a / b", 2, "4..5 - name [b]"),
    // The comment of before is not told again, the one behind is.
    (
        COLLECTING,
        "/*x*/ a /*y*/ b",
        1,
        "14..15 - name [b]; trailing 7 8..13 Block [y]",
    ),
    // An error of before is not told again.
    (
        PLAIN,
        "1__2 3__4",
        1,
        "5..9 - Num [3__4] Decimal owned [34] Some(34); recorded 5..6 A numeric separator is only allowed between two digits",
    ),
    // The text of a template goes on behind what stands in it.
    (
        PLAIN,
        "`x${a}y`",
        5,
        "6..7 - Template [y] [y]; 7..8 - BackQuote",
    ),
];

#[test]
fn rests_are_read(rt: HostRuntime) -> Result<(), Fail> {
    for (settings, text, reads, expected) in RESTS {
        let commands = [
            Read(*reads),
            TakeFound,
            Save,
            ResumeRest,
            WriteAll,
            WriteRest,
        ];
        assert_written(&rt, rt.alloc(), (*settings, text), &commands, expected)?;
    }
    Ok(())
}

/// What a text is read by, the text, and a count of tokens, of which it has more.
type Text = (Settings, &'static str, usize);

const TEXTS: &[Text] = &[
    (PLAIN, "f(a / b, /re/g) { x => `y${ {z: 1__2} }w` }", 24),
    (
        COLLECTING,
        "a /*b*/ + // c\n d /*e\n*/ / f <!-- g\n h\n--> i",
        9,
    ),
    (COLLECTING, "/*a*/ {}/*b*/ // c\n", 3),
    (MODULE, "import { a } from 'b' \n <!-- c", 9),
    (STRICT, "010 + '\\07' 08 . \\u0061wait", 7),
    (TS, "let x: A<B>> = y! / z as any", 14),
    (FROM_SEVEN, "((((`${`${{}}`}`))))/ 2", 16),
    (PLAIN, "` ${ 'a", 4),
    (PLAIN, "\u{2028}é / ŷ\r\n'\u{1F600}'", 4),
];

/// What is read behind so many tokens by the lexer that read them, without what was found before.
fn wanted(
    alloc: Global,
    (settings, text): (Settings, &str),
    reads: usize,
) -> Result<String, AllocError> {
    run(
        alloc,
        settings,
        text,
        &[Read(reads), TakeFound, WriteAll, WriteRest],
    )
}

/// Behind so many tokens the rest is read as by the lexer that read them, and so is the whole text again.
fn assert_resumed(
    rt: &impl Abort,
    alloc: Global,
    text: (Settings, &str),
    reads: usize,
    wanted: &str,
) -> Result<(), AllocError> {
    for resumed in [ResumeRest, ResumeWhole] {
        let commands = [Read(reads), TakeFound, Save, resumed, WriteAll, WriteRest];
        assert_written(rt, alloc, text, &commands, wanted)?;
    }
    Ok(())
}

fn assert_same(
    rt: &impl Abort,
    alloc: Global,
    text: (Settings, &str),
    reads: usize,
) -> Result<(), AllocError> {
    let wanted = wanted(alloc, text, reads)?;
    assert_resumed(rt, alloc, text, reads, wanted.as_str())
}

#[test]
fn each_token_may_be_gone_on_from(rt: HostRuntime) -> Result<(), Fail> {
    for (settings, text, tokens) in TEXTS {
        for reads in 0..*tokens {
            assert_same(&rt, rt.alloc(), (*settings, text), reads)?;
        }
    }
    Ok(())
}

/// What is changed of a checkpoint behind `a /`, at 3, the rest of the text `a / b` that is given, from where the checkpoint
/// wants it, and what is read.
const FORGED: &[(Forgery, &str, &str)] = &[
    // Where the slash is that was answered.
    (At(3), "/ b", "4..5 - name [b]"),
    (At(5), "/ b", ""),
    (At(6), "/ b", "none"),
    (At(4_294_967_295), "/ b", "none"),
    // The place is inside a character.
    (At(4), "/é", "none"),
    // No slash is there.
    (At(3), "x b", "none"),
    (At(3), "", "none"),
    // The template is opened behind the slash, or behind the place.
    (Opened(3), "/ b", "none"),
    (Opened(4), "/ b", "none"),
    (Opened(2), "/ b", "4..5 - name [b]"),
    (Reread(2), "/ b/", "2..6 - Regex [ b] []"),
    (Reread(3), "/ b", "none"),
    // The rest begins at the slash that is read again.
    (Reread(0), "/ / b", "0..3 - Regex [ ] []; 4..5 - name [b]"),
];

#[test]
fn checkpoints_that_do_not_fit_are_not_gone_on_from(rt: HostRuntime) -> Result<(), Fail> {
    for (forgery, rest, expected) in FORGED {
        let commands = [
            Read(2),
            Save,
            Forge(*forgery),
            Resume(rest),
            WriteAll,
            WriteRest,
        ];
        assert_written(&rt, rt.alloc(), (PLAIN, "a / b"), &commands, expected)?;
    }
    Ok(())
}

/// A lexer over the whole text goes to a checkpoint of one that goes on over the rest, and the other way round.
const BOTH_WAYS: &[Row] = &[(
    PLAIN,
    "a b c",
    &[
        Read(1),
        Save,
        Copy,
        Resume(" b c"),
        Read(1),
        Save,
        Swap,
        Go(1),
        Read(1),
        Save,
        Swap,
        Go(2),
    ],
    "back; back",
)];

#[test]
fn checkpoints_go_both_ways(rt: HostRuntime) -> Result<(), Fail> {
    assert_rows(&rt, rt.alloc(), BOTH_WAYS)
}

fn begin_behind(lexer: &mut Lexer, reads: usize) -> Result<u32, AllocError> {
    for _ in 0..reads {
        drop(lexer.read()?);
    }
    Ok(begin_of(&lexer.checkpoint()?).0)
}

/// Where the rest begins from behind so many tokens of `a / b`: at the place, or at a slash before it.
const BEGINS: &[(usize, u32)] = &[(0, 0), (1, 1), (2, 2), (3, 5)];

#[test]
fn rests_begin_at_slashes(rt: HostRuntime) -> Result<(), Fail> {
    for (reads, begin) in BEGINS {
        let found = begin_behind(&mut opened(rt.alloc(), PLAIN, "a / b")?, *reads)?;
        assert!(rt; found == *begin);
    }
    Ok(())
}
