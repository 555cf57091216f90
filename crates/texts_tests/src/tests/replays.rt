//! Steps that are replayed: what each answers, and what they come to.
use super::commands::Command::{
    self, Allow, Back, Contexts, Flags, Pop, Read, ReadAll, Reread, Save, Take, Withdraw,
};
use super::commands::steps_of;
use super::told::{Way, assert_text, gather_told, replay_told};
use listing::listing::{COLLECTING, MODULE};
use std::alloc::{AllocError, Global};
use std::process::Abort;
use std::test::Fail;

/// A text, the steps that are taken over it, and what they answer and come to.
type Row = (&'static str, &'static [Command], &'static str);

const ROWS: &[Row] = &[
    (
        "a / /b/g",
        &[Read, Read, Read, Reread, Read, Withdraw, Read],
        "0..1 lf name [a]; 2..3 - BinOp(Div); 4..5 - BinOp(Div); done; 4..8 - Regex [b] [g]; done; end; \
         ended; kept 3: 0..1 lf Word(Ident(Other)) 2..3 - BinOp(Div) 4..8 - Regex",
    ),
    (
        "a/ //x",
        &[Read, Read, Read, Reread],
        "0..1 lf name [a]; 1..2 - BinOp(Div); end; no slash; trailing 2 3..6 Line [x]; ended; \
         kept 2: 0..1 lf Word(Ident(Other)) 1..2 - BinOp(Div)",
    ),
    (
        "/x/g\\u0069",
        &[Read, Reread, Read, Withdraw, Read],
        "0..1 lf BinOp(Div); done; 0..10 lf Regex [x] owned [gi]; done; end; ended; kept 1: 0..10 lf Regex",
    ),
    (
        "a /b\n",
        &[Read, Read, Reread, Read],
        "0..1 lf name [a]; 2..3 - BinOp(Div); done; 2..4 - Error 2..4 Unterminated regexp literal; \
         kept 2: 0..1 lf Word(Ident(Other)) 2..4 - Error",
    ),
    // Each read begins at the slash, and one token is kept.
    (
        "/a/",
        &[Read, Reread, Read, Read, Withdraw, Read],
        "0..1 lf BinOp(Div); done; 0..3 lf Regex [a] []; 0..3 lf Regex [a] []; done; end; ended; kept 1: 0..3 lf Regex",
    ),
    (
        "}",
        &[Pop, Pop, Read, Pop],
        "done; no context; 0..1 lf RBrace; no context; kept 1: 0..1 lf RBrace",
    ),
    (
        "}",
        &[Contexts(&[]), Allow(false), Read],
        "done; done; 0..1 lf RBrace; kept 1: 0..1 lf RBrace",
    ),
];

/// Errors and comments of what is gone back on are not there.
const ROWS_OF_WAYS_BACK: &[Row] = &[
    (
        "a 1__2",
        &[Read, Save, Read, Back(0), Back(1)],
        "0..1 lf name [a]; done; 2..6 - Num [1__2] Decimal owned [12] Some(12); done; no save; \
         kept 1: 0..1 lf Word(Ident(Other))",
    ),
    (
        "a/*b*/",
        &[Read, Save, Read, Back(0)],
        "0..1 lf name [a]; done; end; done; kept 1: 0..1 lf Word(Ident(Other))",
    ),
    // A save stays, and what was read again since is gone.
    (
        "/a/b",
        &[
            Read,
            Save,
            Reread,
            Read,
            Save,
            Back(0),
            Read,
            Back(1),
            Withdraw,
            Read,
        ],
        "0..1 lf BinOp(Div); done; done; 0..4 lf Regex [a] [b]; done; done; 1..2 - name [a]; done; done; end; \
         ended; kept 1: 0..4 lf Regex",
    ),
];

/// What is gathered is what is replayed, with how many slashes are read again in the place of the answers.
const ROWS_OF_GATHERED: &[Row] = &[
    (
        "a / /b/g",
        &[Read, Read, Read, Reread, Read, Withdraw, Read],
        "1 again; ended; kept 3: 0..1 lf Word(Ident(Other)) 2..3 - BinOp(Div) 4..8 - Regex",
    ),
    (
        "a 1__2",
        &[Read, Save, Read, Back(0)],
        "0 again; kept 1: 0..1 lf Word(Ident(Other))",
    ),
    (
        "1__2 b",
        &[Save, Read, Back(0), Read, Save, Read, Back(1)],
        "0 again; recorded 0..1 A numeric separator is only allowed between two digits; kept 1: 0..4 lf Num",
    ),
    (
        "a/ //x",
        &[Read, Read, Read],
        "0 again; trailing 2 3..6 Line [x]; ended; kept 2: 0..1 lf Word(Ident(Other)) 1..2 - BinOp(Div)",
    ),
];

/// Errors are recorded until they are taken, and wait until the code is a module.
const ROWS_OF_ERRORS: &[Row] = &[
    (
        "1__2",
        &[Read, Take, Read],
        "0..4 lf Num [1__2] Decimal owned [12] Some(12); \
         taken 1; 0..1 A numeric separator is only allowed between two digits; end; ended; kept 1: 0..4 lf Num",
    ),
    (
        "<!--x",
        &[Read],
        "end; waiting 0..5 Legacy comments cannot be used in module code; leading 0 1..5 Line [x]; ended; kept 0:",
    ),
    (
        "<!--x",
        &[Read, Flags(MODULE)],
        "end; done; recorded 0..5 Legacy comments cannot be used in module code; leading 0 1..5 Line [x]; ended; kept 0:",
    ),
];

/// Tokens that a template holds, and one that is read behind a slash that was read again.
const ROWS_OF_KEPT: &[Row] = &[
    (
        "`${)x`",
        &[ReadAll],
        "0 again; ended; kept 6: 0..1 lf BackQuote 1..1 - Template 1..3 - DollarLBrace 3..4 - RParen \
         4..5 - Template 5..6 - BackQuote",
    ),
    (
        "/'/ a",
        &[
            Read,
            Save,
            Read,
            Back(0),
            Reread,
            Read,
            Withdraw,
            Read,
            Read,
        ],
        "1 again; ended; kept 2: 0..3 lf Regex 4..5 - Word(Ident(Other))",
    ),
];

/// What the steps answer and come to, with comments collected.
fn told(alloc: Global, text: &str, commands: &[Command], way: Way) -> Result<String, AllocError> {
    let steps = steps_of(alloc, commands, text.len())?;
    replay_told(alloc, COLLECTING, text, &steps, way)
}

fn assert_rows(rt: &impl Abort, alloc: Global, rows: &[Row], way: Way) -> Result<(), Fail> {
    for (text, commands, expected) in rows {
        assert_text(
            rt,
            text,
            told(alloc, text, commands, way)?.as_str(),
            expected,
        );
    }
    Ok(())
}

fn gathered(alloc: Global, text: &str, commands: &[Command]) -> Result<String, AllocError> {
    let steps = steps_of(alloc, commands, text.len())?;
    gather_told(alloc, COLLECTING, text, &steps)
}

#[test]
fn steps_are_gathered(rt: HostRuntime) -> Result<(), Fail> {
    for (text, commands, expected) in ROWS_OF_GATHERED {
        assert_text(
            &rt,
            text,
            gathered(rt.alloc(), text, commands)?.as_str(),
            expected,
        );
    }
    Ok(())
}

#[test]
fn steps_are_replayed(rt: HostRuntime) -> Result<(), Fail> {
    assert_rows(&rt, rt.alloc(), ROWS, Way::Replayed)
}

#[test]
fn going_back_leaves_nothing(rt: HostRuntime) -> Result<(), Fail> {
    assert_rows(&rt, rt.alloc(), ROWS_OF_WAYS_BACK, Way::Replayed)
}

#[test]
fn errors_are_taken_or_wait(rt: HostRuntime) -> Result<(), Fail> {
    assert_rows(&rt, rt.alloc(), ROWS_OF_ERRORS, Way::Replayed)
}

#[test]
fn these_tokens_are_kept(rt: HostRuntime) -> Result<(), Fail> {
    assert_rows(&rt, rt.alloc(), ROWS_OF_KEPT, Way::WithoutAnswers)
}
