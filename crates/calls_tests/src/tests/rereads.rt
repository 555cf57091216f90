//! Reading again from a slash, as a regular expression.
use super::rows::{Row, assert_rows};
use driver::command::Command::{Copy, Reread, Swap, Withdraw, WriteRest, WriteSlashes};
use listing::listing::PLAIN;
use std::test::Fail;

/// Behind each slash its place is written, as that of the slash that was answered last.
const AGAIN: &[Row] = &[
    // The expression takes the place of the second slash.
    (
        PLAIN,
        "a / /b/g",
        &[
            WriteSlashes(3),
            Reread,
            WriteSlashes(1),
            Withdraw,
            WriteSlashes(1),
            WriteRest,
        ],
        "0..1 lf name [a]; 2..3 - BinOp(Div); slash 2; 4..5 - BinOp(Div); slash 4; 4..8 - Regex [b] [g]; end",
    ),
    (
        PLAIN,
        "/x/g\\u0069",
        &[
            WriteSlashes(1),
            Reread,
            WriteSlashes(1),
            Withdraw,
            WriteSlashes(1),
            WriteRest,
        ],
        "0..1 lf BinOp(Div); slash 0; 0..10 lf Regex [x] owned [gi]; end",
    ),
    (
        PLAIN,
        "a /b\n",
        &[
            WriteSlashes(2),
            Reread,
            WriteSlashes(1),
            Withdraw,
            WriteSlashes(1),
            WriteRest,
        ],
        "0..1 lf name [a]; 2..3 - BinOp(Div); slash 2; 2..4 - Error 2..4 Unterminated regexp literal; end",
    ),
    // Each read begins at the slash, until that is taken back.
    (
        PLAIN,
        "/a/",
        &[
            WriteSlashes(1),
            Reread,
            WriteSlashes(2),
            Withdraw,
            WriteSlashes(1),
            WriteRest,
        ],
        "0..1 lf BinOp(Div); slash 0; 0..3 lf Regex [a] []; 0..3 lf Regex [a] []; end",
    ),
    (
        PLAIN,
        "/=/",
        &[
            WriteSlashes(1),
            Reread,
            WriteSlashes(1),
            Withdraw,
            WriteSlashes(1),
            WriteRest,
        ],
        "0..2 lf AssignOp(DivAssign); slash 0; 0..3 lf Regex [=] []; end",
    ),
    // A copy reads again too.
    (
        PLAIN,
        "/a/",
        &[
            WriteSlashes(1),
            Reread,
            Copy,
            Swap,
            WriteSlashes(1),
            Copy,
            Swap,
            WriteSlashes(1),
            Withdraw,
            Copy,
            Swap,
            WriteSlashes(1),
            WriteRest,
        ],
        "0..1 lf BinOp(Div); slash 0; 0..3 lf Regex [a] []; 0..3 lf Regex [a] []; end",
    ),
];

#[test]
fn a_slash_is_read_again(rt: HostRuntime) -> Result<(), Fail> {
    assert_rows(&rt, rt.alloc(), AGAIN)
}

/// Where no slash was answered last, reads go on.
const NO_SLASH: &[Row] = &[
    (
        PLAIN,
        "a/ //x",
        &[WriteSlashes(3), Reread, WriteSlashes(1), WriteRest],
        "0..1 lf name [a]; 1..2 - BinOp(Div); slash 1; end; end",
    ),
    (
        PLAIN,
        "/a/",
        &[Reread, WriteSlashes(4), WriteRest],
        "0..1 lf BinOp(Div); slash 0; 1..2 - name [a]; 2..3 - BinOp(Div); slash 2; end",
    ),
    (
        PLAIN,
        "a/b",
        &[
            WriteSlashes(1),
            Reread,
            WriteSlashes(2),
            Reread,
            WriteSlashes(1),
            WriteRest,
        ],
        "0..1 lf name [a]; 1..2 - BinOp(Div); slash 1; 2..3 - name [b]; end",
    ),
    (
        PLAIN,
        "/a/b/",
        &[
            WriteSlashes(1),
            Reread,
            WriteSlashes(1),
            Reread,
            WriteSlashes(1),
            WriteRest,
        ],
        "0..1 lf BinOp(Div); slash 0; 0..4 lf Regex [a] [b]; 4..5 - BinOp(Div); slash 4; not at the end",
    ),
];

#[test]
fn only_the_last_answer_is_read_again(rt: HostRuntime) -> Result<(), Fail> {
    assert_rows(&rt, rt.alloc(), NO_SLASH)
}
