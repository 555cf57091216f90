//! Pieces that cover a text: of its tokens, its comments and what is left.
use super::commands::Command::ReadAll;
use super::commands::steps_of;
use super::told::assert_text;
use ecma_classes::{Class, Piece};
use ecma_pieces::classes_of_steps;
use ecma_place::{BytePos, StringInput};
use listing::listing::{COLLECTING, lexer_settings};
use std::alloc::{AllocError, Global};
use std::test::Fail;

/// A text and its pieces: where each begins and ends, and what it is.
type Row = (&'static str, &'static str);

const ROWS: &[Row] = &[
    (
        "f() /*a*/ //b",
        "0 1 token; 1 2 token; 2 3 token; 3 4 trivia; 4 9 comment; 9 10 trivia; 10 13 comment; ",
    ),
    (
        "x<!--y\nz",
        "0 1 token; 1 2 trivia; 2 6 comment; 6 7 trivia; 7 8 token; ",
    ),
    ("``", "0 1 token; 1 2 token; "),
    // The comment of a marker of bars lies in its token.
    ("\n||||||| base\ny", "0 1 trivia; 1 14 token; 14 15 token; "),
    // A comment that holds no byte has no piece.
    ("a\n-->\nb", "0 1 token; 1 6 trivia; 6 7 token; "),
    ("/*a", "0 3 trivia; "),
    ("", ""),
];

fn write_pieces(out: &mut String, pieces: &[Piece]) -> Result<(), AllocError> {
    for piece in pieces {
        let class = match piece.class {
            Class::Token => "token",
            Class::Comment => "comment",
            Class::Trivia => "trivia",
        };
        write!(out, "{} {} {class}; ", piece.span.lo.0, piece.span.hi.0)?;
    }
    Ok(())
}

/// The pieces of a text that is read to its end, with comments collected.
fn told(alloc: Global, text: &str) -> Result<String, AllocError> {
    let start = BytePos(0);
    if !StringInput::fits(text, start) {
        return Err(AllocError);
    }
    let steps = steps_of(alloc, &[ReadAll], text.len())?;
    let pieces = classes_of_steps(alloc, &lexer_settings(COLLECTING), text, start, &steps)?;
    let mut out = String::new(alloc);
    write_pieces(&mut out, &pieces)?;
    Ok(out)
}

#[test]
fn pieces_cover_a_text(rt: HostRuntime) -> Result<(), Fail> {
    for (text, expected) in ROWS {
        assert_text(&rt, text, told(rt.alloc(), text)?.as_str(), expected);
    }
    Ok(())
}
