//! Texts, in parts that have a colour or none, with marks below their lines.
use ecma_show::{Colour, Mark, Part, show};
use ecma_span::{BytePos, Span};
use std::alloc::{AllocError, Global};
use std::test::Fail;

/// A part of a text: how many bytes it has, and its colour.
type Run = (u32, Option<Colour>);

/// A mark: where its span begins and ends, its line and column, and its message.
type Note = (u32, u32, usize, usize, &'static str);

/// A text, its parts, its marks, whether it has colours, and what is shown.
type Case = (
    &'static str,
    &'static [Run],
    &'static [Note],
    bool,
    &'static str,
);

const CASES: &[Case] = &[
    ("", &[], &[], true, "1 | \n"),
    ("a", &[(1, None)], &[], false, "1 | a\n"),
    ("a\nb\n", &[(4, None)], &[], false, "1 | a\n2 | b\n3 | \n"),
    // Colours, which end with each line, and none where none are asked for.
    (
        "if x",
        &[(2, Some(Colour::Magenta)), (2, None)],
        &[],
        true,
        "1 | \u{1b}[35mif\u{1b}[0m x\n",
    ),
    (
        "if x",
        &[(2, Some(Colour::Magenta)), (2, None)],
        &[],
        false,
        "1 | if x\n",
    ),
    (
        "`\n`",
        &[(3, Some(Colour::Green))],
        &[],
        true,
        "1 | \u{1b}[32m`\u{1b}[0m\n2 | \u{1b}[32m`\u{1b}[0m\n",
    ),
    // Pictures of control characters.
    (
        "\u{1b}[2J\0\r\n\t\u{7f}é",
        &[(11, None)],
        &[],
        false,
        "1 | \u{241b}[2J\u{2400}\u{240d}\n2 | \t\u{2421}é\n",
    ),
    ("\u{7f}", &[(1, None)], &[], false, "1 | \u{2421}\n"),
    // Control characters that have no pictures, and characters beside them or with their bytes.
    ("a\u{9b}2Jb", &[(6, None)], &[], false, "1 | a\u{fffd}2Jb\n"),
    ("\u{80}", &[(2, None)], &[], false, "1 | \u{fffd}\n"),
    ("\u{9f}", &[(2, None)], &[], false, "1 | \u{fffd}\n"),
    ("\u{a0}", &[(2, None)], &[], false, "1 | \u{a0}\n"),
    (
        "\u{bf}\u{c0}\u{df}\u{201b}\u{1f600}",
        &[(13, None)],
        &[],
        false,
        "1 | \u{bf}\u{c0}\u{df}\u{201b}\u{1f600}\n",
    ),
    (
        "\u{90}\u{1b}\u{9c}\u{85}\n",
        &[(8, None)],
        &[],
        false,
        "1 | \u{fffd}\u{241b}\u{fffd}\u{fffd}\n2 | \n",
    ),
    (
        "\u{9d}\u{9d}\n",
        &[(2, Some(Colour::Green)), (0, None), (3, None)],
        &[],
        true,
        "1 | \u{1b}[32m\u{fffd}\u{1b}[0m\u{fffd}\n2 | \n",
    ),
    // Also where a part ends within one.
    (
        "\u{9b}m\u{a0}",
        &[(1, Some(Colour::Green)), (3, None), (1, None)],
        &[],
        true,
        "1 | \u{1b}[32m\u{1b}[0m\u{fffd}m\u{a0}\n",
    ),
    // Numbers of one width.
    (
        "\n\n\n\n\n\n\n\n\n",
        &[(9, None)],
        &[(8, 8, 9, 1, "e")],
        false,
        "1  | \n2  | \n3  | \n4  | \n5  | \n6  | \n7  | \n8  | \n9  | \n   | ^ e\n10 | \n",
    ),
    // A mark below its line: a tab below a tab, a space below each other character, a caret below each of the span.
    (
        "\té'ab",
        &[(6, None)],
        &[(3, 6, 1, 4, "m\u{7}\nn")],
        false,
        "1 | \té'ab\n  | \t ^^^ m\u{2407} n\n",
    ),
    // One column for what stands for a control character of two bytes.
    (
        "\u{9b}\u{a0}'\u{9b}b",
        &[(8, None)],
        &[(4, 8, 1, 5, "m\u{9b}2J\u{a0}\u{80}")],
        false,
        "1 | \u{fffd}\u{a0}'\u{fffd}b\n  |   ^^^ m\u{fffd}2J\u{a0}\u{fffd}\n",
    ),
    (
        "x\n",
        &[(2, None)],
        &[(0, 1, 1, 1, "m")],
        true,
        "1 | x\n  | \u{1b}[31m^ m\u{1b}[0m\n2 | \n",
    ),
    // One caret where the span is empty, none behind the end of the line, and two marks of one line in their order.
    (
        "ab\ncd",
        &[(5, None)],
        &[(1, 5, 1, 2, "m"), (2, 2, 1, 3, "n"), (5, 5, 2, 3, "o")],
        false,
        "1 | ab\n  |  ^ m\n  |   ^ n\n2 | cd\n  |   ^ o\n",
    ),
    // Of a mark that is far behind the column is told.
    (
        "x",
        &[(1, None)],
        &[(0, 1, 1, 401, "m")],
        false,
        "1 | x\n  | column 401: m\n",
    ),
    // A mark of a line that the text has not.
    (
        "x",
        &[(1, None)],
        &[(0, 1, 7, 1, "m")],
        false,
        "1 | x\n  | ^ m\n",
    ),
];

/// The parts, one behind the other.
fn parts_of(alloc: Global, runs: &[Run]) -> Result<Vec<Part>, AllocError> {
    let mut parts = Vec::new(alloc);
    let mut place: u32 = 0;
    for (count, colour) in runs {
        let behind = place.saturating_add(*count);
        parts.push(Part {
            span: Span {
                lo: BytePos(place),
                hi: BytePos(behind),
            },
            colour: *colour,
        })?;
        place = behind;
    }
    Ok(parts)
}

fn marks_of(alloc: Global, notes: &[Note]) -> Result<Vec<Mark>, AllocError> {
    let mut marks = Vec::new(alloc);
    for (lo, hi, line, column, message) in notes {
        marks.push(Mark {
            span: Span {
                lo: BytePos(*lo),
                hi: BytePos(*hi),
            },
            line: *line,
            column: *column,
            message: String::from_str(alloc, message)?,
        })?;
    }
    Ok(marks)
}

fn is_shown(alloc: Global, case: &Case) -> Result<bool, AllocError> {
    let (text, runs, notes, colours, wanted) = case;
    if text.len() > 1000 {
        return Ok(false);
    }
    let parts = parts_of(alloc, runs)?;
    let marks = marks_of(alloc, notes)?;
    let shown = show(alloc, text, &parts, &marks, *colours)?;
    Ok(shown.as_slice() == wanted.as_bytes())
}

#[test]
fn texts_are_shown(rt: HostRuntime) -> Result<(), Fail> {
    for case in CASES {
        assert!(rt; is_shown(rt.alloc(), case)?, "{}", case.0);
    }
    Ok(())
}
