//! Rows of lines and columns.
use ecma_positions::{LineStarts, Position};
use ecma_span::BytePos;
use std::alloc::{AllocError, Global};
use std::test::Fail;

/// A text, a place, and its line and column.
const ROWS: &[(&str, u32, (usize, usize))] = &[
    ("", 0, (1, 1)),
    ("a\nb", 0, (1, 1)),
    ("a\nb", 1, (1, 2)),
    ("a\nb", 2, (2, 1)),
    ("a\nb", 3, (2, 2)),
    ("\n\nab", 1, (2, 1)),
    ("\n\nab", 3, (3, 2)),
    // A column counts bytes.
    ("é\n𝒳x", 2, (1, 3)),
    ("é\n𝒳x", 7, (2, 5)),
    // Line feeds alone end a line.
    ("a\r\nb", 2, (1, 3)),
    ("a\r\nb", 3, (2, 1)),
    ("a\u{2028}b\rc", 6, (1, 7)),
    ("a", 9, (1, 10)),
];

fn is_at(
    alloc: Global,
    source: &str,
    place: u32,
    (line, column): (usize, usize),
) -> Result<bool, AllocError> {
    let lines = LineStarts::of(alloc, source.as_bytes())?;
    let place = BytePos(place);
    let wanted = Position { line, column };
    Ok(
        lines.position(place) == wanted
            && lines.position_near(place, line) == wanted
            && lines.position_near(place, line.saturating_sub(1)) == wanted
            && lines.position_near(place, 2) == wanted,
    )
}

#[test]
fn places_have_lines_and_columns(rt: HostRuntime) -> Result<(), Fail> {
    for (source, place, position) in ROWS {
        assert!(rt;
            is_at(rt.alloc(), source, *place, *position)?,
            "{source} {place}"
        );
    }
    Ok(())
}
