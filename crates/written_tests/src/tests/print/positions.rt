//! Places that are asked for one after the other, forwards and backwards, in bytes and in units of UTF-16.
use ecma_positions::{Columns, Position, utf16_length};
use ecma_print::lines::Lines;
use ecma_span::BytePos;

/// Two lines: a quote, U+1D4B3, a quote; then a tab, U+E9, U+20AC and a.
const TEXT: &str = "'𝒳'\r\n\té€a";

/// A place, its line, and its column in bytes and in units of UTF-16.
const ROWS: &[(u32, usize, usize, usize)] = &[
    (0, 1, 1, 1),
    (1, 1, 2, 2),
    // A character beyond U+FFFF has four bytes and two units.
    (5, 1, 6, 4),
    (7, 1, 8, 6),
    (8, 2, 1, 1),
    (9, 2, 2, 2),
    (11, 2, 4, 3),
    (14, 2, 7, 4),
    (15, 2, 8, 5),
    // Back in the line, and to the line before.
    (11, 2, 4, 3),
    (9, 2, 2, 2),
    (14, 2, 7, 4),
    (6, 1, 7, 5),
    (15, 2, 8, 5),
    (0, 1, 1, 1),
    // Behind the end: so many bytes further, or the end.
    (20, 2, 13, 5),
];

#[test]
fn places_have_columns_in_both(rt: HostRuntime) {
    let mut bytes = Lines::new();
    let mut units = Lines::new();
    for (place, line, byte, unit) in ROWS {
        let place = BytePos(*place);
        let text = TEXT.as_bytes();
        assert!(rt;
            bytes.position(text, Columns::Bytes, place)
                == Position {
                    line: *line,
                    column: *byte
                }
                && units.position(text, Columns::Utf16, place)
                    == Position {
                        line: *line,
                        column: *unit
                    },
            "{}",
            place.0
        );
    }
}

/// One count may be asked for both by turns.
#[test]
fn units_are_counted_beside_bytes(rt: HostRuntime) {
    let mut lines = Lines::new();
    for (place, line, byte, unit) in ROWS {
        let place = BytePos(*place);
        let text = TEXT.as_bytes();
        assert!(rt;
            lines.position(text, Columns::Bytes, place)
                == Position {
                    line: *line,
                    column: *byte
                }
                && lines.position(text, Columns::Utf16, place)
                    == Position {
                        line: *line,
                        column: *unit
                    },
            "{}",
            place.0
        );
    }
}

#[test]
fn texts_have_units(rt: HostRuntime) {
    assert!(rt; utf16_length("".as_bytes()) == 0);
    assert!(rt; utf16_length(TEXT.as_bytes()) == 10);
    assert!(rt;
        utf16_length("\u{7f}\u{80}\u{7ff}\u{800}\u{ffff}\u{10000}\u{10ffff}".as_bytes()) == 9
    );
}
