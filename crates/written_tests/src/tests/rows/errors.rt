//! Rows of errors, and their messages.
use ecma_rows::{Answer, ErrorRow, Status, write_errors};
use std::alloc::{AllocError, Global};
use std::test::Fail;

/// Where it lies, where it was found, and where its message begins and ends.
type Row = (u32, u32, u32, usize, usize);

/// A text, its options, its errors, and their messages, joined.
const ROWS: &[(&str, u32, &[Row], &str)] = &[
    ("a", 0, &[], ""),
    (
        "1__2",
        0,
        &[(0, 1, 1, 0, 54)],
        "A numeric separator is only allowed between two digits",
    ),
    (
        "'\\x4'",
        0,
        &[(1, 4, 0, 0, 56), (4, 5, 1, 56, 84)],
        "Bad character escape sequence, expected 2 hex charactersUnterminated string constant",
    ),
    ("` ", 0, &[(0, 2, 0, 0, 21)], "Unterminated template"),
    (
        "a\n-->x",
        0,
        &[(2, 5, 2, 0, 45)],
        "Legacy comments cannot be used in module code",
    ),
    (
        "a\n-->x",
        2,
        &[(2, 5, 1, 0, 45)],
        "Legacy comments cannot be used in module code",
    ),
];

const NONE: ErrorRow = ErrorRow {
    lo: 7,
    hi: 7,
    source: 7,
    message_lo: 7,
    message_hi: 7,
};

fn is_row(row: &ErrorRow, wanted: Row) -> bool {
    (row.lo, row.hi, row.source, row.message_lo, row.message_hi) == wanted
}

fn holds(room: &[ErrorRow], rows: &[Row]) -> bool {
    for (index, row) in room.iter().enumerate() {
        let holds = match rows.get(index) {
            Some(wanted) => is_row(row, *wanted),
            None => *row == NONE,
        };
        if !holds {
            return false;
        }
    }
    true
}

/// Whether the room begins with these bytes, as many as fit, and is as before behind them.
fn begins(room: &[u8], bytes: &[u8]) -> bool {
    for (index, byte) in room.iter().enumerate() {
        let wanted = match bytes.get(index) {
            Some(byte) => *byte,
            None => b'.',
        };
        if *byte != wanted {
            return false;
        }
    }
    true
}

fn is_told(
    alloc: Global,
    text: &str,
    options: u32,
    rows: &[Row],
    messages: &str,
) -> Result<bool, AllocError> {
    let mut room = [NONE; 3];
    let mut bytes = [b'.'; 90];
    let told = write_errors(alloc, text.as_bytes(), options, &[], &mut room, &mut bytes)?;
    let answer = Answer {
        status: Status::Done,
        count: rows.len(),
    };
    Ok(told == answer && holds(&room, rows) && begins(&bytes, messages.as_bytes()))
}

#[test]
fn texts_give_rows_of_errors(rt: HostRuntime) -> Result<(), Fail> {
    for (text, options, rows, messages) in ROWS {
        assert!(rt;
            is_told(rt.alloc(), text, *options, rows, messages)?,
            "{text} {options}"
        );
    }
    Ok(())
}

/// Where a room has place for less, what fits is written, and the count is that of all.
#[test]
fn little_room_has_what_fits(rt: HostRuntime) -> Result<(), Fail> {
    let text = b"'\\x4'";
    let mut room = [NONE; 2];
    let mut bytes = [b'.'; 3];
    let told = write_errors(rt.alloc(), text, 0, &[], &mut room, &mut bytes)?;
    let answer = Answer {
        status: Status::NoRoom,
        count: 2,
    };
    let rows = [(1, 4, 0, 0, 56), (4, 5, 1, 56, 84)];
    assert!(rt; told == answer && holds(&room, &rows) && begins(&bytes, b"Bad"));
    let mut room = [NONE; 1];
    let mut bytes = [b'.'; 84];
    let told = write_errors(rt.alloc(), text, 0, &[], &mut room, &mut bytes)?;
    assert!(rt; told == answer && holds(&room, &rows) && bytes[83] == b't');
    Ok(())
}
