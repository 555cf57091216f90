//! Rows of tokens. Kinds are those of the table of numbers: 6 `(`, 7 `)`, 12 `;`, 15 template text, 22 a string, 23 a regular
//! expression, 24 a number, 14 a back quote, 31 an error, 78 `/`, 96 `=`, 146 `let`, 195 a name, 258 `async`.
use ecma_rows::{Answer, Status, TokenRow, count_tokens, write_tokens};
use std::alloc::{AllocError, Global};
use std::test::Fail;

/// Where a token begins and ends, its kind and its flags.
type Row = (u32, u32, u16, u16);

/// A text, its options, the places of its slashes, and its tokens.
const ROWS: &[(&str, u32, &[u32], &[Row])] = &[
    ("", 0, &[], &[]),
    ("let x", 0, &[], &[(0, 3, 146, 1), (4, 5, 195, 0)]),
    ("a\nb", 0, &[], &[(0, 1, 195, 1), (2, 3, 195, 1)]),
    // An escape in a name, in a known name, in a string; a separator in a number; a line end in a template text, which is a
    // line break of its own (docs/GRAMMAR.md, `reading`).
    ("\\u0061", 0, &[], &[(0, 6, 195, 3)]),
    ("\\u0061sync", 0, &[], &[(0, 10, 258, 3)]),
    ("'a' '\\n'", 0, &[], &[(0, 3, 22, 1), (4, 8, 22, 2)]),
    ("10 1_0", 0, &[], &[(0, 2, 24, 1), (3, 6, 24, 2)]),
    (
        "`a` `\r\n`",
        0,
        &[],
        &[
            (0, 1, 14, 1),
            (1, 2, 15, 0),
            (2, 3, 14, 0),
            (4, 5, 14, 0),
            (5, 7, 15, 3),
            (7, 8, 14, 0),
        ],
    ),
    // Slashes by places, and by the flag.
    ("/a/g", 0, &[0], &[(0, 4, 23, 1)]),
    ("/a/g", 8, &[], &[(0, 4, 23, 1)]),
    (
        "a/b",
        8,
        &[],
        &[(0, 1, 195, 1), (1, 2, 78, 0), (2, 3, 195, 0)],
    ),
    (
        "a = /b/;",
        0,
        &[4],
        &[(0, 1, 195, 1), (2, 3, 96, 0), (4, 7, 23, 0), (7, 8, 12, 0)],
    ),
];

const NONE: TokenRow = TokenRow {
    lo: 7,
    hi: 7,
    kind: 7,
    flags: 7,
};

fn is_row(row: &TokenRow, wanted: Row) -> bool {
    (row.lo, row.hi, row.kind, row.flags) == wanted
}

/// Whether the room begins with these rows, as many as fit, and is behind them as it was.
fn holds(room: &[TokenRow], rows: &[Row]) -> bool {
    for (index, row) in room.iter().enumerate() {
        let holds = match rows.get(index) {
            Some(wanted) => is_row(row, *wanted),
            None => *row == NONE,
        };
        if !holds {
            return false;
        }
    }
    true
}

fn is_told(
    alloc: Global,
    text: &str,
    options: u32,
    slashes: &[u32],
    rows: &[Row],
) -> Result<bool, AllocError> {
    let mut room = [NONE; 8];
    let told = write_tokens(alloc, text.as_bytes(), options, slashes, &mut room)?;
    let counted = count_tokens(alloc, text.as_bytes(), options, slashes)?;
    let answer = Answer {
        status: Status::Done,
        count: rows.len(),
    };
    Ok(told == answer && counted == answer && holds(&room, rows))
}

#[test]
fn texts_give_rows_of_tokens(rt: HostRuntime) -> Result<(), Fail> {
    for (text, options, slashes, rows) in ROWS {
        assert!(rt;
            is_told(rt.alloc(), text, *options, slashes, rows)?,
            "{text}"
        );
    }
    Ok(())
}

/// Whether two rows of room hold these rows, where the text has so many.
fn fills(alloc: Global, text: &str, count: usize, rows: &[Row]) -> Result<bool, AllocError> {
    let mut room = [NONE; 2];
    let told = write_tokens(alloc, text.as_bytes(), 0, &[], &mut room)?;
    let status = if count <= 2 {
        Status::Done
    } else {
        Status::NoRoom
    };
    Ok(told == Answer { status, count } && holds(&room, rows))
}

#[test]
fn what_fits_is_right_where_there_is_no_room(rt: HostRuntime) -> Result<(), Fail> {
    let first = (0, 1, 195, 1);
    let second = (2, 3, 195, 0);
    let rows: [(&str, usize, &[Row]); 3] = [
        ("a", 1, &[first]),
        ("a b", 2, &[first, second]),
        ("a b c d", 4, &[first, second]),
    ];
    for (text, count, rows) in rows {
        assert!(rt; fills(rt.alloc(), text, count, rows)?, "{text}");
    }
    Ok(())
}
