//! Rows of comments.
use ecma_rows::{Answer, CommentRow, Status, write_comments};
use std::alloc::{AllocError, Global};
use std::test::Fail;

/// The place of its token, where it and what it says begin and end, and its flags.
type Row = (u32, u32, u32, u32, u32, u32);

/// A text, and its comments, in the order in which the lexer hands them over.
const ROWS: &[(&str, &[Row])] = &[
    ("a", &[]),
    ("/*b*/a", &[(5, 0, 5, 2, 3, 1)]),
    ("a /*bc*/", &[(1, 2, 8, 4, 6, 3)]),
    ("a//bc", &[(1, 1, 5, 3, 5, 2)]),
    ("//é\na", &[(5, 0, 4, 2, 4, 0)]),
    ("/**/a//", &[(4, 0, 4, 2, 2, 1), (5, 5, 7, 7, 7, 2)]),
];

const NONE: CommentRow = CommentRow {
    pos: 7,
    lo: 7,
    hi: 7,
    text_lo: 7,
    text_hi: 7,
    flags: 7,
};

fn is_row(row: &CommentRow, wanted: Row) -> bool {
    (row.pos, row.lo, row.hi, row.text_lo, row.text_hi, row.flags) == wanted
}

fn holds(room: &[CommentRow], rows: &[Row]) -> bool {
    for (index, row) in room.iter().enumerate() {
        let holds = match rows.get(index) {
            Some(wanted) => is_row(row, *wanted),
            None => *row == NONE,
        };
        if !holds {
            return false;
        }
    }
    true
}

fn is_told(alloc: Global, text: &str, rows: &[Row]) -> Result<bool, AllocError> {
    let mut room = [NONE; 3];
    let told = write_comments(alloc, text.as_bytes(), 0, &[], &mut room)?;
    let answer = Answer {
        status: Status::Done,
        count: rows.len(),
    };
    Ok(told == answer && holds(&room, rows))
}

#[test]
fn texts_give_rows_of_comments(rt: HostRuntime) -> Result<(), Fail> {
    for (text, rows) in ROWS {
        assert!(rt; is_told(rt.alloc(), text, rows)?, "{text}");
    }
    Ok(())
}
