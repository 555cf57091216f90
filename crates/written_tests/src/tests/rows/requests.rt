//! What is answered where nothing, or not all, can be told.
use ecma_rows::{Answer, Status, TokenRow, count_tokens, write_tokens};
use std::alloc::{AllocError, Global};
use std::test::Fail;

/// A text, its options, the places of its slashes, and the status and count.
const ROWS: &[(&[u8], u32, &[u32], Status, usize)] = &[
    (b"a", 0, &[], Status::Done, 1),
    (b"a", 15, &[], Status::Done, 1),
    (b"a", 23, &[], Status::Done, 1),
    // By the tokens before them two divisions, by the flag a regular expression.
    (b"a! / b / c", 17, &[], Status::Done, 6),
    (b"a! / b / c", 9, &[], Status::Done, 4),
    // Options and places are judged before the text.
    (b"\xff", 32, &[], Status::Refused, 0),
    (b"\xff", 24, &[], Status::Refused, 0),
    (b"a/b/c", 8, &[1], Status::Refused, 0),
    (b"a/b/c", 16, &[1], Status::Refused, 0),
    (b"a/b/c", 0, &[3, 1], Status::Refused, 0),
    (b"a/b/c", 0, &[1, 1], Status::Refused, 0),
    (b"\xff", 0, &[1], Status::NotUtf8, 0),
    // A place that is no slash changes nothing.
    (b"a b", 0, &[2], Status::NoSlash, 2),
    (b"/a/", 0, &[0, 2], Status::NoSlash, 1),
    (b"/a/", 0, &[9], Status::NoSlash, 3),
];

fn is_answered(
    alloc: Global,
    text: &[u8],
    options: u32,
    slashes: &[u32],
    answer: Answer,
) -> Result<bool, AllocError> {
    let none = TokenRow {
        lo: 7,
        hi: 7,
        kind: 7,
        flags: 7,
    };
    let mut room = [none; 6];
    let told = write_tokens(alloc, text, options, slashes, &mut room)?;
    let counted = count_tokens(alloc, text, options, slashes)?;
    let is_kept = answer.count > 0 || room[0] == none;
    Ok(told == answer && counted == answer && is_kept)
}

#[test]
fn requests_are_judged(rt: HostRuntime) -> Result<(), Fail> {
    for (text, options, slashes, status, count) in ROWS {
        let answer = Answer {
            status: *status,
            count: *count,
        };
        assert!(rt;
            is_answered(rt.alloc(), text, *options, slashes, answer)?,
            "{text:?}"
        );
    }
    Ok(())
}

/// The statuses and their numbers.
#[test]
fn statuses_have_numbers(rt: HostRuntime) -> Result<(), Fail> {
    let rows = [
        (Status::Done, 0),
        (Status::NoSlash, 2),
        (Status::NotUtf8, 3),
        (Status::NotClean, 4),
        (Status::OutOfMemory, 5),
        (Status::NoRoom, 6),
        (Status::Refused, 7),
        (Status::TooLong, 8),
    ];
    for (status, number) in rows {
        assert!(rt; status.number() == number, "{status:?}");
    }
    Ok(())
}
