//! Canonical texts, and what is answered where there is none.
use ecma_rows::{Answer, Status, write_canonical};
use std::alloc::{AllocError, Global};
use std::test::Fail;

/// A text, its options, the places of its slashes, the status, the number of bytes, and what four bytes of room hold then.
const ROWS: &[(&[u8], u32, &[u32], Status, usize, &[u8])] = &[
    (b"", 0, &[], Status::Done, 0, b"...."),
    (b" a", 0, &[], Status::Done, 1, b"a..."),
    (b"a/*x*/+b", 0, &[], Status::NoRoom, 5, b"a + "),
    (b"/a/  g", 0, &[0], Status::NoRoom, 5, b"/a/ "),
    (b"/a/", 8, &[], Status::Done, 3, b"/a/."),
    (b"'a", 0, &[], Status::NotClean, 0, b"...."),
    (b"'a", 0, &[0], Status::NoSlash, 0, b"...."),
    (b"\xff", 0, &[], Status::NotUtf8, 0, b"...."),
    (b"a", 32, &[], Status::Refused, 0, b"...."),
];

fn is_told(
    alloc: Global,
    text: &[u8],
    options: u32,
    slashes: &[u32],
    answer: Answer,
    held: &[u8],
) -> Result<bool, AllocError> {
    let mut room = [b'.'; 4];
    let told = write_canonical(alloc, text, options, slashes, &mut room)?;
    Ok(told == answer && room.as_slice() == held)
}

#[test]
fn canonical_texts_are_told(rt: HostRuntime) -> Result<(), Fail> {
    for (text, options, slashes, status, count, held) in ROWS {
        let answer = Answer {
            status: *status,
            count: *count,
        };
        assert!(rt;
            is_told(rt.alloc(), text, *options, slashes, answer, held)?,
            "{text:?}"
        );
    }
    Ok(())
}
