//! What a refusal of memory leaves: this passes whichever request for memory is refused, one in each run
//! (`rt try --test --fail-alloc N`).
use super::tracking::{next_span, opened};
use ecma_tracked::{Tracked, TrackedCheckpoint};
use listing::listing::{COLLECTING, PLAIN, Settings, TS};
use std::alloc::{AllocError, Global};
use std::test::Fail;

/// More tokens than any text has.
const TOKENS: u64 = 600;

/// A text, and a thousand for each of its tokens, with the place of the last. Escapes, errors and comments take memory, and so
/// do many contexts and frames.
type Row = (Settings, &'static str, u64);

const TEXTS: &[Row] = &[
    (PLAIN, "a = '\\x61' / 0_1 / /\\u{61}/u / b", 9_031),
    (TS, "x! / `\\x61${y / 2}` / /[/]/g", 14_022),
    (COLLECTING, "/*a*/ b /*c*/ / /*d*/ e", 3_022),
    (PLAIN, DEEP, 143_147),
];

const DEEP: &str =
    "(((((((((((((((((((((((((((((((((((((((((((((((((((((((((((((((((((((((((((((((((((((((((((((((((((((((((((((((((((((((((((((((((((((((((((( /a/ / b";

/// A checkpoint, asked for once more where memory was refused.
fn saved<'a>(tracked: &Tracked<'a>) -> Result<TrackedCheckpoint, AllocError> {
    match tracked.checkpoint() {
        Ok(here) => Ok(here),
        Err(_) => tracked.checkpoint(),
    }
}

/// Goes back, once more where memory was refused.
fn went_back<'a>(tracked: &mut Tracked<'a>, here: &TrackedCheckpoint) -> Result<bool, AllocError> {
    match tracked.rewind(here) {
        Ok(went) => Ok(went),
        Err(_) => tracked.rewind(here),
    }
}

/// Reads a token, and says where it begins; behind the end the greatest place.
fn read_place(tracked: &mut Tracked) -> Result<u32, AllocError> {
    match next_span(tracked)? {
        Some(span) => Ok(span.lo.0),
        None => Ok(u32::MAX),
    }
}

/// Reads behind a refused read: it is refused again, and then done behind the checkpoint of before.
fn read_again(tracked: &mut Tracked, here: &TrackedCheckpoint) -> Result<u32, AllocError> {
    if read_place(tracked).is_ok() || !went_back(tracked, here)? {
        return Err(AllocError);
    }
    read_place(tracked)
}

/// Where the next token begins; where memory is refused, that which is read behind the checkpoint of before.
fn next_place(tracked: &mut Tracked) -> Result<u32, AllocError> {
    let here = saved(tracked)?;
    match read_place(tracked) {
        Ok(place) => Ok(place),
        Err(_) => read_again(tracked, &here),
    }
}

/// A thousand for each token, with the place of the last.
fn sum_all(tracked: &mut Tracked) -> Result<u64, AllocError> {
    let mut sum = 0;
    for count in 1..TOKENS {
        let place = next_place(tracked)?;
        if place == u32::MAX {
            break;
        }
        sum = 1000 * count + u64::from(place);
    }
    Ok(sum)
}

/// Before the first token, asked for once more where memory was refused.
fn begun<'a>(alloc: Global, settings: Settings, text: &'a str) -> Result<Tracked<'a>, AllocError> {
    match opened(alloc, settings, text) {
        Ok(tracked) => Ok(tracked),
        Err(_) => opened(alloc, settings, text),
    }
}

fn sum_of(alloc: Global, settings: Settings, text: &str) -> Result<u64, AllocError> {
    sum_all(&mut begun(alloc, settings, text)?)
}

#[test]
fn refusals_are_undone(rt: HostRuntime) -> Result<(), Fail> {
    for row in TEXTS {
        let (settings, text, expected) = *row;
        let sum = sum_of(rt.alloc(), settings, text)?;
        assert!(rt; sum == expected);
    }
    Ok(())
}

/// Whether an operand is expected, asked once more where memory was refused.
fn asked(tracked: &mut Tracked) -> Result<bool, AllocError> {
    match tracked.expects_operand(false) {
        Ok(expects) => Ok(expects),
        Err(_) => tracked.expects_operand(false),
    }
}

/// A copy, asked for once more where memory was refused.
fn copied<'a>(tracked: &Tracked<'a>) -> Result<Tracked<'a>, AllocError> {
    match tracked.copy() {
        Ok(copy) => Ok(copy),
        Err(_) => tracked.copy(),
    }
}

/// Where the token begins that a copy reads next.
fn copied_place(tracked: &Tracked) -> Result<u32, AllocError> {
    next_place(&mut copied(tracked)?)
}

/// Before how many tokens an operand is expected, each of which a copy reads too.
fn count_expected(tracked: &mut Tracked) -> Result<u64, AllocError> {
    let mut expected: u64 = 0;
    for _ in 1..TOKENS {
        if asked(tracked)? {
            expected = expected.saturating_add(1);
        }
        let place = copied_place(tracked)?;
        if next_place(tracked)? != place {
            return Err(AllocError);
        }
        if place == u32::MAX {
            break;
        }
    }
    Ok(expected)
}

#[test]
fn refused_questions_may_be_asked_again(rt: HostRuntime) -> Result<(), Fail> {
    let expected = count_expected(&mut begun(rt.alloc(), PLAIN, DEEP)?)?;
    assert!(rt; expected == 142);
    Ok(())
}
