//! Brackets within brackets, and copies. What is expected comes from ECMA-262: behind a group of parentheses an operator
//! comes, behind a semicolon a statement.
use ecma_roles::{Part, Track};
use ecma_token::TokenKind;
use std::alloc::{AllocError, Global};
use std::process::Abort;
use std::test::Fail;

/// More frames than stand in the track itself.
const DEEP: usize = 100;

const VERY_DEEP: usize = 1_000_000;

fn step_times(track: &mut Track, kind: TokenKind, count: usize) -> Result<(), AllocError> {
    for _ in 0..count {
        track.step(&Part::of_kind(kind, false))?;
    }
    Ok(())
}

/// A track behind so many left parentheses.
fn opened(alloc: Global, count: usize) -> Result<Track, AllocError> {
    let mut track = Track::new(alloc, false, false);
    step_times(&mut track, TokenKind::LParen, count)?;
    Ok(track)
}

/// Behind an operand and so many right parentheses a slash divides, and behind a semicolon it begins a regular expression.
fn assert_closed(rt: &impl Abort, track: &mut Track, count: usize) -> Result<(), AllocError> {
    step_times(track, TokenKind::Num, 1)?;
    step_times(track, TokenKind::RParen, count)?;
    assert!(rt; !track.expects_operand(false));
    step_times(track, TokenKind::Semi, 1)?;
    assert!(rt; track.expects_operand(false));
    Ok(())
}

/// The same of a track and of its copy.
fn assert_both(rt: &impl Abort, track: &mut Track, count: usize) -> Result<(), AllocError> {
    let mut copy = track.copy()?;
    assert_closed(rt, track, count)?;
    assert_closed(rt, &mut copy, count)
}

#[test]
fn a_million_brackets_open_and_close(rt: HostRuntime) -> Result<(), Fail> {
    let mut track = opened(rt.alloc(), VERY_DEEP)?;
    assert!(rt; track.expects_operand(false));
    Ok(assert_closed(&rt, &mut track, VERY_DEEP)?)
}

#[test]
fn a_copy_goes_on_as_the_track_does(rt: HostRuntime) -> Result<(), Fail> {
    for depth in [0, 1, DEEP] {
        assert_both(&rt, &mut opened(rt.alloc(), depth)?, depth)?;
    }
    Ok(())
}
