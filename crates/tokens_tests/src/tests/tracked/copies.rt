//! Copies.
use super::driver::Command::{Copy, Read, Swap};
use super::rows::assert_unchanged;
use super::tracking::TOKENS;
use std::test::Fail;

/// Also where the other goes on first.
#[test]
fn a_copy_goes_on(rt: HostRuntime) -> Result<(), Fail> {
    assert_unchanged(&rt, rt.alloc(), &[Copy, Read(1), Swap])
}

/// A copy is read to its end.
#[test]
fn what_a_copy_reads_changes_nothing(rt: HostRuntime) -> Result<(), Fail> {
    assert_unchanged(&rt, rt.alloc(), &[Copy, Swap, Read(TOKENS), Swap])
}
