//! Going back.
use super::driver::Command::{Go, GoToCopy, Open, Read, Save, Write, WriteAll};
use super::rows::{MOST, assert_unchanged, assert_written};
use listing::listing::PLAIN;
use std::test::Fail;

/// Wherever a checkpoint is made, before a slash, behind it, or at the end, and however many tokens are read behind it.
#[test]
fn excursions_are_undone(rt: HostRuntime) -> Result<(), Fail> {
    for ahead in 0..MOST {
        assert_unchanged(&rt, rt.alloc(), &[Save, Read(ahead), Go(0)])?;
    }
    Ok(())
}

/// Goes back to the same checkpoint, and to a copy of it, and on to one behind it, from which less was read.
#[test]
fn checkpoints_are_gone_to_in_any_order(rt: HostRuntime) -> Result<(), Fail> {
    let commands = [
        Write(2),
        Save,
        Write(2),
        Save,
        Go(0),
        Write(1),
        Go(1),
        Write(1),
        GoToCopy(0),
        WriteAll,
    ];
    assert_written(
        &rt,
        rt.alloc(),
        (PLAIN, "a = b / c / d"),
        &commands,
        "a = b / b c b / c / d",
    )?;
    Ok(())
}

/// A checkpoint of a longer text, whose place is behind the text.
#[test]
fn it_stays_where_a_checkpoint_is_of_no_place(rt: HostRuntime) -> Result<(), Fail> {
    let commands = [Read(5), Save, Open(PLAIN, "a b"), Go(0), WriteAll];
    assert_written(
        &rt,
        rt.alloc(),
        (PLAIN, "a b c d e f"),
        &commands,
        "stayed a b",
    )?;
    Ok(())
}
