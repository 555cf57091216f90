//! Checkpoints as data of serde.
use super::bytes::checkpoint_behind;
use super::rows::assert_text;
use driver::writing::write_all;
use ecma_resuming::resume;
use ecma_stored::StoredCheckpoint;
use ecma_stream::{Checkpoint, Lexer};
use listing::listing::{PLAIN, lexer_settings};
use std::alloc::{AllocError, Global};
use std::process::Abort;
use std::test::Fail;

/// The checkpoint that a text of JSON has, if it has one.
fn checkpoint_of(alloc: Global, json: &str) -> Result<Option<Checkpoint>, Fail> {
    let data: StoredCheckpoint = serde_json::from_str(alloc, json)?;
    Ok(data.checkpoint(alloc)?)
}

fn write_resumed(out: &mut String, lexer: Option<Lexer>) -> Result<(), AllocError> {
    match lexer {
        Some(mut lexer) => write_all(out, &mut lexer),
        None => Ok(()),
    }
}

/// What is read from a checkpoint on over the rest of a text.
fn read_over(alloc: Global, from: Option<Checkpoint>, rest: &str) -> Result<String, AllocError> {
    let mut out = String::new(alloc);
    if let Some(from) = from {
        write_resumed(
            &mut out,
            resume(alloc, &lexer_settings(PLAIN), &from, rest)?,
        )?;
    }
    Ok(out)
}

/// What is read over the rest of a text from the checkpoint that this text of JSON has.
fn assert_read(
    rt: &impl Abort,
    alloc: Global,
    json: &str,
    rest: &str,
    expected: &str,
) -> Result<(), Fail> {
    let found = read_over(alloc, checkpoint_of(alloc, json)?, rest)?;
    assert_text(rt, found.as_str(), expected);
    Ok(())
}

/// The checkpoint behind one token, as JSON.
fn stored(alloc: Global, text: &str) -> Result<String, Fail> {
    let from = checkpoint_behind(alloc, PLAIN, text, 1)?;
    let data = StoredCheckpoint::of(alloc, &from)?;
    Ok(serde_json::to_string(alloc, &data)?)
}

fn assert_begin(rt: &impl Abort, json: &str) {
    assert!(rt; json.starts_with("{\"bytes\":[1,1,0,0,0,0,"));
}

#[test]
fn data_is_read_back(rt: HostRuntime) -> Result<(), Fail> {
    let json = stored(rt.alloc(), "a `b`")?;
    assert_begin(&rt, json.as_str());
    let expected = "2..3 - BackQuote; 3..4 - Template [c] [c]; 4..5 - BackQuote";
    assert_read(&rt, rt.alloc(), json.as_str(), " `c`", expected)
}

#[test]
fn other_data_is_no_checkpoint(rt: HostRuntime) -> Result<(), Fail> {
    assert_read(&rt, rt.alloc(), "{\"bytes\":[1,2,3]}", "", "")
}
