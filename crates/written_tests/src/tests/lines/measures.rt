//! Rows of the program that measures.
use super::given;
use ecma_measure::run;
use std::alloc::Global;
use std::io;
use std::process::Abort;
use std::test::Fail;
use std::time::{Clock, Duration};

/// A clock that stands still, or one that can't be read.
#[derive(Clone, Copy)]
enum Stopped {
    Still,
    Broken,
}

impl Clock for Stopped {
    fn monotonic(&self) -> io::Result<Duration> {
        match self {
            Stopped::Still => Ok(Duration::from_millis(5)),
            Stopped::Broken => Err(io::Error::from(io::ErrorKind::Other)),
        }
    }

    fn since_1970(&self) -> io::Result<Duration> {
        self.monotonic()
    }
}

/// Words and a text, and what is answered to them.
#[derive(Clone, Copy)]
struct Row {
    clock: Stopped,
    words: &'static [&'static str],
    input: &'static [u8],
    status: u8,
    output: &'static [u8],
}

impl Row {
    /// With a clock that stands still.
    const fn new(
        words: &'static [&'static str],
        input: &'static [u8],
        status: u8,
        output: &'static [u8],
    ) -> Row {
        Row {
            clock: Stopped::Still,
            words,
            input,
            status,
            output,
        }
    }

    /// With a clock that can't be read.
    const fn untimed(
        words: &'static [&'static str],
        input: &'static [u8],
        status: u8,
        output: &'static [u8],
    ) -> Row {
        Row {
            clock: Stopped::Broken,
            words,
            input,
            status,
            output,
        }
    }

    /// Words that are bad.
    const fn bad(words: &'static [&'static str]) -> Row {
        Row::new(words, b";", 2, b"bad words\n")
    }
}

/// Runs each row over memory, and asserts the status and what was written.
fn play(rt: &impl Abort, alloc: Global, rows: &[Row]) -> Result<(), Fail> {
    for row in rows {
        let words = given(alloc, row.words)?;
        let mut reader = row.input;
        let mut writer = Vec::new(alloc);
        let status = run(
            &row.clock,
            alloc,
            words.as_slice(),
            &mut reader,
            &mut writer,
        );
        assert!(rt; status == row.status && writer.as_slice() == row.output);
    }
    Ok(())
}

#[test]
fn counts_tokens_and_bytes(rt: HostRuntime) -> Result<(), Fail> {
    let count = ["count"].as_slice();
    let rows = [
        Row::untimed(count, b"", 0, b"0 tokens 0 bytes\n"),
        Row::untimed(count, b" /* */ ", 0, b"0 tokens 7 bytes\n"),
        Row::untimed(count, b"let x = 1;", 0, b"5 tokens 10 bytes\n"),
        Row::untimed(count, b"`a${b}c`", 0, b"7 tokens 8 bytes\n"),
        // an operator, a name and an operator
        Row::untimed(count, b"x = /a/", 0, b"5 tokens 7 bytes\n"),
        Row::untimed(&["count", "ts"], b"a >> b", 0, b"3 tokens 6 bytes\n"),
    ];
    play(&rt, rt.alloc(), &rows)
}

#[test]
fn judges_the_words_of_measures(rt: HostRuntime) -> Result<(), Fail> {
    let rows = [
        Row::bad(&[]),
        Row::bad(&["Count"]),
        Row::bad(&["count", "js"]),
        Row::bad(&["count", "ts", "ts"]),
        Row::bad(&["time"]),
        Row::bad(&["time", "0"]),
        Row::bad(&["time", "01"]),
        Row::bad(&["time", "+1"]),
        Row::bad(&["time", "18446744073709551616"]),
        Row::bad(&["time", "1", "reread"]),
        Row::bad(&["time", "1", "reread", "0"]),
        Row::bad(&["time", "1", "reread", "02"]),
        Row::bad(&["time", "1", "reread", "1", "reread", "1"]),
        Row::bad(&["time", "1", "reread", "1", "ts"]),
        Row::bad(&["time", "1", "kept", "ts"]),
        Row::bad(&["time", "1", "kept", "kept"]),
        Row::bad(&["time", "1", "again", "1"]),
        Row::bad(&["time", "1", "comments", "kept"]),
        Row::bad(&["time", "1", "flag", "flag"]),
        Row::bad(&["time", "1", "flag", "reread", "1"]),
        Row::bad(&["time", "1", "flag", "save"]),
        Row::bad(&["time", "1", "flag", "save", "0"]),
        Row::bad(&["time", "1", "save", "1"]),
        Row::bad(&["time", "1", "reread", "1", "flag"]),
    ];
    play(&rt, rt.alloc(), &rows)
}

#[test]
fn tells_of_faults_where_it_measures(rt: HostRuntime) -> Result<(), Fail> {
    let second = ["time", "1", "reread", "2"].as_slice();
    let far = ["time", "1", "reread", "18446744073709551615"].as_slice();
    let rows = [
        Row::new(&["count"], b"\xff", 3, b"not UTF-8\n"),
        Row::new(&["time", "1"], b"\xff", 3, b"not UTF-8\n"),
        Row::new(second, b"a b", 2, b"no slash\n"),
        Row::new(second, b"a", 2, b"no slash\n"),
        Row::new(second, b"", 2, b"no slash\n"),
        Row::new(far, b"/", 2, b"no slash\n"),
        Row::untimed(&["time", "1"], b"a", 1, b""),
    ];
    play(&rt, rt.alloc(), &rows)
}

#[test]
fn measures(rt: HostRuntime) -> Result<(), Fail> {
    // no time passes, which counts as a nanosecond
    let five = b"5 tokens 7 bytes best 7000.0 MB/s median 7000.0 MB/s\n";
    let three = b"3 tokens 7 bytes best 7000.0 MB/s median 7000.0 MB/s\n";
    let seven = b"7 tokens 13 bytes best 13000.0 MB/s median 13000.0 MB/s\n";
    let twice = ["time", "2", "reread", "1", "reread", "5"].as_slice();
    let kept = ["time", "2", "kept", "reread", "1", "reread", "5"].as_slice();
    let two = b"2 tokens 14 bytes best 14000.0 MB/s median 14000.0 MB/s\n";
    let commented = ["time", "2", "ts", "kept", "comments", "flag"].as_slice();
    let rows = [
        Row::new(&["time", "3"], b"x = /a/", 0, five),
        Row::new(&["time", "2", "ts", "reread", "3"], b"x = /a/", 0, three),
        Row::new(twice, b"/a/ ; b=/=/;;", 0, seven),
        Row::new(kept, b"/a/ ; b=/=/;;", 0, seven),
        Row::new(&["time", "1", "ts", "kept"], b"x = /a/", 0, five),
        Row::new(&["time", "1", "flag"], b"x = /a/", 0, three),
        Row::new(&["time", "1", "comments"], b"x = /a/", 0, five),
        Row::new(commented, b"/a/ ;// b=/=;;", 0, two),
        Row::new(&["time", "1", "flag", "save", "1"], b"x = /a/", 0, three),
        Row::new(&["time", "1", "flag", "back", "1"], b"x = /a/", 0, three),
        Row::new(&["time", "1", "flag", "copies", "2"], b"x = /a/", 0, three),
    ];
    play(&rt, rt.alloc(), &rows)
}
