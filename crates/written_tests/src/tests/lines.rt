//! Rows of the program, and readers and writers that fail in the middle.

mod measures;

use ecma_options::Options;
use ecma_program::comments::comments_text;
use ecma_program::{explanation, run};
use ecma_stdio::{Halt, arguments, read_all, words};
use std::alloc::Global;
use std::env::{Env, FillError};
use std::io;
use std::io::{Read, Write};
use std::process::Abort;
use std::test::Fail;

/// What a script has for one call.
#[derive(Clone, Copy)]
enum Call {
    Gives(u8),
    Fails(io::ErrorKind),
}

/// A reader that answers by a script, and after it says that it is at its end.
#[derive(Drop)]
struct Scripted<'a> {
    calls: &'a [Call],
    made: usize,
}

impl<'a> Scripted<'a> {
    fn new(calls: &'a [Call]) -> Scripted<'a> {
        Scripted { calls, made: 0 }
    }
}

impl Read for Scripted<'_> {
    fn read(&mut self, buf: &mut [u8]) -> io::Result<usize> {
        let Some(call) = self.calls.get(self.made) else {
            return Ok(0);
        };
        self.made = self.made.saturating_add(1);
        match *call {
            Call::Fails(kind) => Err(io::Error::from(kind)),
            Call::Gives(byte) => {
                if buf.is_empty() {
                    return Ok(0);
                }
                buf[0] = byte;
                Ok(1)
            }
        }
    }
}

/// A process that was started with these arguments.
#[derive(Clone, Copy)]
struct Started<'a> {
    arguments: &'a [&'a str],
}

impl Env for Started<'_> {
    fn arg(&self, i: usize, buf: &mut [u8]) -> Result<usize, FillError> {
        let Some(argument) = self.arguments.get(i) else {
            return Err(FillError::NotPresent);
        };
        let bytes = argument.as_bytes();
        if bytes.len() > buf.len() {
            return Err(FillError::TooLong);
        }
        buf[..bytes.len()].copy_from_slice(bytes);
        Ok(bytes.len())
    }

    fn var(&self, _name: &str, _buf: &mut [u8]) -> Result<usize, FillError> {
        Err(FillError::NotPresent)
    }

    fn var_at(&self, _i: usize, _buf: &mut [u8]) -> Result<usize, FillError> {
        Err(FillError::NotPresent)
    }
}

/// What a page does once it is full.
#[derive(Clone, Copy, PartialEq, Eq)]
enum WhenFull {
    Fails,
    IsInterrupted,
    TakesNothing,
}

const PAGE: usize = 64;

/// A writer that does not allocate, `most` bytes at a call and `room` in all.
#[derive(Drop)]
struct Page {
    bytes: [u8; PAGE],
    taken: usize,
    room: usize,
    most: usize,
    when_full: WhenFull,
}

impl Page {
    fn new(room: usize, most: usize, when_full: WhenFull) -> Page {
        Page {
            bytes: [0; PAGE],
            taken: 0,
            room,
            most,
            when_full,
        }
    }

    fn held(&self) -> &[u8] {
        &self.bytes[..self.taken.min(PAGE)]
    }
}

impl Write for Page {
    fn write(&mut self, buf: &[u8]) -> io::Result<usize> {
        let free = self.room.min(PAGE).saturating_sub(self.taken);
        let count = free.min(self.most).min(buf.len());
        if count == 0 && self.when_full == WhenFull::Fails {
            return Err(io::Error::from(io::ErrorKind::StorageFull));
        }
        if count == 0 && self.when_full == WhenFull::IsInterrupted {
            return Err(io::Error::from(io::ErrorKind::Interrupted));
        }
        for byte in &buf[..count] {
            if self.taken < PAGE {
                self.bytes[self.taken] = *byte;
                self.taken += 1;
            }
        }
        Ok(count)
    }

    fn flush(&mut self) -> io::Result<()> {
        Ok(())
    }
}

/// The bytes are the same. Here alone, as it brings printing into a proof.
fn assert_bytes(rt: &impl Abort, found: &[u8], expected: &[u8]) {
    assert_eq!(rt; found, expected);
}

/// Runs over memory, and asserts the status and what was written.
fn assert_run(
    rt: &impl Abort,
    alloc: Global,
    words: &[String],
    input: &[u8],
    status: u8,
    output: &[u8],
) {
    let mut reader = input;
    let mut writer = Vec::new(alloc);
    assert!(rt; run(alloc, words, &mut reader, &mut writer) == status);
    assert_bytes(rt, writer.as_slice(), output);
}

/// Words as a command line gives them.
pub fn given(alloc: Global, words: &[&str]) -> Result<Vec<String>, Fail> {
    let mut given = Vec::new(alloc);
    for word in words {
        given.push(String::from_str(alloc, word)?)?;
    }
    Ok(given)
}

/// Runs over memory, and asserts what the words of the command line and an input give.
fn assert_words(
    rt: &impl Abort,
    alloc: Global,
    words: &[&str],
    input: &[u8],
    status: u8,
    output: &[u8],
) -> Result<(), Fail> {
    let words = given(alloc, words)?;
    assert_run(rt, alloc, words.as_slice(), input, status, output);
    Ok(())
}

/// Asserts that the words are bad.
fn assert_bad(rt: &impl Abort, alloc: Global, words: &[&str]) -> Result<(), Fail> {
    assert_words(rt, alloc, words, b";", 2, b"bad words\n")
}

#[test]
fn writes_the_tokens(rt: HostRuntime) {
    let alloc = rt.alloc();
    let lines =
        b"0 3 lf Keyword let\n4 5 - Ident x\n6 7 - AssignOp =\n8 9 - Num 1\n9 10 - Semi ;\n";
    assert_run(&rt, alloc, &[], b"let x = 1;", 0, lines);
    assert_run(&rt, alloc, &[], b"", 0, b"");
    assert_run(
        &rt,
        alloc,
        &[],
        b"a\nb",
        0,
        b"0 1 lf Ident a\n2 3 lf Ident b\n",
    );
    assert_run(&rt, alloc, &[], b"\"", 0, b"0 1 lf Str \"\n");
    assert_run(&rt, alloc, &[], b"\\", 0, b"0 1 lf Error \\\\\n");
}

#[test]
fn tells_of_faults(rt: HostRuntime) -> Result<(), Fail> {
    let alloc = rt.alloc();
    assert_run(&rt, alloc, &[], b"\xff", 3, b"not UTF-8\n");
    assert_words(&rt, alloc, &["errors"], b"\xff", 3, b"not UTF-8\n")
}

/// Words that name nothing, or something twice.
const BAD_WORDS: &[&[&str]] = &[
    &["comments", "tokens"],
    &["comments", "comments"],
    &["comment"],
    &["Tokens"],
    &[""],
    &["ts"],
    &["tokens", "tokens"],
    &["errors", "x"],
    &["errors", "ts", "ts"],
    &["tokens", "module", "ts", "module"],
    &["tokens", "strict", "strict"],
];

fn assert_all_bad(rt: &impl Abort, alloc: Global, all: &[&[&str]]) -> Result<(), Fail> {
    for words in all {
        assert_bad(rt, alloc, words)?;
    }
    Ok(())
}

#[test]
fn judges_the_words(rt: HostRuntime) -> Result<(), Fail> {
    let alloc = rt.alloc();
    assert_words(&rt, alloc, &["tokens"], b";", 0, b"0 1 lf Semi ;\n")?;
    let options = &["tokens", "strict", "ts", "module"];
    assert_words(&rt, alloc, options, b";", 0, b"0 1 lf Semi ;\n")?;
    assert_words(&rt, alloc, &["comments"], b";", 0, b"")?;
    assert_all_bad(&rt, alloc, BAD_WORDS)
}

#[test]
fn writes_the_errors_of_tokens(rt: HostRuntime) -> Result<(), Fail> {
    let alloc = rt.alloc();
    let words = ["errors"].as_slice();
    assert_words(&rt, alloc, words, b"let x = 1;", 0, b"")?;
    assert_words(
        &rt,
        alloc,
        words,
        b"\0a",
        0,
        b"token 0 0 Unexpected character '\\\\0'\n",
    )?;
    assert_words(
        &rt,
        alloc,
        words,
        b"\\u0062reak",
        0,
        b"token 0 10 Unexpected escape sequence in reserved word: break\n",
    )?;
    let lines =
        b"token 1 4 Bad character escape sequence, expected 2 hex characters\nrecorded 4 5 Unterminated string constant\n";
    assert_words(&rt, alloc, words, b"'\\x4'", 0, lines)
}

#[test]
fn writes_the_lists(rt: HostRuntime) -> Result<(), Fail> {
    let alloc = rt.alloc();
    let comment = b"a\n-->x".as_slice();
    assert_words(
        &rt,
        alloc,
        &["errors"],
        comment,
        0,
        b"waiting 2 5 Legacy comments cannot be used in module code\n",
    )?;
    assert_words(
        &rt,
        alloc,
        &["errors", "module"],
        comment,
        0,
        b"recorded 2 5 Legacy comments cannot be used in module code\n",
    )?;
    assert_words(
        &rt,
        alloc,
        &["errors"],
        b"1__2",
        0,
        b"recorded 0 1 A numeric separator is only allowed between two digits\n",
    )?;
    assert_words(
        &rt,
        alloc,
        &["errors"],
        b"08.1",
        0,
        b"waiting 0 2 Legacy decimal escape is not permitted in strict mode\n",
    )?;
    assert_words(
        &rt,
        alloc,
        &["errors", "strict"],
        b"08.1",
        0,
        b"recorded 0 2 Legacy decimal escape is not permitted in strict mode\n",
    )?;
    let lines =
        b"recorded 0 3 Legacy octal literals are not available when targeting ECMAScript 5 and higher\nwaiting 0 3 Legacy octal escape is not permitted in strict mode\n";
    assert_words(&rt, alloc, &["errors", "ts"], b"012", 0, lines)
}

/// Asserts what is written where some tokens are read again.
/// Words, what is read, the status, and what is written.
type Row = (&'static [&'static str], &'static [u8], u8, &'static [u8]);

fn assert_rows(
    rt: &impl Abort,
    alloc: Global,
    rows: &[(&[&str], &[u8], u8, &[u8])],
) -> Result<(), Fail> {
    for (words, input, status, output) in rows {
        assert_words(rt, alloc, words, input, *status, output)?;
    }
    Ok(())
}

/// Words of which one is no number of a slash, or not above the one before.
const BAD_NUMBERS: &[&[&str]] = &[
    &["reread", "1"],
    &["tokens", "reread"],
    &["tokens", "reread", "0"],
    &["tokens", "reread", "01"],
    &["tokens", "reread", "+1"],
    &["tokens", "reread", "1x"],
    &["tokens", "reread", ""],
    &["tokens", "reread", "18446744073709551616"],
    &["tokens", "reread", "2", "ts", "reread", "2"],
    &["tokens", "reread", "10", "reread", "9"],
];

#[test]
fn judges_the_numbers(rt: HostRuntime) -> Result<(), Fail> {
    assert_all_bad(&rt, rt.alloc(), BAD_NUMBERS)
}

#[test]
fn tells_where_no_slash_is(rt: HostRuntime) -> Result<(), Fail> {
    let most: &[&str] = &["tokens", "reread", "18446744073709551615"];
    assert_rows(
        &rt,
        rt.alloc(),
        &[
            (&["tokens", "reread", "1"], b"a", 2, b"no slash\n"),
            (&["tokens", "reread", "2"], b"a", 2, b"no slash\n"),
            (&["errors", "reread", "3"], b"a/", 2, b"no slash\n"),
            (&["comments", "reread", "1"], b"", 2, b"no slash\n"),
            (most, b"a/", 2, b"no slash\n"),
            (most, b"\xff", 3, b"not UTF-8\n"),
        ],
    )
}

#[test]
fn reads_slashes_again(rt: HostRuntime) -> Result<(), Fail> {
    assert_rows(
        &rt,
        rt.alloc(),
        &[
            (
                &["tokens", "reread", "3"],
                b"a / /b/g",
                0,
                b"0 1 lf Ident a\n2 3 - BinOp /\n4 8 - Regex /b/g\n",
            ),
            (
                &["tokens", "reread", "1"],
                b"/x/g\\u0069",
                0,
                b"0 10 lf Regex /x/g\\\\u0069\n",
            ),
            (
                &["tokens", "reread", "2"],
                b"a /b\n",
                0,
                b"0 1 lf Ident a\n2 4 - Error /b\n",
            ),
            (
                &["errors", "reread", "2"],
                b"a /b\n",
                0,
                b"token 2 4 Unterminated regexp literal\n",
            ),
            (
                &["tokens", "reread", "1", "ts", "reread", "2"],
                b"/a/ /=b/;",
                0,
                b"0 3 lf Regex /a/\n4 8 - Regex /=b/\n8 9 - Semi ;\n",
            ),
            (
                &["comments", "reread", "1"],
                b"/a/ //x",
                0,
                b"trailing 3 4 7 line x\n",
            ),
        ],
    )
}

#[test]
fn writes_the_tokens_of_templates(rt: HostRuntime) {
    let lines =
        b"0 1 lf BackQuote `\n1 2 - Template a\n2 4 - DollarLBrace ${\n4 5 - Ident b\n5 6 - RBrace }\n6 7 - Template c\n7 8 - BackQuote `\n";
    assert_run(&rt, rt.alloc(), &[], b"`a${b}c`", 0, lines);
}

/// Asserts what `comments` writes of a text.
fn assert_comments(
    rt: &impl Abort,
    alloc: Global,
    input: &[u8],
    output: &[u8],
) -> Result<(), Fail> {
    assert_words(rt, alloc, &["comments"], input, 0, output)
}

#[test]
fn writes_the_comments(rt: HostRuntime) -> Result<(), Fail> {
    let alloc = rt.alloc();
    assert_comments(&rt, alloc, b"", b"")?;
    assert_comments(&rt, alloc, b"a", b"")?;
    assert_comments(&rt, alloc, b"/**/a", b"leading 4 0 4 block \n")?;
    let lines = b"trailing 3 10 13 line b\ntrailing 3 4 9 block a\n";
    assert_comments(&rt, alloc, b"f() /*a*/ //b", lines)?;
    assert_comments(&rt, alloc, b"a; /*b*/ c", b"trailing 2 3 8 block b\n")?;
    assert_comments(&rt, alloc, b"a + /*b*/;", b"trailing 3 4 9 block b\n")?;
    assert_comments(&rt, alloc, b"/*a*/", b"leading 0 0 5 block a\n")?;
    assert_comments(&rt, alloc, b"#!x\n//c", b"trailing 3 4 7 line c\n")
}

#[test]
fn writes_legacy_comments(rt: HostRuntime) -> Result<(), Fail> {
    let alloc = rt.alloc();
    assert_comments(&rt, alloc, b"a\n-->x\nb", b"leading 7 5 6 line x\n")?;
    assert_comments(&rt, alloc, b"x<!--y\nz", b"trailing 1 2 6 line y\n")?;
    assert_comments(&rt, alloc, b"a\n=======\nb", b"leading 10 5 9 line \n")?;
    assert_comments(&rt, alloc, b"\n<<<<<<< x\ny", b"leading 11 3 10 line  x\n")?;
    assert_comments(&rt, alloc, b"\n>>>>>>> x\ny", b"leading 11 4 10 line x\n")
}

#[test]
fn writes_comments_escaped(rt: HostRuntime) -> Result<(), Fail> {
    assert_comments(
        &rt,
        rt.alloc(),
        b"/*a\\\r\nb*/c",
        b"leading 9 0 9 block a\\\\\\r\\nb\n",
    )
}

/// Asserts that this is the canonical text of an input, and that its own is itself.
fn assert_canonical(
    rt: &impl Abort,
    alloc: Global,
    words: &[&str],
    input: &[u8],
    output: &[u8],
) -> Result<(), Fail> {
    assert_words(rt, alloc, words, input, 0, output)?;
    assert_words(rt, alloc, words, output, 0, output)
}

#[test]
fn writes_canonical_texts(rt: HostRuntime) -> Result<(), Fail> {
    let rows: [(&[&str], &[u8], &[u8]); 10] = [
        (&["canon"], b"`a${b}c`", b"`a${ b }c`"),
        (&["canon"], b"", b""),
        (&["canon"], b"a\n-->x\nb", b"a\nb"),
        (&["canon"], b"0b12", b"0b1 2"),
        (&["canon", "reread", "3"], b"a / /b/g", b"a / /b/g"),
        (&["canon"], b" #!x", b"# ! x"),
        (&["canon", "ts"], b"a/*x*/+b\nc", b"a + b\nc"),
        (&["canon"], b"a?.b", b"a ? . b"),
        (&["canon"], b"`${)x`", b"`${ )x`"),
        (&["canon", "module", "strict"], b"\r'a\\\n' ;", b"'a\\\n' ;"),
    ];
    for (words, input, output) in rows {
        assert_canonical(&rt, rt.alloc(), words, input, output)?;
    }
    Ok(())
}

#[test]
fn tells_of_texts_that_are_not_clean(rt: HostRuntime) -> Result<(), Fail> {
    assert_rows(
        &rt,
        rt.alloc(),
        &[
            (&["canon"], b"1__2", 4, b"not clean\n"),
            (&["canon"], b"3in", 4, b"not clean\n"),
            (&["canon"], b"\\", 4, b"not clean\n"),
            (&["canon", "reread", "2"], b"a /b\n", 4, b"not clean\n"),
            (&["canon", "module"], b"a\n-->x\nb", 4, b"not clean\n"),
            (&["canon"], b"08.1", 0, b"08.1"),
            (&["canon", "strict"], b"08.1", 4, b"not clean\n"),
            (&["canon", "reread", "1"], b"1__2", 2, b"no slash\n"),
            (&["canon"], b"\xff", 3, b"not UTF-8\n"),
            (&["canon", "canon"], b"", 2, b"bad words\n"),
        ],
    )
}

/// Words, an input, and the lines of its pieces.
type Pieces = (&'static [&'static str], &'static [u8], &'static [u8]);

const PIECES: &[Pieces] = &[
    (
        &["classes"],
        b"f() /*a*/ //b",
        b"0 1 token\n1 2 token\n2 3 token\n3 4 trivia\n4 9 comment\n9 10 trivia\n10 13 comment\n",
    ),
    (
        &["classes"],
        b"x<!--y\nz",
        b"0 1 token\n1 2 trivia\n2 6 comment\n6 7 trivia\n7 8 token\n",
    ),
    (&["classes"], b"``", b"0 1 token\n1 2 token\n"),
    (
        &["classes"],
        b"\n||||||| base\ny",
        b"0 1 trivia\n1 14 token\n14 15 token\n",
    ),
    (
        &["classes"],
        b"a\n-->\nb",
        b"0 1 token\n1 6 trivia\n6 7 token\n",
    ),
    (&["classes"], b"/*a", b"0 3 trivia\n"),
    (&["classes"], b"", b""),
    (
        &["classes", "module", "strict", "ts"],
        b"a\n-->x\nb",
        b"0 1 token\n1 5 trivia\n5 6 comment\n6 7 trivia\n7 8 token\n",
    ),
    (
        &["classes", "reread", "3"],
        b"a / /b/g",
        b"0 1 token\n1 2 trivia\n2 3 token\n3 4 trivia\n4 8 token\n",
    ),
    (
        &["classes", "reread", "1"],
        b"/a/ //x",
        b"0 3 token\n3 4 trivia\n4 7 comment\n",
    ),
];

#[test]
fn writes_the_pieces(rt: HostRuntime) -> Result<(), Fail> {
    for (words, input, output) in PIECES {
        assert_words(&rt, rt.alloc(), words, input, 0, output)?;
    }
    Ok(())
}

#[test]
fn tells_what_has_no_pieces(rt: HostRuntime) -> Result<(), Fail> {
    assert_rows(
        &rt,
        rt.alloc(),
        &[
            (&["classes", "reread", "1"], b"a", 2, b"no slash\n"),
            (&["classes"], b"\xff", 3, b"not UTF-8\n"),
            (&["classes", "classes"], b"", 2, b"bad words\n"),
            (&["class"], b"", 2, b"bad words\n"),
        ],
    )
}

/// Numbers by the rule of ECMA-262 (12.9.3).
const BY_THE_STANDARD: &[Row] = &[
    (
        &["tokens", "standard"],
        b"0b12",
        0,
        b"0 3 lf Error 0b1\n3 4 - Num 2\n",
    ),
    (
        &["tokens", "standard"],
        b"0b1 2",
        0,
        b"0 3 lf Num 0b1\n4 5 - Num 2\n",
    ),
    (
        &["tokens", "standard"],
        b"1na",
        0,
        b"0 2 lf Error 1n\n2 3 - Ident a\n",
    ),
    (
        &["tokens", "standard"],
        b"1n2",
        0,
        b"0 2 lf Error 1n\n2 3 - Num 2\n",
    ),
    (
        &["tokens", "standard"],
        b"3\\u0061",
        0,
        b"0 1 lf Error 3\n1 7 - Ident \\\\u0061\n",
    ),
    (&["tokens", "standard"], b"0_1", 0, b"0 3 lf Num 0_1\n"),
    (&["tokens", "standard"], b"08_1", 0, b"0 4 lf Num 08_1\n"),
    (&["tokens", "standard"], b"1_0", 0, b"0 3 lf Num 1_0\n"),
    (&["tokens", "standard"], b"0_", 0, b"0 2 lf Num 0_\n"),
    (&["tokens", "standard"], b"0_1n", 0, b"0 4 lf BigInt 0_1n\n"),
    (
        &["errors", "standard"],
        b"0b12",
        0,
        b"token 3 3 Identifier cannot follow number\n",
    ),
    (
        &["errors", "ts", "standard", "module"],
        b"0_1n",
        0,
        b"recorded 0 1 A numeric separator is only allowed between two digits\n",
    ),
    (
        &["comments", "standard"],
        b"/**/1n2",
        0,
        b"leading 4 0 4 block \n",
    ),
    (&["canon", "standard"], b"0b12", 4, b"not clean\n"),
    (&["canon", "standard"], b"0b1 2", 0, b"0b1 2"),
    (&["tokens", "standard", "standard"], b"", 2, b"bad words\n"),
    (&["standard"], b"", 2, b"bad words\n"),
];

#[test]
fn reads_numbers_by_the_standard(rt: HostRuntime) -> Result<(), Fail> {
    assert_rows(&rt, rt.alloc(), BY_THE_STANDARD)
}

#[test]
fn fails_where_a_read_fails(rt: HostRuntime) {
    for kind in [io::ErrorKind::Other, io::ErrorKind::Interrupted] {
        let script = [Call::Gives(b'a'), Call::Fails(kind), Call::Gives(b'b')];
        let mut reader = Scripted::new(&script);
        let mut writer = Page::new(PAGE, PAGE, WhenFull::Fails);
        assert!(rt; run(rt.alloc(), &[], &mut reader, &mut writer) == 1);
        assert_bytes(&rt, writer.held(), b"");
        assert!(rt; reader.made == 2);
    }
}

#[test]
fn counts_the_turns_of_reading(rt: HostRuntime) {
    let script = [Call::Gives(b'a'), Call::Gives(b'b')];
    let within = read_all(rt.alloc(), &mut Scripted::new(&script), 3);
    assert!(rt; within.is_ok());
    let beyond = read_all(rt.alloc(), &mut Scripted::new(&script), 2);
    assert!(rt; matches!(beyond, Err(Halt::ReadFailed)));
}

#[test]
fn reads_to_the_end(rt: HostRuntime) -> Result<(), Fail> {
    let mut script = [Call::Gives(b' '); 300];
    script[299] = Call::Gives(b'a');
    let mut writer = Page::new(PAGE, PAGE, WhenFull::Fails);
    let status = run(rt.alloc(), &[], &mut Scripted::new(&script), &mut writer);
    assert!(rt; status == 0);
    assert_bytes(&rt, writer.held(), b"299 300 lf Ident a\n");
    let mut long = vec![in rt.alloc(); b' '; 200_000]?;
    long.push(b'a')?;
    assert_run(
        &rt,
        rt.alloc(),
        &[],
        long.as_slice(),
        0,
        b"200000 200001 lf Ident a\n",
    );
    Ok(())
}

/// Asserts which words a process takes from its arguments.
fn assert_taken(
    rt: &impl Abort,
    alloc: Global,
    started: &[&str],
    taken: &[&str],
) -> Result<(), Fail> {
    let arguments = arguments(&(Started { arguments: started }, alloc))?;
    assert_words_are(rt, words(arguments.as_slice()), taken);
    Ok(())
}

fn assert_words_are(rt: &impl Abort, words: &[String], taken: &[&str]) {
    assert!(rt; words.len() == taken.len());
    for (word, wanted) in words.iter().zip(taken) {
        assert_bytes(rt, word.as_bytes(), wanted.as_bytes());
    }
}

#[test]
fn takes_all_arguments_but_the_first(rt: HostRuntime) -> Result<(), Fail> {
    let alloc = rt.alloc();
    assert_taken(&rt, alloc, &[], &[])?;
    assert_taken(&rt, alloc, &["ecma_lex"], &[])?;
    assert_taken(&rt, alloc, &["ecma_lex", "errors"], &["errors"])?;
    let started = &["ecma_lex", "tokens", "ts", "reread", "3"];
    assert_taken(&rt, alloc, started, &["tokens", "ts", "reread", "3"])
}

/// An input, how many bytes a page takes in all and at a call, what it does then, and what went out: a beginning of the
/// lines, or of that of a fault.
type Cut = (&'static [u8], usize, usize, WhenFull, &'static [u8]);

const CUTS: &[Cut] = &[
    (b"let x = 1;", 5, PAGE, WhenFull::Fails, b"0 3 l"),
    (b"let x = 1;", 5, 2, WhenFull::Fails, b"0 3 l"),
    (b"let x = 1;", 5, PAGE, WhenFull::IsInterrupted, b"0 3 l"),
    (b"let x = 1;", 5, PAGE, WhenFull::TakesNothing, b"0 3 l"),
    (b"let x = 1;", 0, PAGE, WhenFull::TakesNothing, b""),
    (b"\xff", 4, PAGE, WhenFull::Fails, b"not "),
];

#[test]
fn fails_where_a_write_fails(rt: HostRuntime) {
    for (input, room, most, when_full, sent) in CUTS {
        let mut reader = *input;
        let mut writer = Page::new(*room, *most, *when_full);
        let status = run(rt.alloc(), &[], &mut reader, &mut writer);
        assert!(rt; status == 1);
        assert_bytes(&rt, writer.held(), sent);
    }
}

#[test]
fn writes_a_byte_at_a_time(rt: HostRuntime) {
    let mut writer = Page::new(PAGE, 1, WhenFull::Fails);
    let status = run(rt.alloc(), &[], &mut b"a b".as_slice(), &mut writer);
    assert!(rt; status == 0);
    assert_bytes(&rt, writer.held(), b"0 1 lf Ident a\n2 3 - Ident b\n");
}

/// No allocation here is the test's own, so each that is refused in turn is one of `run`.
#[test]
fn answers_whole_or_out_of_memory(rt: HostRuntime) {
    let mut writer = Page::new(PAGE, PAGE, WhenFull::Fails);
    let status = run(rt.alloc(), &[], &mut b"a b".as_slice(), &mut writer);
    assert_whole_or_refused(&rt, status, writer.held());
}

fn assert_whole_or_refused(rt: &impl Abort, status: u8, held: &[u8]) {
    if status == 0 {
        assert_bytes(rt, held, b"0 1 lf Ident a\n2 3 - Ident b\n");
    } else {
        assert!(rt; status == 5);
        assert_bytes(rt, held, b"out of memory\n");
    }
}

/// No allocation here is the test's own, as above.
#[test]
fn gathers_all_comments_or_is_refused(rt: HostRuntime) {
    let gathered = comments_text(rt.alloc(), Options::default(), &[], "a /*b*/; /*c*/ d");
    if let Ok(lines) = gathered {
        assert_bytes(
            &rt,
            lines.as_slice(),
            b"trailing 1 2 7 block b\ntrailing 8 9 14 block c\n",
        );
    }
}

#[test]
fn explains_a_status(rt: HostRuntime) {
    assert_bytes(&rt, explanation(1), b"ecma_lex: a read or a write failed\n");
    let words = explanation(2);
    assert!(&rt; words.starts_with(b"ecma_lex: the words are tokens,") && words.ends_with(b"\n"));
    assert!(&rt;
        explanation(0).is_empty() && explanation(3).is_empty() && explanation(5).is_empty()
    );
}
