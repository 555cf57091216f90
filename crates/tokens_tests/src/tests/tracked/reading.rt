//! What is read of a text, and what is expected in it. What is expected of slashes is what ECMA-262 and TypeScript's grammar
//! say, as their parsers do.
use super::driver::Command::{Strict, Write, WriteAll, WriteExpected, WriteItems};
use super::rows::{Row, assert_rows, assert_written};
use listing::listing::{MODULE, PLAIN, TS};
use std::test::Fail;

const TEXTS: &[Row] = &[
    (TS, "x! / y", "x ! / y"),
    (TS, "x\n!/y/", "x ! /y/"),
    (
        TS,
        "let x = a! / b, y = c! / d;",
        "let x = a ! / b , y = c ! / d ;",
    ),
    (PLAIN, "a ? (b) : /re/", "a ? ( b ) : /re/"),
    (PLAIN, "a ? (b) / c : d / e", "a ? ( b ) / c : d / e"),
    (PLAIN, "x = function () {} / 2", "x = function ( ) { } / 2"),
    (PLAIN, "function f() {} /r/", "function f ( ) { } /r/"),
    (PLAIN, "x = {} / 2; {} /=r/", "x = { } / 2 ; { } /=r/"),
    (PLAIN, "a /= b /= /=c/", "a /= b /= /=c/"),
    (
        PLAIN,
        "`a${/b/}c${d / e}` / 2",
        "` a ${ /b/ } c ${ d / e }  ` / 2",
    ),
    (PLAIN, "/[/]/g.test(x)", "/[/]/g . test ( x )"),
    (PLAIN, "#!/a/\n/b/", "#!/a/ /b/"),
    (MODULE, "import \"a\"\n/r/", "import \"a\" /r/"),
    (MODULE, "await /r/", "await /r/"),
    (PLAIN, "await / 2", "await / 2"),
    (TS, "type A = B\n/r/", "type A = B /r/"),
    (TS, "x as A<B> / 2", "x as A < B > / 2"),
    (PLAIN, "a = /b", "a = /b"),
    (PLAIN, "", ""),
];

#[test]
fn texts_have_their_tokens(rt: HostRuntime) -> Result<(), Fail> {
    assert_rows(&rt, rt.alloc(), TEXTS, &[WriteAll])
}

#[test]
fn items_are_the_tokens(rt: HostRuntime) -> Result<(), Fail> {
    assert_rows(&rt, rt.alloc(), TEXTS, &[WriteItems])
}

const EXPECTED: &[Row] = &[
    (PLAIN, "", "+"),
    (PLAIN, "a + b", "+-+-"),
    (PLAIN, "a ? (b) : c", "+-++--+-"),
    (PLAIN, "/a/ / /b/", "+-+-"),
    (TS, "f<T>x", "+-+--+-"),
];

#[test]
fn it_says_what_is_expected(rt: HostRuntime) -> Result<(), Fail> {
    assert_rows(&rt, rt.alloc(), EXPECTED, &[WriteExpected])
}

#[test]
fn flags_are_set_between_tokens(rt: HostRuntime) -> Result<(), Fail> {
    let text = "a = /b/ / c";
    let commands = [Write(1), Strict, WriteAll];
    assert_written(&rt, rt.alloc(), (PLAIN, text), &commands, text)?;
    Ok(())
}
