//! Rows of what texts import.
use ecma_imports::imports_text;
use ecma_place::{BytePos, StringInput};
use ecma_state::Settings;
use ecma_syntax::{Context, EsVersion, NumberRule, Syntax, TsSyntax};
use std::alloc::{AllocError, Global};
use std::test::Fail;

/// A text, and the lines of what it imports.
const ROWS: &[(&str, &str)] = &[
    ("import 'a'", "static 7 10 'a'\n"),
    ("import a, {b as c} from \"d\";", "static 24 27 \"d\"\n"),
    ("import * as from from 'a'", "static 22 25 'a'\n"),
    ("import type {a} from 'b'", "static 21 24 'b'\n"),
    (
        "export * from 'a'; export {from} from 'b'",
        "static 14 17 'a'\nstatic 38 41 'b'\n",
    ),
    ("export * as default from 'a'", "static 25 28 'a'\n"),
    ("export type {a} from 'b'", "static 21 24 'b'\n"),
    ("x = import('a')", "dynamic 11 14 'a'\n"),
    ("export {a}\nf(import('b'))", "dynamic 20 23 'b'\n"),
    // None of these is an import of a string.
    ("a.import('b'); a.#import('c')", ""),
    ("import.meta; f('a')", ""),
    ("import(a)", ""),
    ("import a = require('b')", ""),
    ("export const from = 'a'", ""),
    ("export {a}; from + 'b'", ""),
    ("f({import: 'a', from: 'b'})", ""),
    ("require('a')", ""),
];

fn is_written(alloc: Global, source: &str, lines: &str) -> Result<bool, AllocError> {
    if !StringInput::fits(source, BytePos(0)) {
        return Ok(false);
    }
    let settings = Settings {
        syntax: Syntax::Typescript(TsSyntax::default()),
        target: EsVersion::default(),
        comments: false,
        numbers: NumberRule::Crate,
    };
    let written = imports_text(alloc, &settings, Context::default(), source)?;
    Ok(written.as_slice() == lines.as_bytes())
}

#[test]
fn texts_tell_what_they_import(rt: HostRuntime) -> Result<(), Fail> {
    for (source, lines) in ROWS {
        assert!(rt; is_written(rt.alloc(), source, lines)?, "{source}");
    }
    Ok(())
}
