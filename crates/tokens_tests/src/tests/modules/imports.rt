//! What texts import. What is expected is what the page of es-module-lexer says of its fields, and ECMA-262, 16.2.2, 13.3.10 and
//! 13.3.12.
use super::rows::{Row, assert_rows};
use super::shown::Told::{Imports, Requires};
use listing::listing::MODULE;
use std::test::Fail;

const DECLARATIONS: &[Row] = &[
    ("import \"a\"", "static \"a\" | import \"a\""),
    ("import a from \"b\";", "static \"b\" | import a from \"b\""),
    (
        "import a, { b as c, default as d } from 'e'; f",
        "static 'e' | import a, { b as c, default as d } from 'e'",
    ),
    (
        "import * as a from \"b\"",
        "static \"b\" | import * as a from \"b\"",
    ),
    (
        "import a, * as b from 'c'",
        "static 'c' | import a, * as b from 'c'",
    ),
    (
        "import {} from \"a\"",
        "static \"a\" | import {} from \"a\"",
    ),
    (
        "import from from \"a\"",
        "static \"a\" | import from from \"a\"",
    ),
    (
        "import * as from from \"a\"",
        "static \"a\" | import * as from from \"a\"",
    ),
    (
        "import { from as as, 'b c' as d } from \"a\"",
        "static \"a\" | import { from as as, 'b c' as d } from \"a\"",
    ),
    (
        "import defer from \"a\"",
        "static \"a\" | import defer from \"a\"",
    ),
    (
        "import defer * as a from \"b\"",
        "static defer \"b\" | import defer * as a from \"b\"",
    ),
    (
        "import source from \"a\"",
        "static \"a\" | import source from \"a\"",
    ),
    (
        "import source a from \"b\"",
        "static source \"b\" | import source a from \"b\"",
    ),
    (
        "import source from from \"b\"",
        "static source \"b\" | import source from from \"b\"",
    ),
    (
        "import React, { a } from \"b\"\nimport lodash from \"c\"",
        "static \"b\" | import React, { a } from \"b\" || static \"c\" | import lodash from \"c\"",
    ),
];

const ATTRIBUTES: &[Row] = &[
    (
        "import a from \"b\" with { type: \"json\" };",
        "static \"b\" | import a from \"b\" with { type: \"json\" } | attributes { type: \"json\" }",
    ),
    (
        "import json from './json.json' assert { type: 'json' }",
        "static './json.json' | import json from './json.json' assert { type: 'json' } | attributes { type: 'json' }",
    ),
    ("import \"a\"\nassert\n{ }", "static \"a\" | import \"a\""),
    (
        "export * from \"a\" with {}",
        "reexport \"a\" | export * from \"a\" with {} | attributes {}",
    ),
    ("import \"a\" with", "static \"a\" | import \"a\""),
];

const REEXPORTS: &[Row] = &[
    (
        "export * from \"a\"",
        "reexport \"a\" | export * from \"a\"",
    ),
    (
        "export * as b from \"a\"",
        "reexport \"a\" | export * as b from \"a\"",
    ),
    (
        "export { a as b, default } from \"c\";",
        "reexport \"c\" | export { a as b, default } from \"c\"",
    ),
    ("export { } from 'a'", "reexport 'a' | export { } from 'a'"),
    (
        "export { a }\nfrom\n'b'",
        "reexport 'b' | export { a }\nfrom\n'b'",
    ),
    ("export { a }; from", ""),
];

const CALLS: &[Row] = &[
    ("import(\"a\")", "call \"a\" | import(\"a\") | first \"a\""),
    (
        "x = import( a + \"b\" )",
        "call | import( a + \"b\" ) | first a + \"b\"",
    ),
    (
        "import /*c*/ ( 'asdf', { assert: { type: 'json' }});",
        "call 'asdf' | import /*c*/ ( 'asdf', { assert: { type: 'json' }}) | first 'asdf' | attributes { assert: { type: 'json' }}",
    ),
    (
        "import(\"a\",)",
        "call \"a\" | import(\"a\",) | first \"a\"",
    ),
    (
        "import(\"a\", b, )",
        "call \"a\" | import(\"a\", b, ) | first \"a\" | attributes b",
    ),
    ("import(`a`)", "call | import(`a`) | first `a`"),
    (
        "import(\"a\" + b)",
        "call | import(\"a\" + b) | first \"a\" + b",
    ),
    ("import((\"a\"))", "call | import((\"a\")) | first (\"a\")"),
    (
        "import(f(a, b), c)",
        "call | import(f(a, b), c) | first f(a, b) | attributes c",
    ),
    (
        "import(import(\"a\"))",
        "call | import(import(\"a\")) | first import(\"a\") || call \"a\" | import(\"a\") | first \"a\"",
    ),
    (
        "import(\"a\", { b: import(\"c\") })",
        "call \"a\" | import(\"a\", { b: import(\"c\") }) | first \"a\" | attributes { b: import(\"c\") } || call \"c\" | import(\"c\") | first \"c\"",
    ),
    (
        "f(() => import(\"a\"))",
        "call \"a\" | import(\"a\") | first \"a\"",
    ),
    (
        "import.defer(\"a\")",
        "call defer \"a\" | import.defer(\"a\") | first \"a\"",
    ),
    (
        "import.source(\"a\")",
        "call source \"a\" | import.source(\"a\") | first \"a\"",
    ),
    ("import.meta.url", "meta | import.meta"),
    ("f(import . meta)", "meta | import . meta"),
    ("import(\"a\"", "call \"a\" | import(\"a\" | first \"a\""),
    (
        "import(a, import(",
        "call | import(a, import( | first a | attributes import( || call | import( | first ",
    ),
];

const NO_IMPORTS: &[Row] = &[
    ("a.import(\"b\")", ""),
    ("class A { #import() {} }", ""),
    ("({ import: \"b\" })", ""),
    ("\"import 'b'\"", ""),
    ("// import 'b'", ""),
    ("{ import \"b\" }", ""),
    ("import a, \"b\"", ""),
    ("import a from b", ""),
    ("import { a", ""),
    ("import.any(\"a\")", ""),
    ("require(\"a\")", ""),
    ("a.export * from \"b\"", ""),
    ("{ export * from \"b\" }", ""),
];

const REQUIRES: &[Row] = &[
    ("const a = require(\"b\")", "require \"b\" | require(\"b\")"),
    (
        "f(require('a'), require('b'))",
        "require 'a' | require('a') || require 'b' | require('b')",
    ),
    ("a.require(\"b\")", ""),
    ("require(a)", ""),
    ("require(\"a\" + b)", ""),
    ("require.resolve(\"a\")", ""),
    (
        "export default require(\"a\")",
        "require \"a\" | require(\"a\")",
    ),
];

#[test]
fn declarations_are_told(rt: HostRuntime) -> Result<(), Fail> {
    assert_rows(&rt, rt.alloc(), MODULE, Imports, DECLARATIONS)
}

#[test]
fn attributes_are_told(rt: HostRuntime) -> Result<(), Fail> {
    assert_rows(&rt, rt.alloc(), MODULE, Imports, ATTRIBUTES)
}

#[test]
fn reexports_are_told(rt: HostRuntime) -> Result<(), Fail> {
    assert_rows(&rt, rt.alloc(), MODULE, Imports, REEXPORTS)
}

#[test]
fn calls_are_told(rt: HostRuntime) -> Result<(), Fail> {
    assert_rows(&rt, rt.alloc(), MODULE, Imports, CALLS)
}

#[test]
fn nothing_else_is_told(rt: HostRuntime) -> Result<(), Fail> {
    assert_rows(&rt, rt.alloc(), MODULE, Imports, NO_IMPORTS)
}

#[test]
fn requires_of_commonjs_are_told(rt: HostRuntime) -> Result<(), Fail> {
    assert_rows(&rt, rt.alloc(), MODULE, Requires, REQUIRES)
}
