//! Rows of texts and the classes of their words. The classes are those that a reader of the text gives by hand.
use super::texts::{Case, tokenized};
use super::told::assert_text;
use ecma_slashes::Slashes;
use ecma_state::Kept;
use ecma_styles::token_classes;
use ecma_token::TokenKind;
use listing::listing::TS;
use std::alloc::{AllocError, Global};
use std::process::Abort;
use std::test::Fail;

/// A text, and the classes of its words, in order.
type Row = (&'static str, &'static str);

const ROWS: &[Row] = &[
    (
        "import type { A, type B as C } from 'x'",
        "keyword keyword name keyword name keyword name keyword",
    ),
    (
        "import from, * as as from 'y'",
        "keyword name keyword name keyword",
    ),
    (
        "export * as ns from 'm'; export type { T }",
        "keyword keyword name keyword keyword keyword name",
    ),
    (
        "import a from 'b' with { type: 'json' }",
        "keyword name keyword keyword property",
    ),
    (
        "async function f() {} async(); async = x",
        "keyword keyword function keyword name name",
    ),
    (
        "async x => type; type = from(of)",
        "keyword name name name function name",
    ),
    (
        "for (const of of of) of",
        "keyword keyword name keyword name name",
    ),
    ("a.f(b.type).get", "name function name property property"),
    (
        "new A(); new b.C; new.target; import.meta.d()",
        "keyword class keyword name property meta meta meta meta function",
    ),
    (
        "this.x = undefined ?? super.y ?? null",
        "builtin property literal builtin property literal",
    ),
    (
        "o = { a, b: c, get d() {}, async *e() {}, if: 1, async: 2 }",
        "name name property name keyword function keyword function property property",
    ),
];

/// The same of classes and of TypeScript.
const TYPED: &[Row] = &[
    (
        "class A extends B implements C.D { static x = 1; static { y() } }",
        "keyword class keyword class keyword class class keyword property keyword function",
    ),
    (
        "class A { private async f() {} override g?: T; get\nset }",
        "keyword class keyword keyword function keyword property type property property",
    ),
    (
        "@a.b @c() export abstract class D {}",
        "decorator decorator decorator keyword keyword keyword class",
    ),
    (
        "type A<B extends C> = keyof D | (e: F) => g is string",
        "keyword type type keyword type keyword type name type name keyword type",
    ),
    (
        "interface A extends B { readonly a?: C; f(d: E): void; default: G }",
        "keyword class keyword class keyword property type function name type keyword property type",
    ),
    (
        "enum A { B = 1, C }; declare global {}; namespace N {}",
        "keyword class property property keyword keyword keyword name",
    ),
    (
        "let a: typeof b, c = d as const, e = f satisfies G",
        "keyword name keyword name name name keyword keyword name name keyword type",
    ),
    (
        "function f(this: A, b?: c): asserts b {}",
        "keyword function builtin type name type keyword name",
    ),
    ("type\nA; interface\nB", "name name name name"),
];

/// The classes of words, with a space between two.
fn classes_told(alloc: Global, kept: &[Kept]) -> Result<String, AllocError> {
    let classes = token_classes(alloc, kept)?;
    let mut line = String::new(alloc);
    let mut classes = classes.iter();
    for token in kept {
        // A token without characters has no class.
        if token.span.lo.0 == token.span.hi.0 {
            continue;
        }
        if let (TokenKind::Word(_), Some(Some(class))) = (token.kind, classes.next()) {
            line.push_str(if line.is_empty() { "" } else { " " })?;
            line.push_str(class.name())?;
        }
    }
    Ok(line)
}

/// The classes of the words of a text.
fn told(alloc: Global, text: &str) -> Result<String, AllocError> {
    let case = Case {
        settings: TS,
        text,
        slashes: Slashes::ByRole,
    };
    let output = tokenized(alloc, case)?;
    let told = classes_told(alloc, &output.gathered.kept);
    drop(output);
    told
}

fn assert_rows(rt: &impl Abort, alloc: Global, rows: &[Row]) -> Result<(), Fail> {
    for (text, expected) in rows {
        assert_text(rt, text, told(alloc, text)?.as_str(), expected);
    }
    Ok(())
}

#[test]
fn words_have_their_classes(rt: HostRuntime) -> Result<(), Fail> {
    assert_rows(&rt, rt.alloc(), ROWS)
}

#[test]
fn typed_words_have_their_classes(rt: HostRuntime) -> Result<(), Fail> {
    assert_rows(&rt, rt.alloc(), TYPED)
}
