//! What an `import` is where it stands. What is expected is what ECMA-262, 13.2.5, 13.3.10, 15.7, and TypeScript's grammar say.
use super::rows::{Row, assert_rows};
use super::shown::Told::{Imports, ImportsByFlag};
use listing::listing::{MODULE, Settings};
use std::test::Fail;

/// TypeScript, as a module.
const MODULE_TS: Settings = Settings { ts: true, ..MODULE };

const MEMBERS: &[Row] = &[
    ("class A { import(a) {} }", ""),
    ("class A { static import() {} get import() {} }", ""),
    ("class A { set import(a) {} async import() {} }", ""),
    ("class A { *import() {} async *import() {} import = 1 }", ""),
    ("class A { a = 1\nimport(b) {} }", ""),
    (
        "class A { import() { import(\"b\") } }",
        "call \"b\" | import(\"b\") | first \"b\"",
    ),
    (
        "class A { a = import(\"b\") }",
        "call \"b\" | import(\"b\") | first \"b\"",
    ),
    (
        "class A { [import(\"b\")]() {} }",
        "call \"b\" | import(\"b\") | first \"b\"",
    ),
    (
        "class A { static { import(\"b\") } }",
        "call \"b\" | import(\"b\") | first \"b\"",
    ),
    (
        "class A extends (await import(\"b\")) { import() {} }",
        "call \"b\" | import(\"b\") | first \"b\"",
    ),
];

const KEYS: &[Row] = &[
    ("a = { import(b) {} }", ""),
    ("({ import: 1, async import() {}, *import() {} })", ""),
    ("({ get import() {}, set import(a) {} })", ""),
    ("const { import: a } = b", ""),
    (
        "({ a: import(\"b\"), import() {} })",
        "call \"b\" | import(\"b\") | first \"b\"",
    ),
    (
        "({ ...import(\"b\"), import() {} })",
        "call \"b\" | import(\"b\") | first \"b\"",
    ),
    (
        "{ import(\"b\") }",
        "call \"b\" | import(\"b\") | first \"b\"",
    ),
    (
        "() => { import(\"b\") }",
        "call \"b\" | import(\"b\") | first \"b\"",
    ),
];

const MEMBERS_OF_TYPES: &[Row] = &[
    ("interface A { import(a: string): void }", ""),
    ("interface A { get import(): string; set import(a) }", ""),
    ("interface A { a: string\nimport(b): void }", ""),
    ("interface A { a(): B, import(c) }", ""),
    ("interface A { a: B<C>\nimport(b): void }", ""),
    ("type A = { import(): void }", ""),
    ("type A = B<{ import(): void }>", ""),
    ("enum A { import = 1 }", ""),
    ("abstract class A { abstract import(a: string): void }", ""),
    ("declare class A { private import(a?: string): void }", ""),
];

const TYPES: &[Row] = &[
    (
        "type A = import(\"b\").C",
        "call type \"b\" | import(\"b\") | first \"b\"",
    ),
    (
        "interface A { a: import(\"b\").C }",
        "call type \"b\" | import(\"b\") | first \"b\"",
    ),
    (
        "interface A { a: B | import(\"b\").C }",
        "call type \"b\" | import(\"b\") | first \"b\"",
    ),
    (
        "interface A { a: keyof import(\"b\").C }",
        "call type \"b\" | import(\"b\") | first \"b\"",
    ),
    (
        "interface A { a: () => import(\"b\").C }",
        "call type \"b\" | import(\"b\") | first \"b\"",
    ),
    (
        "interface A { a(b): b is import(\"b\").C }",
        "call type \"b\" | import(\"b\") | first \"b\"",
    ),
    (
        "type A = { [B in import(\"b\").C]: 1 }",
        "call type \"b\" | import(\"b\") | first \"b\"",
    ),
    (
        "type A = { a: B extends C ? import(\"b\").C : 1 }",
        "call type \"b\" | import(\"b\") | first \"b\"",
    ),
    (
        "type A = [a: import(\"b\").C]",
        "call type \"b\" | import(\"b\") | first \"b\"",
    ),
    (
        "type A = `a${import(\"b\").C}`",
        "call type \"b\" | import(\"b\") | first \"b\"",
    ),
    (
        "a satisfies import(\"b\").C",
        "call type \"b\" | import(\"b\") | first \"b\"",
    ),
    (
        "function a(b: import(\"b\").C) {}",
        "call type \"b\" | import(\"b\") | first \"b\"",
    ),
    (
        "let a: import(\"b\", { with: { c: \"d\" } }).E",
        "call type \"b\" | import(\"b\", { with: { c: \"d\" } }) | first \"b\" | attributes { with: { c: \"d\" } }",
    ),
];

const ARGUMENTS: &[Row] = &[
    (
        "a<import(\"b\").C>(d)",
        "call type \"b\" | import(\"b\") | first \"b\"",
    ),
    (
        "new A<typeof import(\"b\")>()",
        "call type \"b\" | import(\"b\") | first \"b\"",
    ),
    (
        "a<A | import(\"b\").C>(d)",
        "call type \"b\" | import(\"b\") | first \"b\"",
    ),
    (
        "[a < c, import(\"b\")]",
        "call \"b\" | import(\"b\") | first \"b\"",
    ),
];

const EXPRESSIONS: &[Row] = &[
    (
        "a ? c : import(\"b\")",
        "call \"b\" | import(\"b\") | first \"b\"",
    ),
    (
        "typeof import(\"b\")",
        "call \"b\" | import(\"b\") | first \"b\"",
    ),
    (
        "let a: c = import(\"b\")",
        "call \"b\" | import(\"b\") | first \"b\"",
    ),
    (
        "(a: c): d => import(\"b\")",
        "call \"b\" | import(\"b\") | first \"b\"",
    ),
    (
        "a: import(\"b\")",
        "call \"b\" | import(\"b\") | first \"b\"",
    ),
];

const BY_FLAG: &[Row] = &[
    ("class A { import(a) {} }", "call | import(a) | first a"),
    (
        "let a: import(\"b\").C",
        "call \"b\" | import(\"b\") | first \"b\"",
    ),
];

#[test]
fn names_of_members_are_no_imports(rt: HostRuntime) -> Result<(), Fail> {
    assert_rows(&rt, rt.alloc(), MODULE, Imports, MEMBERS)
}

#[test]
fn keys_are_no_imports(rt: HostRuntime) -> Result<(), Fail> {
    assert_rows(&rt, rt.alloc(), MODULE, Imports, KEYS)
}

#[test]
fn names_in_types_are_no_imports(rt: HostRuntime) -> Result<(), Fail> {
    assert_rows(&rt, rt.alloc(), MODULE_TS, Imports, MEMBERS_OF_TYPES)
}

#[test]
fn types_are_told_as_such(rt: HostRuntime) -> Result<(), Fail> {
    assert_rows(&rt, rt.alloc(), MODULE_TS, Imports, TYPES)
}

#[test]
fn type_arguments_are_told_as_types(rt: HostRuntime) -> Result<(), Fail> {
    assert_rows(&rt, rt.alloc(), MODULE_TS, Imports, ARGUMENTS)
}

#[test]
fn expressions_are_no_types(rt: HostRuntime) -> Result<(), Fail> {
    assert_rows(&rt, rt.alloc(), MODULE_TS, Imports, EXPRESSIONS)
}

#[test]
fn by_the_flag_all_are_imports_of_values(rt: HostRuntime) -> Result<(), Fail> {
    assert_rows(&rt, rt.alloc(), MODULE_TS, ImportsByFlag, BY_FLAG)
}
