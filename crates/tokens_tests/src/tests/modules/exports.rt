//! What texts export. What is expected is what the page of es-module-lexer says of its fields, and ECMA-262, 16.2.3 and 14.3.3.
use super::rows::{Row, assert_rows};
use super::shown::Told::{Exports, Flags, Owned};
use listing::listing::MODULE;
use std::test::Fail;

const CLAUSES: &[Row] = &[
    ("export { a as b, c }", "b=a, c=c"),
    (
        "export { a as \"b c\", d as default, }",
        "\"b c\"=a, default=d",
    ),
    (
        "export { x as 'external name' } from 'external'",
        "'external name'=x",
    ),
    (
        "export { \"a\" as \"b\", 'c' } from \"d\"",
        "\"b\"=\"a\", 'c'='c'",
    ),
    ("export { default } from \"a\"", "default=default"),
    (
        "export { default as a, if as else } from \"b\"",
        "a=default, else=if",
    ),
    (
        "export { as as from, from as as, type as of }",
        "from=as, as=from, of=type",
    ),
    ("export * as a from \"b\"", "a"),
    ("export * as \"c d\" from \"b\"", "\"c d\""),
    ("export * as default from \"b\"", "default"),
    ("export * from \"b\"", ""),
    ("export {}", ""),
    ("export { a, b } from \"c\"; export { d }", "a=a, b=b, d=d"),
];

const DECLARATIONS: &[Row] = &[
    ("export function a() {}", "a=a"),
    ("export function* a(b, c) {}", "a=a"),
    ("export async function a() {}", "a=a"),
    ("export async function* a() {}", "a=a"),
    ("export class A {}", "A=A"),
    ("export class A extends B { c = 1; static { d, e } }", "A=A"),
    ("export default function a() {}", "default=a"),
    ("export default function () {}", "default"),
    ("export default async function* a() {}", "default=a"),
    ("export default async () => {}", "default"),
    ("export default async\nfunction a() {}", "default"),
    ("export default class A {}", "default=A"),
    ("export default class extends A {}", "default"),
    ("export default class {}", "default"),
    ("export default a", "default"),
    ("export default [a, b]", "default"),
    ("export default", "default"),
    ("export default import(\"a\")", "default"),
];

const VARIABLES: &[Row] = &[
    ("export var p = 5", "p=p"),
    ("export let a = f(1, 2), b, c = [3, 4]", "a=a, b=b, c=c"),
    ("export let a = 1\nb, c", "a=a"),
    ("export let a\nb", "a=a"),
    ("export let a = b\ninstanceof c, d", "a=a, d=d"),
    ("export let a = typeof\nb, c", "a=a, c=c"),
    ("export let a = b++\nc, d", "a=a"),
    ("export let a = (b, c) => { d, e }, f", "a=a, f=f"),
    ("export let a = b < c, d, e = f > g", "a=a, d=d, e=e"),
    ("export let a; b, c", "a=a"),
    (
        "export let a = function (b, c) {}, d = class { e = 1 }",
        "a=a, d=d",
    ),
    ("export let a = `b${c, d}`, e", "a=a, e=e"),
    ("export let a = import(\"b\", c), d", "a=a, d=d"),
    ("export let a\nexport { b }", "a=a, b=b"),
];

const PATTERNS: &[Row] = &[
    (
        "export const { a, b: c, d = 1, ...e } = f",
        "a=a, c=c, d=d, e=e",
    ),
    ("export const [a, , b = 2, ...c] = d", "a=a, b=b, c=c"),
    ("export const { a: { b, c: [d] }, e } = f", "b=b, d=d, e=e"),
    ("export const { [a]: b, [c[d]]: [e] } = f", "b=b, e=e"),
    (
        "export const { \"a\": b, 1: c, if: d } = e",
        "b=b, c=c, d=d",
    ),
    ("export const { a = [b, c], d = { e, f } } = g", "a=a, d=d"),
    ("export const { a: b = (c, d) } = e, f = 1", "b=b, f=f"),
    ("export const [{ a }, [b]] = c, [d] = e", "a=a, b=b, d=d"),
    ("export const {} = a, [] = b, c = 1", "c=c"),
    ("export let [a = b\n, c] = d", "a=a, c=c"),
];

const FLAGS: &[Row] = &[
    ("", "facade"),
    ("import \"a\"; export * from \"b\";", "facade module"),
    (
        "export * from 'external';\nimport * as ns from 'external2';\nexport { a as b } from 'external3';\nexport { ns };",
        "facade module",
    ),
    ("export { a }", "facade module"),
    ("export let a", "module"),
    ("export default a", "module"),
    ("a", ""),
    ("import(\"a\")", ""),
    ("import.meta", "module"),
    ("{}", ""),
    (";", "facade"),
    ("#!/usr/bin/env node\nimport \"a\"", "facade module"),
    ("import \"a\" with { b: \"c\" }", "facade module"),
    ("import a b", ""),
];

const OWNED: &[Row] = &[
    ("export let a, b; export { c, d as e } from \"f\"", "2 2"),
    ("export { a }; export * as b from \"c\"", "1 1"),
    ("export { a }; export * from \"c\"", "1 0"),
    ("export { a }; import { b } from \"c\"; export { d }", "1 0"),
];

#[test]
fn names_of_clauses_are_told(rt: HostRuntime) -> Result<(), Fail> {
    assert_rows(&rt, rt.alloc(), MODULE, Exports, CLAUSES)
}

#[test]
fn what_is_declared_is_told(rt: HostRuntime) -> Result<(), Fail> {
    assert_rows(&rt, rt.alloc(), MODULE, Exports, DECLARATIONS)
}

#[test]
fn variables_are_told(rt: HostRuntime) -> Result<(), Fail> {
    assert_rows(&rt, rt.alloc(), MODULE, Exports, VARIABLES)
}

#[test]
fn names_of_patterns_are_told(rt: HostRuntime) -> Result<(), Fail> {
    assert_rows(&rt, rt.alloc(), MODULE, Exports, PATTERNS)
}

#[test]
fn facades_and_module_syntax_are_told(rt: HostRuntime) -> Result<(), Fail> {
    assert_rows(&rt, rt.alloc(), MODULE, Flags, FLAGS)
}

#[test]
fn exports_of_imports_are_told(rt: HostRuntime) -> Result<(), Fail> {
    assert_rows(&rt, rt.alloc(), MODULE, Owned, OWNED)
}
