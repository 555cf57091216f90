//! What texts of TypeScript import and export. What is expected is what TypeScript's grammar says.
use super::rows::{Row, assert_rows};
use super::shown::Told::{Exports, Imports};
use listing::listing::{MODULE, Settings};
use std::test::Fail;

/// TypeScript, as a module.
const MODULE_TS: Settings = Settings { ts: true, ..MODULE };

const IMPORTS: &[Row] = &[
    (
        "import type A from \"a\"",
        "static type \"a\" | import type A from \"a\"",
    ),
    (
        "import type { A } from \"a\"",
        "static type \"a\" | import type { A } from \"a\"",
    ),
    (
        "import type * as A from \"a\"",
        "static type \"a\" | import type * as A from \"a\"",
    ),
    (
        "import type from \"a\"",
        "static \"a\" | import type from \"a\"",
    ),
    (
        "import type from from \"a\"",
        "static type \"a\" | import type from from \"a\"",
    ),
    (
        "import type, { A } from \"a\"",
        "static \"a\" | import type, { A } from \"a\"",
    ),
    (
        "import { type A, B } from \"a\"",
        "static \"a\" | import { type A, B } from \"a\"",
    ),
    (
        "import x = require(\"y\")",
        "equals \"y\" | import x = require(\"y\")",
    ),
    (
        "import type x = require(\"y\");",
        "equals type \"y\" | import type x = require(\"y\")",
    ),
    (
        "import type = require(\"y\")",
        "equals \"y\" | import type = require(\"y\")",
    ),
    (
        "export import x = require(\"y\")",
        "equals \"y\" | export import x = require(\"y\")",
    ),
    ("import x = A.B", ""),
    ("import x = require(y)", ""),
    (
        "declare module \"a\" { }",
        "ambient \"a\" | declare module \"a\"",
    ),
    ("declare module A { }", ""),
    ("declare\nmodule \"a\"", ""),
    (
        "export type { A } from \"b\"",
        "reexport type \"b\" | export type { A } from \"b\"",
    ),
    (
        "export type * from \"b\"",
        "reexport type \"b\" | export type * from \"b\"",
    ),
    (
        "let a: typeof import(\"b\")",
        "call type \"b\" | import(\"b\") | first \"b\"",
    ),
];

const NAMES: &[Row] = &[
    (
        "export { type A, type B as C, D }",
        "type A=A, type C=B, D=D",
    ),
    ("export { type, type as a }", "type=type, a=type"),
    ("export { type as, b }", "type as=as, b=b"),
    ("export { type as as }", "as=type"),
    ("export { type as as a }", "type a=as"),
    ("export type { A, B as C }", "type A=A, type C=B"),
    ("export type * as A from \"b\"", "type A"),
    ("export type A = B", "type A=A"),
    ("export interface A {}", "type A=A"),
    ("export declare interface A {}", "type A=A"),
    ("export default interface A {}", "type default=A"),
    ("export enum A { b, c }", "A=A"),
    ("export const enum A { b, c }", "A=A"),
    ("export declare const enum A { b }", "A=A"),
    ("export abstract class A {}", "A=A"),
    ("export default abstract class A {}", "default=A"),
    ("export namespace A.B {}", "A=A"),
    ("export declare module A {}", "A=A"),
    ("export import a = b.c", "a=a"),
    ("export = a", ""),
    ("export as namespace A", ""),
];

const DECLARATIONS: &[Row] = &[
    ("export declare function a(): void", "a=a"),
    (
        "export declare const a: Map<string, B, C>, d: E",
        "a=a, d=d",
    ),
    (
        "export const a: Map<string, B<C, D>> = e, f = 1",
        "a=a, f=f",
    ),
    ("export const a: { b: 1, c: 2 } = d, e: [f, g]", "a=a, e=e"),
    ("export declare const a: string\nb, c", "a=a"),
    ("export const a = f<A, B, C>(1), b = 2", "a=a, b=b"),
    (
        "export const a = new Map<string, A, B<C>>(), b = 2",
        "a=a, b=b",
    ),
    (
        "export const a = <T, U = string>(b: T) => b, c = 1",
        "a=a, c=c",
    ),
    ("export const a = async <T,>(b: T) => b, c = 1", "a=a, c=c"),
    ("export let a!: b, c", "a=a, c=c"),
    ("export const { a, b: c }: T = d", "a=a, c=c"),
    ("export @b({ c: 1 }) class A {}", "A=A"),
    ("export default @b class A {}", "default=A"),
    ("export default class implements A {}", "default"),
];

#[test]
fn imports_of_typescript_are_told(rt: HostRuntime) -> Result<(), Fail> {
    assert_rows(&rt, rt.alloc(), MODULE_TS, Imports, IMPORTS)
}

#[test]
fn names_of_typescript_are_told(rt: HostRuntime) -> Result<(), Fail> {
    assert_rows(&rt, rt.alloc(), MODULE_TS, Exports, NAMES)
}

#[test]
fn declarations_of_typescript_are_told(rt: HostRuntime) -> Result<(), Fail> {
    assert_rows(&rt, rt.alloc(), MODULE_TS, Exports, DECLARATIONS)
}
