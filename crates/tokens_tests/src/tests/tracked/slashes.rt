//! Which slashes of a text begin regular expressions. What is expected is what ECMA-262 and TypeScript's grammar say, as
//! their parsers do.
use super::rows::assert_found;
use ecma_roles::{Part, Track};
use ecma_stream::{Lexer, Tokens};
use ecma_token::Token;
use listing::listing::{MODULE, PLAIN, Settings, TS, opened, set_flags};
use std::alloc::{AllocError, Global};
use std::process::Abort;
use std::test::Fail;

/// A text, and for each of its slashes `r` where it begins a regular expression, and `d` where it is a division.
type Row = (&'static str, &'static str);

/// More tokens than any row has.
const TOKENS: usize = 200;

const TYPESCRIPT: &[Row] = &[
    ("let r = a[0]! / 2", "d"),
    ("a\n!/re/.test(x)", "r"),
    ("let a: Array<Array<number>> = b / c / d", "dd"),
    ("f<A<B>>(x) / y / z", "dd"),
    ("let m = new Map<string, Array<number>>() / 2 / 3", "dd"),
    ("class A<T extends B<C>> {} /re/g", "r"),
    ("x = y satisfies T / 2 / 3", "dd"),
    ("x = y as T[] / 2 / 3", "dd"),
    ("x = y as \"a\" / 2 / 3", "dd"),
    ("x = y as {a: 1} / 2 / 3", "dd"),
    ("x = y as const / 2 / 3", "dd"),
    ("x = y as null / 2 / 3", "dd"),
    ("x = y as this / 2 / 3", "dd"),
    ("type A = string\n/re/.test(x)", "r"),
    ("type A = {a: 1}\n/re/.test(x)", "r"),
    ("interface A { a: 1 }\n/re/.test(x)", "r"),
    ("enum A { a }\n/re/.test(x)", "r"),
    ("namespace A { }\n/re/.test(x)", "r"),
    ("declare global { }\n/re/.test(x)", "r"),
    ("let f = (a): a is b => /re/", "r"),
    ("function f(): void { }\n/re/.test(x)", "r"),
    ("let x = (): {a: 1} => ({}) / 2 / 3", "dd"),
    ("import x = require(\"a\")\n/re/.test(y)", "r"),
    ("@Dec() class A {}\n/re/.test(x)", "r"),
    ("@Dec(/re/) class A {}", "r"),
    ("a?.b! / c / d", "dd"),
    ("let x = a!\n/ b / c", "dd"),
    ("x = <any>y / 2 / 3", "dd"),
    ("function f<const T>(x: T) { return /re/ }", "r"),
    ("let v: unique symbol / 1", "r"),
    ("if (x!) /re/.test(y)", "r"),
    ("for (const x of y!) /re/.test(x)", "r"),
    ("let z = x! + y! / 2; let w = 3 / 1", "dd"),
    ("return!/a/.test(b)", "r"),
    ("let t: `${A}/${B}` = x / y / z", "dd"),
    ("let t = a<b>/re/g", "dd"),
    ("let k = a < b / c > d / e", "dd"),
    ("let k: typeof import(\"x\") = 1 / 2 / 3", "dd"),
    ("x = y as keyof T / 2 / 3", "dd"),
    ("declare const a: number; /re/.test(x)", "r"),
    ("const r = this.width! / this.height!;", "d"),
    ("const k = map.get(x)! / map.get(y)!;", "d"),
    ("sum! /= n; x /= 2", "dd"),
    ("const q = <number>y / 2 / z", "dd"),
    ("const d = (await f())! / 2 / 3", "dd"),
    ("const z = x as Foo<Bar> / 2 / 3;", "dd"),
    (
        "let f = async <T>(x: T): Promise<void> => { }\n/re/.test(y)",
        "r",
    ),
    ("const s = `${a! / b}` + `${c! / d}`", "dd"),
    ("return a! / b!;", "d"),
    ("x = a! /* c */ / b / d", "dd"),
    ("x = a! // c\n / b / d", "dd"),
    ("[a! / 2, b! / 3]", "dd"),
    ("({ a: b! / 2, c: d! / 3 })", "dd"),
    ("class A { x!: number; y = 1 / 2 / 3 }", "dd"),
    ("let a: () => void\n/re/.test(x)", "r"),
    ("let a: string[]\n/re/.test(x)", "r"),
    ("const x = y < z / 2 && a > b / 3", "dd"),
    ("const m = a as unknown as number / 2 / 3", "dd"),
    ("type R = `${number}/${number}`; let q = 1 / 2 / 3", "dd"),
    ("a! / b", "d"),
    ("f<T>(/r/)", "r"),
    ("c ? (a: T): R => b : /r/", "r"),
    ("<T>/r/", "r"),
    ("x as () => void / 2", "d"),
    ("x as A<B> / 2", "d"),
    ("x as { a: 1 } / 2", "d"),
    ("function f(): { a: 1 } {} /r/", "r"),
    ("let f = (a?: T, b = /r/) => a / b", "rd"),
    ("type A = B extends C ? D : E\n/r/", "r"),
    ("let a: B extends C ? D : E\n/r/", "r"),
    ("abstract class A { m(): void; x = /r/ }", "r"),
    ("declare function f(): void\n/r/", "r"),
    ("f<A, B>(c) / 2", "d"),
    ("let f = function <T>(x: T): x is T { return x / 2 }", "d"),
    ("type F = (a: A, b: B) => C\n/r/", "r"),
    ("let x: `a${B}c` = 1 / 2", "d"),
    ("a as any / 2", "d"),
    ("class A { async?: string; m() { return await / 2 } }", "d"),
    ("class A { async!: string\nm() { return await / 2 } }", "d"),
    (
        "abstract class A { async?(): void; m() { return await / 2 } }",
        "d",
    ),
    (
        "class A { private async async(): Promise<void> { await /re/ } }",
        "r",
    ),
    ("c ? f<T extends U ? keyof T : B>(x) : typeof /re/", "r"),
    ("c ? f<g<T extends U ? A : keyof T>>(x) / y : /re/", "dr"),
    ("c ? f<(a?: B) => a is C>(x) : /re/", "r"),
    ("c ? f<() => keyof B, D>(x) / y : /re/", "dr"),
    ("c ? a < b ? /re/ : d : e / 2", "rd"),
    ("let f = (x): ({ a: T[] }) => /re/", "r"),
    ("let f = async (x): ([A, B[]]) => /re/", "r"),
    ("let f = (x): ({ a: T }) => B<C> => y / 2", "d"),
    ("let f: ({ a }) => B = (x) => /re/", "r"),
];

/// Type parameters of async arrow functions, and what looks like them.
const PARAMETERS: &[Row] = &[
    (
        "({ a: async <T, K extends keyof T>(o: T) => { /r/ }, b: /r/ })",
        "rr",
    ),
    (
        "({ a: async <T, const K extends A>() => /r/, b: /r/ })",
        "rr",
    ),
    ("(a ? async <T = A, U = B>() => {} : /r/)", "r"),
    ("(a ? async <T, U = B>() => {} : /r/)", "r"),
    ("(a ? async <const T, const U>() => {} : /r/)", "r"),
    (
        "[a ? async <T extends A extends B ? C : D, U>() => {} : /r/]",
        "r",
    ),
    ("f(t ? async <T\nextends A, U>() => {} : /r/)", "r"),
    (
        "enum E { a = async <T, U extends A>() => {}, b = /r/ }",
        "r",
    ),
    (
        "let { a = async <T, K extends A>() => {}, b = /r/ } = c / d",
        "rd",
    ),
    (
        "({ a: async < b, get extends() { return /r/ }, c: d / e })",
        "rd",
    ),
    ("({ a: b < c, set d(e) { f / g }, h: /r/ })", "dr"),
    ("({ a: b < c, d, e: /r/ })", "r"),
    ("c ? async < b : /r/", "r"),
    ("async < b / c", "d"),
    ("async < /r/.lastIndex", "r"),
];

/// Type arguments that begin with a function type, heritages, and shifts.
const ARGUMENTS: &[Row] = &[
    ("f<<T>() => T>(x) / 2", "d"),
    ("f<<T>() => T> / x", "d"),
    ("f<<T extends A>(a: T) => T>(x) / 2", "d"),
    ("class A extends B<<T>() => T> {}\n/r/", "r"),
    ("class A extends B<{ f: <T>(x: T) => T }> {}\n/r/", "r"),
    ("class A implements B<<T>() => T> { a = /r/ }", "r"),
    ("interface A extends B<<T>() => T> {}\n/r/", "r"),
    ("@a<<T>() => T>() class B { c = /r/ }", "r"),
    ("a << b > /r/.lastIndex", "r"),
    ("a << b > (c) / d", "d"),
    ("a << b >> c / d", "d"),
    ("({ a: b << c, d: /r/ })", "r"),
    ("c ? a << b : /r/", "r"),
    ("a++ << b > /r/.lastIndex", "r"),
];

const SCRIPTS: &[Row] = &[
    ("c ? async() : /re/", "r"),
    ("switch (c) { case async(): /re/.test(y) }", "r"),
    ("a\n++/re/.lastIndex", "r"),
    ("if (x) /re/.test(y)", "r"),
    ("while (x) /re/.test(y)", "r"),
    ("for (;;) /re/.test(y)", "r"),
    ("(x) / 2 / 3", "dd"),
    ("f(x) / 2 / 3", "dd"),
    ("x = {} / 2 / 3", "dd"),
    ("function f(){} /re/", "r"),
    ("async function f(){} /re/", "r"),
    ("x = class {} / 2 / 3", "dd"),
    ("class A { static { } \n x = /re/ }", "r"),
    ("function* g(){ yield /re/ }", "r"),
    ("function* g(){ yield\n/re/ }", "r"),
    ("yield / 2 / 3", "dd"),
    ("await / 2 / 3", "dd"),
    ("of / 2 / 3", "dd"),
    ("for await (x of y) /re/.test(x)", "r"),
    ("async function f(){ for await (x of y) /re/.test(x) }", "r"),
    ("typeof /re/", "r"),
    ("a instanceof /re/", "r"),
    ("async / 2 / 3", "dd"),
    ("static / 2 / 3", "dd"),
    ("this / 2 / 3", "dd"),
    ("null / 2 / 3", "dd"),
    ("super.x / 2 / 3", "dd"),
    ("a.#if / c / d", "dd"),
    ("({ return: 1 / 2 / 3 })", "dd"),
    ("return /re/", "r"),
    ("x => /re/", "r"),
    ("x => {} /re/", "r"),
    ("else /re/", "r"),
    ("`${a}` / 2 / 3", "dd"),
    ("`${{}}` / 2 / 3", "dd"),
    ("`${function(){}/1/2}`", "dd"),
    ("1 / 2 / 3", "dd"),
    ("1n / 2n / 3n", "dd"),
    ("[] / 2 / 3", "dd"),
    ("a[0] / 2 / 3", "dd"),
    ("[/re/]", "r"),
    ("(/re/)", "r"),
    ("a ? /b/ : /c/", "rr"),
    ("a ? {} / 1 / 2 : 3", "dd"),
    ("a **= /re/g", "r"),
    ("throw /re/", "r"),
    ("delete /re/.x", "r"),
    ("void /re/", "r"),
    ("new /re/.constructor", "r"),
    ("label: /re/.test(x)", "r"),
    ("while (1) { break\n/re/.test(x) }", "r"),
    ("debugger\n/re/.test(x)", "r"),
    ("new.target / 2 / 3", "dd"),
    ("let x = {}\n/re/g", "dd"),
    ("({get a(){ return /re/ }})", "r"),
    ("if (a) {} /re/", "r"),
    ("try {} finally {} /re/.test(x)", "r"),
    ("#!/usr/bin/env node\n/re/.test(x)", "r"),
    ("let x = y\n++\n/re/.lastIndex", "r"),
    ("!function(){} / 2 / 3", "dd"),
    ("async () => {}\n/re/", "r"),
    ("x = /[/]/", "r"),
    ("async function f() { await using x = y / z / w }", "dd"),
    ("@dec class A { @dec() m() {} @(x / y / z) n }", "dd"),
    ("do ; while (x) /r/", "r"),
    ("x = function () {} / 2", "d"),
    ("x = async function () {} / 2", "d"),
    ("{} /r/", "r"),
    ("async as => /r/", "r"),
    ("for (const k of async of => /r/) ;", "r"),
    ("switch (x) { case a: /r/ }", "r"),
    ("switch (x) { default: /r/ }", "r"),
    ("l: /r/", "r"),
    ("let a\n/r/", "r"),
    ("for (;;) { continue l\n/r/ }", "r"),
    ("a.if(b) / c", "d"),
    ("({ *async() { yield /r/ } })", "r"),
    ("({ async *m() { yield /r/; await /r/ } })", "rr"),
    ("a ? b : c / d", "d"),
    ("a?.b / c", "d"),
    ("a ?.5 : 1 / 2", "d"),
    ("if (x) {} else /r/", "r"),
    ("`${a}${/r/}`", "r"),
    ("`a` / 2", "d"),
    ("f`a${1}b` / 2", "d"),
    ("class A { async [x / 1]() { await /r/ } }", "dr"),
    ("async () => { await /r/ }", "r"),
    ("() => { await / 2 }", "d"),
    ("a++ / b", "d"),
    ("({ a: b < 1, m() { throw /r/ } })", "r"),
    ("var a = b / c, d = /r/", "dr"),
    ("x = y => ({}) / 2", "d"),
    (
        "class A extends B { m() {} static x = /r/; y = 1 / 2 }",
        "rd",
    ),
    ("(a, b) => a / b", "d"),
    ("for (a of /r/) ;", "r"),
    ("for (var a in /r/) ;", "r"),
    ("x = { get a() { return 1 / 2 }, b: /r/ }", "dr"),
    ("a = b\n/c/d", "dd"),
    ("function* f() { c ? (yield) : /re/ }", "r"),
    ("function* f() { c ? (a, yield) : /re/ }", "r"),
    ("function* f() { c ? g(yield) / 2 : /re/ }", "dr"),
    ("class A { async async() { await /re/ } }", "r"),
    ("class A { async #async() { await /re/ } }", "r"),
    ("class A { async *async() { await /re/ } }", "r"),
    ("class A { static async async() { await /re/ } }", "r"),
    ("({ async async() { await /re/ } })", "r"),
    ("({ async *async() { await /re/ } })", "r"),
    ("class A { async\nasync() { await / 2 } }", "d"),
    ("class A { #async() { await / 2 } }", "d"),
    ("class A { *async() { await / 2 } }", "d"),
    ("class A { get async() { return await / 2 } }", "d"),
    ("for (const a = b instanceof c, d = /re/; ;) a / d", "rd"),
    ("for (let a = b instanceof c / 2; a; ) /re/.test(a)", "dr"),
];

/// Texts that ECMA-262 refuses for what stands in brackets; what is expected is what it would be with other tokens in them.
const WRONG: &[Row] = &[
    ("x = (if else) / 2", "d"),
    ("x = (a => b => ) / 2", "d"),
    ("x = [a; b] / 2", "d"),
    ("x = [return] / 2", "d"),
    ("if (a b) /r/", "r"),
    ("while (case) /r/", "r"),
    ("f({ { a: 1 } }) / 2", "d"),
    ("f({ a: ? }) / 2", "d"),
    ("x = `a${b c}d` / 2", "d"),
    ("{ a ? b } /r/", "r"),
    ("{ f(a, function) } /r/", "r"),
    ("function f() { let = ; class } /r/", "r"),
];

const MODULES: &[Row] = &[
    ("import \"a\"\n/re/.test(x)", "r"),
    ("import a from \"a\"\n/re/.test(x)", "r"),
    ("export {a}\n/re/.test(x)\nlet a", "r"),
    ("export default /re/", "r"),
    ("import.meta / 2 / 3", "dd"),
    ("await /r/", "r"),
    ("export * from \"a\"\n/r/", "r"),
    ("export default class {}\n/r/", "r"),
    ("export default function () {}\n/r/", "r"),
    ("export default x / 2", "d"),
    ("export const a = /r/", "r"),
    ("import { a as b } from \"c\"\n/r/", "r"),
    ("import(\"a\") / 2", "d"),
    ("export * as \"a\" from \"b\"\n/r/", "r"),
    ("export * as from from \"b\"\n/r/", "r"),
    ("export * as as from \"b\"\n/r/", "r"),
    ("import * as as from \"b\"\n/r/", "r"),
    ("import as from \"b\"\n/r/", "r"),
];

/// What is asked of a token that was read.
#[derive(Clone, Copy)]
struct Seen {
    part: Part,
    is_assign: bool,
}

/// Reads the next token. This function alone drops one: the proof of each that does is long.
fn next_seen(lexer: &mut Lexer) -> Result<Option<Seen>, AllocError> {
    match lexer.read()? {
        Some(token) => {
            let seen = Seen {
                part: Part::of_kind(token.token.kind(), token.had_line_break),
                is_assign: matches!(&token.token, Token::AssignOp(_)),
            };
            drop(token);
            Ok(Some(seen))
        }
        None => Ok(None),
    }
}

/// Writes what the token that was read last is where it is a slash, and reads it again where it begins a regular
/// expression. Gives the token that then stands there.
fn read_slash(
    lexer: &mut Lexer,
    track: &Track,
    found: Seen,
    out: &mut String,
) -> Result<Option<Seen>, AllocError> {
    let start = lexer.last_slash();
    if start.is_none() {
        return Ok(Some(found));
    }
    if !track.expects_operand(found.is_assign) {
        out.push('d')?;
        return Ok(Some(found));
    }
    out.push('r')?;
    lexer.set_next_regexp(start);
    let expression = next_seen(lexer)?;
    lexer.set_next_regexp(None);
    Ok(expression)
}

/// Takes the next token into account, and writes what it is where it is a slash. Says whether there was a token.
fn take_next(lexer: &mut Lexer, track: &mut Track, out: &mut String) -> Result<bool, AllocError> {
    let Some(found) = next_seen(lexer)? else {
        return Ok(false);
    };
    if let Some(seen) = read_slash(lexer, track, found, out)? {
        track.step(&seen.part)?;
    }
    Ok(true)
}

/// Takes each token into account.
fn take_all(lexer: &mut Lexer, track: &mut Track, out: &mut String) -> Result<(), AllocError> {
    for _ in 0..TOKENS {
        if !take_next(lexer, track, out)? {
            break;
        }
    }
    Ok(())
}

/// What the slashes of a text are, as a track of its tokens says.
fn slashes(alloc: Global, settings: Settings, text: &str) -> Result<String, AllocError> {
    let mut lexer = opened(alloc, settings, text)?;
    set_flags(&mut lexer, settings)?;
    let mut track = Track::new(alloc, settings.ts, settings.module);
    let mut out = String::new(alloc);
    take_all(&mut lexer, &mut track, &mut out)?;
    Ok(out)
}

fn check(rt: &impl Abort, alloc: Global, settings: Settings, rows: &[Row]) -> Result<(), Fail> {
    for (text, expected) in rows {
        assert_found(rt, text, slashes(alloc, settings, text)?.as_str(), expected);
    }
    Ok(())
}

#[test]
fn scripts_have_their_slashes(rt: HostRuntime) -> Result<(), Fail> {
    check(&rt, rt.alloc(), PLAIN, SCRIPTS)
}

#[test]
fn what_is_wrong_in_brackets_ends_with_them(rt: HostRuntime) -> Result<(), Fail> {
    check(&rt, rt.alloc(), PLAIN, WRONG)
}

#[test]
fn modules_have_their_slashes(rt: HostRuntime) -> Result<(), Fail> {
    check(&rt, rt.alloc(), MODULE, MODULES)
}

#[test]
fn type_parameters_have_their_slashes(rt: HostRuntime) -> Result<(), Fail> {
    check(&rt, rt.alloc(), TS, PARAMETERS)
}

#[test]
fn type_arguments_have_their_slashes(rt: HostRuntime) -> Result<(), Fail> {
    check(&rt, rt.alloc(), TS, ARGUMENTS)
}

#[test]
fn typescript_has_its_slashes(rt: HostRuntime) -> Result<(), Fail> {
    check(&rt, rt.alloc(), TS, TYPESCRIPT)
}
