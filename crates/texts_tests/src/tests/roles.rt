//! Rows of slashes that are read by the tokens before them. The places are those of acorn's and TypeScript's parsers.
use super::texts::{Case, assert_read, tokenized};
use ecma_slashes::Slashes;
use ecma_state::Kept;
use ecma_syntax::{AssignOp, BinOpToken};
use ecma_token::TokenKind;
use listing::listing::{MODULE, PLAIN, Settings, TS};
use std::alloc::{AllocError, Global};
use std::process::Abort;
use std::test::Fail;

/// A text, and the places of its regular expressions and of its divisions.
type Row = (&'static str, &'static [u32], &'static [u32]);

const TYPESCRIPT: &[Row] = &[
    ("x = a! /* c */ / b / d", &[], &[15, 19]),
    ("x = a! // c\n / b / d", &[], &[13, 17]),
    ("[a! / 2, b! / 3]", &[], &[4, 12]),
    ("({ a: b! / 2, c: d! / 3 })", &[], &[9, 20]),
    ("class A { x!: number; y = 1 / 2 / 3 }", &[], &[28, 32]),
    ("let a: () => void\n/re/.test(x)", &[18], &[]),
    ("let a: string[]\n/re/.test(x)", &[16], &[]),
    ("const x = y < z / 2 && a > b / 3", &[], &[16, 29]),
    ("const m = a as unknown as number / 2 / 3", &[], &[33, 37]),
    ("a! / b", &[], &[3]),
    ("a\n!/r/", &[3], &[]),
    ("let a: string[]\n/r/", &[16], &[]),
    ("type A = B\n/r/", &[11], &[]),
    ("import x = require(\"a\")\n/r/", &[24], &[]),
    ("function f(): { a: 1 } {} /r/", &[26], &[]),
    ("x as T / 2", &[], &[7]),
    ("x as A<B> / 2", &[], &[10]),
    ("x as { a: 1 } / 2", &[], &[14]),
    ("x as () => void / 2", &[], &[16]),
    ("<T>/r/", &[3], &[]),
    ("f<T>(/r/)", &[5], &[]),
    ("f<T>/r/g", &[], &[4, 6]),
    ("c ? (a: T): R => b : /r/", &[21], &[]),
    ("interface A<T> extends B { a: 1 }\n/r/", &[34], &[]),
    ("declare module \"m\" { }\n/r/", &[23], &[]),
    ("enum A { a = 4 / 2 }\n/r/", &[21], &[15]),
    ("class A { a!: T; b?: T = /r/ }", &[25], &[]),
    ("let x = (<T,>(a: T) => a) / 2", &[], &[26]),
    ("abstract class A { abstract m(): T; n = /r/ }", &[40], &[]),
    ("x = y! / z! / 2", &[], &[7, 12]),
    ("x = a as any as T / 2", &[], &[18]),
    ("function f(this: T, a = /r/) {}", &[24], &[]),
    ("let x: T extends U ? V : W = /r/", &[29], &[]),
    ("type A = `${B}`\n/r/", &[16], &[]),
];

const MODULES: &[Row] = &[
    ("export default class {}\n/r/", &[24], &[]),
    ("export default function () {}\n/r/", &[30], &[]),
    ("import.meta / 2", &[], &[12]),
];

const SCRIPTS: &[Row] = &[
    ("let a\n/r/", &[6], &[]),
    ("yield / 2", &[], &[6]),
    ("function* g() { yield\n/r/ }", &[22], &[]),
    ("await / 2", &[], &[6]),
    ("#!x\n/r/", &[4], &[]),
    ("switch (a) { case a: /r/ }", &[21], &[]),
    ("l: /r/", &[3], &[]),
    ("function f() { new.target / 2 }", &[], &[26]),
    ("class A { #if; m(a) { return a.#if / 2 } }", &[], &[35]),
    ("({ a: b < 1, m() { throw /r/ } })", &[25], &[]),
    ("x = async as => /r/", &[16], &[]),
    ("switch (a) { default: /r/ }", &[22], &[]),
    ("throw /r/", &[6], &[]),
    ("x = `${/r/}` / 2", &[7], &[13]),
    ("x = `a` / 2", &[], &[8]),
    ("x = a ? /r/ : /s/", &[8, 14], &[]),
    ("x = a ?? /r/", &[9], &[]),
    ("x ||= /r/", &[6], &[]),
    ("x = y /= 2", &[], &[6]),
    ("x = [/r/, ...y] / 2", &[5], &[16]),
    ("x = (a, /r/) / 2", &[8], &[13]),
    ("for (x in /r/) ;", &[10], &[]),
    ("for (const x of /r/) ;", &[16], &[]),
    ("while (x) /r/.test(y)", &[10], &[]),
    ("with (x) /r/", &[9], &[]),
    ("try {} catch {} /r/", &[16], &[]),
    ("try {} finally {} /r/", &[18], &[]),
    ("if (x) {} else /r/", &[15], &[]),
    ("typeof /r/", &[7], &[]),
    ("x = y instanceof /r/", &[17], &[]),
    ("x = a\n/b/c", &[], &[6, 8]),
    ("return_ / 2", &[], &[8]),
    ("class A extends B {} /r/", &[21], &[]),
    ("x = { get a() { return /r/ }, b: 1 } / 2", &[23], &[37]),
    ("x = a?.[/r/] / 2", &[8], &[13]),
    ("x = a?.b / c / d", &[], &[9, 13]),
    ("let { a = /r/ } = b / c", &[10], &[20]),
];

/// Whether the regular expressions and the divisions among these tokens begin at these places.
fn begin_at(kept: &[Kept], expressions: &[u32], divisions: &[u32]) -> bool {
    let mut expressions = expressions.iter();
    let mut divisions = divisions.iter();
    for token in kept {
        let place = match token.kind {
            TokenKind::Regex => expressions.next(),
            TokenKind::BinOp(BinOpToken::Div) | TokenKind::AssignOp(AssignOp::DivAssign) => {
                divisions.next()
            }
            _ => continue,
        };
        match place {
            Some(place) if *place == token.span.lo.0 => {}
            _ => return false,
        }
    }
    expressions.next().is_none() && divisions.next().is_none()
}

/// Whether a text is read with regular expressions and divisions at the places of its row.
fn is_told(alloc: Global, case: Case, row: &Row) -> Result<bool, AllocError> {
    let (_, expressions, divisions) = row;
    let output = tokenized(alloc, case)?;
    let is_told = output.rereads == expressions.len()
        && begin_at(&output.gathered.kept, expressions, divisions);
    drop(output);
    Ok(is_told)
}

fn assert_rows(
    rt: &impl Abort,
    alloc: Global,
    settings: Settings,
    rows: &[Row],
) -> Result<(), Fail> {
    for row in rows {
        let case = Case {
            settings,
            text: row.0,
            slashes: Slashes::ByRole,
        };
        assert_read(rt, alloc, case)?;
        assert!(rt; is_told(alloc, case, row)?, "{:?}", row.0);
    }
    Ok(())
}

#[test]
fn slashes_are_told_by_the_tokens_before(rt: HostRuntime) -> Result<(), Fail> {
    assert_rows(&rt, rt.alloc(), PLAIN, SCRIPTS)?;
    assert_rows(&rt, rt.alloc(), MODULE, MODULES)
}

#[test]
fn slashes_are_told_by_the_tokens_of_types_before(rt: HostRuntime) -> Result<(), Fail> {
    assert_rows(&rt, rt.alloc(), TS, TYPESCRIPT)
}
