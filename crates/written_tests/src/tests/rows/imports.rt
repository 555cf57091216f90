//! Rows of imports and exports.
use ecma_rows::{ExportRow, ImportRow, ModuleAnswer, Status, write_imports};
use std::alloc::{AllocError, Global};
use std::test::Fail;

/// What names the module, the statement, the attributes, each from where to where; the parenthesis; form, phase, flags; the
/// rows of exports before it and its own.
type Imported = (
    (u32, u32),
    (u32, u32),
    (u32, u32),
    u32,
    (u8, u8, u16),
    (usize, usize),
);

/// The name, the local name, each from where to where; flags.
type Exported = ((u32, u32), (u32, u32), u32);

const TYPESCRIPT: u32 = 1;

const COMMONJS: u32 = 32;

const NONE: (u32, u32) = (0, 0);

/// A text, its options, and its imports. Places are those of es-module-lexer, but that strings are with their quotes.
const IMPORTS: &[(&str, u32, &[Imported])] = &[
    ("a", 0, &[]),
    // ECMA-262, 16.2.2.
    (
        "import 'a'",
        0,
        &[((7, 10), (0, 10), NONE, 0, (0, 0, 4), (0, 0))],
    ),
    (
        "x; import b, * as c from \"\\x61\";",
        0,
        &[((25, 31), (3, 31), NONE, 0, (0, 0, 12), (0, 0))],
    ),
    (
        "import a from 'b' with { type: 'json' }",
        0,
        &[((14, 17), (0, 39), (23, 39), 0, (0, 0, 4), (0, 0))],
    ),
    // 16.2.3: their exports are of the other module.
    (
        "export { a, b as c } from 'd'",
        0,
        &[((26, 29), (0, 29), NONE, 0, (1, 0, 4), (0, 2))],
    ),
    (
        "export { a }; export * as b from 'c'",
        0,
        &[((33, 36), (14, 36), NONE, 0, (1, 0, 4), (1, 1))],
    ),
    // 13.3.10.
    (
        "import('a')",
        0,
        &[((7, 10), (0, 11), NONE, 6, (2, 0, 4), (0, 0))],
    ),
    (
        "a = import( b + '\\n' )",
        0,
        &[((12, 20), (4, 22), NONE, 10, (2, 0, 0), (0, 0))],
    ),
    (
        "import()",
        0,
        &[((7, 7), (0, 8), NONE, 6, (2, 0, 0), (0, 0))],
    ),
    (
        "import('a', { b })",
        0,
        &[((7, 10), (0, 18), (12, 17), 6, (2, 0, 4), (0, 0))],
    ),
    (
        "import(import('a'))",
        0,
        &[
            ((7, 18), (0, 19), NONE, 6, (2, 0, 0), (0, 0)),
            ((14, 17), (7, 18), NONE, 13, (2, 0, 4), (0, 0)),
        ],
    ),
    // 13.3.12.
    (
        "import.meta.url",
        0,
        &[((0, 11), (0, 11), NONE, 0, (3, 0, 0), (0, 0))],
    ),
    // The proposals of deferred and source phase imports.
    (
        "import defer * as a from 'b'",
        0,
        &[((25, 28), (0, 28), NONE, 0, (0, 1, 4), (0, 0))],
    ),
    (
        "import source a from 'b'",
        0,
        &[((21, 24), (0, 24), NONE, 0, (0, 2, 4), (0, 0))],
    ),
    // TypeScript's.
    (
        "import type { A } from 'b'",
        TYPESCRIPT,
        &[((23, 26), (0, 26), NONE, 0, (0, 0, 5), (0, 0))],
    ),
    (
        "import a = require('b')",
        TYPESCRIPT,
        &[((19, 22), (0, 23), NONE, 0, (4, 0, 4), (0, 0))],
    ),
    (
        "declare module 'a' {}",
        TYPESCRIPT,
        &[((15, 18), (0, 18), NONE, 0, (5, 0, 4), (0, 0))],
    ),
    // CommonJS's, where it is asked for.
    ("a = require('b')", 0, &[]),
    (
        "a = require('b')",
        COMMONJS,
        &[((12, 15), (4, 16), NONE, 0, (6, 0, 4), (0, 0))],
    ),
];

/// A text, its options, and its exports (ECMA-262, 16.2.3).
const EXPORTS: &[(&str, u32, &[Exported])] = &[
    ("a", 0, &[]),
    (
        "export let a = 1, b",
        0,
        &[((11, 12), (11, 12), 2), ((18, 19), (18, 19), 2)],
    ),
    ("export const { a } = b", 0, &[((15, 16), (15, 16), 2)]),
    (
        "export default function a() {}",
        0,
        &[((7, 14), (24, 25), 2)],
    ),
    ("export default a", 0, &[((7, 14), NONE, 0)]),
    ("export { a as 'b c' }", 0, &[((14, 19), (9, 10), 6)]),
    (
        "export { '\\x61' as \\u0062 } from 'c'",
        0,
        &[((19, 25), (9, 15), 58)],
    ),
    ("export * as a from 'b'", 0, &[((12, 13), NONE, 0)]),
    ("export { type A }", TYPESCRIPT, &[((14, 15), (14, 15), 3)]),
    (
        "export interface A {}",
        TYPESCRIPT,
        &[((17, 18), (17, 18), 3)],
    ),
];

const NO_IMPORT: ImportRow = ImportRow {
    lo: 7,
    hi: 7,
    statement_lo: 7,
    statement_hi: 7,
    paren: 7,
    attributes_lo: 7,
    attributes_hi: 7,
    form: 7,
    phase: 7,
    flags: 7,
    first_export: 7,
    exports: 7,
};

const NO_EXPORT: ExportRow = ExportRow {
    lo: 7,
    hi: 7,
    local_lo: 7,
    local_hi: 7,
    flags: 7,
};

fn is_import(row: &ImportRow, wanted: Imported) -> bool {
    (row.lo, row.hi) == wanted.0
        && (row.statement_lo, row.statement_hi) == wanted.1
        && (row.attributes_lo, row.attributes_hi) == wanted.2
        && row.paren == wanted.3
        && (row.form, row.phase, row.flags) == wanted.4
        && (row.first_export, row.exports) == wanted.5
}

fn is_export(row: &ExportRow, wanted: Exported) -> bool {
    (row.lo, row.hi) == wanted.0
        && (row.local_lo, row.local_hi) == wanted.1
        && row.flags == wanted.2
}

/// Whether the room begins with these rows, as many as fit, and is as before behind them.
fn holds_imports(room: &[ImportRow], rows: &[Imported]) -> bool {
    for (index, row) in room.iter().enumerate() {
        let holds = match rows.get(index) {
            Some(wanted) => is_import(row, *wanted),
            None => *row == NO_IMPORT,
        };
        if !holds {
            return false;
        }
    }
    true
}

fn holds_exports(room: &[ExportRow], rows: &[Exported]) -> bool {
    for (index, row) in room.iter().enumerate() {
        let holds = match rows.get(index) {
            Some(wanted) => is_export(row, *wanted),
            None => *row == NO_EXPORT,
        };
        if !holds {
            return false;
        }
    }
    true
}

fn has_imports(
    alloc: Global,
    text: &str,
    bits: u32,
    rows: &[Imported],
) -> Result<bool, AllocError> {
    let mut imports = [NO_IMPORT; 3];
    let mut exports = [NO_EXPORT; 3];
    let told = write_imports(
        alloc,
        text.as_bytes(),
        bits,
        &[],
        &mut imports,
        &mut exports,
    )?;
    Ok(told.status == Status::Done && told.imports == rows.len() && holds_imports(&imports, rows))
}

fn has_exports(
    alloc: Global,
    text: &str,
    bits: u32,
    rows: &[Exported],
) -> Result<bool, AllocError> {
    let mut imports = [NO_IMPORT; 3];
    let mut exports = [NO_EXPORT; 3];
    let told = write_imports(
        alloc,
        text.as_bytes(),
        bits,
        &[],
        &mut imports,
        &mut exports,
    )?;
    Ok(told.status == Status::Done && told.exports == rows.len() && holds_exports(&exports, rows))
}

#[test]
fn imports_are_told(rt: HostRuntime) -> Result<(), Fail> {
    for (text, bits, rows) in IMPORTS {
        assert!(rt; has_imports(rt.alloc(), text, *bits, rows)?, "{text}");
    }
    Ok(())
}

#[test]
fn exports_are_told(rt: HostRuntime) -> Result<(), Fail> {
    for (text, bits, rows) in EXPORTS {
        assert!(rt; has_exports(rt.alloc(), text, *bits, rows)?, "{text}");
    }
    Ok(())
}

/// A text, its options, the places of its slashes; the status, how many imports and exports there are, whether the text is a
/// facade and whether it has module syntax. There is room for one import and two exports.
const ANSWERS: &[(&[u8], u32, &[u32], Status, (usize, usize), (bool, bool))] = &[
    (b"", 0, &[], Status::Done, (0, 0), (true, false)),
    (b"a", 0, &[], Status::Done, (0, 0), (false, false)),
    (
        b"import 'a'; export { b as c } from 'd'",
        0,
        &[],
        Status::NoRoom,
        (2, 1),
        (true, true),
    ),
    (
        b"export { a, b, c }",
        0,
        &[],
        Status::NoRoom,
        (0, 3),
        (true, true),
    ),
    (
        b"export let a, b",
        0,
        &[],
        Status::Done,
        (0, 2),
        (false, true),
    ),
    (b"import.meta", 0, &[], Status::Done, (1, 0), (false, true)),
    (
        b"import('a')",
        31 - 8 + 32,
        &[],
        Status::Done,
        (1, 0),
        (false, false),
    ),
    // A slash where a regular expression begins, and one that begins none.
    (
        b"/'import(a)/; import('a')",
        0,
        &[0],
        Status::Done,
        (1, 0),
        (false, false),
    ),
    (
        b"import('a') / b",
        0,
        &[12],
        Status::Done,
        (1, 0),
        (false, false),
    ),
    (
        b"import('a')",
        0,
        &[3],
        Status::NoSlash,
        (1, 0),
        (false, false),
    ),
    (
        b"import 'a",
        64,
        &[],
        Status::Refused,
        (0, 0),
        (false, false),
    ),
    (
        b"import 'a'",
        96,
        &[],
        Status::Refused,
        (0, 0),
        (false, false),
    ),
    (
        b"import 'a'",
        56,
        &[],
        Status::Refused,
        (0, 0),
        (false, false),
    ),
    (
        b"import '\xff'",
        32,
        &[],
        Status::NotUtf8,
        (0, 0),
        (false, false),
    ),
];

fn is_answered(
    alloc: Global,
    text: &[u8],
    bits: u32,
    slashes: &[u32],
    answer: ModuleAnswer,
) -> Result<bool, AllocError> {
    let mut imports = [NO_IMPORT];
    let mut exports = [NO_EXPORT; 2];
    let told = write_imports(alloc, text, bits, slashes, &mut imports, &mut exports)?;
    let are_kept = (answer.imports > 0 || imports[0] == NO_IMPORT)
        && (answer.exports > 0 || exports[0] == NO_EXPORT);
    Ok(told == answer && are_kept)
}

#[test]
fn modules_are_answered(rt: HostRuntime) -> Result<(), Fail> {
    for (
        text,
        bits,
        slashes,
        status,
        (imports, exports),
        (is_facade, has_module_syntax),
    ) in ANSWERS {
        let answer = ModuleAnswer {
            status: *status,
            imports: *imports,
            exports: *exports,
            is_facade: *is_facade,
            has_module_syntax: *has_module_syntax,
        };
        assert!(rt;
            is_answered(rt.alloc(), text, *bits, slashes, answer)?,
            "{text:?}"
        );
    }
    Ok(())
}
