//! Rows over numbers.
use super::listed::assert_listings;
use ecma_syntax::EsVersion;
use listing::listing::{PLAIN, Row, STANDARD, STRICT, Settings, TS};
use std::test::Fail;

/// TypeScript for a version before the fifth edition.
const OLD_TS: Settings = Settings {
    target: EsVersion::Es3,
    ..TS
};

pub(super) const ROWS: &[Row] = &[
    (PLAIN, " 120", "1..4 lf Num [120] Decimal [120] Some(120)"),
    (
        PLAIN,
        "1__2",
        "0..4 lf Num [1__2] Decimal owned [12] Some(12); \
         recorded 0..1 A numeric separator is only allowed between two digits",
    ),
    (PLAIN, ".5e1", "0..4 lf Num [.5e1] Decimal [.5e1] None"),
    (PLAIN, "0o73", "0..4 lf Num [0o73] Octal [73] Some(59)"),
    (
        PLAIN,
        "3in",
        "0..1 lf Error 1..1 Identifier cannot follow number; 1..3 - keyword in",
    ),
    (
        PLAIN,
        "0b12",
        "0..3 lf Num [0b1] Binary [1] Some(1); 3..4 - Num [2] Decimal [2] Some(2)",
    ),
    (
        PLAIN,
        "1na",
        "0..2 lf BigInt [1n] Decimal [1]; 2..3 - name [a]",
    ),
    (PLAIN, "1e+", "0..3 lf Error 3..3 Expected a decimal digit"),
    (
        PLAIN,
        "000",
        "0..3 lf Num [000] Octal [000] Some(0); waiting 0..3 Legacy octal escape is not permitted in strict mode",
    ),
    (
        STRICT,
        "08.1",
        "0..4 lf Num [08.1] Decimal [08.1] None; \
         recorded 0..2 Legacy decimal escape is not permitted in strict mode",
    ),
    // TypeScript tells of legacy octals from the fifth edition on.
    (
        TS,
        "012",
        "0..3 lf Num [012] Octal [012] Some(10); \
         recorded 0..3 Legacy octal literals are not available when targeting ECMAScript 5 and higher; \
         waiting 0..3 Legacy octal escape is not permitted in strict mode",
    ),
    (
        OLD_TS,
        "012",
        "0..3 lf Num [012] Octal [012] Some(10); waiting 0..3 Legacy octal escape is not permitted in strict mode",
    ),
];

/// Each text by the crate's rule, and by the standard's.
const ROWS_BY_RULE: &[Row] = &[
    (
        PLAIN,
        "0b12",
        "0..3 lf Num [0b1] Binary [1] Some(1); 3..4 - Num [2] Decimal [2] Some(2)",
    ),
    (
        STANDARD,
        "0b12",
        "0..3 lf Error 3..3 Identifier cannot follow number; 3..4 - Num [2] Decimal [2] Some(2)",
    ),
    (
        STANDARD,
        "0b1 2",
        "0..3 lf Num [0b1] Binary [1] Some(1); 4..5 - Num [2] Decimal [2] Some(2)",
    ),
    (
        STANDARD,
        "1na",
        "0..2 lf Error 2..2 Identifier cannot follow number; 2..3 - name [a]",
    ),
    (
        PLAIN,
        "1n2",
        "0..2 lf BigInt [1n] Decimal [1]; 2..3 - Num [2] Decimal [2] Some(2)",
    ),
    (
        STANDARD,
        "1n2",
        "0..2 lf Error 2..2 Identifier cannot follow number; 2..3 - Num [2] Decimal [2] Some(2)",
    ),
    (
        PLAIN,
        "3\\u0061",
        "0..1 lf Num [3] Decimal [3] Some(3); 1..7 - name owned [a]",
    ),
    (
        STANDARD,
        "3\\u0061",
        "0..1 lf Error 1..1 Identifier cannot follow number; 1..7 - name owned [a]",
    ),
    (
        PLAIN,
        "0_1",
        "0..3 lf Num [0_1] Octal owned [01] Some(1); waiting 0..3 Legacy octal escape is not permitted in strict mode",
    ),
    (
        STANDARD,
        "0_1",
        "0..3 lf Num [0_1] Octal owned [01] Some(1); \
         recorded 0..1 A numeric separator is only allowed between two digits; \
         waiting 0..3 Legacy octal escape is not permitted in strict mode",
    ),
    (
        PLAIN,
        "08_1",
        "0..4 lf Num [08_1] Decimal owned [081] Some(81); \
         waiting 0..4 Legacy decimal escape is not permitted in strict mode",
    ),
    (
        STANDARD,
        "08_1",
        "0..4 lf Num [08_1] Decimal owned [081] Some(81); \
         recorded 0..2 A numeric separator is only allowed between two digits; \
         waiting 0..4 Legacy decimal escape is not permitted in strict mode",
    ),
    (
        PLAIN,
        "1_0",
        "0..3 lf Num [1_0] Decimal owned [10] Some(10)",
    ),
    (
        STANDARD,
        "1_0",
        "0..3 lf Num [1_0] Decimal owned [10] Some(10)",
    ),
    (
        PLAIN,
        "0_",
        "0..2 lf Num [0_] Octal owned [0] Some(0); \
         recorded 0..1 A numeric separator is only allowed between two digits; \
         waiting 0..2 Legacy octal escape is not permitted in strict mode",
    ),
    (
        STANDARD,
        "0_",
        "0..2 lf Num [0_] Octal owned [0] Some(0); \
         recorded 0..1 A numeric separator is only allowed between two digits; \
         waiting 0..2 Legacy octal escape is not permitted in strict mode",
    ),
    (
        STANDARD,
        "0_1n",
        "0..4 lf BigInt [0_1n] Decimal owned [01]; \
         recorded 0..1 A numeric separator is only allowed between two digits",
    ),
];

#[test]
fn reads_numbers_by_either_rule(rt: HostRuntime) -> Result<(), Fail> {
    assert_listings(&rt, rt.alloc(), ROWS_BY_RULE)
}

#[test]
fn reads_numbers(rt: HostRuntime) -> Result<(), Fail> {
    assert_listings(&rt, rt.alloc(), ROWS)
}
