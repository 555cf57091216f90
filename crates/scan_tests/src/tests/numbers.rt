//! Numbers: what is read of each form, why one is refused, and what is wrong besides.
ghost use Rattle.std.specs.Prelude.{◌≡◌, IsTrue, true};
ghost use Rattle.ecma_place.specs.Cursor.{rest};
ghost use Rattle.ecma_scan.specs.Numbers.{opens_number};

use super::written::{check, write_found_token};
use ecma_place::{BytePos, CharExt, StringInput};
use ecma_scan::scan_number;
use ecma_syntax::NumberRule;
use std::alloc::{AllocError, Global};
use std::test::Fail;

/// Whether a digit stands at the cursor.
fn is_at_digit(input: &StringInput) -> bool
    ensures { IsTrue result → opens_number (rest input.now) ≡ true }
{
    match input.cur() {
        Some(c) => c.is_digit(10),
        None => false,
    }
}

/// Whether a point and a digit stand at the cursor.
fn is_at_point(input: &StringInput) -> bool
    ensures { IsTrue result → opens_number (rest input.now) ≡ true }
{
    match (input.cur(), input.peek()) {
        (Some('.'), Some(c)) => c.is_digit(10),
        _ => false,
    }
}

/// Writes what is found of the number at the cursor, where one begins.
fn write_number(
    alloc: Global,
    line: &mut String,
    input: &mut StringInput,
    ts1085: bool,
    rule: NumberRule,
) -> Result<(), AllocError> {
    if is_at_digit(input) || is_at_point(input) {
        let found = scan_number(alloc, input, ts1085, rule)?;
        write_found_token(line, found, input)?;
    }
    Ok(())
}

/// What is found by a rule of the number with which the text begins, written.
fn number_by(
    alloc: Global,
    text: &str,
    ts1085: bool,
    rule: NumberRule,
) -> Result<String, AllocError> {
    let mut line = String::new(alloc);
    if StringInput::fits(text, BytePos(0)) {
        let mut input = StringInput::new(text, BytePos(0));
        write_number(alloc, &mut line, &mut input, ts1085, rule)?;
    }
    Ok(line)
}

/// What is found by the crate's rule.
fn number_of(alloc: Global, text: &str, ts1085: bool) -> Result<String, AllocError> {
    number_by(alloc, text, ts1085, NumberRule::Crate)
}

const DECIMALS: &[(&str, &str)] = &[
    ("0", "0..1 Num Decimal borrowed 0 = 0"),
    ("7", "0..1 Num Decimal borrowed 7 = 7"),
    (
        "340282366920938463463374607431768211455",
        "0..39 Num Decimal borrowed 340282366920938463463374607431768211455 = 340282366920938463463374607431768211455",
    ),
    (
        "340282366920938463463374607431768211456",
        "0..39 Num Decimal borrowed 340282366920938463463374607431768211456",
    ),
    (".0", "0..2 Num Decimal borrowed .0"),
    ("0e8", "0..3 Num Decimal borrowed 0e8"),
    (".8e1", "0..4 Num Decimal borrowed .8e1"),
    (".5e1", "0..4 Num Decimal borrowed .5e1"),
    ("0.8e1", "0..5 Num Decimal borrowed 0.8e1"),
    ("1.18e1", "0..6 Num Decimal borrowed 1.18e1"),
    ("9.09", "0..4 Num Decimal borrowed 9.09"),
    ("1e30", "0..4 Num Decimal borrowed 1e30"),
    ("0.e-1", "0..5 Num Decimal borrowed 0.e-1"),
    (
        "9.671406556917009e+24",
        "0..21 Num Decimal borrowed 9.671406556917009e+24",
    ),
    (
        "34028234663852886e22",
        "0..20 Num Decimal borrowed 34028234663852886e22",
    ),
];

#[test]
fn reads_decimals(rt: HostRuntime) -> Result<(), Fail> {
    for (text, line) in DECIMALS {
        check(&rt, text, number_of(rt.alloc(), text, false), line)?;
    }
    Ok(())
}

const PREFIXES_AND_SEPARATORS: &[(&str, &str)] = &[
    ("0o73", "0..4 Num Octal borrowed 73 = 59"),
    ("0XfF", "0..4 Num Hex borrowed fF = 255"),
    ("1_000", "0..5 Num Decimal owned 1000 = 1000"),
    ("0xAE_BE_CE", "0..10 Num Hex owned AEBECE = 11452110"),
    ("0xFn", "0..4 BigInt Hex borrowed F"),
    ("010n", "0..4 BigInt Decimal borrowed 010"),
    (
        "1__2",
        "0..4 Num Decimal owned 12 = 12, Always NumericSeparatorIsAllowedOnlyBetweenTwoDigits 0..1",
    ),
    (
        "1._5",
        "0..4 Num Decimal owned 1.5, Always NumericSeparatorIsAllowedOnlyBetweenTwoDigits 2..2",
    ),
    (
        "1_n",
        "0..3 BigInt Decimal owned 1, Always NumericSeparatorIsAllowedOnlyBetweenTwoDigits 0..1",
    ),
];

#[test]
fn reads_prefixes_and_separators(rt: HostRuntime) -> Result<(), Fail> {
    for (text, line) in PREFIXES_AND_SEPARATORS {
        check(&rt, text, number_of(rt.alloc(), text, false), line)?;
    }
    Ok(())
}

/// Each with whether the fault of TypeScript is told.
const LEGACY_NUMBERS: &[(&str, bool, &str)] = &[
    (
        "000",
        false,
        "0..3 Num Octal borrowed 000 = 0, Strict LegacyOctal 0..3",
    ),
    (
        "01",
        false,
        "0..2 Num Octal borrowed 01 = 1, Strict LegacyOctal 0..2",
    ),
    (
        "0012",
        false,
        "0..4 Num Octal borrowed 0012 = 10, Strict LegacyOctal 0..4",
    ),
    (
        "007.",
        false,
        "0..3 Num Octal borrowed 007 = 7, Strict LegacyOctal 0..3",
    ),
    (
        "08",
        false,
        "0..2 Num Decimal borrowed 08 = 8, Strict LegacyDecimal 0..2",
    ),
    (
        "08.1",
        false,
        "0..4 Num Decimal borrowed 08.1, Strict LegacyDecimal 0..2",
    ),
    (
        "08e1",
        false,
        "0..4 Num Decimal borrowed 08e1, Strict LegacyDecimal 0..2",
    ),
    (
        "08.8e1",
        false,
        "0..6 Num Decimal borrowed 08.8e1, Strict LegacyDecimal 0..2",
    ),
    (
        "012",
        true,
        "0..3 Num Octal borrowed 012 = 10, Always TS1085 0..3, Strict LegacyOctal 0..3",
    ),
];

#[test]
fn reads_legacy_numbers(rt: HostRuntime) -> Result<(), Fail> {
    for (text, ts1085, line) in LEGACY_NUMBERS {
        check(&rt, text, number_of(rt.alloc(), text, *ts1085), line)?;
    }
    Ok(())
}

const REFUSED_NUMBERS: &[(&str, &str)] = &[
    ("3in", "0..1 IdentAfterNum 1..1"),
    ("1e5n", "0..3 IdentAfterNum 3..3"),
    ("00e1", "0..2 IdentAfterNum 2..2"),
    ("012e1", "0..3 IdentAfterNum 3..3"),
    ("1e+", "0..3 ExpectedDigit { radix: Decimal } 3..3"),
    ("0x", "0..2 ExpectedDigit { radix: Hex } 2..2"),
    ("1e", "0..2 NumLitTerminatedWithExp 2..2"),
];

#[test]
fn refuses_numbers(rt: HostRuntime) -> Result<(), Fail> {
    for (text, line) in REFUSED_NUMBERS {
        check(&rt, text, number_of(rt.alloc(), text, false), line)?;
    }
    Ok(())
}

/// What is found of the number with which the text begins and of the one behind it, written.
fn two_numbers_of(alloc: Global, text: &str) -> Result<String, AllocError> {
    let mut line = String::new(alloc);
    if StringInput::fits(text, BytePos(0)) {
        let mut input = StringInput::new(text, BytePos(0));
        write_number(alloc, &mut line, &mut input, false, NumberRule::Crate)?;
        line.push_str("; ")?;
        write_number(alloc, &mut line, &mut input, false, NumberRule::Crate)?;
    }
    Ok(line)
}

const TWO_NUMBERS: &[(&str, &str)] = &[
    (
        "0b12",
        "0..3 Num Binary borrowed 1 = 1; 3..4 Num Decimal borrowed 2 = 2",
    ),
    (
        "00.0",
        "0..2 Num Octal borrowed 00 = 0, Strict LegacyOctal 0..2; 2..4 Num Decimal borrowed .0",
    ),
    (
        "01.8e1",
        "0..2 Num Octal borrowed 01 = 1, Strict LegacyOctal 0..2; 2..6 Num Decimal borrowed .8e1",
    ),
    // a name is no number
    ("1na", "0..2 BigInt Decimal borrowed 1; "),
];

#[test]
fn ends_where_another_number_or_a_name_begins(rt: HostRuntime) -> Result<(), Fail> {
    for (text, line) in TWO_NUMBERS {
        check(&rt, text, two_numbers_of(rt.alloc(), text), line)?;
    }
    Ok(())
}

/// Each with the rule it is read by.
const NUMBERS_BY_RULE: &[(&str, NumberRule, &str)] = &[
    ("0b12", NumberRule::Crate, "0..3 Num Binary borrowed 1 = 1"),
    ("0b12", NumberRule::Standard, "0..3 IdentAfterNum 3..3"),
    (
        "0b1 2",
        NumberRule::Standard,
        "0..3 Num Binary borrowed 1 = 1",
    ),
    ("1na", NumberRule::Crate, "0..2 BigInt Decimal borrowed 1"),
    ("1na", NumberRule::Standard, "0..2 IdentAfterNum 2..2"),
    ("1n2", NumberRule::Crate, "0..2 BigInt Decimal borrowed 1"),
    ("1n2", NumberRule::Standard, "0..2 IdentAfterNum 2..2"),
    (
        "3\\u0061",
        NumberRule::Crate,
        "0..1 Num Decimal borrowed 3 = 3",
    ),
    ("3\\u0061", NumberRule::Standard, "0..1 IdentAfterNum 1..1"),
    (
        "0_1",
        NumberRule::Crate,
        "0..3 Num Octal owned 01 = 1, Strict LegacyOctal 0..3",
    ),
    (
        "0_1",
        NumberRule::Standard,
        "0..3 Num Octal owned 01 = 1, Always NumericSeparatorIsAllowedOnlyBetweenTwoDigits 0..1, Strict LegacyOctal 0..3",
    ),
    (
        "08_1",
        NumberRule::Crate,
        "0..4 Num Decimal owned 081 = 81, Strict LegacyDecimal 0..4",
    ),
    (
        "08_1",
        NumberRule::Standard,
        "0..4 Num Decimal owned 081 = 81, Always NumericSeparatorIsAllowedOnlyBetweenTwoDigits 0..2, Strict LegacyDecimal 0..4",
    ),
    (
        "1_0",
        NumberRule::Standard,
        "0..3 Num Decimal owned 10 = 10",
    ),
    (
        "0_",
        NumberRule::Standard,
        "0..2 Num Octal owned 0 = 0, Always NumericSeparatorIsAllowedOnlyBetweenTwoDigits 0..1, Strict LegacyOctal 0..2",
    ),
    (
        "0_1n",
        NumberRule::Standard,
        "0..4 BigInt Decimal owned 01, Always NumericSeparatorIsAllowedOnlyBetweenTwoDigits 0..1",
    ),
];

#[test]
fn reads_numbers_by_either_rule(rt: HostRuntime) -> Result<(), Fail> {
    for (text, rule, line) in NUMBERS_BY_RULE {
        check(&rt, text, number_by(rt.alloc(), text, false, *rule), line)?;
    }
    Ok(())
}
