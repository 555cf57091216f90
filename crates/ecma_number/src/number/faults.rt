//! What is wrong with a number that is read all the same.
ghost use Rattle.std.specs.Prelude.{◌≡◌, ◌<◌, ◌+◌, ◌^◌, ◌++◌, ◌∷◌, ◌&&◌, [], false, length, map, OnOk, IsOk, if◌then◌else◌};
ghost use Rattle.std.specs.List.{list_any};
ghost use Rattle.ecma_grammar.specs.Found.{fault_view, fault_behind};
ghost use Rattle.ecma_token.specs.declared.token.Radix.TheVariants.{Decimal};
ghost use Rattle.ecma_grammar.specs.Fronts.{next_passes};
ghost use Rattle.ecma_number.specs.WrittenNumbers.{number_of, fraction_of, exponent_of};
ghost use Rattle.ecma_grammar.specs.Numbers.{OctalRun, DecimalRun};
ghost use Rattle.ecma_grammar.specs.Numbers as numbers;

use crate::number::digits::has_separator;
use crate::number::parts::{
    WrittenExponent, WrittenFraction, WrittenNumber, fraction_len, is_legacy,
};
use crate::number::runs::is_digit;
use ecma_grammar::found::{Blame, push_fault};
use ecma_place::{BytePos, Span};
use ecma_syntax::NumberRule;
use ecma_token::{Error, Radix, SyntaxError};
use std::alloc::{AllocError, Global};

/// Adds the fault of a separator behind `count` bytes of its run, if it is faulty.
fn push_separator<'a>(
    alloc: Global,
    faults: &mut Vec<(Blame, Error<'a>)>,
    is_faulty: bool,
    start: BytePos,
    count: u32,
) -> Result<(), AllocError>
    requires { start.0 + count < 2 ^ 32 }
    ensures { OnOk result (map fault_view faults.new.items ≡ map fault_view faults.old.items
        ++ map (fault_behind start.0) (map numbers.separator_fault (if is_faulty then count ∷ [] else []))) }
{
    if is_faulty {
        let span = Span::new(start, BytePos(start.0 + count));
        push_fault(
            alloc,
            faults,
            Blame::Always,
            span,
            SyntaxError::NumericSeparatorIsAllowedOnlyBetweenTwoDigits,
        )?;
    }
    Ok(())
}

/// Whether the bytes begin with a digit of the radix.
fn begins_with_digit(bytes: &[u8], radix: Radix) -> bool
    ensures { result ≡ next_passes (numbers.digit radix) bytes.now }
{
    match bytes.first() {
        Some(b) => is_digit(*b as char, radix),
        None => false,
    }
}

/// Whether the byte of a run is a separator that is not between two digits, or is in a run that may hold none.
fn is_faulty(b: u8, allowed: bool, seen: bool, behind: &[u8], radix: Radix) -> bool
    ensures { result ≡ numbers.is_faulty radix (allowed && seen) b behind.now }
{
    b == b'_' && !(allowed && seen && begins_with_digit(behind, radix))
}

/// Adds the faults of the separators of a run that starts at the place, which may hold some or none.
fn push_separators<'a>(
    alloc: Global,
    faults: &mut Vec<(Blame, Error<'a>)>,
    run: &str,
    radix: Radix,
    start: BytePos,
    allowed: bool,
) -> Result<(), AllocError>
    requires fits { start.0 + length run.now < 2 ^ 32 }
    requires run { numbers.IsRun radix run.now }
    ensures { OnOk result (map fault_view faults.new.items ≡ map fault_view faults.old.items
        ++ map (fault_behind start.0) (numbers.run_faults allowed radix run.now)) }
{
    let mut seen = false;
    let mut count = 0;
    let mut left = run.as_bytes();
    'bytes: while let Some((b, behind)) = left.split_first() {
        push_separator(
            alloc,
            faults,
            is_faulty(*b, allowed, seen, behind, radix),
            start,
            count,
        )?;
        seen |= *b != b'_';
        count += 1;
        left = behind;
    }
    Ok(())
}

/// Adds what is wrong with a run that starts at the place, which may hold separators or not. A run without a separator does not allocate.
pub(super) fn push_run_faults<'a>(
    alloc: Global,
    faults: &mut Vec<(Blame, Error<'a>)>,
    run: &str,
    radix: Radix,
    start: BytePos,
    allowed: bool,
) -> Result<(), AllocError>
    requires fits { start.0 + length run.now < 2 ^ 32 }
    requires run { numbers.IsRun radix run.now }
    ensures faults { OnOk result (map fault_view faults.new.items ≡ map fault_view faults.old.items
        ++ map (fault_behind start.0) (numbers.run_faults allowed radix run.now)) }
    ensures free { list_any numbers.is_separator run.now ≡ false → IsOk result }
{
    if has_separator(run) {
        push_separators(alloc, faults, run, radix, start, allowed)?;
    }
    Ok(())
}

/// Whether a decimal run that begins a number may hold separators.
fn may_hold_separators(run: &str, rule: NumberRule) -> bool
    ensures { result ≡ numbers.may_hold_separators rule run.now }
{
    match rule {
        NumberRule::Crate => true,
        NumberRule::Standard => !is_legacy(run),
    }
}

/// Adds what is wrong with a decimal run that begins a number at the place. A run without a separator does not allocate.
fn push_first_run_faults<'a>(
    alloc: Global,
    faults: &mut Vec<(Blame, Error<'a>)>,
    run: &str,
    start: BytePos,
    rule: NumberRule,
) -> Result<(), AllocError>
    requires fits { start.0 + length run.now < 2 ^ 32 }
    requires run { numbers.IsRun Decimal run.now }
    ensures faults { OnOk result (map fault_view faults.new.items ≡ map fault_view faults.old.items
        ++ map (fault_behind start.0) (numbers.first_run_faults rule run.now)) }
    ensures free { list_any numbers.is_separator run.now ≡ false → IsOk result }
{
    push_run_faults(
        alloc,
        faults,
        run,
        Radix::Decimal,
        start,
        may_hold_separators(run, rule),
    )
}

/// Adds the fault of a decimal run at the place, if it is a legacy decimal.
fn push_legacy_fault<'a>(
    alloc: Global,
    faults: &mut Vec<(Blame, Error<'a>)>,
    run: &str,
    start: BytePos,
) -> Result<(), AllocError>
    requires fits { start.0 + length run.now < 2 ^ 32 }
    requires run { numbers.IsRun Decimal run.now }
    ensures faults { OnOk result (map fault_view faults.new.items ≡ map fault_view faults.old.items
        ++ map (fault_behind start.0) (numbers.legacy_faults run.now)) }
    ensures free { numbers.is_legacy run.now ≡ false → IsOk result }
{
    if is_legacy(run) {
        let span = Span::new(start, BytePos(start.0 + run.len() as u32));
        push_fault(
            alloc,
            faults,
            Blame::Strict,
            span,
            SyntaxError::LegacyDecimal,
        )?;
    }
    Ok(())
}

/// Adds what is wrong with a fraction that starts at the place.
fn push_fraction_faults<'a>(
    alloc: Global,
    faults: &mut Vec<(Blame, Error<'a>)>,
    fraction: WrittenFraction,
    start: BytePos,
) -> Result<(), AllocError>
    requires fits { start.0 + length (numbers.fraction_text (fraction_of fraction)) < 2 ^ 32 }
    requires form { numbers.IsFraction (fraction_of fraction) }
    ensures faults { OnOk result (map fault_view faults.new.items ≡ map fault_view faults.old.items
        ++ numbers.fraction_faults start.0 (fraction_of fraction.entry)) }
    ensures free { list_any numbers.is_separator (numbers.fraction_text (fraction_of fraction.entry)) ≡ false → IsOk result }
{
    match fraction {
        WrittenFraction::Pointless => Ok(()),
        WrittenFraction::Pointed(run) => {
            push_run_faults(
                alloc,
                faults,
                run,
                Radix::Decimal,
                BytePos(start.0 + 1),
                true,
            )
        }
    }
}

/// Adds what is wrong with an exponent that starts at the place.
fn push_exponent_faults<'a>(
    alloc: Global,
    faults: &mut Vec<(Blame, Error<'a>)>,
    exponent: WrittenExponent,
    start: BytePos,
) -> Result<(), AllocError>
    requires fits { start.0 + length (numbers.exponent_text (exponent_of exponent)) < 2 ^ 32 }
    requires form { numbers.IsExponent (exponent_of exponent) }
    ensures faults { OnOk result (map fault_view faults.new.items ≡ map fault_view faults.old.items
        ++ numbers.exponent_faults start.0 (exponent_of exponent.entry)) }
    ensures free { list_any numbers.is_separator (numbers.exponent_text (exponent_of exponent.entry)) ≡ false → IsOk result }
{
    match exponent {
        WrittenExponent::Unscaled => Ok(()),
        WrittenExponent::Marked { mark: _, sign, run } => {
            let behind = BytePos(start.0 + 1 + sign.len() as u32);
            push_run_faults(alloc, faults, run, Radix::Decimal, behind, true)
        }
    }
}

/// Adds what is wrong with a decimal number without `n` that starts at the place.
fn push_decimal_faults<'a>(
    alloc: Global,
    faults: &mut Vec<(Blame, Error<'a>)>,
    run: &str,
    fraction: WrittenFraction,
    exponent: WrittenExponent,
    start: BytePos,
    rule: NumberRule,
) -> Result<(), AllocError>
    requires fits { start.0 + (length run.now + (length (numbers.fraction_text (fraction_of fraction))
        + length (numbers.exponent_text (exponent_of exponent)))) < 2 ^ 32 }
    requires run { numbers.IsRun Decimal run.now }
    requires fraction { numbers.IsFraction (fraction_of fraction) }
    requires exponent { numbers.IsExponent (exponent_of exponent) }
    ensures faults { OnOk result (map fault_view faults.new.items ≡ map fault_view faults.old.items
        ++ map (fault_behind start.0) (numbers.part_faults rule (DecimalRun run.now (fraction_of fraction.entry) (exponent_of exponent.entry)))) }
    ensures free { list_any numbers.is_separator run.now ≡ false
        → list_any numbers.is_separator (numbers.fraction_text (fraction_of fraction.entry)) ≡ false
        → list_any numbers.is_separator (numbers.exponent_text (exponent_of exponent.entry)) ≡ false
        → numbers.is_legacy run.now ≡ false → IsOk result }
{
    push_first_run_faults(alloc, faults, run, start, rule)?;
    push_legacy_fault(alloc, faults, run, start)?;
    let behind = BytePos(start.0 + run.len() as u32);
    push_fraction_faults(alloc, faults, fraction, behind)?;
    let last = BytePos(behind.0 + fraction_len(fraction) as u32);
    push_exponent_faults(alloc, faults, exponent, last)?;
    Ok(())
}

/// Adds what is wrong with the parts of a number that starts at the place. Where they hold no separator and nothing is
/// wrong, nothing is allocated.
pub(super) fn push_part_faults<'a>(
    alloc: Global,
    faults: &mut Vec<(Blame, Error<'a>)>,
    number: WrittenNumber,
    start: BytePos,
    rule: NumberRule,
) -> Result<(), AllocError>
    requires fits { start.0 + length (numbers.number_text (number_of number)) < 2 ^ 32 }
    requires form { numbers.IsNumber (number_of number) }
    ensures faults { OnOk result (map fault_view faults.new.items ≡ map fault_view faults.old.items
        ++ map (fault_behind start.0) (numbers.part_faults rule (number_of number.entry))) }
    ensures free { list_any numbers.is_separator (numbers.number_text (number_of number.entry)) ≡ false
        → numbers.part_faults rule (number_of number.entry) ≡ [] → IsOk result }
{
    match number {
        WrittenNumber::Radixed { radix, run, .. } => {
            push_run_faults(alloc, faults, run, radix, BytePos(start.0 + 2), true)
        }
        WrittenNumber::Big(run) => push_first_run_faults(alloc, faults, run, start, rule),
        WrittenNumber::Legacy(run) => push_first_run_faults(alloc, faults, run, start, rule),
        WrittenNumber::Plain {
            run,
            fraction,
            exponent,
        } => push_decimal_faults(alloc, faults, run, fraction, exponent, start, rule),
    }
}

/// Adds what is said of a legacy octal at the place: that there is none in strict code, and before that, where the flag
/// asks for it, that TypeScript has none.
fn push_octal_run_faults<'a>(
    alloc: Global,
    faults: &mut Vec<(Blame, Error<'a>)>,
    run: &str,
    start: BytePos,
    ts1085: bool,
) -> Result<(), AllocError>
    requires fits { start.0 + length run.now < 2 ^ 32 }
    requires run { numbers.IsRun Decimal run.now }
    ensures { OnOk result (map fault_view faults.new.items ≡ map fault_view faults.old.items
        ++ map (fault_behind start.0) (numbers.octal_faults ts1085 (OctalRun run.now))) }
{
    let span = Span::new(start, BytePos(start.0 + run.len() as u32));
    if ts1085 {
        push_fault(alloc, faults, Blame::Always, span, SyntaxError::TS1085)?;
    }
    push_fault(alloc, faults, Blame::Strict, span, SyntaxError::LegacyOctal)?;
    Ok(())
}

/// Adds what is said of a number at the place that is not refused, if it is a legacy octal.
pub(super) fn push_octal_faults<'a>(
    alloc: Global,
    faults: &mut Vec<(Blame, Error<'a>)>,
    number: WrittenNumber,
    start: BytePos,
    ts1085: bool,
) -> Result<(), AllocError>
    requires fits { start.0 + length (numbers.number_text (number_of number)) < 2 ^ 32 }
    requires form { numbers.IsNumber (number_of number) }
    ensures faults { OnOk result (map fault_view faults.new.items ≡ map fault_view faults.old.items
        ++ map (fault_behind start.0) (numbers.octal_faults ts1085 (number_of number.entry))) }
    ensures free { numbers.octal_faults ts1085 (number_of number.entry) ≡ [] → IsOk result }
{
    match number {
        WrittenNumber::Radixed { .. } => Ok(()),
        WrittenNumber::Big(_) => Ok(()),
        WrittenNumber::Legacy(run) => push_octal_run_faults(alloc, faults, run, start, ts1085),
        WrittenNumber::Plain { .. } => Ok(()),
    }
}
