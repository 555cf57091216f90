//! Errors: rows of their own, or faults of the file.
ghost use Rattle.std.specs.Prelude.{◌≡◌, ◌++◌, ◌<◌, ◌^◌, ◌||◌, List, [], false, length, map, option_map, true, ℕ, OnOk};
ghost use Rattle.ecma_token.specs.View.{error_view, spanned_view};
ghost use Rattle.ecma_state.specs.Session.{Session};
ghost use Rattle.ecma_reader.specs.Rereads.{SlashRule};
ghost use Rattle.ecma_reader.specs.Outputs.{errors_among};
ghost use Rattle.ecma_reader.specs.Readers.{HasRead, IsReady, Shows, tokens_by, tokens_found};
ghost use Rattle.ecma_faults.specs.Faults as faults;
ghost use Rattle.ecma_report.specs.Errors as rows;
ghost use Rattle.ecma_report.specs.Errors.{OfRowsByPlace, error_rows, errors_by};
ghost use Rattle.ecma_report.specs.FaultLines as lines;
ghost use Rattle.ecma_report.specs.FaultLines.{OfUnmet, fault_of, has_fault, told_fault, told_faults};
ghost use Rattle.ecma_report.specs.Reports.{Adds, IsOf, IsStill, Stays, writes_errors};
ghost use Rattle.ecma_report.specs.Rows.{Look};
ghost use Rattle.ecma_report.specs.Unmet.{unmet_by};

use crate::report::{More, Report, Row, Stop};
use crate::slashes::open;
use crate::unmet::tell_unmet;
use ecma_command::words::{Face, Named};
use ecma_faults::{Found, Origin, in_order};
use ecma_reader::{Reader, take_error};
use ecma_slot::Slot;
use ecma_span::Spanned;
use ecma_token::{Error, TokenAndSpan};
use std::alloc::AllocError;
use std::io::Write;

/// Whether an error that comes from there is a fault: one that waits counts in module code alone.
fn is_fault(origin: Origin) -> bool
    ensures { result ≡ lines.is_fault origin }
{
    origin != Origin::Waiting
}

/// Adds the row of an error.
fn push_error(report: &mut Report, found: &Found) -> Result<(), AllocError>
    ensures added { (look : Look) (name text : List ℕ) → IsOf look name text report.old
        → OnOk result (report.new.out.items ≡ report.old.out.items ++ rows.error_row look name text (faults.view found.now)) }
    ensures stays { Stays report.old report.new }
{
    let message = found.error.kind().msg(report.alloc)?;
    report.push_row(Row {
        kind: found.origin.name(),
        span: found.error.span(),
        more: More::Message,
        text: message.as_str(),
    })
}

/// Adds the line of an error to the faults of the file, but for one that counts in module code alone.
fn push_fault(report: &mut Report, found: &Found) -> Result<(), AllocError>
    ensures out { report.new.out ≡ report.old.out }
    ensures line { (look : Look) (name text : List ℕ) → IsOf look name text report.old
        → OnOk result (report.new.faults.items ≡ report.old.faults.items ++ fault_of look name text (faults.view found.now)) }
    ensures faulty { report.new.is_faulty ≡ report.old.is_faulty }
    ensures still { IsStill report.old report.new }
{
    if !is_fault(found.origin) {
        return Ok(());
    }
    report.push_fault(found.error.span(), found.error.kind())
}

/// Tells of an error in a row of its own, or as a fault of the file; one that is shown in the text is told of there.
fn tell_error(report: &mut Report, found: &Found) -> Result<(), AllocError>
    ensures out { writes_errors report.old.asked.face ≡ false → report.new.out ≡ report.old.out }
    ensures added { (look : Look) (name text : List ℕ) → IsOf look name text report.old → writes_errors report.old.asked.face ≡ true
        → OnOk result (report.new.out.items ≡ report.old.out.items ++ rows.error_row look name text (faults.view found.now)) }
    ensures line { (look : Look) (name text : List ℕ) → IsOf look name text report.old
        → OnOk result (report.new.faults.items ≡ report.old.faults.items ++ told_fault look name text (faults.view found.now)) }
    ensures faulty { report.new.is_faulty ≡ (report.old.is_faulty || lines.is_fault found.now.origin) }
    ensures still { IsStill report.old report.new }
{
    report.is_faulty = report.is_faulty || is_fault(found.origin);
    match report.asked.face {
        Face::Errors => push_error(report, found),
        Face::Show => Ok(()),
        _ => push_fault(report, found),
    }
}

/// Tells of errors, in order.
///
/// # Errors
///
/// `Stop` where allocation fails or the writer refuses; what was written before stays.
pub fn tell_found<W: Write>(report: &mut Report, found: &[Found], out: &mut W) -> Result<(), Stop>
    ensures adds { writes_errors report.old.asked.face ≡ false
        → OnOk result (Adds (W.contents out.old) (W.contents out.new) report.old.out.items report.new.out.items []) }
    ensures rows { (look : Look) (name text : List ℕ) → IsOf look name text report.old → writes_errors report.old.asked.face ≡ true
        → OnOk result (Adds (W.contents out.old) (W.contents out.new) report.old.out.items report.new.out.items (error_rows look name text (map faults.view found.now))) }
    ensures lines { (look : Look) (name text : List ℕ) → IsOf look name text report.old
        → OnOk result (report.new.faults.items ≡ report.old.faults.items ++ told_faults look name text (map faults.view found.now)) }
    ensures faulty { OnOk result (report.new.is_faulty ≡ (report.old.is_faulty || has_fault (map faults.view found.now))) }
    ensures still { OnOk result (IsStill report.old report.new) }
{
    'found: for one in found {
        tell_error(report, one)?;
        report.pass_on(out)?;
    }
    Ok(())
}

/// Takes the error of the token that was read, where it is one, and adds it to the errors. What the slot then holds is not said.
///
/// # Errors
///
/// `AllocError` where allocation fails for it; the error is then lost.
pub fn keep_error<'a>(
    errors: &mut Vec<Error<'a>>,
    slot: &mut Option<TokenAndSpan<'a>>,
) -> Result<(), AllocError>
    ensures { OnOk result (map error_view errors.new.items ≡ map error_view errors.old.items ++ errors_among (tokens_found (option_map spanned_view slot.old))) }
{
    if let Some(error) = take_error(slot) {
        errors.push(error)?;
    }
    Ok(())
}

/// Reads to the end, and keeps the errors of tokens.
///
/// # Errors
///
/// `AllocError` where allocation fails in a read or for an error.
pub fn pass_tokens<'a>(
    reader: &mut Reader<'a>,
    errors: &mut Vec<Error<'a>>,
) -> Result<(), AllocError>
    requires ready { IsReady reader.old }
    ensures kept { (rule : SlashRule) (begin : Session) → Shows rule begin [] reader.old → errors.old.items ≡ []
        → OnOk result (map error_view errors.new.items ≡ errors_among (tokens_by rule begin)) }
    ensures read { (rule : SlashRule) (begin : Session) → Shows rule begin [] reader.old → errors.old.items ≡ []
        → OnOk result (HasRead rule begin reader.new) }
{
    let mut slot = Slot::new();
    'tokens: while reader.read_into(&mut slot.token)? {
        keep_error(errors, &mut slot.token)?;
    }
    Ok(())
}

/// Writes a row for each error, in order of place: those of tokens, those that were recorded, and those that count in a module
/// alone.
///
/// # Errors
///
/// `Stop` where allocation fails or the writer refuses; what was written before stays.
pub fn write_errors<'a, W: Write>(
    report: &mut Report<'a>,
    named: Named<'a>,
    out: &mut W,
) -> Result<(), Stop>
    requires { length report.old.text.now < 2 ^ 32 }
    ensures rows { (look : Look) (name text : List ℕ) → IsOf look name text report.old → writes_errors look.asked.face ≡ true
        → OnOk result (OfRowsByPlace look name text (errors_by named.entry look text)
        (λ all. Adds (W.contents out.old) (W.contents out.new) report.old.out.items report.new.out.items all)) }
    ensures lines { (look : Look) (name text : List ℕ) → IsOf look name text report.old → writes_errors look.asked.face ≡ true
        → OnOk result (OfUnmet (unmet_by false named.entry look name text) (has_fault (errors_by named.entry look text)) report.old report.new) }
{
    let mut reader = open(report, named, false)?;
    let mut errors = Vec::new(report.alloc);
    pass_tokens(&mut reader, &mut errors)?;
    let outcome = reader.finish();
    let rereads = outcome.rereads;
    let found = in_order(
        report.alloc,
        errors,
        outcome.errors.into_vec(),
        outcome.waiting.into_vec(),
    )?;
    tell_unmet(report, named, rereads)?;
    tell_found(report, &found, out)?;
    Ok(())
}
