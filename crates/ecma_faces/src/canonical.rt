//! The canonical text, which is written while the text is read.
ghost use Rattle.std.specs.Prelude.{◌≡◌, ◌++◌, ◌+◌, ◌<◌, ◌^◌, ◌&&◌, List, None, [], false, length, map, option_map, ℕ, IfOk, OnOk};
ghost use Rattle.std.specs.List.{list_all};
ghost use Rattle.std.specs.Str.{chars};
ghost use Rattle.ecma_token.specs.View.{error_view, spanned_view};
ghost use Rattle.ecma_state.specs.Session.{Session};
ghost use Rattle.ecma_reader.specs.Rereads.{SlashRule};
ghost use Rattle.ecma_reader.specs.Outputs.{errors_among};
ghost use Rattle.ecma_reader.specs.Readers.{HasRead, IsReady, Shows, tokens_by, tokens_found};
ghost use Rattle.ecma_report.specs.FaultLines.{OfFaults};
ghost use Rattle.ecma_report.specs.Runs.{read_to};
ghost use Rattle.ecma_report.specs.Reports.{Adds, IsOf, KeepsFaults, Stays, writes_errors};
ghost use Rattle.ecma_report.specs.Slashes.{rule_at};
ghost use Rattle.ecma_faces.specs.Canonical.{Counted, has_no_error, joined, reads_clean};
ghost use Rattle.ecma_faces.specs.Tokens.{begun, kind_behind};
ghost use Rattle.ecma_faces.specs.Whole.{OfCanon, errors_told, plainly, steps_by};
ghost use Rattle.ecma_report.specs.Rows.{Look, whole_part, whole_text};
ghost use Rattle.ecma_report.specs.Unmet.{unmet_by};

use crate::errors::tell_errors;
use ecma_canonical::between;
use ecma_command::words::Named;
use ecma_reader::Reader;
use ecma_report::faults::keep_error;
use ecma_report::report::{Report, Stop};
use ecma_report::slashes::open;
use ecma_slot::Slot;
use ecma_state::Kept;
use ecma_token::{Error, TokenAndSpan, TokenKind};
use std::alloc::AllocError;
use std::io::Write;

/// So many bytes more, where all are fewer than 2^32.
fn added(bytes: Option<u32>, more: usize) -> Option<u32>
    ensures { (total : ℕ) → Counted bytes total → Counted result (total + more) }
{
    match (bytes, u32::try_from(more)) {
        (Some(bytes), Ok(more)) => bytes.checked_add(more),
        _ => None,
    }
}

/// How many bytes there are with the token that was read, joined to those of before.
fn with_slot(
    report: &Report,
    bytes: Option<u32>,
    before: Option<TokenKind>,
    slot: &Option<TokenAndSpan>,
) -> Option<u32>
    ensures { (total : ℕ) → Counted bytes total → Counted result (total + length (joined report.now.text.now before (tokens_found (option_map spanned_view slot.now)))) }
{
    let Some(token) = slot else {
        return bytes;
    };
    let own = Kept::of(token);
    let bytes = added(bytes, between(before, &own).len());
    added(bytes, report.at(own.span).len())
}

/// The kind of the token that was read, or that of the token before.
fn kind_read(before: Option<TokenKind>, slot: &Option<TokenAndSpan>) -> Option<TokenKind>
    ensures { result ≡ kind_behind before (tokens_found (option_map spanned_view slot.now)) }
{
    match slot {
        Some(token) => Some(Kept::of(token).kind),
        None => before,
    }
}

/// Whether no token is an error with the one that was read.
fn stays_clean(clean: bool, slot: &Option<TokenAndSpan>) -> bool
    ensures { result ≡ (clean && list_all has_no_error (tokens_found (option_map spanned_view slot.now))) }
{
    match slot {
        Some(token) => clean && Kept::of(token).kind != TokenKind::Error,
        None => clean,
    }
}

/// What was seen of the tokens of a text.
#[derive(Clone, Copy)]
struct Measured {
    /// How many bytes they have when they are joined, where these are fewer than 2^32.
    bytes: Option<u32>,
    /// Whether none is an error.
    clean: bool,
}

impl Measured {
    /// The same, where this holds too.
    fn and(self, clean: bool) -> Measured
        ensures bytes { result.bytes ≡ self.bytes }
        ensures clean { result.clean ≡ (self.clean && clean) }
    {
        Measured {
            bytes: self.bytes,
            clean: self.clean && clean,
        }
    }
}

/// Reads to the end, keeps the errors of tokens, and measures these.
fn measure_tokens<'a>(
    report: &Report,
    reader: &mut Reader<'a>,
    errors: &mut Vec<Error<'a>>,
) -> Result<Measured, AllocError>
    requires ready { IsReady reader.old }
    ensures counted { (rule : SlashRule) (begin : Session) → Shows rule begin [] reader.old
        → IfOk result (λ m. Counted m.bytes (length (joined report.now.text.now None (tokens_by rule begin)))) }
    ensures clean { (rule : SlashRule) (begin : Session) → Shows rule begin [] reader.old
        → IfOk result (λ m. m.clean ≡ list_all has_no_error (tokens_by rule begin)) }
    ensures kept { (rule : SlashRule) (begin : Session) → Shows rule begin [] reader.old → errors.old.items ≡ []
        → OnOk result (map error_view errors.new.items ≡ errors_among (tokens_by rule begin)) }
    ensures read { (rule : SlashRule) (begin : Session) → Shows rule begin [] reader.old → OnOk result (HasRead rule begin reader.new) }
{
    let mut bytes = Some(0);
    let mut clean = true;
    let mut before = None;
    let mut slot = Slot::new();
    'tokens: while reader.read_into(&mut slot.token)? {
        bytes = with_slot(report, bytes, before, &slot.token);
        clean = stays_clean(clean, &slot.token);
        before = kind_read(before, &slot.token);
        keep_error(errors, &mut slot.token)?;
    }
    Ok(Measured { bytes, clean })
}

/// Adds the token that was read, joined to those of before, as a part of a text.
fn push_joined(
    report: &mut Report,
    before: Option<TokenKind>,
    slot: &Option<TokenAndSpan>,
) -> Result<(), AllocError>
    ensures added { (look : Look) (name text : List ℕ) → IsOf look name text report.old
        → OnOk result (report.new.out.items ≡ report.old.out.items ++ whole_part look (joined text before (tokens_found (option_map spanned_view slot.now)))) }
    ensures stays { OnOk result (Stays report.old report.new) }
{
    let Some(token) = slot else {
        return Ok(());
    };
    let own = Kept::of(token);
    let text = report.at(own.span);
    report.push_part(between(before, &own).as_bytes())?;
    report.push_part(text.as_bytes())?;
    Ok(())
}

/// Reads to the end, and writes the joined tokens as parts of a text.
fn write_tokens_joined<W: Write>(
    report: &mut Report,
    reader: &mut Reader,
    out: &mut W,
) -> Result<(), Stop>
    requires ready { IsReady reader.old }
    ensures joined { (rule : SlashRule) (begin : Session) (look : Look) (name text : List ℕ) → Shows rule begin [] reader.old → IsOf look name text report.old
        → OnOk result (Adds (W.contents out.old) (W.contents out.new) report.old.out.items report.new.out.items (whole_part look (joined text None (tokens_by rule begin)))) }
    ensures stays { OnOk result (Stays report.old report.new) }
{
    let mut before = None;
    let mut slot = Slot::new();
    'tokens: while reader.read_into(&mut slot.token)? {
        push_joined(report, before, &slot.token)?;
        before = kind_read(before, &slot.token);
        report.pass_on(out)?;
    }
    Ok(())
}

/// Reads a text once more, and writes its joined tokens.
fn write_clean<'a, W: Write>(
    report: &mut Report<'a>,
    named: Named<'a>,
    out: &mut W,
) -> Result<(), Stop>
    requires { length report.old.text.now < 2 ^ 32 }
    ensures adds { (look : Look) (name text : List ℕ) → IsOf look name text report.old
        → OnOk result (Adds (W.contents out.old) (W.contents out.new) report.old.out.items report.new.out.items
        (whole_text look name (joined text None (tokens_by (rule_at named.entry) (begun look.asked text))))) }
    ensures stays { OnOk result (Stays report.old report.new) }
{
    let mut reader = open(report, named, false)?;
    report.begin_whole()?;
    write_tokens_joined(report, &mut reader, out)?;
    report.end_whole()?;
    Ok(())
}

/// Writes the canonical text of `text`, which the report is of, where it is clean and not too long.
fn write_measured<'a, W: Write>(
    report: &mut Report<'a>,
    text: &str,
    named: Named<'a>,
    measured: Measured,
    out: &mut W,
) -> Result<(), Stop>
    requires same { text.now ≡ report.old.text.now }
    requires fits { length text.now < 2 ^ 32 }
    ensures told { (look : Look) (name : List ℕ) → IsOf look name text.now report.old
        → measured.clean ≡ reads_clean (rule_at named.entry) look text.now
        → Counted measured.bytes (length (joined text.now None (tokens_by (rule_at named.entry) (begun look.asked text.now))))
        → OnOk result (OfCanon look name (plainly look) (chars text.now) (steps_by (rule_at named.entry) look text.now) report.old.is_too_long report.new.is_too_long
        (λ all. Adds (W.contents out.old) (W.contents out.new) report.old.out.items report.new.out.items all)) }
    ensures faults { OnOk result (KeepsFaults report.old report.new) }
{
    if !measured.clean {
        return Ok(());
    }
    match measured.bytes {
        Some(_) => {
            write_clean(report, named, out)?;
            Ok(())
        }
        None => {
            report.is_too_long = true;
            Ok(())
        }
    }
}

/// Writes the canonical text, and nothing where there is none, and tells of errors. The text is read twice: whether all is
/// clean is known at its end.
pub(crate) fn write_canonical<'a, W: Write>(
    report: &mut Report<'a>,
    named: Named<'a>,
    out: &mut W,
) -> Result<(), Stop>
    requires { length report.old.text.now < 2 ^ 32 }
    ensures told { (look : Look) (name text : List ℕ) → IsOf look name text report.old → writes_errors look.asked.face ≡ false
        → OnOk result (OfCanon look name (plainly look) (chars text) (steps_by (rule_at named.entry) look text) report.old.is_too_long report.new.is_too_long
        (λ all. Adds (W.contents out.old) (W.contents out.new) report.old.out.items report.new.out.items all)) }
    ensures lines { (look : Look) (name text : List ℕ) → IsOf look name text report.old
        → OnOk result (OfFaults (unmet_by false named.entry look name text) look name text (errors_told (read_to false named.entry look text)) report.old report.new) }
{
    let text = report.text;
    let mut reader = open(report, named, false)?;
    let mut errors = Vec::new(report.alloc);
    let tokens = measure_tokens(report, &mut reader, &mut errors)?;
    let outcome = reader.finish();
    let measured = tokens.and(outcome.errors.is_empty());
    let rereads = outcome.rereads;
    let recorded = outcome.errors.into_vec();
    tell_errors(report, named, errors, recorded, rereads, out)?;
    write_measured(report, text, named, measured, out)?;
    Ok(())
}
