//! Rows of tokens.
ghost use Rattle.std.specs.Prelude.{◌≡◌, ◌++◌, ◌<◌, ◌^◌, List, None, [], false, length, map, option_map, ℕ, IfOk, OnOk};
ghost use Rattle.ecma_token.specs.View.{error_view, spanned_view};
ghost use Rattle.ecma_state.specs.Session.{Session};
ghost use Rattle.ecma_reader.specs.Rereads.{SlashRule};
ghost use Rattle.ecma_reader.specs.Outputs.{errors_among};
ghost use Rattle.ecma_reader.specs.Readers.{HasRead, IsReady, Shows, tokens_by, tokens_found};
ghost use Rattle.ecma_report.specs.FaultLines.{OfFaults};
ghost use Rattle.ecma_report.specs.Runs.{read_to};
ghost use Rattle.ecma_report.specs.Reports.{Adds, IsOf, Stays, writes_errors};
ghost use Rattle.ecma_report.specs.Slashes.{rule_at};
ghost use Rattle.ecma_faces.specs.Whole.{errors_told};
ghost use Rattle.ecma_faces.specs.Tokens as rows;
ghost use Rattle.ecma_faces.specs.Tokens.{begun, kind_behind, token_rows};
ghost use Rattle.ecma_report.specs.Rows.{Look, row_of};
ghost use Rattle.ecma_report.specs.Unmet.{unmet_by};
ghost use Rattle.ecma_print.specs.Rows.{more_view};

use crate::errors::tell_errors;
use crate::values::told;
use ecma_command::words::Named;
use ecma_reader::Reader;
use ecma_report::faults::keep_error;
use ecma_report::report::{More, Report, Row, Stop};
use ecma_report::slashes::open;
use ecma_slot::Slot;
use ecma_state::Kept;
use ecma_styles::Class;
use ecma_token::{Error, TokenAndSpan, TokenKind};
use std::alloc::AllocError;
use std::io::Write;

/// What a row says that a token of this kind is, behind one of that kind or none.
fn kind_name(kind: TokenKind, previous: Option<TokenKind>) -> &'static str
    ensures { result.now ≡ rows.kind_name kind previous }
{
    match Class::of(kind, previous) {
        Some(class) => class.name(),
        None => "punctuator",
    }
}

/// Adds the row of a token, behind one of that kind or none, with its text and what is told of it besides.
fn push_token<'t>(
    report: &mut Report,
    previous: Option<TokenKind>,
    token: Kept,
    text: &'t str,
    more: More<'t>,
) -> Result<(), AllocError>
    ensures added { (look : Look) (name source : List ℕ) → IsOf look name source report.old
        → OnOk result (report.new.out.items ≡ report.old.out.items ++ row_of look name source (rows.kind_name token.kind previous) token.span (more_view more.entry) text.now) }
    ensures stays { Stays report.old report.new }
{
    report.push_row(Row {
        kind: kind_name(token.kind, previous),
        span: token.span,
        more,
        text,
    })
}

/// Adds the row of the token that was read, behind one of that kind or none, and gives its kind.
fn push_slot(
    report: &mut Report,
    previous: Option<TokenKind>,
    slot: &Option<TokenAndSpan>,
) -> Result<Option<TokenKind>, AllocError>
    ensures added { (look : Look) (name text : List ℕ) → IsOf look name text report.old
        → OnOk result (report.new.out.items ≡ report.old.out.items ++ token_rows look name text previous (tokens_found (option_map spanned_view slot.now))) }
    ensures kind { IfOk result (λ kind. kind ≡ kind_behind previous (tokens_found (option_map spanned_view slot.now))) }
    ensures stays { OnOk result (Stays report.old report.new) }
{
    let Some(token) = slot else {
        return Ok(previous);
    };
    let own = Kept::of(token);
    let text = report.at(own.span);
    let more = told(report.asked.values, token);
    push_token(report, previous, own, text, more)?;
    Ok(Some(own.kind))
}

/// Reads to the end, writes a row for each token, and keeps the errors of tokens.
fn read_tokens<'a, W: Write>(
    report: &mut Report,
    reader: &mut Reader<'a>,
    errors: &mut Vec<Error<'a>>,
    out: &mut W,
) -> Result<(), Stop>
    requires ready { IsReady reader.old }
    ensures rows { (rule : SlashRule) (begin : Session) (look : Look) (name text : List ℕ) → Shows rule begin [] reader.old → IsOf look name text report.old
        → OnOk result (Adds (W.contents out.old) (W.contents out.new) report.old.out.items report.new.out.items (token_rows look name text None (tokens_by rule begin))) }
    ensures kept { (rule : SlashRule) (begin : Session) → Shows rule begin [] reader.old → errors.old.items ≡ []
        → OnOk result (map error_view errors.new.items ≡ errors_among (tokens_by rule begin)) }
    ensures read { (rule : SlashRule) (begin : Session) → Shows rule begin [] reader.old → errors.old.items ≡ []
        → OnOk result (HasRead rule begin reader.new) }
    ensures stays { OnOk result (Stays report.old report.new) }
{
    let mut previous = None;
    let mut slot = Slot::new();
    'tokens: while reader.read_into(&mut slot.token)? {
        previous = push_slot(report, previous, &slot.token)?;
        keep_error(errors, &mut slot.token)?;
        report.pass_on(out)?;
    }
    Ok(())
}

/// Writes a row for each token, and tells of errors.
pub(crate) fn write_tokens<'a, W: Write>(
    report: &mut Report<'a>,
    named: Named<'a>,
    out: &mut W,
) -> Result<(), Stop>
    requires { length report.old.text.now < 2 ^ 32 }
    ensures adds { (look : Look) (name text : List ℕ) → IsOf look name text report.old → writes_errors look.asked.face ≡ false
        → OnOk result (Adds (W.contents out.old) (W.contents out.new) report.old.out.items report.new.out.items (token_rows look name text None (tokens_by (rule_at named.entry) (begun look.asked text)))) }
    ensures lines { (look : Look) (name text : List ℕ) → IsOf look name text report.old
        → OnOk result (OfFaults (unmet_by false named.entry look name text) look name text (errors_told (read_to false named.entry look text)) report.old report.new) }
{
    let mut reader = open(report, named, false)?;
    let mut errors = Vec::new(report.alloc);
    read_tokens(report, &mut reader, &mut errors, out)?;
    let outcome = reader.finish();
    let rereads = outcome.rereads;
    let recorded = outcome.errors.into_vec();
    tell_errors(report, named, errors, recorded, rereads, out)?;
    Ok(())
}
