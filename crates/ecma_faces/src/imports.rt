//! Rows of what is imported and exported.
ghost use Rattle.std.specs.Prelude.{◌≡◌, ◌++◌, ◌<◌, ◌^◌, List, [], false, length, map, ℕ, IfOk, OnOk};
ghost use Rattle.ecma_module_table.specs.declared.rows.ModuleOptions.{ModuleOptions};
ghost use Rattle.ecma_modules.specs.Modules.{exports_of, gathered, imports_of};
ghost use Rattle.ecma_module_reader.specs.Readings.{module_tokens};
ghost use Rattle.ecma_state.specs.Session.{Session};
ghost use Rattle.ecma_reader.specs.Rereads.{SlashRule};
ghost use Rattle.ecma_token.specs.View.{error_view};
ghost use Rattle.ecma_reader.specs.Outputs.{errors_among};
ghost use Rattle.ecma_reader.specs.Readers.{HasRead, IsReady, Shows, tokens_by};
ghost use Rattle.ecma_print.specs.Rows.{text_behind};
ghost use Rattle.ecma_faces.specs.Whole.{errors_told};
ghost use Rattle.ecma_faces.specs.Modules as rows;
ghost use Rattle.ecma_faces.specs.Modules.{export_rows, import_rows, tokens_of};
ghost use Rattle.ecma_report.specs.FaultLines.{OfFaults};
ghost use Rattle.ecma_report.specs.Runs.{read_to};
ghost use Rattle.ecma_report.specs.Reports.{Adds, IsOf, IsStill, Stays, writes_errors};
ghost use Rattle.ecma_report.specs.Rows.{Look};
ghost use Rattle.ecma_report.specs.Unmet.{unmet_by};

use crate::errors::tell_errors;
use ecma_command::words::{Asked, Named};
use ecma_module_reader::gather_next;
use ecma_module_table::rows::{Export, Form, Import, ModuleOptions, Phase};
use ecma_modules::{Gathering, Module};
use ecma_print::row::Imported;
use ecma_reader::Reader;
use ecma_report::faults::keep_error;
use ecma_report::report::{More, Report, Row, Stop};
use ecma_report::slashes::open;
use ecma_slot::Slot;
use ecma_token::Error;
use std::alloc::AllocError;
use std::io::Write;

/// What a row says of how a module is named.
fn form_name(form: Form) -> &'static str
    ensures { result.now ≡ rows.form_name form }
{
    match form {
        Form::Static => "static",
        Form::Reexport => "reexport",
        Form::Call => "dynamic",
        Form::Meta => "meta",
        Form::Equals => "equals",
        Form::Ambient => "ambient",
        Form::Require => "require",
    }
}

/// What a row says of the phase up to which a module is brought, where it is not evaluated at once.
fn phase_name(phase: Phase) -> Option<&'static str>
    ensures { text_behind result ≡ rows.phase_name phase }
{
    match phase {
        Phase::Evaluation => None,
        Phase::Defer => Some("defer"),
        Phase::Source => Some("source"),
    }
}

/// Adds the row of an import.
fn push_import(report: &mut Report, import: Import) -> Result<(), AllocError>
    ensures added { (look : Look) (name text : List ℕ) → IsOf look name text report.old
        → OnOk result (report.new.out.items ≡ report.old.out.items ++ rows.import_row look name text import) }
    ensures stays { Stays report.old report.new }
{
    let span = import.named_at();
    let text = report.at(span);
    report.push_row(Row {
        kind: form_name(import.form),
        span,
        more: More::Import(Imported {
            phase: phase_name(import.phase),
            is_type: import.is_type,
            statement: import.statement,
            attributes: import.attributes,
        }),
        text,
    })
}

/// Adds the row of an export.
fn push_export(report: &mut Report, export: Export) -> Result<(), AllocError>
    ensures added { (look : Look) (name text : List ℕ) → IsOf look name text report.old
        → OnOk result (report.new.out.items ≡ report.old.out.items ++ rows.export_row look name text export) }
    ensures stays { Stays report.old report.new }
{
    let text = report.at(export.name);
    let local = match export.local {
        Some(span) => Some(report.at(span)),
        None => None,
    };
    report.push_row(Row {
        kind: if export.is_type { "type" } else { "export" },
        span: export.name,
        more: More::Export {
            local,
            is_type: export.is_type,
        },
        text,
    })
}

/// Writes the rows of imports.
fn push_imports<W: Write>(report: &mut Report, imports: &[Import], out: &mut W) -> Result<(), Stop>
    ensures adds { (look : Look) (name text : List ℕ) → IsOf look name text report.old
        → OnOk result (Adds (W.contents out.old) (W.contents out.new) report.old.out.items report.new.out.items (import_rows look name text imports.now)) }
    ensures stays { OnOk result (Stays report.old report.new) }
{
    'imports: for import in imports {
        push_import(report, *import)?;
        report.pass_on(out)?;
    }
    Ok(())
}

/// Writes the rows of exports.
fn push_exports<W: Write>(report: &mut Report, exports: &[Export], out: &mut W) -> Result<(), Stop>
    ensures adds { (look : Look) (name text : List ℕ) → IsOf look name text report.old
        → OnOk result (Adds (W.contents out.old) (W.contents out.new) report.old.out.items report.new.out.items (export_rows look name text exports.now)) }
    ensures stays { OnOk result (Stays report.old report.new) }
{
    'exports: for export in exports {
        push_export(report, *export)?;
        report.pass_on(out)?;
    }
    Ok(())
}

/// Reads to the end, gathers what each token tells, and keeps the errors of tokens.
fn gather_tokens<'a>(
    reader: &mut Reader<'a>,
    gathering: &mut Gathering,
    errors: &mut Vec<Error<'a>>,
) -> Result<(), AllocError>
    requires ready { IsReady reader.old }
    ensures gathered { (rule : SlashRule) (begin : Session) (options : ModuleOptions) → Shows rule begin [] reader.old → gathering.old ≡ gathered options []
        → OnOk result (gathering.new ≡ gathered options (module_tokens rule begin (tokens_by rule begin))) }
    ensures kept { (rule : SlashRule) (begin : Session) → Shows rule begin [] reader.old → errors.old.items ≡ []
        → OnOk result (map error_view errors.new.items ≡ errors_among (tokens_by rule begin)) }
    ensures read { (rule : SlashRule) (begin : Session) → Shows rule begin [] reader.old → errors.old.items ≡ []
        → OnOk result (HasRead rule begin reader.new) }
{
    let mut slot = Slot::new();
    'tokens: while gather_next(gathering, reader, &mut slot.token)? {
        keep_error(errors, &mut slot.token)?;
    }
    Ok(())
}

/// What is looked for in a text.
fn module_options(asked: Asked) -> ModuleOptions
    ensures { result ≡ rows.module_options asked }
{
    ModuleOptions {
        typescript: asked.options.typescript,
        commonjs: asked.commonjs,
    }
}

/// Reads the text, tells of its errors, and answers what it imports and exports.
fn read_module<'a, W: Write>(
    report: &mut Report<'a>,
    named: Named<'a>,
    out: &mut W,
) -> Result<Module, Stop>
    requires { length report.old.text.now < 2 ^ 32 }
    ensures imports { (look : Look) (name text : List ℕ) → IsOf look name text report.old
        → IfOk result (λ m. m.imports.items ≡ imports_of (rows.module_options look.asked) (tokens_of named.entry look text)) }
    ensures exports { (look : Look) (name text : List ℕ) → IsOf look name text report.old
        → IfOk result (λ m. m.exports.items ≡ exports_of (rows.module_options look.asked) (tokens_of named.entry look text)) }
    ensures nothing { writes_errors report.old.asked.face ≡ false
        → OnOk result (Adds (W.contents out.old) (W.contents out.new) report.old.out.items report.new.out.items []) }
    ensures lines { (look : Look) (name text : List ℕ) → IsOf look name text report.old
        → OnOk result (OfFaults (unmet_by false named.entry look name text) look name text (errors_told (read_to false named.entry look text)) report.old report.new) }
    ensures still { OnOk result (IsStill report.old report.new) }
{
    let mut reader = open(report, named, false)?;
    let mut gathering = Gathering::new(report.alloc, module_options(report.asked));
    let mut errors = Vec::new(report.alloc);
    gather_tokens(&mut reader, &mut gathering, &mut errors)?;
    let outcome = reader.finish();
    let rereads = outcome.rereads;
    let recorded = outcome.errors.into_vec();
    tell_errors(report, named, errors, recorded, rereads, out)?;
    Ok(gathering.finish()?)
}

/// Writes a row for each import, and tells of errors.
pub(crate) fn write_imports<'a, W: Write>(
    report: &mut Report<'a>,
    named: Named<'a>,
    out: &mut W,
) -> Result<(), Stop>
    requires { length report.old.text.now < 2 ^ 32 }
    ensures adds { (look : Look) (name text : List ℕ) → IsOf look name text report.old → writes_errors look.asked.face ≡ false
        → OnOk result (Adds (W.contents out.old) (W.contents out.new) report.old.out.items report.new.out.items
        (import_rows look name text (imports_of (rows.module_options look.asked) (tokens_of named.entry look text)))) }
    ensures lines { (look : Look) (name text : List ℕ) → IsOf look name text report.old
        → OnOk result (OfFaults (unmet_by false named.entry look name text) look name text (errors_told (read_to false named.entry look text)) report.old report.new) }
{
    let module = read_module(report, named, out)?;
    push_imports(report, &module.imports, out)?;
    Ok(())
}

/// Writes a row for each export, and tells of errors.
pub(crate) fn write_exports<'a, W: Write>(
    report: &mut Report<'a>,
    named: Named<'a>,
    out: &mut W,
) -> Result<(), Stop>
    requires { length report.old.text.now < 2 ^ 32 }
    ensures adds { (look : Look) (name text : List ℕ) → IsOf look name text report.old → writes_errors look.asked.face ≡ false
        → OnOk result (Adds (W.contents out.old) (W.contents out.new) report.old.out.items report.new.out.items
        (export_rows look name text (exports_of (rows.module_options look.asked) (tokens_of named.entry look text)))) }
    ensures lines { (look : Look) (name text : List ℕ) → IsOf look name text report.old
        → OnOk result (OfFaults (unmet_by false named.entry look name text) look name text (errors_told (read_to false named.entry look text)) report.old report.new) }
{
    let module = read_module(report, named, out)?;
    push_exports(report, &module.exports, out)?;
    Ok(())
}
