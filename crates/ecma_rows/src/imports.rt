//! What a text imports and exports, as rows.
ghost use Rattle.std.specs.Prelude.{◌≡◌, Ok, [], false, map, IfOk, OnErr, OnOk};
ghost use Rattle.ecma_module_table.specs.declared.rows.ModuleOptions.{ModuleOptions};
ghost use Rattle.ecma_modules.specs.Modules.{gathered};
ghost use Rattle.ecma_module_reader.specs.Readings.{module_tokens};
ghost use Rattle.ecma_state.specs.Session.{Session};
ghost use Rattle.ecma_reader.specs.Rereads.{SlashRule};
ghost use Rattle.ecma_reader.specs.Readers.{HasRead, IsReady, Shows, tokens_by};
ghost use Rattle.ecma_rows.specs.Asked.{asked_view, judged, place_at};
ghost use Rattle.ecma_rows.specs.ModuleRows as rows;
ghost use Rattle.ecma_rows.specs.ModuleRows.{TellsModule, module_told};
ghost use Rattle.ecma_rows.specs.Told.{written};

use crate::bits::{is_commonjs, reading_bits};
use crate::module_rows::{ExportRow, ImportRow, export_row, import_row};
use crate::outcome::{Status, status_of};
use crate::request::{Asked, judge, places};
use crate::room::put;
use ecma_module_reader::gather_next;
use ecma_module_table::rows::{Export, Import, ModuleOptions};
use ecma_modules::{Gathering, Module};
use ecma_reader::Reader;
use ecma_slot::Slot;
use std::alloc::{AllocError, Global};

/// What a call came to, how many rows of imports and of exports there are, also where there is no room for all of them,
/// whether there is nothing but imports, and exports that declare nothing, and whether there is an import or export, or
/// `import.meta`.
#[derive(Clone, Copy, Debug, PartialEq, Eq)]
pub struct ModuleAnswer {
    pub status: Status,
    pub imports: usize,
    pub exports: usize,
    pub is_facade: bool,
    pub has_module_syntax: bool,
}

impl ModuleAnswer {
    /// Nothing is written.
    fn of_status(status: Status) -> ModuleAnswer
        ensures { result ≡ record { status = status; imports = 0; exports = 0; is_facade = false; has_module_syntax = false } }
    {
        ModuleAnswer {
            status,
            imports: 0,
            exports: 0,
            is_facade: false,
            has_module_syntax: false,
        }
    }
}

/// Reads to the end, and gathers what each token tells.
fn gather_tokens(reader: &mut Reader, gathering: &mut Gathering) -> Result<(), AllocError>
    requires ready { IsReady reader.old }
    ensures gathered { (rule : SlashRule) (begin : Session) (options : ModuleOptions) → Shows rule begin [] reader.old → gathering.old ≡ gathered options []
        → OnOk result (gathering.new ≡ gathered options (module_tokens rule begin (tokens_by rule begin))) }
    ensures read { (rule : SlashRule) (begin : Session) (options : ModuleOptions) → Shows rule begin [] reader.old → gathering.old ≡ gathered options []
        → OnOk result (HasRead rule begin reader.new) }
{
    let mut slot = Slot::new();
    'tokens: while gather_next(gathering, reader, &mut slot.token)? {}
    Ok(())
}

/// Writes a row for each import to the room, in order, as many as fit.
fn write_import_rows(text: &[u8], imports: &[Import], out: &mut [ImportRow])
    ensures { out.new ≡ written (map (rows.import_row text.now) imports.now) out.old }
{
    let mut count = 0;
    for import in imports {
        put(out, count, import_row(text, *import));
        count += 1;
    }
}

/// Writes a row for each export to the room, in order, as many as fit.
fn write_export_rows(text: &[u8], exports: &[Export], out: &mut [ExportRow])
    ensures { out.new ≡ written (map (rows.export_row text.now) exports.now) out.old }
{
    let mut count = 0;
    for export in exports {
        put(out, count, export_row(text, *export));
        count += 1;
    }
}

/// What is looked for in a text.
fn module_options(asked: Asked, bits: u32) -> ModuleOptions
    ensures { result ≡ rows.module_options (rows.is_commonjs bits) (asked_view asked.entry) }
{
    ModuleOptions {
        typescript: asked.options.typescript,
        commonjs: is_commonjs(bits),
    }
}

/// Writes rows of imports and exports, as many as fit, where each place that was named is that of a slash, or not.
fn write(
    found: &Module,
    text: &[u8],
    is_met: bool,
    imports: &mut [ImportRow],
    exports: &mut [ExportRow],
) -> ModuleAnswer
    ensures { TellsModule (Ok (rows.view_of_module is_met found.now text.now)) imports.old imports.new exports.old exports.new result }
{
    let fits = found.imports.len() <= imports.len() && found.exports.len() <= exports.len();
    write_import_rows(text, &found.imports, imports);
    write_export_rows(text, &found.exports, exports);
    ModuleAnswer {
        status: status_of(is_met, fits),
        imports: found.imports.len(),
        exports: found.exports.len(),
        is_facade: found.is_facade,
        has_module_syntax: found.has_module_syntax,
    }
}

/// Writes a row for each import of a text to `imports` and a row for each export to `exports`, in order, as many as fit.
///
/// What is taken and returned is as of [`write_tokens`](crate::write_tokens), but that `bits` may have 32 in it, for a row for
/// each `require("x")` of CommonJS, and that both rooms have to have room for all. Our own, by `ecma_modules`.
///
/// # Errors
///
/// `AllocError` where allocation fails; the rooms are then as before.
pub fn write_imports(
    alloc: Global,
    text: &[u8],
    bits: u32,
    slashes: &[u32],
    imports: &mut [ImportRow],
    exports: &mut [ExportRow],
) -> Result<ModuleAnswer, AllocError>
    ensures told { IfOk result (TellsModule (module_told (rows.is_commonjs bits) (judged (rows.reading_bits bits) (map place_at slashes.now) text.now)) imports.old imports.new exports.old exports.new) }
    ensures err { OnErr result ((imports.new ≡ imports.old) × (exports.new ≡ exports.old)) }
{
    let places = places(alloc, slashes)?;
    let asked = match judge(text, reading_bits(bits), &places) {
        Ok(asked) => asked,
        Err(status) => return Ok(ModuleAnswer::of_status(status)),
    };
    let mut reader = asked.reader(alloc, false)?;
    let mut gathering = Gathering::new(alloc, module_options(asked, bits));
    gather_tokens(&mut reader, &mut gathering)?;
    let is_met = asked.is_met(reader.rereads());
    let module = gathering.finish()?;
    Ok(write(&module, asked.text.as_bytes(), is_met, imports, exports))
}
