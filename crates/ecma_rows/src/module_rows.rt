//! Rows of imports and exports.
ghost use Rattle.std.specs.Prelude.{◌≡◌, ◌≤◌};
ghost use Rattle.ecma_rows.specs.ModuleRows as rows;

use ecma_module_table::rows::{Argument, Export, Form, Import, Phase, Specifier};
use ecma_span::{BytePos, Span};

/// An import. Places are bytes from the text's start: of what names the module, which is the string with its quotes (one that
/// is not closed has the first alone), else the first argument of a call, else the statement; of the statement; of the left
/// parenthesis of a call, else 0; of the braces behind `with` or `assert`, or of the second argument of a call, both 0 where
/// there are none.
///
/// `form` is 0 for `import`, 1 for `export .. from`, 2 for a call of `import`, 3 for `import.meta`, 4 for
/// `import x = require("y")` and 5 for `declare module "x"` of TypeScript, 6 for `require("x")`. `phase` is 1 for
/// `import defer`, 2 for `import source`, else 0. `flags` are 1 where types alone are imported, as also where a call stands that is a type, 4 where a string names the
/// module, 8 where its value is not its spelling. `exports` rows of exports are of this statement, behind the first
/// `first_export` ones: their local names are names of the other module. Our own.
#[repr(C)]
#[derive(Clone, Copy, Debug, PartialEq, Eq)]
pub struct ImportRow {
    pub lo: u32,
    pub hi: u32,
    pub statement_lo: u32,
    pub statement_hi: u32,
    pub paren: u32,
    pub attributes_lo: u32,
    pub attributes_hi: u32,
    pub form: u8,
    pub phase: u8,
    pub flags: u16,
    pub first_export: usize,
    pub exports: usize,
}

/// An exported name. Places are bytes from the text's start: of the name, and of its name in this module (of an
/// `export .. from` in the other one), both 0 where it has none. `flags` are 1 where it is the name of a type alone, 2 where
/// there is a local name, 4 where the name is a string, 8 where its value is not its spelling, 16 and 32 the same of the
/// local name. Our own.
#[repr(C)]
#[derive(Clone, Copy, Debug, PartialEq, Eq)]
pub struct ExportRow {
    pub lo: u32,
    pub hi: u32,
    pub local_lo: u32,
    pub local_hi: u32,
    pub flags: u32,
}

fn form_number(form: Form) -> u8
    ensures { result ≡ rows.form_number form }
{
    match form {
        Form::Static => 0,
        Form::Reexport => 1,
        Form::Call => 2,
        Form::Meta => 3,
        Form::Equals => 4,
        Form::Ambient => 5,
        Form::Require => 6,
    }
}

fn phase_number(phase: Phase) -> u8
    ensures { result ≡ rows.phase_number phase }
{
    match phase {
        Phase::Evaluation => 0,
        Phase::Defer => 1,
        Phase::Source => 2,
    }
}

const NOWHERE: Span = Span {
    lo: BytePos(0),
    hi: BytePos(0),
};

fn paren_of(argument: Option<Argument>) -> u32
    ensures { result ≡ rows.paren_of argument }
{
    match argument {
        Some(argument) => argument.paren.0,
        None => 0,
    }
}

fn span_or_nowhere(span: Option<Span>) -> Span
    ensures { result ≡ rows.span_or_nowhere span }
{
    match span {
        Some(span) => span,
        None => NOWHERE,
    }
}

/// The bytes that lie there; none where no text does.
fn bytes_at(text: &[u8], span: Span) -> &[u8]
    ensures { result.now ≡ rows.bytes_at text.now span }
{
    let (from, to) = (span.lo.0 as usize, span.hi.0 as usize);
    if from <= to && to <= text.len() {
        &text[from..to]
    } else {
        b""
    }
}

/// Whether a string begins there.
fn is_quoted(bytes: &[u8]) -> bool
    ensures { result ≡ rows.is_quoted bytes.now }
{
    match bytes.first() {
        Some(byte) => *byte == b'"' || *byte == b'\'',
        None => false,
    }
}

/// How a name or string is spelled: 1 for a string, and 2 for a value that is not the spelling, which an escape alone makes.
fn spelling(text: &[u8], span: Span) -> u16
    ensures is { result ≡ rows.spelling text.now span }
    ensures few { result ≤ 3 }
{
    let bytes = bytes_at(text, span);
    match (is_quoted(bytes), bytes.contains(&b'\\')) {
        (false, false) => 0,
        (true, false) => 1,
        (false, true) => 2,
        (true, true) => 3,
    }
}

fn spelling_of_specifier(text: &[u8], specifier: Option<Specifier>) -> u16
    ensures is { result ≡ rows.spelling_of_specifier text.now specifier }
    ensures few { result ≤ 3 }
{
    match specifier {
        Some(specifier) => spelling(text, specifier.span),
        None => 0,
    }
}

/// The flags of a local name, 2 where there is one and its spelling from 16 on.
fn local_flags(text: &[u8], local: Option<Span>) -> u16
    ensures is { result ≡ rows.local_flags text.now local }
    ensures few { result ≤ 50 }
{
    match local {
        Some(span) => 2 + 16 * spelling(text, span),
        None => 0,
    }
}

fn type_flag(is_type: bool) -> u16
    ensures is { result ≡ rows.type_flag is_type }
    ensures few { result ≤ 1 }
{
    if is_type { 1 } else { 0 }
}

/// The row of an import.
pub(crate) fn import_row(text: &[u8], import: Import) -> ImportRow
    ensures { result ≡ rows.import_row text.now import }
{
    let span = import.named_at();
    let attributes = span_or_nowhere(import.attributes);
    ImportRow {
        lo: span.lo.0,
        hi: span.hi.0,
        statement_lo: import.statement.lo.0,
        statement_hi: import.statement.hi.0,
        paren: paren_of(import.argument),
        attributes_lo: attributes.lo.0,
        attributes_hi: attributes.hi.0,
        form: form_number(import.form),
        phase: phase_number(import.phase),
        flags: type_flag(import.is_type) + 4 * spelling_of_specifier(text, import.specifier),
        first_export: import.first_export,
        exports: import.exports,
    }
}

/// The row of an export.
pub(crate) fn export_row(text: &[u8], export: Export) -> ExportRow
    ensures { result ≡ rows.export_row text.now export }
{
    let local = span_or_nowhere(export.local);
    let flags = type_flag(export.is_type)
        + 4 * spelling(text, export.name)
        + local_flags(text, export.local);
    ExportRow {
        lo: export.name.lo.0,
        hi: export.name.hi.0,
        local_lo: local.lo.0,
        local_hi: local.hi.0,
        flags: flags as u32,
    }
}
