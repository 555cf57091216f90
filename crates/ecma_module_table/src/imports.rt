//! Rows of imports.
ghost use Rattle.std.specs.Prelude.{◌≡◌};
ghost use Rattle.ecma_module_table.specs.Imports as rows;

use crate::part::{Part, Word};
use crate::rows::{Form, Phase};
use crate::stage::{Change, Move, Stage};

/// Behind `import`, where a declaration may begin (ECMA-262, 16.2.2, 13.3.10).
pub(crate) fn behind_import(part: Part) -> Move
    ensures { result ≡ rows.behind_import part }
{
    match part {
        Part::Text => Move::To(Stage::Specified, Change::Specify(Form::Static)),
        Part::Paren => Move::To(Stage::Nothing, Change::Call),
        Part::Member => Move::To(Stage::ImportMember, Change::Nothing),
        Part::Brace => Move::To(Stage::ImportBraces, Change::Nothing),
        Part::Star => Move::To(Stage::ImportClause, Change::Nothing),
        Part::Word(Word::Type) => Move::To(Stage::ImportType, Change::Nothing),
        Part::Word(Word::OfFive) => Move::To(Stage::ImportDefer, Change::Nothing),
        Part::Word(Word::OfSix) => Move::To(Stage::ImportSource, Change::Nothing),
        Part::Word(_) => Move::To(Stage::ImportName, Change::Nothing),
        _ => Move::Again(Change::Other),
    }
}

/// Behind `import` elsewhere (ECMA-262, 13.3.10, 13.3.12).
pub(crate) fn behind_inside(part: Part) -> Move
    ensures { result ≡ rows.behind_inside part }
{
    match part {
        Part::Paren => Move::To(Stage::Nothing, Change::Call),
        Part::Member => Move::To(Stage::ImportMember, Change::Nothing),
        _ => Move::Again(Change::Other),
    }
}

/// Behind `import.` (ECMA-262, 13.3.12, and the proposals of deferred and source phase imports).
pub(crate) fn behind_import_member(part: Part) -> Move
    ensures { result ≡ rows.behind_import_member part }
{
    match part {
        Part::Word(Word::Meta) => Move::To(Stage::Nothing, Change::Meta),
        Part::Word(Word::OfFive) => Move::To(Stage::PhaseCall, Change::Phase(Phase::Defer)),
        Part::Word(Word::OfSix) => Move::To(Stage::PhaseCall, Change::Phase(Phase::Source)),
        _ => Move::Again(Change::Other),
    }
}

pub(crate) fn behind_phase(part: Part) -> Move
    ensures { result ≡ rows.behind_phase part }
{
    match part {
        Part::Paren => Move::To(Stage::Nothing, Change::Call),
        _ => Move::Again(Change::Other),
    }
}

/// Behind `import type` of TypeScript, where `type` may be the name that is imported.
pub(crate) fn behind_import_type(part: Part) -> Move
    ensures { result ≡ rows.behind_import_type part }
{
    match part {
        Part::Brace => Move::To(Stage::ImportBraces, Change::TypeOnly),
        Part::Star => Move::To(Stage::ImportClause, Change::TypeOnly),
        Part::Word(Word::From) => Move::To(Stage::ImportTypeFrom, Change::Nothing),
        Part::Word(_) => Move::To(Stage::ImportName, Change::TypeOnly),
        Part::Comma => Move::To(Stage::ImportClause, Change::Nothing),
        Part::Equals => Move::To(Stage::Equals, Change::Nothing),
        _ => Move::Again(Change::Other),
    }
}

/// Behind `import type from`, where `from` may be the name that is imported.
pub(crate) fn behind_import_type_from(part: Part) -> Move
    ensures { result ≡ rows.behind_import_type_from part }
{
    match part {
        Part::Text => Move::To(Stage::Specified, Change::Specify(Form::Static)),
        Part::Word(Word::From) => Move::To(Stage::From, Change::TypeOnly),
        Part::Equals => Move::To(Stage::Equals, Change::TypeOnly),
        _ => Move::Again(Change::Other),
    }
}

/// Behind `import defer`, where `defer` may be the name that is imported, or any name of as many letters stand.
pub(crate) fn behind_import_defer(part: Part) -> Move
    ensures { result ≡ rows.behind_import_defer part }
{
    match part {
        Part::Star => Move::To(Stage::ImportClause, Change::Phase(Phase::Defer)),
        _ => behind_import_name(part),
    }
}

/// Behind `import source`, where `source` may be the name that is imported, or any name of as many letters stand.
pub(crate) fn behind_import_source(part: Part) -> Move
    ensures { result ≡ rows.behind_import_source part }
{
    match part {
        Part::Word(Word::From) => Move::To(Stage::ImportSourceFrom, Change::Nothing),
        Part::Word(_) => Move::To(Stage::ImportName, Change::Phase(Phase::Source)),
        _ => behind_import_name(part),
    }
}

/// Behind `import source from`, where `from` may be the name that is imported.
pub(crate) fn behind_import_source_from(part: Part) -> Move
    ensures { result ≡ rows.behind_import_source_from part }
{
    match part {
        Part::Word(Word::From) => Move::To(Stage::From, Change::Phase(Phase::Source)),
        _ => behind_from(part),
    }
}

/// Behind a name that is imported first.
pub(crate) fn behind_import_name(part: Part) -> Move
    ensures { result ≡ rows.behind_import_name part }
{
    match part {
        Part::Word(Word::From) => Move::To(Stage::From, Change::Nothing),
        Part::Comma => Move::To(Stage::ImportClause, Change::Nothing),
        Part::Equals => Move::To(Stage::Equals, Change::Nothing),
        _ => Move::Again(Change::Other),
    }
}

/// Behind a comma or a star of what is imported.
pub(crate) fn behind_import_clause(part: Part) -> Move
    ensures { result ≡ rows.behind_import_clause part }
{
    match part {
        Part::Brace => Move::To(Stage::ImportBraces, Change::Nothing),
        Part::Word(Word::From) => Move::To(Stage::From, Change::Nothing),
        Part::Star | Part::Word(_) => Move::To(Stage::ImportClause, Change::Nothing),
        _ => Move::Again(Change::Other),
    }
}

/// In the braces of what is imported: the brace that closes them leaves nothing open.
pub(crate) fn in_import_braces(depth: usize, part: Part) -> Move
    ensures { result ≡ rows.in_import_braces depth part }
{
    match part {
        Part::EndBrace if depth == 1 => Move::To(Stage::BeforeFrom, Change::Nothing),
        _ => Move::To(Stage::ImportBraces, Change::Nothing),
    }
}

pub(crate) fn before_from(part: Part) -> Move
    ensures { result ≡ rows.before_from part }
{
    match part {
        Part::Word(Word::From) => Move::To(Stage::From, Change::Nothing),
        _ => Move::Again(Change::Other),
    }
}

/// Behind `from`, which may be a name too.
pub(crate) fn behind_from(part: Part) -> Move
    ensures { result ≡ rows.behind_from part }
{
    match part {
        Part::Text => Move::To(Stage::Specified, Change::Specify(Form::Static)),
        Part::Word(Word::From) => Move::To(Stage::From, Change::Nothing),
        _ => Move::Again(Change::Other),
    }
}

/// Behind the `from` of an export (ECMA-262, 16.2.3).
pub(crate) fn behind_export_from(part: Part) -> Move
    ensures { result ≡ rows.behind_export_from part }
{
    match part {
        Part::Text => Move::To(Stage::Specified, Change::Specify(Form::Reexport)),
        _ => Move::Again(Change::Other),
    }
}

/// Behind the string that names a module (ECMA-262, 16.2.2; `assert` was there before `with`).
pub(crate) fn behind_specifier(had_line_break: bool, part: Part) -> Move
    ensures { result ≡ rows.behind_specifier had_line_break part }
{
    match part {
        Part::Word(Word::With) => Move::To(Stage::With, Change::Nothing),
        Part::Word(Word::Assert) if !had_line_break => Move::To(Stage::With, Change::Nothing),
        _ => Move::Again(Change::Complete),
    }
}

pub(crate) fn behind_with(part: Part) -> Move
    ensures { result ≡ rows.behind_with part }
{
    match part {
        Part::Brace => Move::To(Stage::Attributes, Change::Attributes),
        _ => Move::Again(Change::Complete),
    }
}

/// In the braces of attributes: the brace that closes them leaves nothing open.
pub(crate) fn in_attributes(depth: usize, part: Part) -> Move
    ensures { result ≡ rows.in_attributes depth part }
{
    match part {
        Part::EndBrace if depth == 1 => Move::To(Stage::Nothing, Change::CompleteAttributes),
        _ => Move::To(Stage::Attributes, Change::Nothing),
    }
}
