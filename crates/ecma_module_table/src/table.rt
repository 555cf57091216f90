//! The table: for each stage its row.
ghost use Rattle.std.specs.Prelude.{◌≡◌};
ghost use Rattle.ecma_module_table.specs.Table as table;

use crate::part::{Part, Word};
use crate::rows::Form;
use crate::stage::{Change, Move, Seen, Stage};
use crate::{exports, imports};

/// Behind `import x =` of TypeScript.
fn behind_equals(part: Part) -> Move
    ensures { result ≡ table.behind_equals part }
{
    match part {
        Part::Word(Word::Require) => Move::To(Stage::EqualsRequire, Change::Nothing),
        _ => Move::Again(Change::Other),
    }
}

/// Behind a word that a parenthesis follows.
fn before_paren(part: Part, stage: Stage) -> Move
    ensures { result ≡ table.before_paren part stage }
{
    match part {
        Part::Paren => Move::To(stage, Change::Nothing),
        _ => Move::Again(Change::Other),
    }
}

/// Behind a parenthesis that a string follows.
fn before_text(part: Part, stage: Stage, form: Form) -> Move
    ensures { result ≡ table.before_text part stage form }
{
    match part {
        Part::Text => Move::To(stage, Change::Specify(form)),
        _ => Move::Again(Change::Other),
    }
}

/// Behind a string that a parenthesis follows, with which all ends.
fn before_end(part: Part) -> Move
    ensures { result ≡ table.before_end part }
{
    match part {
        Part::EndParen => Move::To(Stage::Nothing, Change::CompleteHere),
        _ => Move::Again(Change::Other),
    }
}

/// Behind `declare` of TypeScript, where `module` is the only name of six letters that can come.
fn behind_declare(had_line_break: bool, part: Part) -> Move
    ensures { result ≡ table.behind_declare had_line_break part }
{
    match part {
        Part::Word(Word::OfSix) if !had_line_break => Move::To(
            Stage::DeclareModule,
            Change::Nothing,
        ),
        _ => Move::Again(Change::Other),
    }
}

fn behind_declare_module(had_line_break: bool, part: Part) -> Move
    ensures { result ≡ table.behind_declare_module had_line_break part }
{
    match part {
        Part::Text if !had_line_break => Move::To(Stage::Nothing, Change::CompleteText),
        _ => Move::Again(Change::Other),
    }
}

/// Behind `.` or `#` a name comes, which is none of the words.
fn behind_member(part: Part) -> Move
    ensures { result ≡ table.behind_member part }
{
    match part {
        Part::Member => Move::Again(Change::Nothing),
        _ => Move::To(Stage::Nothing, Change::Nothing),
    }
}

/// What is to be done with a token at a stage.
#[tactic(auto, unfolding(crate::specs::Table::row))]
pub fn row(stage: Stage, seen: Seen, part: Part) -> Move
    ensures { result ≡ table.row stage seen part }
{
    match stage {
        Stage::Nothing => Move::Again(Change::Nothing),
        Stage::Member => behind_member(part),
        Stage::Import => imports::behind_import(part),
        Stage::Inside => imports::behind_inside(part),
        Stage::ImportMember => imports::behind_import_member(part),
        Stage::PhaseCall => imports::behind_phase(part),
        Stage::ImportType => imports::behind_import_type(part),
        Stage::ImportTypeFrom => imports::behind_import_type_from(part),
        Stage::ImportDefer => imports::behind_import_defer(part),
        Stage::ImportSource => imports::behind_import_source(part),
        Stage::ImportSourceFrom => imports::behind_import_source_from(part),
        Stage::ImportName => imports::behind_import_name(part),
        Stage::ImportClause => imports::behind_import_clause(part),
        Stage::ImportBraces => imports::in_import_braces(seen.depth, part),
        Stage::BeforeFrom => imports::before_from(part),
        Stage::From => imports::behind_from(part),
        Stage::ExportFrom => imports::behind_export_from(part),
        Stage::Specified => imports::behind_specifier(seen.had_line_break, part),
        Stage::With => imports::behind_with(part),
        Stage::Attributes => imports::in_attributes(seen.depth, part),
        Stage::Equals => behind_equals(part),
        Stage::EqualsRequire => before_paren(part, Stage::EqualsParen),
        Stage::EqualsParen => before_text(part, Stage::RequireText, Form::Equals),
        Stage::Require => before_paren(part, Stage::RequireParen),
        Stage::RequireParen => before_text(part, Stage::RequireText, Form::Require),
        Stage::RequireText => before_end(part),
        Stage::Declare => behind_declare(seen.had_line_break, part),
        Stage::DeclareModule => behind_declare_module(seen.had_line_break, part),
        Stage::Export => exports::behind_export(part),
        Stage::ExportStar => exports::behind_star(part),
        Stage::ExportStarAs => exports::behind_star_as(part),
        Stage::ExportStarName => exports::before_export_from(part),
        Stage::ExportType => exports::behind_export_type(part),
        Stage::Names => exports::before_name(part),
        Stage::Name => exports::behind_name(part),
        Stage::NameAs => exports::behind_name_as(part),
        Stage::NameType => exports::behind_name_type(part),
        Stage::NameTypeAs => exports::behind_name_type_as(part),
        Stage::NameTypeAsAs => exports::behind_name_type_as_as(part),
        Stage::NameEnd => exports::behind_name_end(part),
        Stage::NamesEnd => exports::behind_names(part),
        Stage::Default => exports::behind_default(part),
        Stage::DefaultAsync => exports::behind_default_async(seen.had_line_break, part),
        Stage::DefaultAbstract => exports::behind_default_abstract(part),
        Stage::DefaultFunction => exports::behind_default_function(part),
        Stage::DefaultClass => exports::behind_default_class(part),
        Stage::DefaultInterface => exports::behind_default_interface(part),
        Stage::DefaultDecorators => exports::in_default_decorators(seen.depth, part),
        Stage::Async => exports::behind_async(seen.had_line_break, part),
        Stage::Function => exports::behind_function(part),
        Stage::Class => exports::behind_class(part),
        Stage::Declared => exports::behind_declaring(part),
        Stage::Interface => exports::behind_interface(part),
        Stage::Decorators => exports::in_decorators(seen.depth, part),
        Stage::ExportImport => exports::behind_export_import(part),
    }
}

/// The stage and the change, where this holds; else what is no import or export.
fn if_so(holds: bool, stage: Stage, change: Change) -> (Stage, Change)
    ensures { result ≡ table.if_so holds stage change }
{
    if holds {
        (stage, change)
    } else {
        (Stage::Nothing, Change::Other)
    }
}

/// What begins with `import`, at top level or inside.
fn import_begun(top: bool) -> Stage
    ensures { result ≡ table.import_begun top }
{
    if top { Stage::Import } else { Stage::Inside }
}

/// The stage behind a token that may begin something, and what it changes.
pub fn begun(seen: Seen, part: Part) -> (Stage, Change)
    ensures { result ≡ table.begun seen part }
{
    let top = seen.depth == 0;
    match part {
        Part::Word(Word::Import) => (import_begun(top), Change::Begin),
        Part::Word(Word::ImportType) => (Stage::Inside, Change::BeginType),
        Part::Word(Word::Export) => if_so(top, Stage::Export, Change::BeginExport),
        Part::Word(Word::Declare) => if_so(top, Stage::Declare, Change::BeginOther),
        Part::Word(Word::Require) => if_so(seen.commonjs, Stage::Require, Change::BeginOther),
        Part::Member => (Stage::Member, Change::Other),
        Part::Semi | Part::Shebang => (Stage::Nothing, Change::Nothing),
        _ => (Stage::Nothing, Change::Other),
    }
}
