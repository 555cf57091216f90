//! Rows of exports.
ghost use Rattle.std.specs.Prelude.{◌≡◌};
ghost use Rattle.ecma_module_table.specs.Exports as rows;

use crate::part::{Part, Word};
use crate::stage::{Change, Move, Stage};

/// Behind words of an export that is no clause (ECMA-262, 16.2.3).
fn behind_export_word(word: Word) -> Move
    ensures { result ≡ rows.behind_export_word word }
{
    match word {
        Word::Default => Move::To(Stage::Default, Change::Name),
        Word::Variable => Move::To(Stage::Nothing, Change::Variables),
        Word::Async => Move::To(Stage::Async, Change::Nothing),
        Word::Function => Move::To(Stage::Function, Change::Nothing),
        Word::Class => Move::To(Stage::Class, Change::Nothing),
        Word::Abstract | Word::Declare => Move::To(Stage::Export, Change::Nothing),
        Word::Enum | Word::Namespace | Word::OfSix => Move::To(Stage::Declared, Change::Nothing),
        Word::Interface => Move::To(Stage::Interface, Change::Nothing),
        Word::Type => Move::To(Stage::ExportType, Change::Nothing),
        Word::Import => Move::To(Stage::ExportImport, Change::Nothing),
        _ => Move::Again(Change::Other),
    }
}

/// Behind `export` (ECMA-262, 16.2.3).
pub(crate) fn behind_export(part: Part) -> Move
    ensures { result ≡ rows.behind_export part }
{
    match part {
        Part::Star => Move::To(Stage::ExportStar, Change::Nothing),
        Part::Brace => Move::To(Stage::Names, Change::Nothing),
        Part::At => Move::To(Stage::Decorators, Change::Nothing),
        Part::Word(word) => behind_export_word(word),
        _ => Move::Again(Change::Other),
    }
}

/// Behind `export *`.
pub(crate) fn behind_star(part: Part) -> Move
    ensures { result ≡ rows.behind_star part }
{
    match part {
        Part::Word(Word::As) => Move::To(Stage::ExportStarAs, Change::Nothing),
        _ => before_export_from(part),
    }
}

pub(crate) fn behind_star_as(part: Part) -> Move
    ensures { result ≡ rows.behind_star_as part }
{
    match part {
        Part::Word(_) | Part::Text => Move::To(Stage::ExportStarName, Change::TellAlone),
        _ => Move::Again(Change::Other),
    }
}

pub(crate) fn before_export_from(part: Part) -> Move
    ensures { result ≡ rows.before_export_from part }
{
    match part {
        Part::Word(Word::From) => Move::To(Stage::ExportFrom, Change::Nothing),
        _ => Move::Again(Change::Other),
    }
}

/// Behind `export type` of TypeScript.
pub(crate) fn behind_export_type(part: Part) -> Move
    ensures { result ≡ rows.behind_export_type part }
{
    match part {
        Part::Star => Move::To(Stage::ExportStar, Change::TypeOnly),
        Part::Brace => Move::To(Stage::Names, Change::TypeOnly),
        Part::Word(_) => Move::To(Stage::Nothing, Change::TellType),
        _ => Move::Again(Change::Other),
    }
}

/// In the braces of an export, where a name comes.
pub(crate) fn before_name(part: Part) -> Move
    ensures { result ≡ rows.before_name part }
{
    match part {
        Part::Word(Word::Type) => Move::To(Stage::NameType, Change::Name),
        Part::Word(_) | Part::Text => Move::To(Stage::Name, Change::Name),
        Part::Comma => Move::To(Stage::Names, Change::Nothing),
        Part::EndBrace => Move::To(Stage::NamesEnd, Change::Nothing),
        _ => Move::Again(Change::Other),
    }
}

/// Behind a name there.
pub(crate) fn behind_name(part: Part) -> Move
    ensures { result ≡ rows.behind_name part }
{
    match part {
        Part::Word(Word::As) => Move::To(Stage::NameAs, Change::Nothing),
        Part::Comma => Move::To(Stage::Names, Change::TellName),
        Part::EndBrace => Move::To(Stage::NamesEnd, Change::TellName),
        _ => Move::Again(Change::Other),
    }
}

pub(crate) fn behind_name_as(part: Part) -> Move
    ensures { result ≡ rows.behind_name_as part }
{
    match part {
        Part::Word(_) | Part::Text => Move::To(Stage::NameEnd, Change::TellAs),
        _ => Move::Again(Change::Other),
    }
}

/// Behind `type` there, which is a name or TypeScript's word before one.
pub(crate) fn behind_name_type(part: Part) -> Move
    ensures { result ≡ rows.behind_name_type part }
{
    match part {
        Part::Word(Word::As) => Move::To(Stage::NameTypeAs, Change::Alias),
        Part::Word(_) | Part::Text => Move::To(Stage::Name, Change::TypeName),
        _ => behind_name(part),
    }
}

/// Behind `type as` there: one of the two is a name.
pub(crate) fn behind_name_type_as(part: Part) -> Move
    ensures { result ≡ rows.behind_name_type_as part }
{
    match part {
        Part::Word(Word::As) => Move::To(Stage::NameTypeAsAs, Change::Nothing),
        Part::Comma => Move::To(Stage::Names, Change::TellAlias),
        Part::EndBrace => Move::To(Stage::NamesEnd, Change::TellAlias),
        _ => behind_name_as(part),
    }
}

/// Behind `type as as` there.
pub(crate) fn behind_name_type_as_as(part: Part) -> Move
    ensures { result ≡ rows.behind_name_type_as_as part }
{
    match part {
        Part::Comma => Move::To(Stage::Names, Change::TellLast),
        Part::EndBrace => Move::To(Stage::NamesEnd, Change::TellLast),
        Part::Word(_) | Part::Text => Move::To(Stage::NameEnd, Change::TellAliasAs),
        _ => Move::Again(Change::Other),
    }
}

pub(crate) fn behind_name_end(part: Part) -> Move
    ensures { result ≡ rows.behind_name_end part }
{
    match part {
        Part::Comma => Move::To(Stage::Names, Change::Nothing),
        Part::EndBrace => Move::To(Stage::NamesEnd, Change::Nothing),
        _ => Move::Again(Change::Other),
    }
}

/// Behind the braces of an export, with which it ends where no `from` comes.
pub(crate) fn behind_names(part: Part) -> Move
    ensures { result ≡ rows.behind_names part }
{
    match part {
        Part::Word(Word::From) => Move::To(Stage::ExportFrom, Change::Nothing),
        _ => Move::Again(Change::Nothing),
    }
}

/// Behind `export default` (ECMA-262, 16.2.3).
pub(crate) fn behind_default(part: Part) -> Move
    ensures { result ≡ rows.behind_default part }
{
    match part {
        Part::Word(Word::Async) => Move::To(Stage::DefaultAsync, Change::Nothing),
        Part::Word(Word::Function) => Move::To(Stage::DefaultFunction, Change::Nothing),
        Part::Word(Word::Class) => Move::To(Stage::DefaultClass, Change::Nothing),
        Part::Word(Word::Abstract) => Move::To(Stage::DefaultAbstract, Change::Nothing),
        Part::Word(Word::Interface) => Move::To(Stage::DefaultInterface, Change::Nothing),
        Part::At => Move::To(Stage::DefaultDecorators, Change::Nothing),
        _ => Move::Again(Change::TellDefault),
    }
}

/// Behind `export default async`: no line terminator comes before `function` (ECMA-262, 15.8).
pub(crate) fn behind_default_async(had_line_break: bool, part: Part) -> Move
    ensures { result ≡ rows.behind_default_async had_line_break part }
{
    match part {
        Part::Word(Word::Function) if !had_line_break => Move::To(
            Stage::DefaultFunction,
            Change::Nothing,
        ),
        _ => Move::Again(Change::TellDefault),
    }
}

pub(crate) fn behind_default_abstract(part: Part) -> Move
    ensures { result ≡ rows.behind_default_abstract part }
{
    match part {
        Part::Word(Word::Class) => Move::To(Stage::DefaultClass, Change::Nothing),
        _ => Move::Again(Change::TellDefault),
    }
}

pub(crate) fn behind_default_function(part: Part) -> Move
    ensures { result ≡ rows.behind_default_function part }
{
    match part {
        Part::Star => Move::To(Stage::DefaultFunction, Change::Nothing),
        Part::Word(_) => Move::To(Stage::Nothing, Change::TellDefaultName),
        _ => Move::Again(Change::TellDefault),
    }
}

pub(crate) fn behind_default_class(part: Part) -> Move
    ensures { result ≡ rows.behind_default_class part }
{
    match part {
        Part::Word(Word::Heritage) => Move::Again(Change::TellDefault),
        Part::Word(_) => Move::To(Stage::Nothing, Change::TellDefaultName),
        _ => Move::Again(Change::TellDefault),
    }
}

pub(crate) fn behind_default_interface(part: Part) -> Move
    ensures { result ≡ rows.behind_default_interface part }
{
    match part {
        Part::Word(_) => Move::To(Stage::Nothing, Change::TellDefaultType),
        _ => Move::Again(Change::TellDefault),
    }
}

/// In the decorators of an export, behind which the class comes.
pub(crate) fn in_decorators(depth: usize, part: Part) -> Move
    ensures { result ≡ rows.in_decorators depth part }
{
    match part {
        Part::Word(Word::Class) if depth == 0 => Move::To(Stage::Class, Change::Nothing),
        Part::Semi => Move::Again(Change::Other),
        _ => Move::To(Stage::Decorators, Change::Nothing),
    }
}

/// In the decorators of an export by default, behind which the class comes.
pub(crate) fn in_default_decorators(depth: usize, part: Part) -> Move
    ensures { result ≡ rows.in_default_decorators depth part }
{
    match part {
        Part::Word(Word::Class) if depth == 0 => Move::To(Stage::DefaultClass, Change::Nothing),
        Part::Semi => Move::Again(Change::TellDefault),
        _ => Move::To(Stage::DefaultDecorators, Change::Nothing),
    }
}

/// Behind `export async`: no line terminator comes before `function` (ECMA-262, 15.8).
pub(crate) fn behind_async(had_line_break: bool, part: Part) -> Move
    ensures { result ≡ rows.behind_async had_line_break part }
{
    match part {
        Part::Word(Word::Function) if !had_line_break => Move::To(Stage::Function, Change::Nothing),
        _ => Move::Again(Change::Other),
    }
}

pub(crate) fn behind_function(part: Part) -> Move
    ensures { result ≡ rows.behind_function part }
{
    match part {
        Part::Star => Move::To(Stage::Function, Change::Nothing),
        _ => behind_declaring(part),
    }
}

pub(crate) fn behind_class(part: Part) -> Move
    ensures { result ≡ rows.behind_class part }
{
    match part {
        Part::Word(Word::Heritage) => Move::Again(Change::Other),
        _ => behind_declaring(part),
    }
}

pub(crate) fn behind_declaring(part: Part) -> Move
    ensures { result ≡ rows.behind_declaring part }
{
    match part {
        Part::Word(_) => Move::To(Stage::Nothing, Change::TellDeclared),
        _ => Move::Again(Change::Other),
    }
}

pub(crate) fn behind_interface(part: Part) -> Move
    ensures { result ≡ rows.behind_interface part }
{
    match part {
        Part::Word(_) => Move::To(Stage::Nothing, Change::TellType),
        _ => Move::Again(Change::Other),
    }
}

/// Behind `export import` of TypeScript.
pub(crate) fn behind_export_import(part: Part) -> Move
    ensures { result ≡ rows.behind_export_import part }
{
    match part {
        Part::Word(_) => Move::To(Stage::ImportName, Change::TellDeclared),
        _ => Move::Again(Change::Other),
    }
}
