//! Imports and exports.
ghost use Rattle.std.specs.Prelude.{◌≡◌};
ghost use Rattle.ecma_role_table.specs.Modules as rows;

use crate::frame::FrameKind;
use crate::moves::{Change, Move};
use crate::part::{Name, PartKind, Reserved, Sign};
use crate::state::State;

/// Behind `import`: a declaration, a call or `import.meta` (ECMA-262, 16.2.2, 13.3.10).
pub fn behind_import(kind: PartKind) -> Move
    ensures { result ≡ rows.behind_import kind }
{
    match kind {
        PartKind::Sign(Sign::LParen | Sign::Dot) => Move::Again(State::After, Change::Nothing),
        _ => Move::Again(State::Import, Change::Push(FrameKind::ImportHead)),
    }
}

/// What is imported (ECMA-262, 16.2.2).
pub fn import_names(kind: PartKind) -> Move
    ensures { result ≡ rows.import_names kind }
{
    match kind {
        PartKind::Sign(Sign::Literal) => Move::To(State::ImportEnd, Change::Nothing),
        PartKind::Sign(Sign::LBrace) => Move::To(State::Clause, Change::Push(FrameKind::Clause)),
        PartKind::Sign(Sign::Assign) => Move::To(State::ImportEquals, Change::Nothing),
        PartKind::Sign(Sign::Star) => Move::To(State::ImportAll, Change::Nothing),
        PartKind::Name(_) | PartKind::Reserved(_) => Move::To(State::Import, Change::Nothing),
        PartKind::Sign(Sign::Comma) => Move::To(State::Import, Change::Nothing),
        _ => Move::Again(State::Statement, Change::Pop),
    }
}

/// Behind the `*` of an import or export (ECMA-262, 16.2.2, 16.2.3).
pub fn behind_import_all(kind: PartKind) -> Move
    ensures { result ≡ rows.behind_import_all kind }
{
    match kind {
        PartKind::Name(Name::As) => Move::To(State::ImportAs, Change::Nothing),
        _ => Move::Again(State::Import, Change::Nothing),
    }
}

/// Behind `* as`: a name, of an export also a string (ECMA-262, 16.2.2, 16.2.3).
pub fn behind_import_as(kind: PartKind) -> Move
    ensures { result ≡ rows.behind_import_as kind }
{
    match kind {
        PartKind::Name(_) | PartKind::Reserved(_) => Move::To(State::Import, Change::Nothing),
        PartKind::Sign(Sign::Literal) => Move::To(State::Import, Change::Nothing),
        _ => Move::Again(State::Import, Change::Nothing),
    }
}

/// Behind the name of a module (ECMA-262, 16.2.2).
pub fn behind_module_name(kind: PartKind, had_line_break: bool) -> Move
    ensures { result ≡ rows.behind_module_name kind had_line_break }
{
    match kind {
        PartKind::Reserved(Reserved::With) => Move::To(State::ImportWith, Change::Nothing),
        PartKind::Name(Name::Assert) => {
            if had_line_break {
                Move::Again(State::Statement, Change::ImportEnds)
            } else {
                Move::To(State::ImportWith, Change::Nothing)
            }
        }
        _ => Move::Again(State::Statement, Change::ImportEnds),
    }
}

/// Behind the `with` of an import (ECMA-262, 16.2.2).
pub fn behind_import_with(kind: PartKind) -> Move
    ensures { result ≡ rows.behind_import_with kind }
{
    match kind {
        PartKind::Sign(Sign::LBrace) => Move::To(State::Clause, Change::Turn(FrameKind::Clause)),
        _ => Move::Again(State::Statement, Change::Pop),
    }
}

/// Behind the `=` of an import of TypeScript.
pub fn behind_import_equals(kind: PartKind) -> Move
    ensures { result ≡ rows.behind_import_equals kind }
{
    match kind {
        PartKind::Name(_) | PartKind::Reserved(_) => Move::To(
            State::ImportEqualsName,
            Change::Nothing,
        ),
        _ => Move::Again(State::Statement, Change::Pop),
    }
}

/// Behind a name there, which may be `require`.
pub fn behind_import_equals_name(kind: PartKind) -> Move
    ensures { result ≡ rows.behind_import_equals_name kind }
{
    match kind {
        PartKind::Sign(Sign::Dot) => Move::To(State::ImportEquals, Change::Nothing),
        PartKind::Sign(Sign::LParen) => Move::To(State::Operand, Change::Turn(FrameKind::Control)),
        _ => Move::Again(State::Statement, Change::Pop),
    }
}

/// Behind `export` (ECMA-262, 16.2.3).
pub fn behind_export(kind: PartKind) -> Move
    ensures { result ≡ rows.behind_export kind }
{
    match kind {
        PartKind::Reserved(Reserved::Default) => Move::To(State::ExportDefault, Change::Nothing),
        PartKind::Name(Name::TypeWord) => Move::To(State::ExportType, Change::Nothing),
        PartKind::Sign(Sign::LBrace) => Move::To(
            State::Clause,
            Change::PushTwo(FrameKind::ExportHead, FrameKind::Clause),
        ),
        PartKind::Sign(Sign::Star) => Move::To(
            State::ImportAll,
            Change::Push(FrameKind::ImportHead),
        ),
        PartKind::Sign(Sign::Assign) => Move::To(State::Operand, Change::Nothing),
        _ => Move::Again(State::Statement, Change::Nothing),
    }
}

/// Behind `export type` of TypeScript.
pub fn behind_export_type(kind: PartKind) -> Move
    ensures { result ≡ rows.behind_export_type kind }
{
    match kind {
        PartKind::Sign(Sign::LBrace | Sign::Star) => Move::Again(State::Export, Change::Nothing),
        _ => Move::Again(State::MaybeType, Change::Nothing),
    }
}

/// Behind the braces of an export (ECMA-262, 16.2.3).
pub fn behind_export_clause(kind: PartKind) -> Move
    ensures { result ≡ rows.behind_export_clause kind }
{
    match kind {
        PartKind::Name(Name::From) => Move::To(State::Import, Change::Turn(FrameKind::ImportHead)),
        _ => Move::Again(State::Statement, Change::Pop),
    }
}

/// In the braces of an import, an export or its attributes (ECMA-262, 16.2.2, 16.2.3).
pub fn clause(kind: PartKind) -> Move
    ensures { result ≡ rows.clause kind }
{
    match kind {
        PartKind::Sign(Sign::RBrace) => Move::Brace,
        PartKind::Sign(Sign::Semi) => Move::Again(State::Statement, Change::Pop),
        _ => Move::To(State::Clause, Change::Nothing),
    }
}
