//! Where a statement begins, and the heads of statements.
ghost use Rattle.std.specs.Prelude.{◌≡◌};
ghost use Rattle.ecma_role_table.specs.Statements as rows;

use crate::frame::{Around, FrameKind};
use crate::moves::{Change, Move};
use crate::part::{Name, PartKind, Reserved, Sign};
use crate::state::State;

/// A name where a statement begins.
fn statement_name(name: Name, around: Around) -> Move
    ensures { result ≡ rows.statement_name name around }
{
    match name {
        Name::Async => Move::To(State::AsyncStatement, Change::Nothing),
        Name::Let => Move::To(State::MaybeLet, Change::Nothing),
        Name::Interface => Move::To(State::MaybeInterface, Change::Nothing),
        Name::TypeWord => Move::To(State::MaybeType, Change::Nothing),
        Name::Yield => {
            if around.is_generator {
                Move::To(State::Restricted, Change::Nothing)
            } else {
                Move::To(State::Label, Change::Nothing)
            }
        }
        Name::Await => {
            if around.is_async {
                Move::To(State::Operand, Change::Nothing)
            } else {
                Move::To(State::Label, Change::Nothing)
            }
        }
        _ => Move::To(State::Label, Change::Nothing),
    }
}

/// A reserved word where a statement begins.
fn statement_word(word: Reserved) -> Move
    ensures { result ≡ rows.statement_word word }
{
    match word {
        Reserved::Function => Move::To(State::Head, Change::Enter(FrameKind::FunctionHead, false)),
        Reserved::Class => Move::To(State::ClassHead, Change::Push(FrameKind::ClassHead)),
        Reserved::Declare => Move::To(State::Binding, Change::Push(FrameKind::Declaration)),
        Reserved::Enum => Move::To(State::EnumHead, Change::Nothing),
        Reserved::Import => Move::To(State::ImportStart, Change::Nothing),
        Reserved::Export => Move::To(State::Export, Change::ModuleCode),
        Reserved::Control | Reserved::With => Move::To(State::Control, Change::Nothing),
        Reserved::For => Move::To(State::ForKeyword, Change::Nothing),
        Reserved::BeforeStatement => Move::To(State::Statement, Change::Nothing),
        Reserved::Return => Move::To(State::Restricted, Change::Nothing),
        Reserved::Break => Move::To(State::Break, Change::Nothing),
        Reserved::Case => Move::To(State::Operand, Change::Push(FrameKind::Case)),
        Reserved::Default => Move::To(State::Default, Change::Nothing),
        _ => Move::Again(State::Operand, Change::Nothing),
    }
}

/// A sign where a statement begins.
fn statement_sign(sign: Sign) -> Move
    ensures { result ≡ rows.statement_sign sign }
{
    match sign {
        Sign::LBrace => Move::To(State::Statement, Change::Push(FrameKind::Block)),
        Sign::Semi => Move::Semi,
        Sign::At => Move::To(
            State::Decorator,
            Change::Push(FrameKind::StatementDecorator),
        ),
        Sign::Shebang => Move::To(State::Statement, Change::Nothing),
        _ => Move::Again(State::Operand, Change::Nothing),
    }
}

/// A statement begins (ECMA-262, 14).
#[tactic(auto, unfolding(crate::specs::Statements::statement))]
pub fn statement(kind: PartKind, around: Around) -> Move
    ensures { result ≡ rows.statement kind around }
{
    match kind {
        PartKind::Name(name) => statement_name(name, around),
        PartKind::Reserved(word) => statement_word(word),
        PartKind::Sign(sign) => statement_sign(sign),
    }
}

/// Behind `export default`, a declaration or an expression begins (ECMA-262, 16.2.3).
pub fn export_default(kind: PartKind, around: Around) -> Move
    ensures { result ≡ rows.export_default kind around }
{
    match kind {
        PartKind::Name(Name::Let | Name::TypeWord) => Move::Again(State::Operand, Change::Nothing),
        PartKind::Reserved(Reserved::Import) => Move::Again(State::Operand, Change::Nothing),
        PartKind::Sign(Sign::LBrace) => Move::Again(State::Operand, Change::Nothing),
        _ => statement(kind, around),
    }
}

/// Behind `return`, `throw` or `yield`, which a line break ends (ECMA-262, 12.10.1).
pub fn restricted(kind: PartKind, had_line_break: bool) -> Move
    ensures { result ≡ rows.restricted kind had_line_break }
{
    match kind {
        PartKind::Sign(Sign::RParen) => Move::Again(State::After, Change::Nothing),
        PartKind::Sign(Sign::RBrace | Sign::RBracket | Sign::Comma | Sign::Colon | Sign::Semi) =>
            Move::Again(State::Operand, Change::Nothing),
        _ => {
            if had_line_break {
                Move::Fresh
            } else {
                Move::Again(State::Operand, Change::Nothing)
            }
        }
    }
}

/// Behind `break` or `continue`, with or without a label (ECMA-262, 14.8, 14.9).
pub fn behind_break(kind: PartKind, had_line_break: bool) -> Move
    ensures { result ≡ rows.behind_break kind had_line_break }
{
    match kind {
        PartKind::Name(_) => {
            if had_line_break {
                Move::Fresh
            } else {
                Move::To(State::Statement, Change::Nothing)
            }
        }
        _ => Move::Fresh,
    }
}

/// Behind `default` in a `switch` (ECMA-262, 14.12).
pub fn behind_default(kind: PartKind) -> Move
    ensures { result ≡ rows.behind_default kind }
{
    match kind {
        PartKind::Sign(Sign::Colon) => Move::To(State::Statement, Change::Nothing),
        _ => Move::Again(State::After, Change::Nothing),
    }
}

/// Before the parentheses of a statement (ECMA-262, 14.6, 14.7, 14.11, 14.12).
pub fn before_control(kind: PartKind) -> Move
    ensures { result ≡ rows.before_control kind }
{
    match kind {
        PartKind::Sign(Sign::LParen) => Move::To(State::Operand, Change::Push(FrameKind::Control)),
        _ => Move::Again(State::Statement, Change::Nothing),
    }
}

/// Behind `for` (ECMA-262, 14.7.4, 14.7.5).
pub fn behind_for(kind: PartKind) -> Move
    ensures { result ≡ rows.behind_for kind }
{
    match kind {
        PartKind::Name(Name::Await) => Move::To(State::ForKeyword, Change::Nothing),
        PartKind::Sign(Sign::LParen) => Move::To(State::ForHead, Change::Push(FrameKind::For)),
        _ => Move::Again(State::Statement, Change::Nothing),
    }
}

/// The head of a `for` begins (ECMA-262, 14.7.4, 14.7.5).
pub fn for_head(kind: PartKind) -> Move
    ensures { result ≡ rows.for_head kind }
{
    match kind {
        PartKind::Name(Name::Let) => Move::To(State::MaybeLet, Change::Nothing),
        PartKind::Reserved(Reserved::Declare) => Move::To(
            State::Binding,
            Change::Push(FrameKind::Declaration),
        ),
        _ => Move::Again(State::Operand, Change::Nothing),
    }
}

/// Behind `let`, a word or a name (ECMA-262, 14.3.1).
pub fn behind_let(kind: PartKind) -> Move
    ensures { result ≡ rows.behind_let kind }
{
    match kind {
        PartKind::Name(_) => Move::Again(State::Binding, Change::Push(FrameKind::Declaration)),
        PartKind::Reserved(Reserved::Enum) => Move::Again(
            State::Binding,
            Change::Push(FrameKind::Declaration),
        ),
        PartKind::Sign(Sign::LBrace | Sign::LBracket) => Move::Again(
            State::Binding,
            Change::Push(FrameKind::Declaration),
        ),
        _ => Move::Again(State::Label, Change::Nothing),
    }
}

/// Behind `type`, a word of TypeScript or a name.
pub fn behind_type_word(kind: PartKind, had_line_break: bool) -> Move
    ensures { result ≡ rows.behind_type_word kind had_line_break }
{
    match kind {
        PartKind::Name(_) => {
            if had_line_break {
                Move::Again(State::Label, Change::Nothing)
            } else {
                Move::To(State::AliasHead, Change::Push(FrameKind::AliasHead))
            }
        }
        _ => Move::Again(State::Label, Change::Nothing),
    }
}

/// Behind `interface`, a word of TypeScript or a name.
pub fn behind_interface_word(kind: PartKind, had_line_break: bool) -> Move
    ensures { result ≡ rows.behind_interface_word kind had_line_break }
{
    match kind {
        PartKind::Name(_) => {
            if had_line_break {
                Move::Again(State::Label, Change::Nothing)
            } else {
                Move::To(State::InterfaceHead, Change::Push(FrameKind::InterfaceHead))
            }
        }
        _ => Move::Again(State::Label, Change::Nothing),
    }
}

/// The head of an enumeration of TypeScript.
pub fn enum_head(kind: PartKind) -> Move
    ensures { result ≡ rows.enum_head kind }
{
    match kind {
        PartKind::Name(_) | PartKind::Reserved(_) => Move::To(State::EnumHead, Change::Nothing),
        PartKind::Sign(Sign::LBrace) => Move::To(State::Key, Change::Push(FrameKind::Enum)),
        _ => Move::Again(State::Statement, Change::Nothing),
    }
}

/// A name or pattern that is declared (ECMA-262, 14.3).
pub fn binding(kind: PartKind) -> Move
    ensures { result ≡ rows.binding kind }
{
    match kind {
        PartKind::Reserved(Reserved::Enum) => Move::To(State::EnumHead, Change::Pop),
        PartKind::Name(_) | PartKind::Reserved(_) => Move::To(State::AfterBinding, Change::Nothing),
        PartKind::Sign(Sign::LBrace | Sign::LBracket) => Move::Again(
            State::Operand,
            Change::Nothing,
        ),
        _ => Move::Again(State::After, Change::Nothing),
    }
}

/// Behind a name that is declared: an initializer, or the end (ECMA-262, 14.3).
pub fn behind_binding(kind: PartKind, had_line_break: bool) -> Move
    ensures { result ≡ rows.behind_binding kind had_line_break }
{
    match kind {
        PartKind::Sign(Sign::Bang) => {
            if had_line_break {
                Move::Fresh
            } else {
                Move::To(State::AfterBinding, Change::Nothing)
            }
        }
        PartKind::Sign(
            Sign::Comma
            | Sign::Semi
            | Sign::Colon
            | Sign::RParen
            | Sign::RBracket
            | Sign::RBrace
            | Sign::Assign,
        ) => Move::Again(State::After, Change::Nothing),
        PartKind::Reserved(Reserved::In) => Move::Again(State::After, Change::Nothing),
        PartKind::Name(Name::Of) => Move::Again(State::After, Change::Nothing),
        _ => Move::Fresh,
    }
}

/// Behind a name that a statement begins with: a label or an operand (ECMA-262, 14.13).
pub fn behind_first_name(kind: PartKind) -> Move
    ensures { result ≡ rows.behind_first_name kind }
{
    match kind {
        PartKind::Sign(Sign::Colon) => Move::To(State::Statement, Change::Nothing),
        _ => Move::Again(State::After, Change::Nothing),
    }
}
