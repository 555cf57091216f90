//! Where an operand is expected.
ghost use Rattle.std.specs.Prelude.{◌≡◌};
ghost use Rattle.ecma_role_table.specs.Operands as rows;

use crate::frame::{Around, FrameKind, over_conditional};
use crate::moves::{Change, Move};
use crate::part::{Name, PartKind, Reserved, Sign};
use crate::state::State;

/// A name where an operand is expected.
fn operand_name(name: Name, around: Around) -> Move
    ensures { result ≡ rows.operand_name name around }
{
    match name {
        Name::Await => {
            if around.is_async {
                Move::To(State::Operand, Change::Nothing)
            } else {
                Move::To(State::After, Change::Nothing)
            }
        }
        Name::Yield => {
            if around.is_generator {
                Move::To(State::Restricted, Change::Nothing)
            } else {
                Move::To(State::After, Change::Nothing)
            }
        }
        Name::Async => Move::To(State::Async, Change::Nothing),
        _ => Move::To(State::After, Change::Nothing),
    }
}

/// A reserved word where an operand is expected.
fn operand_word(word: Reserved) -> Move
    ensures { result ≡ rows.operand_word word }
{
    match word {
        Reserved::Typeof
        | Reserved::Void
        | Reserved::Delete
        | Reserved::New
        | Reserved::In
        | Reserved::InstanceOf
        | Reserved::Extends => Move::To(State::Operand, Change::Nothing),
        Reserved::Function => Move::To(
            State::Head,
            Change::Enter(FrameKind::FunctionExpressionHead, false),
        ),
        Reserved::Class => Move::To(
            State::ClassHead,
            Change::Push(FrameKind::ClassExpressionHead),
        ),
        Reserved::Import => Move::To(State::ImportExpression, Change::Nothing),
        Reserved::Case
        | Reserved::Default
        | Reserved::Control
        | Reserved::With
        | Reserved::For
        | Reserved::Return
        | Reserved::Break
        | Reserved::BeforeStatement
        | Reserved::Declare
        | Reserved::Export
        | Reserved::Enum => Move::FreshWord,
        _ => Move::To(State::After, Change::Nothing),
    }
}

/// A sign where an operand is expected.
fn operand_sign(sign: Sign, typescript: bool) -> Move
    ensures { result ≡ rows.operand_sign sign typescript }
{
    match sign {
        Sign::Literal => Move::To(State::After, Change::Nothing),
        Sign::Regex => Move::To(State::After, Change::DropCandidates),
        Sign::BackQuote => Move::To(State::Quasi, Change::Push(FrameKind::Template)),
        Sign::LParen => Move::To(State::Operand, Change::Push(FrameKind::Paren)),
        Sign::LBracket => Move::To(State::Operand, Change::Push(FrameKind::Bracket)),
        Sign::LBrace => Move::To(State::Key, Change::Object),
        Sign::Lt if typescript => {
            Move::To(State::TypeBrackets, Change::Push(FrameKind::OperandAngle))
        }
        Sign::LShift if typescript => Move::To(
            State::TypeBrackets,
            Change::PushTwo(FrameKind::OperandAngle, FrameKind::InnerAngle),
        ),
        Sign::RParen => Move::Again(State::After, Change::Parameters),
        Sign::RBracket
        | Sign::RBrace
        | Sign::Semi
        | Sign::Comma
        | Sign::Colon
        | Sign::Dot
        | Sign::Arrow
        | Sign::QuestionMark
        | Sign::Gt
        | Sign::RShift
        | Sign::ZeroFillRShift => Move::Again(State::After, Change::Nothing),
        Sign::At => Move::To(State::Decorator, Change::Push(FrameKind::OperandDecorator)),
        Sign::Hash => Move::To(State::Property, Change::Nothing),
        _ => Move::To(State::Operand, Change::Nothing),
    }
}

/// An operand is expected (ECMA-262, 12.1: the goal symbols that take a regular expression).
pub fn operand(kind: PartKind, around: Around, typescript: bool) -> Move
    ensures { result ≡ rows.operand kind around typescript }
{
    match kind {
        PartKind::Name(name) => operand_name(name, around),
        PartKind::Reserved(word) => operand_word(word),
        PartKind::Sign(sign) => operand_sign(sign, typescript),
    }
}

/// Behind `?`: of a conditional, an optional chain or an optional parameter (ECMA-262, 13.14, 13.3).
pub fn behind_question(kind: PartKind, top: Option<FrameKind>) -> Move
    ensures { result ≡ rows.behind_question kind top }
{
    match kind {
        PartKind::Sign(Sign::Colon) => {
            if over_conditional(top) {
                Move::Again(State::After, Change::Pop)
            } else {
                Move::Again(State::Operand, Change::Nothing)
            }
        }
        PartKind::Sign(Sign::Dot) => {
            if over_conditional(top) {
                Move::To(State::OptionalProperty, Change::Pop)
            } else {
                Move::Again(State::Operand, Change::Nothing)
            }
        }
        _ => Move::Again(State::Operand, Change::Nothing),
    }
}

/// Behind `=>` (ECMA-262, 15.3).
pub fn arrow_body(kind: PartKind) -> Move
    ensures { result ≡ rows.arrow_body kind }
{
    match kind {
        PartKind::Sign(Sign::LBrace) => Move::To(
            State::Statement,
            Change::Turn(FrameKind::ArrowBody),
        ),
        _ => Move::Again(State::Operand, Change::Nothing),
    }
}

/// The text of a template (ECMA-262, 13.2.8).
pub fn template_text(kind: PartKind) -> Move
    ensures { result ≡ rows.template_text kind }
{
    match kind {
        PartKind::Sign(Sign::DollarLBrace) => Move::Substitution,
        PartKind::Sign(Sign::BackQuote) => Move::EndTemplate,
        _ => Move::To(State::Quasi, Change::Nothing),
    }
}
