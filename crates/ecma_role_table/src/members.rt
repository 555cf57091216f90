//! Heads of functions and classes, and what stands in classes and objects.
ghost use Rattle.std.specs.Prelude.{◌≡◌};
ghost use Rattle.ecma_role_table.specs.Members as rows;

use crate::frame::{Around, FrameKind};
use crate::moves::{Change, Move};
use crate::part::{Name, PartKind, Reserved, Sign};
use crate::state::State;

/// The head of a function or method, up to its parameters (ECMA-262, 15.2).
pub fn function_head(kind: PartKind) -> Move
    ensures { result ≡ rows.function_head kind }
{
    match kind {
        PartKind::Sign(Sign::LParen) => Move::To(
            State::Operand,
            Change::Push(FrameKind::Parameters),
        ),
        PartKind::Sign(Sign::Lt) => Move::To(
            State::TypeBrackets,
            Change::Push(FrameKind::HeadAngle),
        ),
        PartKind::Sign(Sign::Star) => Move::To(State::Head, Change::Generator),
        PartKind::Name(_) | PartKind::Reserved(_) => Move::To(State::Head, Change::Nothing),
        PartKind::Sign(Sign::LBrace) => Move::Body,
        _ => Move::NoBody,
    }
}

/// Behind the parameters of a function or method (ECMA-262, 15.2).
pub fn function_head_end(kind: PartKind) -> Move
    ensures { result ≡ rows.function_head_end kind }
{
    match kind {
        PartKind::Sign(Sign::LBrace) => Move::Body,
        PartKind::Sign(Sign::Colon) => Move::To(
            State::TypeOperand,
            Change::Push(FrameKind::Annotation),
        ),
        _ => Move::NoBody,
    }
}

/// The head of a class (ECMA-262, 15.7).
pub fn class_head(kind: PartKind) -> Move
    ensures { result ≡ rows.class_head kind }
{
    match kind {
        PartKind::Sign(Sign::LBrace) => Move::ClassBody,
        PartKind::Sign(Sign::Lt) => Move::To(
            State::TypeBrackets,
            Change::Push(FrameKind::HeadAngle),
        ),
        PartKind::Sign(Sign::LShift) => Move::To(
            State::TypeBrackets,
            Change::PushTwo(FrameKind::HeadAngle, FrameKind::InnerAngle),
        ),
        PartKind::Reserved(Reserved::Extends) => Move::To(State::Operand, Change::Nothing),
        PartKind::Name(_) | PartKind::Reserved(_) => Move::To(State::ClassHead, Change::Nothing),
        PartKind::Sign(Sign::Comma | Sign::Dot) => Move::To(State::ClassHead, Change::Nothing),
        _ => Move::NoClassBody,
    }
}

/// A member of a class, in which `async` behind `async` is a name (ECMA-262, 15.7, 15.8).
pub fn member(kind: PartKind, method: Around) -> Move
    ensures { result ≡ rows.member kind method }
{
    match kind {
        PartKind::Name(Name::Async) => {
            if method.is_async {
                Move::To(State::Member, Change::Nothing)
            } else {
                Move::To(State::MemberAsync, Change::PendAsync)
            }
        }
        PartKind::Name(_) | PartKind::Reserved(_) => Move::To(State::Member, Change::Nothing),
        PartKind::Sign(Sign::Star) => Move::To(State::Member, Change::PendGenerator),
        PartKind::Sign(Sign::LParen) => Move::To(State::Operand, Change::Method),
        PartKind::Sign(Sign::Lt) => Move::To(
            State::TypeBrackets,
            Change::Push(FrameKind::HeadAngle),
        ),
        PartKind::Sign(Sign::LBracket) => Move::To(
            State::Operand,
            Change::Push(FrameKind::Computed),
        ),
        PartKind::Sign(Sign::LBrace) => Move::To(State::Statement, Change::Static),
        PartKind::Sign(Sign::RBrace) => Move::Brace,
        PartKind::Sign(Sign::Assign) => Move::To(State::Operand, Change::ClearPending),
        PartKind::Sign(Sign::Colon) => Move::To(
            State::TypeOperand,
            Change::Push(FrameKind::Annotation),
        ),
        PartKind::Sign(Sign::Semi) => Move::To(State::Member, Change::ClearPending),
        PartKind::Sign(Sign::At) => Move::To(
            State::Decorator,
            Change::Push(FrameKind::MemberDecorator),
        ),
        PartKind::Sign(Sign::BackQuote) => Move::Again(State::Operand, Change::Nothing),
        _ => Move::To(State::Member, Change::Nothing),
    }
}

/// Behind `async` in a class: a word, or the name of a member (ECMA-262, 15.8).
pub fn behind_member_async(kind: PartKind, had_line_break: bool) -> Move
    ensures { result ≡ rows.behind_member_async kind had_line_break }
{
    match kind {
        PartKind::Sign(
            Sign::LParen
            | Sign::Assign
            | Sign::Colon
            | Sign::Semi
            | Sign::Lt
            | Sign::RBrace
            | Sign::QuestionMark
            | Sign::Bang,
        ) => Move::Again(State::Member, Change::LoseAsync),
        _ => {
            if had_line_break {
                Move::Again(State::Member, Change::LoseAsync)
            } else {
                Move::Again(State::Member, Change::Nothing)
            }
        }
    }
}

/// A key of an object or of an enumeration, in which `async` behind `async` is a name (ECMA-262, 13.2.5, 15.8).
pub fn key(kind: PartKind, method: Around) -> Move
    ensures { result ≡ rows.key kind method }
{
    match kind {
        PartKind::Name(Name::Async) => {
            if method.is_async {
                Move::To(State::Key, Change::Nothing)
            } else {
                Move::To(State::KeyAsync, Change::PendAsync)
            }
        }
        PartKind::Name(_) | PartKind::Reserved(_) => Move::To(State::Key, Change::Nothing),
        PartKind::Sign(Sign::Star) => Move::To(State::Key, Change::PendGenerator),
        PartKind::Sign(Sign::LParen) => Move::To(State::Operand, Change::Method),
        PartKind::Sign(Sign::Lt) => Move::To(
            State::TypeBrackets,
            Change::Push(FrameKind::HeadAngle),
        ),
        PartKind::Sign(Sign::LBracket) => Move::To(
            State::Operand,
            Change::Push(FrameKind::Computed),
        ),
        PartKind::Sign(Sign::RBrace) => Move::Brace,
        PartKind::Sign(Sign::RParen) => Move::Paren,
        PartKind::Sign(Sign::RBracket) => Move::Bracket,
        PartKind::Sign(Sign::Colon | Sign::Assign | Sign::DotDotDot) => Move::To(
            State::Operand,
            Change::ClearPending,
        ),
        PartKind::Sign(Sign::Comma) => Move::To(State::Key, Change::ClearPending),
        PartKind::Sign(Sign::BackQuote | Sign::LBrace) => {
            Move::Again(State::Operand, Change::Nothing)
        }
        _ => Move::To(State::Key, Change::Nothing),
    }
}

/// Behind `async` in an object: a word, or a key (ECMA-262, 15.8).
pub fn behind_key_async(kind: PartKind) -> Move
    ensures { result ≡ rows.behind_key_async kind }
{
    match kind {
        PartKind::Sign(
            Sign::LParen | Sign::Colon | Sign::Comma | Sign::RBrace | Sign::Assign | Sign::Lt,
        ) => Move::Again(State::Key, Change::LoseAsync),
        _ => Move::Again(State::Key, Change::Nothing),
    }
}

/// Behind a comma in an object, where `<` may have begun type arguments: a key or a type.
pub fn behind_key_comma(kind: PartKind) -> Move
    ensures { result ≡ rows.behind_key_comma kind }
{
    match kind {
        PartKind::Name(Name::TypeOperator) => Move::Again(State::Operand, Change::Nothing),
        PartKind::Reserved(Reserved::Typeof | Reserved::New | Reserved::Import | Reserved::Void) =>
            Move::Again(State::Operand, Change::Nothing),
        PartKind::Name(Name::Async) => Move::To(State::KeyCommaName, Change::PendNameAsync),
        PartKind::Name(Name::Accessor) => Move::To(State::KeyCommaName, Change::ClearPending),
        PartKind::Name(_) | PartKind::Reserved(_) => Move::To(
            State::KeyCommaParameter,
            Change::ClearPending,
        ),
        PartKind::Sign(Sign::Star) => Move::Again(State::Key, Change::DropCandidates),
        _ => Move::Again(State::Operand, Change::Nothing),
    }
}

/// Behind a word there that a method's name may follow.
pub fn behind_key_comma_name(kind: PartKind) -> Move
    ensures { result ≡ rows.behind_key_comma_name kind }
{
    match kind {
        PartKind::Sign(Sign::LParen | Sign::Colon) => Move::Again(
            State::Key,
            Change::DropCandidatesClear,
        ),
        PartKind::Name(_) | PartKind::Reserved(_) => Move::Again(
            State::Key,
            Change::DropCandidates,
        ),
        PartKind::Sign(Sign::Star) => Move::Again(State::Key, Change::DropCandidates),
        _ => Move::Again(State::After, Change::ClearPending),
    }
}

/// Behind another word there: a key, or a type parameter, before whose name a modifier may stand.
pub fn behind_key_comma_parameter(kind: PartKind) -> Move
    ensures { result ≡ rows.behind_key_comma_parameter kind }
{
    match kind {
        PartKind::Sign(Sign::LParen | Sign::Colon) => Move::Again(
            State::Key,
            Change::DropCandidatesClear,
        ),
        PartKind::Reserved(Reserved::Extends) => Move::Again(State::After, Change::ClearPending),
        PartKind::Name(_) | PartKind::Reserved(_) => {
            Move::Again(State::Operand, Change::ClearPending)
        }
        _ => Move::Again(State::After, Change::ClearPending),
    }
}

/// The head of an alias of a type.
pub fn alias_head(kind: PartKind) -> Move
    ensures { result ≡ rows.alias_head kind }
{
    match kind {
        PartKind::Sign(Sign::Lt) => Move::To(
            State::TypeBrackets,
            Change::Push(FrameKind::HeadAngle),
        ),
        PartKind::Sign(Sign::Assign) => Move::To(
            State::TypeOperand,
            Change::Turn(FrameKind::AliasType),
        ),
        PartKind::Name(_) | PartKind::Reserved(_) => Move::To(State::AliasHead, Change::Nothing),
        _ => Move::Again(State::Statement, Change::Pop),
    }
}

/// The head of an interface.
pub fn interface_head(kind: PartKind) -> Move
    ensures { result ≡ rows.interface_head kind }
{
    match kind {
        PartKind::Sign(Sign::Lt) => Move::To(
            State::TypeBrackets,
            Change::Push(FrameKind::HeadAngle),
        ),
        PartKind::Sign(Sign::LShift) => Move::To(
            State::TypeBrackets,
            Change::PushTwo(FrameKind::HeadAngle, FrameKind::InnerAngle),
        ),
        PartKind::Sign(Sign::LBrace) => Move::To(
            State::TypeBrackets,
            Change::Turn(FrameKind::Interface),
        ),
        PartKind::Name(_) | PartKind::Reserved(_) => Move::To(
            State::InterfaceHead,
            Change::Nothing,
        ),
        PartKind::Sign(Sign::Comma | Sign::Dot) => Move::To(State::InterfaceHead, Change::Nothing),
        _ => Move::Again(State::Statement, Change::Pop),
    }
}

/// Behind `@`: what decorates.
pub fn decorator(kind: PartKind) -> Move
    ensures { result ≡ rows.decorator kind }
{
    match kind {
        PartKind::Sign(Sign::LParen) => Move::To(State::Operand, Change::Push(FrameKind::Paren)),
        PartKind::Name(_) | PartKind::Reserved(_) => Move::To(
            State::AfterDecorator,
            Change::Nothing,
        ),
        PartKind::Sign(Sign::Hash | Sign::Regex) => Move::To(
            State::AfterDecorator,
            Change::Nothing,
        ),
        _ => Move::Again(State::AfterDecorator, Change::Nothing),
    }
}

/// Behind a name or call that decorates.
pub fn behind_decorator(kind: PartKind, had_line_break: bool) -> Move
    ensures { result ≡ rows.behind_decorator kind had_line_break }
{
    match kind {
        PartKind::Sign(Sign::Dot | Sign::QuestionMark) => Move::To(
            State::Decorator,
            Change::Nothing,
        ),
        PartKind::Sign(Sign::LParen) => Move::To(State::Operand, Change::Push(FrameKind::Call)),
        PartKind::Sign(Sign::Lt) => Move::To(
            State::TypeBrackets,
            Change::Push(FrameKind::HeadAngle),
        ),
        PartKind::Sign(Sign::LShift) => Move::To(
            State::TypeBrackets,
            Change::PushTwo(FrameKind::HeadAngle, FrameKind::InnerAngle),
        ),
        PartKind::Sign(Sign::Bang) => {
            if had_line_break {
                Move::NoDecorator
            } else {
                Move::To(State::AfterDecorator, Change::Nothing)
            }
        }
        _ => Move::NoDecorator,
    }
}
