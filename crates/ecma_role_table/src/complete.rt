//! Where an operand is complete.
ghost use Rattle.std.specs.Prelude.{◌≡◌};
ghost use Rattle.ecma_role_table.specs.Complete as rows;

use crate::frame::{
    FrameKind, in_arguments, over_async_candidate, over_class_head, over_declared_for, over_for,
};
use crate::moves::{Angles, Change, Grouping, Move};
use crate::part::{Name, PartKind, Reserved, Sign};
use crate::state::State;

/// A word behind an operand: in what may be type arguments one more operand, else something new.
fn after_word(had_line_break: bool, top: Option<FrameKind>, under: Option<FrameKind>) -> Move
    ensures { result ≡ rows.after_word had_line_break top under }
{
    if had_line_break {
        Move::Fresh
    } else if in_arguments(top, under) {
        Move::Again(State::Operand, Change::Nothing)
    } else {
        Move::Fresh
    }
}

/// `<` behind an operand of TypeScript: less than or type arguments; behind a heritage no comparison can stand.
fn after_less(top: Option<FrameKind>) -> Move
    ensures { result ≡ rows.after_less top }
{
    if over_class_head(top) {
        Move::To(State::TypeBrackets, Change::Push(FrameKind::ArgumentsAngle))
    } else {
        Move::To(State::Operand, Change::Push(FrameKind::Candidate))
    }
}

/// `<<` behind an operand of TypeScript: a shift, or type arguments that begin with a function type; behind a heritage no shift
/// can stand.
fn after_shift(top: Option<FrameKind>) -> Move
    ensures { result ≡ rows.after_shift top }
{
    if over_class_head(top) {
        Move::To(
            State::TypeBrackets,
            Change::PushTwo(FrameKind::ArgumentsAngle, FrameKind::InnerAngle),
        )
    } else {
        Move::To(
            State::Operand,
            Change::PushTwo(FrameKind::Candidate, FrameKind::ParametersCandidate),
        )
    }
}

/// `=` behind an operand: behind `async <` a type parameter has a default, since no comparison is assigned to.
fn after_equals(top: Option<FrameKind>) -> Move
    ensures { result ≡ rows.after_equals top }
{
    if over_async_candidate(top) {
        Move::To(State::TypeBrackets, Change::Turn(FrameKind::AsyncAngle))
    } else {
        Move::To(State::Operand, Change::Nothing)
    }
}

/// A sign behind an operand.
fn after_sign(sign: Sign, had_line_break: bool, typescript: bool, top: Option<FrameKind>) -> Move
    ensures { result ≡ rows.after_sign sign had_line_break typescript top }
{
    match sign {
        Sign::Dot => Move::To(State::Property, Change::Nothing),
        Sign::LParen => Move::To(State::Operand, Change::Push(FrameKind::Call)),
        Sign::LBracket => Move::To(State::Operand, Change::Push(FrameKind::Bracket)),
        Sign::LBrace if over_class_head(top) => Move::ClassBody,
        Sign::LBrace => Move::FreshBrace,
        Sign::RParen => Move::Paren,
        Sign::RBracket => Move::Bracket,
        Sign::RBrace => Move::Brace,
        Sign::Semi => Move::Semi,
        Sign::Comma => Move::Comma,
        Sign::Colon => Move::Colon(Grouping::None),
        Sign::QuestionMark => Move::To(State::Conditional, Change::Push(FrameKind::Conditional)),
        Sign::Arrow => Move::To(State::ArrowBody, Change::Arrow(false)),
        Sign::Update | Sign::Bang if had_line_break => Move::FreshOperand,
        Sign::Update => Move::To(State::AfterPostfix, Change::Nothing),
        Sign::Bang => Move::To(State::After, Change::Nothing),
        Sign::Tilde | Sign::At | Sign::Hash | Sign::Literal | Sign::Regex => Move::Fresh,
        Sign::BackQuote => Move::To(State::Quasi, Change::Push(FrameKind::Template)),
        Sign::Lt if typescript => after_less(top),
        Sign::LShift if typescript => after_shift(top),
        Sign::Assign => after_equals(top),
        Sign::Gt => Move::Greater(Angles::One),
        Sign::RShift => Move::Greater(Angles::Two),
        Sign::ZeroFillRShift => Move::Greater(Angles::Three),
        Sign::GtEq | Sign::RShiftEq | Sign::ZeroFillRShiftEq => {
            Move::To(State::Operand, Change::DropCandidates)
        }
        _ => Move::To(State::Operand, Change::Nothing),
    }
}

/// A name behind an operand.
fn after_name(
    name: Name,
    had_line_break: bool,
    top: Option<FrameKind>,
    under: Option<FrameKind>,
) -> Move
    ensures { result ≡ rows.after_name name had_line_break top under }
{
    match name {
        Name::Of => {
            if over_for(top) {
                Move::To(State::Operand, Change::Nothing)
            } else if over_declared_for(top, under) {
                Move::To(State::Operand, Change::Pop)
            } else {
                after_word(had_line_break, top, under)
            }
        }
        Name::As | Name::Satisfies if !had_line_break => {
            Move::To(State::TypeOperand, Change::Push(FrameKind::Assertion))
        }
        Name::Implements if over_class_head(top) => Move::To(State::ClassHead, Change::Nothing),
        _ => after_word(had_line_break, top, under),
    }
}

/// `extends` behind an operand: what may be type arguments are some, in a conditional type or before a constraint; else it is of a
/// class (ECMA-262, 15.7).
fn after_extends(top: Option<FrameKind>) -> Move
    ensures { result ≡ rows.after_extends top }
{
    match top {
        Some(FrameKind::Candidate) => {
            Move::To(State::TypeBrackets, Change::Turn(FrameKind::ArgumentsAngle))
        }
        Some(FrameKind::AsyncCandidate) => {
            Move::To(State::TypeBrackets, Change::Turn(FrameKind::AsyncAngle))
        }
        Some(FrameKind::ParametersCandidate) => {
            Move::To(State::TypeBrackets, Change::Turn(FrameKind::InnerAngle))
        }
        _ => Move::To(State::Operand, Change::Nothing),
    }
}

/// An operand is complete (ECMA-262, 12.1: the goal symbols that take a division).
pub fn after_operand(
    kind: PartKind,
    had_line_break: bool,
    typescript: bool,
    top: Option<FrameKind>,
    under: Option<FrameKind>,
) -> Move
    ensures { result ≡ rows.after_operand kind had_line_break typescript top under }
{
    match kind {
        PartKind::Reserved(Reserved::Extends) => after_extends(top),
        PartKind::Reserved(Reserved::InstanceOf) => Move::To(State::Operand, Change::Nothing),
        PartKind::Reserved(Reserved::In) => {
            if over_declared_for(top, under) {
                Move::To(State::Operand, Change::Pop)
            } else {
                Move::To(State::Operand, Change::Nothing)
            }
        }
        PartKind::Reserved(_) => after_word(had_line_break, top, under),
        PartKind::Name(name) => after_name(name, had_line_break, top, under),
        PartKind::Sign(sign) => after_sign(sign, had_line_break, typescript, top),
    }
}

/// Behind a postfix operator or an asserted type, where no type arguments stand.
pub fn after_postfix(kind: PartKind) -> Move
    ensures { result ≡ rows.after_postfix kind }
{
    match kind {
        PartKind::Sign(Sign::Lt | Sign::LShift) => Move::To(State::Operand, Change::Nothing),
        _ => Move::Again(State::After, Change::Nothing),
    }
}

/// Behind parentheses: a group or the parameters of an arrow function (ECMA-262, 15.3).
pub fn behind_group(kind: PartKind) -> Move
    ensures { result ≡ rows.behind_group kind }
{
    match kind {
        PartKind::Sign(Sign::Colon) => Move::Colon(Grouping::Plain),
        _ => Move::Again(State::After, Change::Nothing),
    }
}

/// Behind the parameters of an arrow function (ECMA-262, 15.3).
pub fn behind_parameters(kind: PartKind) -> Move
    ensures { result ≡ rows.behind_parameters kind }
{
    match kind {
        PartKind::Sign(Sign::Colon) => Move::To(
            State::TypeOperand,
            Change::Push(FrameKind::ReturnType),
        ),
        _ => Move::Again(State::After, Change::Nothing),
    }
}

/// Behind `async` and parentheses: a call or parameters (ECMA-262, 15.9).
pub fn behind_async_group(kind: PartKind) -> Move
    ensures { result ≡ rows.behind_async_group kind }
{
    match kind {
        PartKind::Sign(Sign::Arrow) => Move::To(State::ArrowBody, Change::Arrow(true)),
        PartKind::Sign(Sign::Colon) => Move::Colon(Grouping::Async),
        _ => Move::Again(State::After, Change::Nothing),
    }
}

/// Behind the parameters of an async arrow function (ECMA-262, 15.9).
pub fn behind_async_parameters(kind: PartKind, typescript: bool) -> Move
    ensures { result ≡ rows.behind_async_parameters kind typescript }
{
    match kind {
        PartKind::Sign(Sign::Arrow) => Move::To(State::ArrowBody, Change::Arrow(true)),
        PartKind::Sign(Sign::Colon) if typescript => Move::To(
            State::TypeOperand,
            Change::Push(FrameKind::AsyncReturnType),
        ),
        _ => Move::Again(State::After, Change::Nothing),
    }
}

/// Behind `async` where an operand is expected (ECMA-262, 15.8, 15.9).
pub fn behind_async(kind: PartKind, had_line_break: bool, typescript: bool) -> Move
    ensures { result ≡ rows.behind_async kind had_line_break typescript }
{
    match kind {
        PartKind::Sign(Sign::LParen) => {
            Move::To(State::Operand, Change::Push(FrameKind::AsyncParen))
        }
        PartKind::Sign(Sign::Lt) if typescript => {
            Move::To(
                State::TypeParameter,
                Change::Push(FrameKind::AsyncCandidate),
            )
        }
        _ if had_line_break => Move::Again(State::After, Change::Nothing),
        PartKind::Reserved(Reserved::Function) => {
            Move::To(
                State::Head,
                Change::Enter(FrameKind::FunctionExpressionHead, true),
            )
        }
        PartKind::Name(Name::As | Name::Satisfies) => Move::To(State::AsyncAs, Change::Nothing),
        PartKind::Name(_) => Move::To(State::AsyncParameter, Change::Nothing),
        _ => Move::Again(State::After, Change::Nothing),
    }
}

/// Behind `async` where a statement begins (ECMA-262, 15.8, 15.9).
pub fn behind_async_statement(kind: PartKind, had_line_break: bool, typescript: bool) -> Move
    ensures { result ≡ rows.behind_async_statement kind had_line_break typescript }
{
    match kind {
        PartKind::Sign(Sign::LParen) => {
            Move::To(State::Operand, Change::Push(FrameKind::AsyncParen))
        }
        PartKind::Sign(Sign::Lt) if typescript => {
            Move::To(
                State::TypeParameter,
                Change::Push(FrameKind::AsyncCandidate),
            )
        }
        _ if had_line_break => Move::Again(State::Label, Change::Nothing),
        PartKind::Reserved(Reserved::Function) => {
            Move::To(State::Head, Change::Enter(FrameKind::FunctionHead, true))
        }
        PartKind::Name(Name::As | Name::Satisfies) => Move::To(State::AsyncAs, Change::Nothing),
        PartKind::Name(_) => Move::To(State::AsyncParameter, Change::Nothing),
        _ => Move::Again(State::Label, Change::Nothing),
    }
}

/// Behind `async as`: a parameter, or a type that is asserted.
pub fn behind_async_as(kind: PartKind) -> Move
    ensures { result ≡ rows.behind_async_as kind }
{
    match kind {
        PartKind::Sign(Sign::Arrow) => Move::To(State::ArrowBody, Change::Arrow(true)),
        _ => Move::Again(State::TypeOperand, Change::Push(FrameKind::Assertion)),
    }
}

/// Behind `async` and a name (ECMA-262, 15.9).
pub fn behind_async_name(kind: PartKind) -> Move
    ensures { result ≡ rows.behind_async_name kind }
{
    match kind {
        PartKind::Sign(Sign::Arrow) => Move::To(State::ArrowBody, Change::Arrow(true)),
        _ => Move::Again(State::After, Change::Nothing),
    }
}

/// Behind `async <`, or behind a comma there: `const` is a modifier of a type parameter alone.
pub fn type_parameter(kind: PartKind, top: Option<FrameKind>) -> Move
    ensures { result ≡ rows.type_parameter kind top }
{
    match kind {
        PartKind::Reserved(Reserved::Declare) if over_async_candidate(top) => Move::To(
            State::TypeBrackets,
            Change::Turn(FrameKind::AsyncAngle),
        ),
        _ => Move::Again(State::Operand, Change::Nothing),
    }
}

/// Behind `async` and what may be type parameters.
pub fn behind_async_type_arguments(kind: PartKind) -> Move
    ensures { result ≡ rows.behind_async_type_arguments kind }
{
    match kind {
        PartKind::Sign(Sign::LParen) => Move::To(
            State::Operand,
            Change::Push(FrameKind::AsyncParen),
        ),
        _ => Move::Again(State::TypeArguments, Change::Nothing),
    }
}

/// Behind what may be type arguments.
pub fn behind_type_arguments(kind: PartKind, had_line_break: bool, top: Option<FrameKind>) -> Move
    ensures { result ≡ rows.behind_type_arguments kind had_line_break top }
{
    match kind {
        PartKind::Name(Name::Implements) if over_class_head(top) => {
            Move::To(State::ClassHead, Change::Nothing)
        }
        _ if had_line_break => Move::Again(State::After, Change::Nothing),
        PartKind::Reserved(Reserved::In | Reserved::InstanceOf) => {
            Move::Again(State::After, Change::Nothing)
        }
        PartKind::Name(Name::As | Name::Satisfies | Name::Of) => {
            Move::Again(State::After, Change::Nothing)
        }
        PartKind::Name(_) | PartKind::Reserved(_) => Move::Again(State::Operand, Change::Nothing),
        PartKind::Sign(Sign::LBrace) if over_class_head(top) => {
            Move::Again(State::After, Change::Nothing)
        }
        PartKind::Sign(
            Sign::Literal
            | Sign::Regex
            | Sign::LBracket
            | Sign::LBrace
            | Sign::Bang
            | Sign::Update
            | Sign::Tilde
            | Sign::Hash,
        ) => Move::Again(State::Operand, Change::Nothing),
        _ => Move::Again(State::After, Change::Nothing),
    }
}

/// Behind what may be the type parameters of a function type with which type arguments begin: its parameters, else an operand,
/// since it was a shift and a comparison.
pub fn behind_function_type_arguments(kind: PartKind) -> Move
    ensures { result ≡ rows.behind_function_type_arguments kind }
{
    match kind {
        PartKind::Sign(Sign::LParen) => Move::To(State::Operand, Change::Push(FrameKind::Call)),
        _ => Move::Again(State::Operand, Change::DropCandidates),
    }
}

/// Behind `import` in an expression (ECMA-262, 13.3.10, 13.3.12).
pub fn import_expression(kind: PartKind) -> Move
    ensures { result ≡ rows.import_expression kind }
{
    match kind {
        PartKind::Sign(Sign::LParen) => Move::To(State::Operand, Change::Push(FrameKind::Call)),
        _ => Move::Again(State::After, Change::Nothing),
    }
}

/// Behind a dot (ECMA-262, 13.3.2).
pub fn behind_dot(kind: PartKind) -> Move
    ensures { result ≡ rows.behind_dot kind }
{
    match kind {
        PartKind::Name(_) | PartKind::Reserved(_) => Move::To(State::After, Change::Nothing),
        PartKind::Sign(Sign::Hash) => Move::To(State::Property, Change::Nothing),
        _ => Move::Again(State::After, Change::Nothing),
    }
}

/// Behind `?.` (ECMA-262, 13.3.9).
pub fn behind_optional_dot(kind: PartKind) -> Move
    ensures { result ≡ rows.behind_optional_dot kind }
{
    match kind {
        PartKind::Name(_) | PartKind::Reserved(_) => Move::To(State::After, Change::Nothing),
        PartKind::Sign(Sign::Hash) => Move::To(State::Property, Change::Nothing),
        _ => Move::Again(State::After, Change::Nothing),
    }
}

/// Behind the braces of an arrow function (ECMA-262, 15.3).
pub fn behind_arrow_body(kind: PartKind) -> Move
    ensures { result ≡ rows.behind_arrow_body kind }
{
    match kind {
        PartKind::Name(_) | PartKind::Reserved(_) => Move::Again(State::After, Change::Nothing),
        PartKind::Sign(
            Sign::Comma
            | Sign::Semi
            | Sign::Colon
            | Sign::RParen
            | Sign::RBracket
            | Sign::RBrace
            | Sign::QuestionMark
            | Sign::Gt
            | Sign::RShift
            | Sign::ZeroFillRShift
            | Sign::LBrace,
        ) => Move::Again(State::After, Change::Nothing),
        _ => Move::Fresh,
    }
}
