//! Types, of which only brackets and ends matter.
ghost use Rattle.std.specs.Prelude.{◌≡◌};
ghost use Rattle.ecma_role_table.specs.declared.part.PartKind.TheVariants as parts;
ghost use Rattle.ecma_role_table.specs.Types as rows;

use crate::frame::{FrameKind, over_type_conditional, over_type_extends};
use crate::moves::{Angles, Change, Move};
use crate::part::{Name, PartKind, Reserved, Sign};
use crate::state::State;

/// A sign where a type is expected.
fn type_sign(sign: Sign) -> Move
    ensures { result ≡ rows.type_operand (parts.Sign sign) }
{
    match sign {
        Sign::LParen => Move::To(State::TypeParen, Change::Push(FrameKind::OuterParen)),
        Sign::LBracket => Move::To(State::TypeBrackets, Change::Push(FrameKind::OuterBracket)),
        Sign::LBrace => Move::To(State::TypeBrackets, Change::Push(FrameKind::OuterBrace)),
        Sign::BackQuote => Move::To(State::Quasi, Change::Push(FrameKind::OuterTemplate)),
        Sign::Lt => Move::To(
            State::TypeBrackets,
            Change::Push(FrameKind::ParametersAngle),
        ),
        Sign::Literal => Move::To(State::TypeEnd, Change::Nothing),
        Sign::BitOr | Sign::BitAnd | Sign::DotDotDot | Sign::Minus | Sign::Dot | Sign::Hash =>
            Move::To(State::TypeOperand, Change::Nothing),
        _ => Move::EndType,
    }
}

/// A type is expected.
pub fn type_operand(kind: PartKind) -> Move
    ensures { result ≡ rows.type_operand kind }
{
    match kind {
        PartKind::Sign(sign) => type_sign(sign),
        PartKind::Name(Name::Asserts) => Move::To(State::Asserts, Change::Nothing),
        PartKind::Name(Name::TypeOperator) => Move::To(State::TypeOperand, Change::Nothing),
        PartKind::Reserved(Reserved::Typeof | Reserved::New | Reserved::Import) => {
            Move::To(State::TypeOperand, Change::Nothing)
        }
        PartKind::Name(Name::PredefinedType) => Move::To(State::TypeEnd, Change::Nothing),
        PartKind::Reserved(Reserved::Void | Reserved::This | Reserved::Constant) => {
            Move::To(State::TypeEnd, Change::Nothing)
        }
        PartKind::Name(_) | PartKind::Reserved(_) => Move::To(State::TypeName, Change::Nothing),
    }
}

/// A type is complete.
pub fn behind_type(kind: PartKind, had_line_break: bool, top: Option<FrameKind>) -> Move
    ensures { result ≡ rows.behind_type kind had_line_break top }
{
    match kind {
        PartKind::Sign(Sign::BitOr | Sign::BitAnd) => Move::To(State::TypeOperand, Change::Nothing),
        PartKind::Sign(Sign::Dot) => Move::To(State::TypeProperty, Change::Nothing),
        PartKind::Sign(Sign::QuestionMark) if over_type_extends(top) => {
            Move::To(State::TypeOperand, Change::Turn(FrameKind::TypeConditional))
        }
        PartKind::Sign(Sign::Colon) if over_type_conditional(top) => {
            Move::To(State::TypeOperand, Change::Pop)
        }
        _ if had_line_break => Move::EndType,
        PartKind::Sign(Sign::LBracket) => {
            Move::To(State::TypeBrackets, Change::Push(FrameKind::OuterBracket))
        }
        PartKind::Reserved(Reserved::Extends) => {
            Move::To(State::TypeOperand, Change::Push(FrameKind::TypeExtends))
        }
        PartKind::Reserved(Reserved::New) | PartKind::Name(Name::Is) => {
            Move::To(State::TypeOperand, Change::Nothing)
        }
        _ => Move::EndType,
    }
}

/// A type is complete that is a name, which may have type arguments.
pub fn behind_type_name(kind: PartKind, had_line_break: bool, top: Option<FrameKind>) -> Move
    ensures { result ≡ rows.behind_type_name kind had_line_break top }
{
    match kind {
        PartKind::Sign(Sign::Lt) => {
            if had_line_break {
                Move::EndType
            } else {
                Move::To(State::TypeBrackets, Change::Push(FrameKind::OuterAngle))
            }
        }
        PartKind::Sign(Sign::LShift) => {
            if had_line_break {
                Move::EndType
            } else {
                Move::To(
                    State::TypeBrackets,
                    Change::PushTwo(FrameKind::OuterAngle, FrameKind::InnerAngle),
                )
            }
        }
        _ => behind_type(kind, had_line_break, top),
    }
}

/// A type is complete, or the parameters of a function type are.
pub fn behind_type_parameters(kind: PartKind, had_line_break: bool, top: Option<FrameKind>) -> Move
    ensures { result ≡ rows.behind_type_parameters kind had_line_break top }
{
    match kind {
        PartKind::Sign(Sign::Arrow) => Move::To(State::TypeOperand, Change::Nothing),
        _ => behind_type(kind, had_line_break, top),
    }
}

/// Behind `asserts` in a type.
pub fn behind_asserts(kind: PartKind, had_line_break: bool) -> Move
    ensures { result ≡ rows.behind_asserts kind had_line_break }
{
    match kind {
        PartKind::Reserved(Reserved::This) => Move::To(State::TypeName, Change::Nothing),
        PartKind::Name(Name::Is) => Move::Again(State::TypeName, Change::Nothing),
        PartKind::Name(_) => {
            if had_line_break {
                Move::Again(State::TypeName, Change::Nothing)
            } else {
                Move::To(State::TypeName, Change::Nothing)
            }
        }
        _ => Move::Again(State::TypeName, Change::Nothing),
    }
}

/// Behind a dot in a type.
pub fn behind_type_dot(kind: PartKind) -> Move
    ensures { result ≡ rows.behind_type_dot kind }
{
    match kind {
        PartKind::Name(_) | PartKind::Reserved(_) => Move::To(State::TypeName, Change::Nothing),
        PartKind::Sign(Sign::Hash) => Move::To(State::TypeProperty, Change::Nothing),
        _ => Move::Again(State::TypeName, Change::Nothing),
    }
}

/// A parenthesis of a type begins: a group or parameters.
pub fn in_type_paren(kind: PartKind) -> Move
    ensures { result ≡ rows.in_type_paren kind }
{
    match kind {
        PartKind::Name(_) => Move::To(State::TypeParenName, Change::Nothing),
        PartKind::Reserved(Reserved::This) => Move::To(State::TypeParenName, Change::Nothing),
        PartKind::Sign(Sign::RParen | Sign::DotDotDot) => Move::Again(
            State::TypeBrackets,
            Change::Turn(FrameKind::OuterParameters),
        ),
        PartKind::Sign(Sign::LBrace | Sign::LBracket) => Move::Again(
            State::TypeBrackets,
            Change::Turn(FrameKind::OuterPattern),
        ),
        _ => Move::Again(State::TypeBrackets, Change::Nothing),
    }
}

/// Behind a name there.
pub fn behind_type_paren_name(kind: PartKind) -> Move
    ensures { result ≡ rows.behind_type_paren_name kind }
{
    match kind {
        PartKind::Sign(
            Sign::Colon | Sign::Comma | Sign::QuestionMark | Sign::Assign | Sign::RParen,
        ) => Move::Again(
            State::TypeBrackets,
            Change::Turn(FrameKind::OuterParameters),
        ),
        _ => Move::Again(State::TypeBrackets, Change::Nothing),
    }
}

/// A sign in the brackets of a type.
fn sign_in_type_brackets(sign: Sign) -> Move
    ensures { result ≡ rows.in_type_brackets (parts.Sign sign) }
{
    match sign {
        Sign::LParen => Move::To(State::TypeBrackets, Change::Push(FrameKind::InnerParen)),
        Sign::LBracket => Move::To(State::TypeBrackets, Change::Push(FrameKind::InnerBracket)),
        Sign::LBrace => Move::To(State::TypeBrackets, Change::Push(FrameKind::InnerBrace)),
        Sign::Lt => Move::To(State::TypeBrackets, Change::Push(FrameKind::InnerAngle)),
        Sign::LShift => Move::To(
            State::TypeBrackets,
            Change::PushTwo(FrameKind::InnerAngle, FrameKind::InnerAngle),
        ),
        Sign::BackQuote => Move::To(State::Quasi, Change::Push(FrameKind::InnerTemplate)),
        Sign::RParen => Move::Paren,
        Sign::RBracket => Move::Bracket,
        Sign::RBrace => Move::Brace,
        Sign::Gt => Move::TypeGreater(Angles::One, false),
        Sign::RShift => Move::TypeGreater(Angles::Two, false),
        Sign::ZeroFillRShift => Move::TypeGreater(Angles::Three, false),
        Sign::GtEq => Move::TypeGreater(Angles::One, true),
        Sign::RShiftEq => Move::TypeGreater(Angles::Two, true),
        Sign::ZeroFillRShiftEq => Move::TypeGreater(Angles::Three, true),
        _ => Move::To(State::TypeBrackets, Change::Nothing),
    }
}

/// In the brackets of a type, of which only the brackets matter.
pub fn in_type_brackets(kind: PartKind) -> Move
    ensures { result ≡ rows.in_type_brackets kind }
{
    match kind {
        PartKind::Sign(sign) => sign_in_type_brackets(sign),
        _ => Move::To(State::TypeBrackets, Change::Nothing),
    }
}
