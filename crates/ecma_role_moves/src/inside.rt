//! States by the frame that is right around.
ghost use Rattle.std.specs.Prelude.{◌≡◌};
ghost use Rattle.ecma_role_moves.specs.Moves as moves;

use ecma_role_table::frame::FrameKind;
use ecma_role_table::state::State;

/// Behind the brackets of a head, or behind the key of a member.
pub(crate) fn back_of(over: Option<FrameKind>) -> State
    ensures { result ≡ moves.back_of over }
{
    match over {
        Some(FrameKind::Class | FrameKind::ClassExpression) => State::Member,
        Some(FrameKind::Object | FrameKind::Enum) => State::Key,
        Some(FrameKind::FunctionHead | FrameKind::FunctionExpressionHead | FrameKind::MethodHead) =>
            State::Head,
        Some(FrameKind::ClassHead | FrameKind::ClassExpressionHead) => State::ClassHead,
        Some(FrameKind::AliasHead) => State::AliasHead,
        Some(FrameKind::InterfaceHead) => State::InterfaceHead,
        Some(FrameKind::ImportHead) => State::Import,
        Some(FrameKind::ExportHead) => State::ExportEnd,
        Some(
            FrameKind::StatementDecorator
            | FrameKind::MemberDecorator
            | FrameKind::OperandDecorator,
        ) => State::AfterDecorator,
        _ => State::After,
    }
}

/// Where something new may begin.
pub(crate) fn fresh_of(over: Option<FrameKind>) -> State
    ensures { result ≡ moves.fresh_of over }
{
    match over {
        None => State::Statement,
        Some(
            FrameKind::Block
            | FrameKind::Function
            | FrameKind::FunctionExpression
            | FrameKind::Method
            | FrameKind::ArrowBody
            | FrameKind::Static,
        ) => State::Statement,
        Some(FrameKind::Class | FrameKind::ClassExpression) => State::Member,
        Some(FrameKind::Object | FrameKind::Enum) => State::Key,
        _ => State::Operand,
    }
}

/// Whether the place is in the brackets of a type.
pub(crate) fn in_type(over: Option<FrameKind>) -> bool
    ensures { result ≡ moves.in_type over }
{
    matches!(
        over,
        Some(
            FrameKind::InnerParen
                | FrameKind::InnerBracket
                | FrameKind::InnerBrace
                | FrameKind::InnerAngle
                | FrameKind::InnerTemplate
                | FrameKind::OuterParen
                | FrameKind::OuterPattern
                | FrameKind::OuterParameters
                | FrameKind::OuterBracket
                | FrameKind::OuterBrace
                | FrameKind::OuterAngle
                | FrameKind::OuterTemplate
                | FrameKind::ParametersAngle
                | FrameKind::OperandAngle
                | FrameKind::HeadAngle
                | FrameKind::ArgumentsAngle
                | FrameKind::AsyncAngle
                | FrameKind::Interface
        )
    )
}

/// Behind the braces of an import or export.
pub(crate) fn behind_clause(over: Option<FrameKind>) -> State
    ensures { result ≡ moves.behind_clause over }
{
    match over {
        Some(FrameKind::ImportHead) => State::Import,
        Some(FrameKind::ExportHead) => State::ExportEnd,
        _ => State::Statement,
    }
}

/// Whether the place is in an object or enumeration.
pub(crate) fn is_object(over: Option<FrameKind>) -> bool
    ensures { result ≡ moves.is_object over }
{
    matches!(over, Some(FrameKind::Object | FrameKind::Enum))
}

/// Behind a comma.
pub(crate) fn behind_comma(over: Option<FrameKind>) -> State
    ensures { result ≡ moves.behind_comma over }
{
    match over {
        Some(FrameKind::Declaration) => State::Binding,
        Some(FrameKind::Object | FrameKind::Enum) => State::Key,
        Some(FrameKind::ClassHead | FrameKind::ClassExpressionHead) => State::ClassHead,
        Some(FrameKind::AsyncCandidate) => State::TypeParameter,
        _ => State::Operand,
    }
}

/// Whether a colon is waited for.
pub(crate) fn is_waiting(over: Option<FrameKind>) -> bool
    ensures { result ≡ moves.is_waiting over }
{
    matches!(over, Some(FrameKind::Conditional | FrameKind::Case))
}

/// Behind what may be type arguments.
pub(crate) fn behind_candidate(over: Option<FrameKind>) -> State
    ensures { result ≡ moves.behind_candidate over }
{
    match over {
        Some(FrameKind::AsyncCandidate) => State::AsyncTypeArguments,
        Some(FrameKind::ParametersCandidate) => State::FunctionTypeArguments,
        _ => State::TypeArguments,
    }
}

/// What body a head has.
pub(crate) fn body_of(over: Option<FrameKind>) -> FrameKind
    ensures { result ≡ moves.body_of over }
{
    match over {
        Some(FrameKind::FunctionHead) => FrameKind::Function,
        Some(FrameKind::FunctionExpressionHead) => FrameKind::FunctionExpression,
        _ => FrameKind::Method,
    }
}

/// What body the head of a class has.
pub(crate) fn class_body_of(over: Option<FrameKind>) -> FrameKind
    ensures { result ≡ moves.class_body_of over }
{
    match over {
        Some(FrameKind::ClassHead) => FrameKind::Class,
        _ => FrameKind::ClassExpression,
    }
}

/// Behind a method with no body.
pub(crate) fn behind_method(over: Option<FrameKind>) -> State
    ensures { result ≡ moves.behind_method over }
{
    match over {
        Some(FrameKind::Class | FrameKind::ClassExpression) => State::Member,
        Some(FrameKind::Object | FrameKind::Enum) => State::Key,
        _ => State::After,
    }
}

/// Behind the head of a class with no body.
pub(crate) fn behind_no_class(over: Option<FrameKind>) -> State
    ensures { result ≡ moves.behind_no_class over }
{
    match over {
        Some(FrameKind::ClassHead) => State::Statement,
        _ => State::After,
    }
}

/// What a decorator stands before.
pub(crate) fn decorated_of(over: Option<FrameKind>) -> State
    ensures { result ≡ moves.decorated_of over }
{
    match over {
        Some(FrameKind::StatementDecorator) => State::Statement,
        Some(FrameKind::MemberDecorator) => State::Member,
        _ => State::Operand,
    }
}

/// Behind the type of a name, a parameter or a member, or of what a function returns.
pub(crate) fn behind_annotation(over: Option<FrameKind>) -> State
    ensures { result ≡ moves.behind_annotation over }
{
    match over {
        Some(FrameKind::Declaration) => State::AfterBinding,
        Some(FrameKind::Class | FrameKind::ClassExpression) => State::Member,
        Some(FrameKind::FunctionHead | FrameKind::FunctionExpressionHead | FrameKind::MethodHead) =>
            State::HeadEnd,
        _ => State::After,
    }
}

/// Behind `${`.
pub(crate) fn substitution_in(over: Option<FrameKind>) -> State
    ensures { result ≡ moves.substitution_in over }
{
    match over {
        Some(FrameKind::InnerTemplate | FrameKind::OuterTemplate) => State::TypeBrackets,
        _ => State::Operand,
    }
}

/// Behind a decorator's parentheses what it decorates comes; behind others this state.
pub(crate) fn decorating(over: Option<FrameKind>, other: State) -> State
    ensures { result ≡ moves.decorating over other }
{
    match over {
        Some(
            FrameKind::StatementDecorator
            | FrameKind::MemberDecorator
            | FrameKind::OperandDecorator,
        ) => State::AfterDecorator,
        _ => other,
    }
}

/// Behind a right brace, by what it closes and what is around that.
pub(crate) fn behind_brace(kind: FrameKind, over: Option<FrameKind>) -> State
    ensures { result ≡ moves.behind_brace kind over }
{
    match kind {
        FrameKind::FunctionExpression | FrameKind::ClassExpression | FrameKind::Object => {
            State::After
        }
        FrameKind::Method => back_of(over),
        FrameKind::Static => State::Member,
        FrameKind::ArrowBody => State::ArrowEnd,
        FrameKind::Clause => behind_clause(over),
        FrameKind::InnerBrace => State::TypeBrackets,
        FrameKind::OuterBrace => State::TypeEnd,
        _ => State::Statement,
    }
}

/// Behind the head of a function with no body, by the head and what is around it.
pub(crate) fn behind_no_body(head: Option<FrameKind>, over: Option<FrameKind>) -> State
    ensures { result ≡ moves.behind_no_body head over }
{
    match head {
        Some(FrameKind::FunctionHead) => State::Statement,
        Some(FrameKind::FunctionExpressionHead) => State::After,
        _ => behind_method(over),
    }
}

/// Where a type ends, by its mark and what is around that.
pub(crate) fn behind_ended_type(mark: Option<FrameKind>, over: Option<FrameKind>) -> State
    ensures { result ≡ moves.behind_ended_type mark over }
{
    match mark {
        Some(FrameKind::Assertion) => State::AfterPostfix,
        Some(FrameKind::AliasType) => State::Statement,
        Some(FrameKind::ReturnType) => State::Group,
        Some(FrameKind::AsyncReturnType) => State::AsyncGroup,
        _ => behind_annotation(over),
    }
}
