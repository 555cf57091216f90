//! Where a slash begins a regular expression.
ghost use Rattle.std.specs.Prelude.{◌≡◌};
ghost use Rattle.ecma_role_tracks.specs.Slashes as slashes;

use ecma_role_moves::nest::Nest;
use ecma_role_table::frame::{FrameKind, Kinds};
use ecma_role_table::state::State;

/// Whether a statement has to begin behind a type of something declared.
fn annotates_statement(over: Option<FrameKind>) -> bool
    ensures { result ≡ slashes.annotates_statement over }
{
    matches!(over, Some(FrameKind::Declaration | FrameKind::FunctionHead))
}

/// Whether a statement has to begin behind a type with this mark, and this around it.
fn type_ends_statement(mark: Option<FrameKind>, over: Option<FrameKind>) -> bool
    ensures { result ≡ slashes.type_ends_statement mark over }
{
    match mark {
        Some(FrameKind::AliasType) => true,
        Some(FrameKind::Annotation) => annotates_statement(over),
        _ => false,
    }
}

/// Whether a statement has to begin where the type that is read ends.
fn begins_behind_type(nest: &Nest) -> bool
    ensures { result ≡ slashes.behind_type nest.now.nest }
{
    let (mark, over) = nest.outside(Kinds::TypeConditions);
    type_ends_statement(mark, over)
}

/// Whether a head, a member, a key, a template or what is in the brackets of a type is read, where no operand begins.
fn takes_none(state: State) -> bool
    ensures { result ≡ slashes.takes_none state }
{
    matches!(
        state,
        State::Label
            | State::MaybeLet
            | State::MaybeType
            | State::MaybeInterface
            | State::ImportStart
            | State::Member
            | State::MemberAsync
            | State::Key
            | State::KeyAsync
            | State::KeyCommaName
            | State::KeyCommaParameter
            | State::AfterDecorator
            | State::Quasi
            | State::TypeParen
            | State::TypeParenName
            | State::TypeBrackets
    )
}

/// Whether an operand is complete, whatever encloses the place.
fn completes(state: State) -> bool
    ensures { result ≡ slashes.completes state }
{
    matches!(
        state,
        State::After
            | State::AfterPostfix
            | State::Group
            | State::GroupParameters
            | State::AsyncGroup
            | State::AsyncGroupParameters
            | State::Async
            | State::AsyncStatement
            | State::AsyncAs
            | State::AsyncParameter
            | State::ImportExpression
            | State::Property
            | State::OptionalProperty
    )
}

/// Whether a type is read that may end.
fn may_end_type(state: State) -> bool
    ensures { result ≡ slashes.may_end_type state }
{
    matches!(
        state,
        State::TypeOperand
            | State::TypeName
            | State::TypeEnd
            | State::TypeParameters
            | State::Asserts
            | State::TypeProperty
    )
}

/// Whether a slash begins a regular expression where that is so but for two states.
fn expects_otherwise(nest: &Nest, state: State, is_assign: bool) -> bool
    ensures { result ≡ slashes.expects_otherwise state nest.now.nest is_assign }
{
    match state {
        State::TypeArguments => is_assign,
        State::HeadEnd => matches!(nest.top(), Some(FrameKind::FunctionHead)),
        _ => true,
    }
}

/// Whether a slash, with or without `=` behind it, begins a regular expression in this state.
pub(crate) fn expects_operand(nest: &Nest, state: State, is_assign: bool) -> bool
    ensures { result ≡ slashes.expects_in state nest.now.nest is_assign }
{
    if takes_none(state) || completes(state) {
        return false;
    }
    if may_end_type(state) {
        return begins_behind_type(nest);
    }
    expects_otherwise(nest, state, is_assign)
}
