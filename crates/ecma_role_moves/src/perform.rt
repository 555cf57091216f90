//! What a row says to do, done.
ghost use Rattle.std.specs.Prelude.{◌≡◌, ◌+◌, ◌≤◌};
ghost use Rattle.ecma_role_moves.specs.Moves as moves;
ghost use Rattle.ecma_role_moves.specs.Moves.{turned_to};
ghost use Rattle.ecma_role_moves.specs.Nest as nests;

use crate::change::apply;
use crate::closing::{
    begin_body, begin_class_body, clear_pending, close_angles, close_brace, close_bracket,
    close_candidates, close_paren, end_class_head, end_decorator, end_head, end_statement,
    end_template, end_type, fresh, pass_colon, pass_comma,
};
use crate::inside::substitution_in;
use crate::nest::Nest;
use ecma_role_table::moves::{Angles, Move, Turn};
use ecma_role_table::part::{PartKind, Sign};
use ecma_role_table::state::State;

/// An operand in place of a member or a key.
fn operand_for_member(state: State) -> State
    ensures { result ≡ moves.operand_for_member state }
{
    match state {
        State::Member | State::Key => State::Operand,
        other => other,
    }
}

/// An operand in place of a key.
fn operand_for_key(state: State) -> State
    ensures { result ≡ moves.operand_for_key state }
{
    match state {
        State::Key => State::Operand,
        other => other,
    }
}

/// A word that begins statements and nothing else.
fn begin_word(nest: &mut Nest, kind: PartKind) -> Turn
    ensures nest { turned_to result nest.new.nest ≡ moves.fresh_word kind nest.old.nest }
    ensures room { nest.old.room ≤ nest.new.room }
{
    match fresh(nest) {
        State::Operand => Turn::Done(State::Operand),
        other => Turn::Again(other, kind),
    }
}

/// Right angle brackets in a type, with or without `=` behind them.
fn close_type_angles(nest: &mut Nest, angles: Angles, has_equals: bool) -> Turn
    ensures nest { turned_to result nest.new.nest ≡ moves.type_greater angles has_equals nest.old.nest }
    ensures room { nest.old.room ≤ nest.new.room }
{
    let state = close_angles(nest, angles);
    if !has_equals {
        return Turn::Done(state);
    }
    match state {
        State::TypeBrackets => Turn::Done(State::TypeBrackets),
        other => Turn::Again(other, PartKind::Sign(Sign::Assign)),
    }
}

/// A right brace; no method's name is read behind it.
fn end_brace(nest: &mut Nest) -> State
    ensures nest { moves.landed result nest.new.nest ≡ moves.brace (nests.pending nests.no_function nest.old.nest) }
    ensures room { nest.old.room ≤ nest.new.room }
{
    clear_pending(nest);
    close_brace(nest)
}

/// Does what a row says with a token of this kind, by two frames more at most.
#[tactic(auto, unfolding(crate::specs::Moves::moved))]
pub fn perform(nest: &mut Nest, next: Move, kind: PartKind) -> Turn
    requires { 2 ≤ nest.old.room }
    ensures nest { turned_to result nest.new.nest ≡ moves.moved next kind nest.old.nest }
    ensures room { nest.old.room ≤ nest.new.room + 2 }
{
    match next {
        Move::To(state, change) => {
            apply(nest, change);
            Turn::Done(state)
        }
        Move::Again(state, change) => {
            apply(nest, change);
            Turn::Again(state, kind)
        }
        Move::Fresh => Turn::Again(fresh(nest), kind),
        Move::FreshOperand => Turn::Again(operand_for_member(fresh(nest)), kind),
        Move::FreshBrace => Turn::Again(operand_for_key(fresh(nest)), kind),
        Move::FreshWord => begin_word(nest, kind),
        Move::Brace => Turn::Done(end_brace(nest)),
        Move::Paren => Turn::Done(close_paren(nest)),
        Move::Bracket => Turn::Done(close_bracket(nest)),
        Move::Semi => Turn::Done(end_statement(nest)),
        Move::Comma => Turn::Done(pass_comma(nest)),
        Move::Colon(grouping) => Turn::Done(pass_colon(nest, grouping)),
        Move::Greater(angles) => Turn::Done(close_candidates(nest, angles)),
        Move::TypeGreater(angles, has_equals) => close_type_angles(nest, angles, has_equals),
        Move::Body => Turn::Done(begin_body(nest)),
        Move::ClassBody => Turn::Done(begin_class_body(nest)),
        Move::NoBody => Turn::Again(end_head(nest), kind),
        Move::NoClassBody => Turn::Again(end_class_head(nest), kind),
        Move::NoDecorator => Turn::Again(end_decorator(nest), kind),
        Move::EndType => Turn::Again(end_type(nest), kind),
        Move::Substitution => Turn::Done(substitution_in(nest.top())),
        Move::EndTemplate => Turn::Done(end_template(nest)),
    }
}
