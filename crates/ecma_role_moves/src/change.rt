//! Changes of what encloses the place that is read.
ghost use Rattle.std.specs.Prelude.{◌≡◌, ◌+◌, ◌≤◌};
ghost use Rattle.ecma_role_table.specs.declared.frame.Kinds.TheVariants as kinds;
ghost use Rattle.ecma_role_moves.specs.Moves as moves;
ghost use Rattle.ecma_role_moves.specs.Nest as nests;

use crate::nest::Nest;
use ecma_role_table::frame::{Around, FrameKind, Kinds};
use ecma_role_table::moves::Change;

/// A function that is no generator.
fn function(is_async: bool) -> Around
    ensures { result ≡ nests.function is_async }
{
    Around {
        is_async,
        is_generator: false,
    }
}

/// The head of a function begins.
#[inline]
pub fn enter(nest: &mut Nest, kind: FrameKind, is_async: bool)
    requires { 1 ≤ nest.old.room }
    ensures nest { nest.new.nest ≡ moves.entered kind is_async nest.old.nest }
    ensures room { nest.old.room ≤ nest.new.room + 1 }
{
    nest.push(kind);
    nest.set_around(function(is_async));
}

/// The head of a method and its parameters begin.
fn begin_method(nest: &mut Nest)
    requires { 2 ≤ nest.old.room }
    ensures nest { nest.new.nest ≡ moves.method nest.old.nest }
    ensures room { nest.old.room ≤ nest.new.room + 2 }
{
    let method = nest.pending();
    nest.push(FrameKind::MethodHead);
    nest.set_around(method);
    nest.set_pending(function(false));
    nest.push(FrameKind::Parameters);
}

/// A static block begins.
fn begin_static(nest: &mut Nest)
    requires { 1 ≤ nest.old.room }
    ensures nest { nest.new.nest ≡ moves.static_block nest.old.nest }
    ensures room { nest.old.room ≤ nest.new.room + 1 }
{
    nest.push(FrameKind::Static);
    nest.set_around(function(true));
    nest.set_pending(function(false));
}

/// An object begins.
fn begin_object(nest: &mut Nest)
    requires { 1 ≤ nest.old.room }
    ensures nest { nest.new.nest ≡ moves.object nest.old.nest }
    ensures room { nest.old.room ≤ nest.new.room + 1 }
{
    nest.push(FrameKind::Object);
    nest.set_pending(function(false));
}

/// An arrow function begins.
#[inline]
pub fn begin_arrow(nest: &mut Nest, is_async: bool)
    requires { 1 ≤ nest.old.room }
    ensures nest { nest.new.nest ≡ moves.arrow is_async nest.old.nest }
    ensures room { nest.old.room ≤ nest.new.room + 1 }
{
    match nest.top() {
        Some(FrameKind::Arrow) => {}
        _ => nest.push(FrameKind::Arrow),
    }
    nest.set_around(function(is_async));
}

/// Parentheses with nothing before their end are parameters.
fn turn_parameters(nest: &mut Nest)
    ensures nest { nest.new.nest ≡ moves.parameters nest.old.nest }
    ensures room { nest.new.room ≡ nest.old.room }
{
    match nest.top() {
        Some(FrameKind::Paren) => nest.turn(FrameKind::ParenParameters),
        Some(FrameKind::AsyncParen) => nest.turn(FrameKind::AsyncParenParameters),
        _ => {}
    }
}

/// Parentheses end that can only be parameters: the marks in them go.
fn end_parameters(nest: &mut Nest)
    ensures nest { nest.new.nest ≡ moves.parameters (nests.dropped kinds.Marks nest.old.nest) }
    ensures room { nest.old.room ≤ nest.new.room }
{
    nest.drop_all(Kinds::Marks);
    turn_parameters(nest);
}

/// The function around is a generator.
fn gain_generator(nest: &mut Nest)
    ensures nest { nest.new.nest ≡ nests.within (nests.gains_generator nest.old.nest.around) nest.old.nest }
    ensures room { nest.new.room ≡ nest.old.room }
{
    let is_async = nest.around().is_async;
    nest.set_around(Around {
        is_async,
        is_generator: true,
    });
}

/// The method whose name is read is async, or not.
fn pend_async(nest: &mut Nest, is_async: bool)
    ensures nest { nest.new.nest ≡ nests.pending (record { is_async = is_async; is_generator = nest.old.nest.pending.is_generator }) nest.old.nest }
    ensures room { nest.new.room ≡ nest.old.room }
{
    let is_generator = nest.pending().is_generator;
    nest.set_pending(Around {
        is_async,
        is_generator,
    });
}

/// The method whose name is read is a generator.
fn pend_generator(nest: &mut Nest)
    ensures nest { nest.new.nest ≡ nests.pending (nests.gains_generator nest.old.nest.pending) nest.old.nest }
    ensures room { nest.new.room ≡ nest.old.room }
{
    let is_async = nest.pending().is_async;
    nest.set_pending(Around {
        is_async,
        is_generator: true,
    });
}

/// Changes what encloses the place, by two frames more at most.
#[tactic(auto, unfolding(crate::specs::Moves::changed))]
pub(crate) fn apply(nest: &mut Nest, change: Change)
    requires { 2 ≤ nest.old.room }
    ensures nest { nest.new.nest ≡ moves.changed change nest.old.nest }
    ensures room { nest.old.room ≤ nest.new.room + 2 }
{
    match change {
        Change::Nothing => {}
        Change::Push(kind) => nest.push(kind),
        Change::PushTwo(outer, inner) => {
            nest.push(outer);
            nest.push(inner);
        }
        Change::Enter(kind, is_async) => enter(nest, kind, is_async),
        Change::Pop => nest.pop(),
        Change::Turn(kind) => nest.turn(kind),
        Change::Method => begin_method(nest),
        Change::Static => begin_static(nest),
        Change::Object => begin_object(nest),
        Change::Arrow(is_async) => begin_arrow(nest, is_async),
        Change::Parameters => end_parameters(nest),
        Change::DropCandidates => nest.drop_all(Kinds::Candidates),
        Change::DropCandidatesClear => {
            nest.set_pending(function(false));
            nest.drop_all(Kinds::Candidates);
        }
        Change::ClearPending => nest.set_pending(function(false)),
        Change::PendAsync => pend_async(nest, true),
        Change::PendGenerator => pend_generator(nest),
        Change::PendNameAsync => nest.set_pending(function(true)),
        Change::LoseAsync => pend_async(nest, false),
        Change::Generator => gain_generator(nest),
        Change::ModuleCode => nest.begin_module(),
        Change::ImportEnds => {
            nest.pop();
            nest.begin_module();
        }
    }
}
