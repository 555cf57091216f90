//! Brackets that close, and what else ends by what encloses the place.
ghost use Rattle.std.specs.Prelude.{◌≡◌, ◌+◌, ◌<◌, ◌≤◌, IfSome};
ghost use Rattle.ecma_role_table.specs.declared.frame.FrameKind.TheVariants as frame;
ghost use Rattle.ecma_role_moves.specs.Nest as nests;
ghost use Rattle.ecma_role_moves.specs.Moves as moves;
ghost use Rattle.ecma_role_moves.specs.Moves.{landed};

use crate::inside::{
    back_of, behind_brace, behind_candidate, behind_comma, behind_ended_type, behind_no_body,
    behind_no_class, body_of, class_body_of, decorated_of, decorating, fresh_of, in_type,
    is_object, is_waiting,
};
use crate::nest::Nest;
use ecma_role_table::frame::{Around, FrameKind, Kinds, over_candidate, over_parameters_candidate};
use ecma_role_table::moves::{Angles, Grouping};
use ecma_role_table::state::State;

/// No method's name is read.
pub(crate) fn clear_pending(nest: &mut Nest)
    ensures nest { nest.new.nest ≡ nests.pending nests.no_function nest.old.nest }
    ensures room { nest.new.room ≡ nest.old.room }
{
    nest.set_pending(Around {
        is_async: false,
        is_generator: false,
    });
}

/// The innermost frame goes, and this is the state behind it.
fn pop_to(nest: &mut Nest, state: State) -> State
    ensures nest { landed result nest.new.nest ≡ landed state (nests.popped nest.old.nest) }
    ensures room { nest.old.room ≤ nest.new.room }
{
    nest.pop();
    state
}

/// Where something new may begin, the marks on top go.
pub(crate) fn fresh(nest: &mut Nest) -> State
    ensures nest { landed result nest.new.nest ≡ moves.fresh nest.old.nest }
    ensures room { nest.old.room ≤ nest.new.room }
{
    nest.drop_all(Kinds::Marks);
    fresh_of(nest.top())
}

/// The innermost frame, a brace, is closed; a substitution goes back to its template.
fn close_top_brace(nest: &mut Nest, kind: FrameKind) -> State
    ensures nest { landed result nest.new.nest ≡ moves.brace_of kind nest.old.nest }
    ensures room { nest.old.room ≤ nest.new.room }
{
    if kind.is_template() {
        return State::Quasi;
    }
    nest.pop();
    behind_brace(kind, nest.top())
}

/// A right brace closes the nearest brace.
pub(crate) fn close_brace(nest: &mut Nest) -> State
    ensures nest { landed result nest.new.nest ≡ moves.brace nest.old.nest }
    ensures room { nest.old.room ≤ nest.new.room }
{
    nest.drop_all(Kinds::InsideBraces);
    match nest.top() {
        None => State::Statement,
        Some(kind) => close_top_brace(nest, kind),
    }
}

/// What closes nothing is passed over.
fn unclosed(nest: &Nest) -> State
    ensures { landed result nest.now.nest ≡ moves.unclosed nest.now.nest }
{
    if in_type(nest.top()) {
        State::TypeBrackets
    } else {
        State::After
    }
}

/// The innermost frame goes; behind it an operand is complete, or what decorates.
fn pop_decorating(nest: &mut Nest, state: State) -> State
    ensures nest { landed result nest.new.nest ≡ landed (moves.decorating (nests.top (nests.popped nest.old.nest)) state) (nests.popped nest.old.nest) }
    ensures room { nest.old.room ≤ nest.new.room }
{
    nest.pop();
    decorating(nest.top(), state)
}

/// Behind parentheses of a type that look like a pattern: they are parameters, but a group where the type of what an arrow function
/// returns ends, since its arrow follows.
fn pattern_end(top: Option<FrameKind>) -> State
    ensures { result ≡ moves.pattern_end top }
{
    match top {
        Some(FrameKind::ReturnType | FrameKind::AsyncReturnType) => State::TypeEnd,
        _ => State::TypeParameters,
    }
}

/// The innermost frame goes, parentheses of a type that look like a pattern.
fn pop_pattern(nest: &mut Nest) -> State
    ensures nest { landed result nest.new.nest ≡ landed (moves.pattern_end (nests.top (nests.popped nest.old.nest))) (nests.popped nest.old.nest) }
    ensures room { nest.old.room ≤ nest.new.room }
{
    nest.pop();
    pattern_end(nest.top())
}

/// The innermost frame is a parenthesis that is closed, or none is.
fn close_top_paren(nest: &mut Nest) -> State
    ensures nest { landed result nest.new.nest ≡ moves.paren_over (nests.top nest.old.nest) nest.old.nest }
    ensures room { nest.old.room ≤ nest.new.room }
{
    match nest.top() {
        Some(FrameKind::Paren) => pop_decorating(nest, State::Group),
        Some(FrameKind::ParenParameters) => pop_to(nest, State::GroupParameters),
        Some(FrameKind::AsyncParen) => pop_to(nest, State::AsyncGroup),
        Some(FrameKind::AsyncParenParameters) => pop_to(nest, State::AsyncGroupParameters),
        Some(FrameKind::Call) => pop_decorating(nest, State::After),
        Some(FrameKind::Parameters) => pop_to(nest, State::HeadEnd),
        Some(FrameKind::Control | FrameKind::For) => pop_to(nest, State::Statement),
        Some(FrameKind::InnerParen) => pop_to(nest, State::TypeBrackets),
        Some(FrameKind::OuterParen) => pop_to(nest, State::TypeEnd),
        Some(FrameKind::OuterPattern) => pop_pattern(nest),
        Some(FrameKind::OuterParameters) => pop_to(nest, State::TypeParameters),
        _ => unclosed(nest),
    }
}

/// A right parenthesis.
pub(crate) fn close_paren(nest: &mut Nest) -> State
    ensures nest { landed result nest.new.nest ≡ moves.paren nest.old.nest }
    ensures room { nest.old.room ≤ nest.new.room }
{
    nest.drop_all(Kinds::MarksAndAngles);
    close_top_paren(nest)
}

/// The innermost frame goes; this is behind the brackets of a head or the key of a member.
fn pop_back(nest: &mut Nest) -> State
    ensures nest { landed result nest.new.nest ≡ landed (moves.back_of (nests.top (nests.popped nest.old.nest))) (nests.popped nest.old.nest) }
    ensures room { nest.old.room ≤ nest.new.room }
{
    nest.pop();
    back_of(nest.top())
}

/// The innermost frame is a bracket that is closed, or none is.
fn close_top_bracket(nest: &mut Nest) -> State
    ensures nest { landed result nest.new.nest ≡ moves.bracket_over (nests.top nest.old.nest) nest.old.nest }
    ensures room { nest.old.room ≤ nest.new.room }
{
    match nest.top() {
        Some(FrameKind::Bracket) => pop_to(nest, State::After),
        Some(FrameKind::Computed) => pop_back(nest),
        Some(FrameKind::InnerBracket) => pop_to(nest, State::TypeBrackets),
        Some(FrameKind::OuterBracket) => pop_to(nest, State::TypeEnd),
        _ => unclosed(nest),
    }
}

/// A right bracket.
pub(crate) fn close_bracket(nest: &mut Nest) -> State
    ensures nest { landed result nest.new.nest ≡ moves.bracket nest.old.nest }
    ensures room { nest.old.room ≤ nest.new.room }
{
    nest.drop_all(Kinds::MarksAndAngles);
    close_top_bracket(nest)
}

/// A semicolon.
pub(crate) fn end_statement(nest: &mut Nest) -> State
    ensures nest { landed result nest.new.nest ≡ moves.semi nest.old.nest }
    ensures room { nest.old.room ≤ nest.new.room }
{
    match fresh(nest) {
        State::Member => {
            clear_pending(nest);
            State::Member
        }
        State::Operand => {
            if in_type(nest.top()) {
                State::TypeBrackets
            } else {
                State::Operand
            }
        }
        other => other,
    }
}

/// Whether `<` that may have begun type arguments stands in an object.
fn candidate_in_object(nest: &Nest) -> bool
    ensures { result ≡ moves.candidate_in_object nest.now.nest }
{
    over_candidate(nest.top())
        && (is_object(nest.under())
            || (over_candidate(nest.under())
                && (is_object(nest.kind_at(2))
                    || (over_candidate(nest.kind_at(2)) && is_object(nest.kind_at(3))))))
}

/// A comma.
pub(crate) fn pass_comma(nest: &mut Nest) -> State
    ensures nest { landed result nest.new.nest ≡ moves.comma nest.old.nest }
    ensures room { nest.old.room ≤ nest.new.room }
{
    nest.drop_all(Kinds::Conditionals);
    if candidate_in_object(nest) {
        State::KeyComma
    } else {
        behind_comma(nest.top())
    }
}

/// A type begins.
fn annotate(nest: &mut Nest, kind: FrameKind) -> State
    requires { 1 ≤ nest.old.room }
    ensures nest { landed result nest.new.nest ≡ moves.annotated kind nest.old.nest }
    ensures room { nest.old.room ≤ nest.new.room + 1 }
{
    nest.push(kind);
    State::TypeOperand
}

/// The type of a first parameter begins: parentheses are parameters.
fn annotate_first(nest: &mut Nest, parameters: FrameKind) -> State
    requires { 1 ≤ nest.old.room }
    ensures nest { landed result nest.new.nest ≡ moves.annotated frame.Annotation (nests.turned parameters nest.old.nest) }
    ensures room { nest.old.room ≤ nest.new.room + 1 }
{
    nest.turn(parameters);
    annotate(nest, FrameKind::Annotation)
}

/// A colon by the innermost frame.
fn pass_colon_over(nest: &mut Nest) -> State
    requires { 1 ≤ nest.old.room }
    ensures nest { landed result nest.new.nest ≡ moves.colon_over (nests.top nest.old.nest) nest.old.nest }
    ensures room { nest.old.room ≤ nest.new.room + 1 }
{
    match nest.top() {
        Some(FrameKind::Conditional) => pop_to(nest, State::Operand),
        Some(FrameKind::Case) => pop_to(nest, State::Statement),
        Some(FrameKind::Paren) => annotate_first(nest, FrameKind::ParenParameters),
        Some(FrameKind::AsyncParen) => annotate_first(nest, FrameKind::AsyncParenParameters),
        Some(
            FrameKind::Declaration
            | FrameKind::ParenParameters
            | FrameKind::AsyncParenParameters
            | FrameKind::Call
            | FrameKind::Parameters
            | FrameKind::Control
            | FrameKind::For
            | FrameKind::Bracket
            | FrameKind::Computed,
        ) => annotate(nest, FrameKind::Annotation),
        _ => State::Operand,
    }
}

/// Whether a colon is waited for around a concise body of an arrow function, or right around.
fn colon_waits(nest: &Nest) -> bool
    ensures { result ≡ moves.colon_waits nest.now.nest (nests.top nest.now.nest) }
{
    match nest.top() {
        Some(FrameKind::Arrow) => is_waiting(nest.under()),
        top => is_waiting(top),
    }
}

/// Where a colon is waited for around a concise body of an arrow function, that ends.
fn end_arrow(nest: &mut Nest)
    ensures nest { nest.new.nest ≡ moves.without_arrow nest.old.nest (nests.top nest.old.nest) }
    ensures room { nest.old.room ≤ nest.new.room }
{
    if let Some(FrameKind::Arrow) = nest.top() {
        if is_waiting(nest.under()) {
            nest.pop();
        }
    }
}

/// A colon behind no parameters.
fn pass_colon_plain(nest: &mut Nest) -> State
    requires { 1 ≤ nest.old.room }
    ensures nest { landed result nest.new.nest ≡ moves.colon_plain nest.old.nest }
    ensures room { nest.old.room ≤ nest.new.room + 1 }
{
    end_arrow(nest);
    pass_colon_over(nest)
}

/// A colon behind parentheses: of a conditional or `case`, or before the type of what an arrow function returns.
fn pass_colon_behind(nest: &mut Nest, kind: FrameKind) -> State
    requires { 1 ≤ nest.old.room }
    ensures nest { landed result nest.new.nest ≡ moves.colon_behind kind nest.old.nest }
    ensures room { nest.old.room ≤ nest.new.room + 1 }
{
    if colon_waits(nest) {
        pass_colon_plain(nest)
    } else {
        annotate(nest, kind)
    }
}

/// A colon.
pub(crate) fn pass_colon(nest: &mut Nest, grouping: Grouping) -> State
    requires { 1 ≤ nest.old.room }
    ensures nest { landed result nest.new.nest ≡ moves.colon grouping nest.old.nest }
    ensures room { nest.old.room ≤ nest.new.room + 1 }
{
    nest.drop_all(Kinds::Candidates);
    match grouping {
        Grouping::None => pass_colon_plain(nest),
        Grouping::Plain => pass_colon_behind(nest, FrameKind::ReturnType),
        Grouping::Async => pass_colon_behind(nest, FrameKind::AsyncReturnType),
    }
}

/// The place of the next `<` that may have begun type arguments, a concise body of an arrow function aside.
fn next_candidate(nest: &Nest, index: usize) -> Option<usize>
    requires { index < 100 }
    ensures value { result ≡ moves.next_candidate nest.now.nest index }
    ensures near { IfSome result (λ i. i ≤ index + 1) }
{
    match nest.kind_at(index) {
        Some(FrameKind::Candidate | FrameKind::AsyncCandidate | FrameKind::ParametersCandidate) =>
            Some(index),
        Some(FrameKind::Arrow) => {
            if over_candidate(nest.kind_at(index + 1)) {
                Some(index + 1)
            } else {
                None
            }
        }
        _ => None,
    }
}

/// The place of the next `<` around the one at this place; the type parameters of a function type are closed by themselves, since
/// its parameters come next.
fn candidate_around(nest: &Nest, index: usize) -> Option<usize>
    requires { index < 99 }
    ensures value { result ≡ moves.candidate_around nest.now.nest index (nests.kind_at index nest.now.nest) }
    ensures near { IfSome result (λ i. i ≤ index + 2) }
{
    if over_parameters_candidate(nest.kind_at(index)) {
        None
    } else {
        next_candidate(nest, index + 1)
    }
}

/// The place of the last `<` that so many right angle brackets close, where there are as many.
fn last_candidate(nest: &Nest, angles: Angles) -> Option<usize>
    ensures value { result ≡ moves.last_candidate angles nest.now.nest }
    ensures near { IfSome result (λ i. i < 8) }
{
    let first = next_candidate(nest, 0)?;
    if let Angles::One = angles {
        return Some(first);
    }
    let second = candidate_around(nest, first)?;
    if let Angles::Two = angles {
        return Some(second);
    }
    candidate_around(nest, second)
}

/// Right angle brackets behind an operand.
pub(crate) fn close_candidates(nest: &mut Nest, angles: Angles) -> State
    ensures nest { landed result nest.new.nest ≡ moves.greater angles nest.old.nest }
    ensures room { nest.old.room ≤ nest.new.room }
{
    match last_candidate(nest, angles) {
        None => {
            nest.drop_all(Kinds::Candidates);
            State::Operand
        }
        Some(index) => {
            let state = behind_candidate(nest.kind_at(index));
            nest.pop_times(index + 1);
            state
        }
    }
}

/// A right angle bracket in a type, behind which this state was.
fn close_angle(nest: &mut Nest, state: State) -> State
    ensures nest { landed result nest.new.nest ≡ moves.angle (landed state nest.old.nest) }
    ensures room { nest.old.room ≤ nest.new.room }
{
    match nest.top() {
        Some(FrameKind::InnerAngle) => pop_to(nest, State::TypeBrackets),
        Some(FrameKind::OuterAngle) => pop_to(nest, State::TypeEnd),
        Some(FrameKind::ParametersAngle) => pop_to(nest, State::TypeOperand),
        Some(FrameKind::OperandAngle) => pop_to(nest, State::Operand),
        Some(FrameKind::HeadAngle) => pop_back(nest),
        Some(FrameKind::ArgumentsAngle | FrameKind::Candidate) => {
            pop_to(nest, State::TypeArguments)
        }
        Some(FrameKind::AsyncAngle) => pop_to(nest, State::AsyncTypeArguments),
        _ => state,
    }
}

/// Right angle brackets in a type.
pub(crate) fn close_angles(nest: &mut Nest, angles: Angles) -> State
    ensures nest { landed result nest.new.nest ≡ moves.type_angles angles nest.old.nest }
    ensures room { nest.old.room ≤ nest.new.room }
{
    let one = close_angle(nest, State::TypeBrackets);
    if let Angles::One = angles {
        return one;
    }
    let two = close_angle(nest, one);
    if let Angles::Two = angles {
        return two;
    }
    close_angle(nest, two)
}

/// The body of a function begins.
pub(crate) fn begin_body(nest: &mut Nest) -> State
    ensures nest { landed result nest.new.nest ≡ moves.body nest.old.nest }
    ensures room { nest.old.room ≤ nest.new.room }
{
    let body = body_of(nest.top());
    nest.turn(body);
    State::Statement
}

/// The body of a class begins.
pub(crate) fn begin_class_body(nest: &mut Nest) -> State
    ensures nest { landed result nest.new.nest ≡ moves.class_body nest.old.nest }
    ensures room { nest.old.room ≤ nest.new.room }
{
    let body = class_body_of(nest.top());
    nest.turn(body);
    clear_pending(nest);
    State::Member
}

/// A function has no body.
pub(crate) fn end_head(nest: &mut Nest) -> State
    ensures nest { landed result nest.new.nest ≡ moves.no_body nest.old.nest }
    ensures room { nest.old.room ≤ nest.new.room }
{
    let head = nest.top();
    nest.pop();
    behind_no_body(head, nest.top())
}

/// A class has no body.
pub(crate) fn end_class_head(nest: &mut Nest) -> State
    ensures nest { landed result nest.new.nest ≡ moves.no_class_body nest.old.nest }
    ensures room { nest.old.room ≤ nest.new.room }
{
    let state = behind_no_class(nest.top());
    pop_to(nest, state)
}

/// What a decorator stands before begins.
pub(crate) fn end_decorator(nest: &mut Nest) -> State
    ensures nest { landed result nest.new.nest ≡ moves.no_decorator nest.old.nest }
    ensures room { nest.old.room ≤ nest.new.room }
{
    let state = decorated_of(nest.top());
    pop_to(nest, state)
}

/// A type ends.
pub(crate) fn end_type(nest: &mut Nest) -> State
    ensures nest { landed result nest.new.nest ≡ moves.end_type nest.old.nest }
    ensures room { nest.old.room ≤ nest.new.room }
{
    nest.drop_all(Kinds::TypeConditions);
    let mark = nest.top();
    nest.pop();
    behind_ended_type(mark, nest.top())
}

/// A template ends.
pub(crate) fn end_template(nest: &mut Nest) -> State
    ensures nest { landed result nest.new.nest ≡ moves.end_template nest.old.nest }
    ensures room { nest.old.room ≤ nest.new.room }
{
    match nest.top() {
        Some(FrameKind::Template) => pop_to(nest, State::After),
        Some(FrameKind::InnerTemplate) => pop_to(nest, State::TypeBrackets),
        Some(FrameKind::OuterTemplate) => pop_to(nest, State::TypeEnd),
        _ => State::After,
    }
}
