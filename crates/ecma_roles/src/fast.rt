//! Tokens that are taken into account before the table is asked: those that most of real code consists of. Each does what its
//! rows say; what is not known by the state and the two innermost frames is left to the table.
ghost use Rattle.std.specs.Prelude.{◌≡◌, false, true, None, IfSome};
ghost use Rattle.ecma_role_table.specs.Parts.{part_of_kind, sign_of_operator};
ghost use Rattle.ecma_role_table.specs.declared.part.PartKind.TheVariants.{Sign};
ghost use Rattle.ecma_role_table.specs.declared.part.Sign.TheVariants as sign;
ghost use Rattle.ecma_role_moves.specs.Moves as moves;
ghost use Rattle.ecma_role_moves.specs.Nest as nests;
ghost use Rattle.ecma_role_table.specs.declared.state.State.TheVariants as states;
ghost use Rattle.ecma_token.specs.Kinds.{token_kind};
ghost use Rattle.ecma_roles.specs.Fast as tokens;
ghost use Rattle.ecma_roles.specs.Fast.{Takes};

use crate::fast_word::take_word;
use ecma_role_moves::change::{begin_arrow, enter};
use ecma_role_moves::nest::Nest;
use ecma_role_table::frame::{FrameKind, over_candidate};
use ecma_role_table::state::State;
use ecma_token::{Token, TokenKind};
use ecma_word::{AssignOp, BinOpToken};

/// One frame more, where there is room for it, and the state behind it.
#[inline(always)]
pub(crate) fn push_to(nest: &mut Nest, kind: FrameKind, state: State) -> Option<State>
    ensures pushed { IfSome result (λ next. (next ≡ state) × (nest.new.nest ≡ nests.pushed kind nest.old.nest)) }
    ensures none { result ≡ None → nest.new.nest ≡ nest.old.nest }
{
    if !nest.has_room() {
        return None;
    }
    nest.push(kind);
    Some(state)
}

/// The head of a function, where there is room for it, and the state behind it.
#[inline(always)]
pub(crate) fn enter_to(nest: &mut Nest, kind: FrameKind) -> Option<State>
    ensures entered { IfSome result (λ next. (next ≡ states.Head) × (nest.new.nest ≡ moves.entered kind false nest.old.nest)) }
    ensures none { result ≡ None → nest.new.nest ≡ nest.old.nest }
{
    if !nest.has_room() {
        return None;
    }
    enter(nest, kind, false);
    Some(State::Head)
}

/// Whether an operand is complete, so that a sign other than a colon, `<` or `<<` is read as behind any operand.
#[inline(always)]
fn is_complete(state: State) -> bool
    ensures { result ≡ tokens.is_complete state }
{
    matches!(
        state,
        State::After | State::Label | State::Group | State::AfterPostfix
    )
}

/// The same, or a name that is declared is.
#[inline(always)]
fn may_go_on(state: State) -> bool
    ensures { result ≡ tokens.may_go_on state }
{
    is_complete(state) || matches!(state, State::AfterBinding)
}

/// The same, or an operand is expected, which may be missing before a right bracket.
#[inline(always)]
fn may_close(state: State) -> bool
    ensures { result ≡ tokens.may_close state }
{
    is_complete(state) || matches!(state, State::Operand)
}

/// Whether no method's name is read.
#[inline(always)]
fn has_no_method(nest: &Nest) -> bool
    ensures { result ≡ tokens.has_no_method nest.now.nest }
{
    let pending = nest.pending();
    !pending.is_async && !pending.is_generator
}

/// `.` behind an operand.
#[inline(always)]
fn dot(nest: &Nest, state: State, had_line_break: bool) -> Option<State>
    ensures { IfSome result (λ next. Takes state nest.now.nest (Sign sign.Dot) had_line_break next nest.now.nest) }
{
    if is_complete(state) {
        Some(State::Property)
    } else {
        None
    }
}

/// The state behind a comma that ends no conditional, no arrow function and no type arguments.
#[inline(always)]
fn comma_state(top: Option<FrameKind>) -> Option<State>
    ensures { result ≡ tokens.comma_state top }
{
    match top {
        Some(FrameKind::Object) => Some(State::Key),
        Some(FrameKind::Declaration) => Some(State::Binding),
        Some(FrameKind::Call | FrameKind::Bracket | FrameKind::Paren | FrameKind::Parameters) => {
            Some(State::Operand)
        }
        _ => None,
    }
}

/// `,` behind an operand, or behind a key that is its own value.
#[inline(always)]
fn comma(nest: &Nest, state: State, had_line_break: bool) -> Option<State>
    ensures { IfSome result (λ next. Takes state nest.now.nest (Sign sign.Comma) had_line_break next nest.now.nest) }
{
    if may_go_on(state) {
        return comma_state(nest.top());
    }
    match state {
        State::Key if has_no_method(nest) => Some(State::Key),
        _ => None,
    }
}

/// `(`
#[inline(always)]
fn left_paren(nest: &mut Nest, state: State, had_line_break: bool) -> Option<State>
    ensures takes { IfSome result (λ next. Takes state nest.old.nest (Sign sign.LParen) had_line_break next nest.new.nest) }
    ensures none { result ≡ None → nest.new.nest ≡ nest.old.nest }
{
    match state {
        State::Operand => push_to(nest, FrameKind::Paren, State::Operand),
        State::Head => push_to(nest, FrameKind::Parameters, State::Operand),
        State::Control => push_to(nest, FrameKind::Control, State::Operand),
        State::Statement => push_to(nest, FrameKind::Paren, State::Operand),
        State::ForKeyword => push_to(nest, FrameKind::For, State::ForHead),
        _ => {
            if is_complete(state) && !over_candidate(nest.top()) {
                push_to(nest, FrameKind::Call, State::Operand)
            } else {
                None
            }
        }
    }
}

/// Whether it decorates.
#[inline(always)]
fn decorates(over: Option<FrameKind>) -> bool
    ensures { result ≡ tokens.decorates over }
{
    matches!(
        over,
        Some(
            FrameKind::StatementDecorator | FrameKind::MemberDecorator | FrameKind::OperandDecorator
        )
    )
}

/// The state behind `)` that closes the innermost frame, around which is the other.
#[inline(always)]
fn paren_state(top: Option<FrameKind>, under: Option<FrameKind>) -> Option<State>
    ensures { result ≡ tokens.paren_state top under }
{
    match top {
        Some(FrameKind::Call) => {
            if decorates(under) {
                None
            } else {
                Some(State::After)
            }
        }
        Some(FrameKind::Parameters) => Some(State::HeadEnd),
        Some(FrameKind::Control | FrameKind::For) => Some(State::Statement),
        _ => None,
    }
}

/// Whether a group is right around.
#[inline(always)]
fn is_group(top: Option<FrameKind>) -> bool
    ensures { result ≡ tokens.is_group top }
{
    matches!(top, Some(FrameKind::Paren))
}

/// `)` behind an operand, or where one is missing.
#[inline(always)]
fn right_paren(nest: &mut Nest, state: State, had_line_break: bool) -> Option<State>
    ensures takes { IfSome result (λ next. Takes state nest.old.nest (Sign sign.RParen) had_line_break next nest.new.nest) }
    ensures none { result ≡ None → nest.new.nest ≡ nest.old.nest }
{
    if !may_close(state) {
        return None;
    }
    let top = nest.top();
    if is_group(top) {
        return close_group(nest, state, had_line_break);
    }
    let next = paren_state(top, nest.under())?;
    nest.pop();
    Some(next)
}

/// `)` of a group, behind an operand.
#[inline(always)]
fn close_group(nest: &mut Nest, state: State, had_line_break: bool) -> Option<State>
    requires { tokens.is_group (nests.top nest.old.nest) ≡ true }
    ensures takes { IfSome result (λ next. Takes state nest.old.nest (Sign sign.RParen) had_line_break next nest.new.nest) }
    ensures none { result ≡ None → nest.new.nest ≡ nest.old.nest }
{
    if !is_complete(state) || decorates(nest.under()) {
        return None;
    }
    nest.pop();
    Some(State::Group)
}

/// `[` behind an operand, or where one begins.
#[inline(always)]
fn left_bracket(nest: &mut Nest, state: State, had_line_break: bool) -> Option<State>
    ensures takes { IfSome result (λ next. Takes state nest.old.nest (Sign sign.LBracket) had_line_break next nest.new.nest) }
    ensures none { result ≡ None → nest.new.nest ≡ nest.old.nest }
{
    if may_close(state) {
        push_to(nest, FrameKind::Bracket, State::Operand)
    } else {
        None
    }
}

/// `]` behind an operand, or where one is missing.
#[inline(always)]
fn right_bracket(nest: &mut Nest, state: State, had_line_break: bool) -> Option<State>
    ensures takes { IfSome result (λ next. Takes state nest.old.nest (Sign sign.RBracket) had_line_break next nest.new.nest) }
    ensures none { result ≡ None → nest.new.nest ≡ nest.old.nest }
{
    if !may_close(state) {
        return None;
    }
    match nest.top() {
        Some(FrameKind::Bracket) => {
            nest.pop();
            Some(State::After)
        }
        _ => None,
    }
}

/// The body that begins behind the head of a function.
#[inline(always)]
fn body_kind(top: Option<FrameKind>) -> Option<FrameKind>
    ensures { result ≡ tokens.body_kind top }
{
    match top {
        Some(FrameKind::FunctionHead) => Some(FrameKind::Function),
        Some(FrameKind::FunctionExpressionHead) => Some(FrameKind::FunctionExpression),
        Some(FrameKind::MethodHead) => Some(FrameKind::Method),
        _ => None,
    }
}

/// `{` of an object, a block or a body.
#[inline(always)]
fn left_brace(nest: &mut Nest, state: State, had_line_break: bool) -> Option<State>
    ensures takes { IfSome result (λ next. Takes state nest.old.nest (Sign sign.LBrace) had_line_break next nest.new.nest) }
    ensures none { result ≡ None → nest.new.nest ≡ nest.old.nest }
{
    match state {
        State::Operand if has_no_method(nest) => push_to(nest, FrameKind::Object, State::Key),
        State::Statement => push_to(nest, FrameKind::Block, State::Statement),
        State::HeadEnd => {
            let kind = body_kind(nest.top())?;
            nest.turn(kind);
            Some(State::Statement)
        }
        State::ArrowBody => {
            nest.turn(FrameKind::ArrowBody);
            Some(State::Statement)
        }
        _ => None,
    }
}

/// Whether a right brace may come next.
#[inline(always)]
fn may_end(state: State) -> bool
    ensures { result ≡ tokens.may_end state }
{
    may_close(state) || matches!(state, State::Statement | State::Key)
}

/// The state behind `}` that closes the innermost frame.
#[inline(always)]
fn brace_state(top: Option<FrameKind>) -> Option<State>
    ensures { result ≡ tokens.brace_state top }
{
    match top {
        Some(FrameKind::Block | FrameKind::Function) => Some(State::Statement),
        Some(FrameKind::FunctionExpression | FrameKind::Object) => Some(State::After),
        Some(FrameKind::ArrowBody) => Some(State::ArrowEnd),
        _ => None,
    }
}

/// `}` of a block, a body or an object.
#[inline(always)]
fn right_brace(nest: &mut Nest, state: State, had_line_break: bool) -> Option<State>
    ensures takes { IfSome result (λ next. Takes state nest.old.nest (Sign sign.RBrace) had_line_break next nest.new.nest) }
    ensures none { result ≡ None → nest.new.nest ≡ nest.old.nest }
{
    if !may_end(state) || !has_no_method(nest) {
        return None;
    }
    let next = brace_state(nest.top())?;
    nest.pop();
    Some(next)
}

/// Whether statements are right around.
#[inline(always)]
fn holds_statements(over: Option<FrameKind>) -> bool
    ensures { result ≡ tokens.holds_statements over }
{
    match over {
        None => true,
        Some(kind) => matches!(
            kind,
            FrameKind::Block
                | FrameKind::Function
                | FrameKind::FunctionExpression
                | FrameKind::Method
                | FrameKind::ArrowBody
        ),
    }
}

/// Whether something is declared.
#[inline(always)]
fn declares(over: Option<FrameKind>) -> bool
    ensures { result ≡ tokens.declares over }
{
    matches!(over, Some(FrameKind::Declaration))
}

/// The state behind a semicolon that ends what is right inside of this frame.
#[inline(always)]
fn semicolon_state(over: Option<FrameKind>) -> Option<State>
    ensures { result ≡ tokens.semicolon_state over }
{
    match over {
        Some(FrameKind::For) => Some(State::Operand),
        _ => {
            if holds_statements(over) {
                Some(State::Statement)
            } else {
                None
            }
        }
    }
}

/// `;` behind an operand, a name that is declared or `break`.
#[inline(always)]
fn semicolon(nest: &mut Nest, state: State, had_line_break: bool) -> Option<State>
    ensures takes { IfSome result (λ next. Takes state nest.old.nest (Sign sign.Semi) had_line_break next nest.new.nest) }
    ensures none { result ≡ None → nest.new.nest ≡ nest.old.nest }
{
    if !may_go_on(state) {
        return semicolon_behind_break(nest, state, had_line_break);
    }
    let top = nest.top();
    if declares(top) {
        let next = semicolon_state(nest.under())?;
        nest.pop();
        return Some(next);
    }
    semicolon_state(top)
}

/// `;` behind `break` or `continue`.
#[inline(always)]
fn semicolon_behind_break(nest: &Nest, state: State, had_line_break: bool) -> Option<State>
    ensures { IfSome result (λ next. Takes state nest.now.nest (Sign sign.Semi) had_line_break next nest.now.nest) }
{
    match state {
        State::Break if holds_statements(nest.top()) => Some(State::Statement),
        _ => None,
    }
}

/// The state behind a colon that ends what is right inside of this frame.
#[inline(always)]
fn colon_state(top: Option<FrameKind>) -> Option<State>
    ensures { result ≡ tokens.colon_state top }
{
    match top {
        Some(FrameKind::Conditional) => Some(State::Operand),
        Some(FrameKind::Case) => Some(State::Statement),
        _ => None,
    }
}

/// `:` of a key, a conditional or a `case`.
#[inline(always)]
fn colon(nest: &mut Nest, state: State, had_line_break: bool) -> Option<State>
    ensures takes { IfSome result (λ next. Takes state nest.old.nest (Sign sign.Colon) had_line_break next nest.new.nest) }
    ensures none { result ≡ None → nest.new.nest ≡ nest.old.nest }
{
    match state {
        State::Key if has_no_method(nest) => Some(State::Operand),
        State::After => {
            let next = colon_state(nest.top())?;
            nest.pop();
            Some(next)
        }
        _ => None,
    }
}

/// `?` behind an operand.
#[inline(always)]
fn question_mark(nest: &mut Nest, state: State, had_line_break: bool) -> Option<State>
    ensures takes { IfSome result (λ next. Takes state nest.old.nest (Sign sign.QuestionMark) had_line_break next nest.new.nest) }
    ensures none { result ≡ None → nest.new.nest ≡ nest.old.nest }
{
    if is_complete(state) && !over_candidate(nest.top()) {
        push_to(nest, FrameKind::Conditional, State::Conditional)
    } else {
        None
    }
}

/// `=` behind an operand or a name that is declared.
#[inline(always)]
fn equals(nest: &Nest, state: State, had_line_break: bool) -> Option<State>
    ensures { IfSome result (λ next. Takes state nest.now.nest (Sign sign.Assign) had_line_break next nest.now.nest) }
{
    if may_go_on(state) && !over_candidate(nest.top()) {
        Some(State::Operand)
    } else {
        None
    }
}

/// Whether it is no bracket of types.
#[inline(always)]
fn is_operator(operator: BinOpToken) -> bool
    ensures { result ≡ tokens.is_operator (Sign (sign_of_operator operator)) }
{
    !matches!(
        operator,
        BinOpToken::Lt
            | BinOpToken::LShift
            | BinOpToken::Gt
            | BinOpToken::RShift
            | BinOpToken::ZeroFillRShift
            | BinOpToken::GtEq
    )
}

/// An operator behind an operand.
#[inline(always)]
fn operator(nest: &Nest, state: State, operator: BinOpToken, had_line_break: bool) -> Option<State>
    ensures { IfSome result (λ next. Takes state nest.now.nest (Sign (sign_of_operator operator)) had_line_break next nest.now.nest) }
{
    if is_operator(operator) && is_complete(state) && !over_candidate(nest.top()) {
        Some(State::Operand)
    } else {
        None
    }
}

/// `++` or `--` behind an operand.
#[inline(always)]
fn update(nest: &Nest, state: State, had_line_break: bool) -> Option<State>
    ensures { IfSome result (λ next. Takes state nest.now.nest (Sign sign.Update) had_line_break next nest.now.nest) }
{
    if is_complete(state) && !had_line_break && !over_candidate(nest.top()) {
        Some(State::AfterPostfix)
    } else {
        None
    }
}

/// `=>` behind an operand: its parameters were read as a group, or as a name.
#[inline(always)]
fn arrow(nest: &mut Nest, state: State, had_line_break: bool) -> Option<State>
    ensures takes { IfSome result (λ next. Takes state nest.old.nest (Sign sign.Arrow) had_line_break next nest.new.nest) }
    ensures none { result ≡ None → nest.new.nest ≡ nest.old.nest }
{
    if !is_complete(state) || !nest.has_room() {
        return None;
    }
    begin_arrow(nest, false);
    Some(State::ArrowBody)
}

/// `!` before an operand.
#[inline(always)]
fn bang(nest: &Nest, state: State, had_line_break: bool) -> Option<State>
    ensures { IfSome result (λ next. Takes state nest.now.nest (Sign sign.Bang) had_line_break next nest.now.nest) }
{
    match state {
        State::Operand => Some(State::Operand),
        _ => None,
    }
}

/// A number or a string.
#[inline(always)]
fn literal(nest: &Nest, state: State, had_line_break: bool) -> Option<State>
    ensures { IfSome result (λ next. Takes state nest.now.nest (Sign sign.Literal) had_line_break next nest.now.nest) }
{
    match state {
        State::Operand | State::Conditional | State::Statement => Some(State::After),
        State::Key => Some(State::Key),
        State::Restricted if !had_line_break => Some(State::After),
        _ => None,
    }
}

/// Takes a token into account where that is known without the table, and returns the state behind it.
#[inline(always)]
pub(crate) fn take(
    nest: &mut Nest,
    state: State,
    token: &Token,
    had_line_break: bool,
) -> Option<State>
    ensures takes { IfSome result (λ next. Takes state nest.old.nest (part_of_kind (token_kind token.now)) had_line_break next nest.new.nest) }
    ensures none { result ≡ None → nest.new.nest ≡ nest.old.nest }
{
    match token {
        Token::Word(word) => take_word(nest, state, word.kind(), had_line_break),
        Token::Dot => dot(nest, state, had_line_break),
        Token::Comma => comma(nest, state, had_line_break),
        Token::LParen => left_paren(nest, state, had_line_break),
        Token::RParen => right_paren(nest, state, had_line_break),
        Token::LBracket => left_bracket(nest, state, had_line_break),
        Token::RBracket => right_bracket(nest, state, had_line_break),
        Token::LBrace => left_brace(nest, state, had_line_break),
        Token::RBrace => right_brace(nest, state, had_line_break),
        Token::Semi => semicolon(nest, state, had_line_break),
        Token::Colon => colon(nest, state, had_line_break),
        Token::QuestionMark => question_mark(nest, state, had_line_break),
        Token::AssignOp(AssignOp::Assign) => equals(nest, state, had_line_break),
        Token::BinOp(it) => operator(nest, state, *it, had_line_break),
        Token::Bang => bang(nest, state, had_line_break),
        Token::PlusPlus | Token::MinusMinus => update(nest, state, had_line_break),
        Token::Arrow => arrow(nest, state, had_line_break),
        Token::Str { .. } | Token::Num { .. } => literal(nest, state, had_line_break),
        _ => None,
    }
}

/// The same of a token's kind, for who keeps kinds alone. [`take`] matches tokens themselves: to ask each for its kind first
/// takes four instructions a token more.
#[inline(always)]
pub(crate) fn take_kind(
    nest: &mut Nest,
    state: State,
    kind: TokenKind,
    had_line_break: bool,
) -> Option<State>
    ensures takes { IfSome result (λ next. Takes state nest.old.nest (part_of_kind kind) had_line_break next nest.new.nest) }
    ensures none { result ≡ None → nest.new.nest ≡ nest.old.nest }
{
    match kind {
        TokenKind::Word(word) => take_word(nest, state, word, had_line_break),
        TokenKind::Dot => dot(nest, state, had_line_break),
        TokenKind::Comma => comma(nest, state, had_line_break),
        TokenKind::LParen => left_paren(nest, state, had_line_break),
        TokenKind::RParen => right_paren(nest, state, had_line_break),
        TokenKind::LBracket => left_bracket(nest, state, had_line_break),
        TokenKind::RBracket => right_bracket(nest, state, had_line_break),
        TokenKind::LBrace => left_brace(nest, state, had_line_break),
        TokenKind::RBrace => right_brace(nest, state, had_line_break),
        TokenKind::Semi => semicolon(nest, state, had_line_break),
        TokenKind::Colon => colon(nest, state, had_line_break),
        TokenKind::QuestionMark => question_mark(nest, state, had_line_break),
        TokenKind::AssignOp(AssignOp::Assign) => equals(nest, state, had_line_break),
        TokenKind::BinOp(it) => operator(nest, state, it, had_line_break),
        TokenKind::Bang => bang(nest, state, had_line_break),
        TokenKind::PlusPlus | TokenKind::MinusMinus => update(nest, state, had_line_break),
        TokenKind::Arrow => arrow(nest, state, had_line_break),
        TokenKind::Str | TokenKind::Num => literal(nest, state, had_line_break),
        _ => None,
    }
}
