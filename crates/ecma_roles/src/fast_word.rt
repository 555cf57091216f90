//! Words that are taken into account before the table is asked.
ghost use Rattle.std.specs.Prelude.{◌≡◌, None, IfSome};
ghost use Rattle.ecma_role_table.specs.Parts.{part_of_keyword, part_of_known, part_of_word};
ghost use Rattle.ecma_role_table.specs.declared.part.Name.TheVariants as name;
ghost use Rattle.ecma_role_table.specs.declared.part.PartKind.TheVariants.{Name, Reserved};
ghost use Rattle.ecma_role_table.specs.declared.part.Reserved.TheVariants as reserved;
ghost use Rattle.ecma_role_table.specs.declared.state.State.TheVariants as states;
ghost use Rattle.ecma_roles.specs.Fast as tokens;
ghost use Rattle.ecma_roles.specs.Fast.{Takes};

use crate::fast::{enter_to, push_to};
use ecma_role_moves::nest::Nest;
use ecma_role_table::frame::FrameKind;
use ecma_role_table::state::State;
use ecma_word::{IdentKind, Keyword, KnownIdent, WordKind};

/// A name that no row asks for.
#[inline(always)]
fn name(nest: &mut Nest, state: State, had_line_break: bool) -> Option<State>
    ensures takes { IfSome result (λ next. Takes state nest.old.nest (Name name.Other) had_line_break next nest.new.nest) }
    ensures none { result ≡ None → nest.new.nest ≡ nest.old.nest }
{
    match state {
        State::Operand | State::Conditional | State::Property | State::ArrowBody => {
            Some(State::After)
        }
        State::Statement => Some(State::Label),
        State::Binding => Some(State::AfterBinding),
        State::MaybeLet => push_to(nest, FrameKind::Declaration, State::AfterBinding),
        State::Key => Some(State::Key),
        State::Head => Some(State::Head),
        State::Restricted if !had_line_break => Some(State::After),
        _ => None,
    }
}

/// Whether such a name is an operand by itself.
#[inline(always)]
fn is_operand(name: KnownIdent) -> bool
    ensures { result ≡ tokens.is_operand (part_of_known name) }
{
    !matches!(name, KnownIdent::Async | KnownIdent::Enum)
}

/// A name that a row asks for.
#[inline(always)]
fn known(nest: &Nest, state: State, name: KnownIdent, had_line_break: bool) -> Option<State>
    ensures { IfSome result (λ next. Takes state nest.now.nest (part_of_known name) had_line_break next nest.now.nest) }
{
    match state {
        State::Property => Some(State::After),
        State::Operand if is_operand(name) => Some(State::After),
        _ => None,
    }
}

/// `null`, `true` or `false`.
#[inline(always)]
fn constant(nest: &Nest, state: State, had_line_break: bool) -> Option<State>
    ensures { IfSome result (λ next. Takes state nest.now.nest (Reserved reserved.Constant) had_line_break next nest.now.nest) }
{
    match state {
        State::Operand | State::Conditional | State::Property => Some(State::After),
        State::Restricted if !had_line_break => Some(State::After),
        _ => None,
    }
}

/// A keyword where a statement begins.
#[inline(always)]
fn begin_statement(nest: &mut Nest, keyword: Keyword, had_line_break: bool) -> Option<State>
    ensures takes { IfSome result (λ next. Takes states.Statement nest.old.nest (part_of_keyword keyword) had_line_break next nest.new.nest) }
    ensures none { result ≡ None → nest.new.nest ≡ nest.old.nest }
{
    match keyword {
        Keyword::Return | Keyword::Throw => Some(State::Restricted),
        Keyword::Var | Keyword::Const => push_to(nest, FrameKind::Declaration, State::Binding),
        Keyword::Let => Some(State::MaybeLet),
        Keyword::If | Keyword::While | Keyword::Switch | Keyword::Catch => Some(State::Control),
        Keyword::Else | Keyword::Try => Some(State::Statement),
        Keyword::Function => enter_to(nest, FrameKind::FunctionHead),
        Keyword::For => Some(State::ForKeyword),
        Keyword::Case => push_to(nest, FrameKind::Case, State::Operand),
        Keyword::Break | Keyword::Continue => Some(State::Break),
        Keyword::This => Some(State::After),
        _ => None,
    }
}

/// A keyword where an operand is expected.
#[inline(always)]
fn begin_operand(nest: &mut Nest, keyword: Keyword, had_line_break: bool) -> Option<State>
    ensures takes { IfSome result (λ next. Takes states.Operand nest.old.nest (part_of_keyword keyword) had_line_break next nest.new.nest) }
    ensures none { result ≡ None → nest.new.nest ≡ nest.old.nest }
{
    match keyword {
        Keyword::Function => enter_to(nest, FrameKind::FunctionExpressionHead),
        Keyword::This | Keyword::Super => Some(State::After),
        Keyword::TypeOf | Keyword::Void | Keyword::Delete | Keyword::New => Some(State::Operand),
        _ => None,
    }
}

/// A keyword where the head of a `for` begins.
#[inline(always)]
fn begin_head(nest: &mut Nest, keyword: Keyword, had_line_break: bool) -> Option<State>
    ensures takes { IfSome result (λ next. Takes states.ForHead nest.old.nest (part_of_keyword keyword) had_line_break next nest.new.nest) }
    ensures none { result ≡ None → nest.new.nest ≡ nest.old.nest }
{
    match keyword {
        Keyword::Var | Keyword::Const => push_to(nest, FrameKind::Declaration, State::Binding),
        Keyword::Let => Some(State::MaybeLet),
        _ => None,
    }
}

/// A keyword.
#[inline(always)]
fn take_keyword(
    nest: &mut Nest,
    state: State,
    keyword: Keyword,
    had_line_break: bool,
) -> Option<State>
    ensures takes { IfSome result (λ next. Takes state nest.old.nest (part_of_keyword keyword) had_line_break next nest.new.nest) }
    ensures none { result ≡ None → nest.new.nest ≡ nest.old.nest }
{
    match state {
        State::Statement => begin_statement(nest, keyword, had_line_break),
        State::Operand => begin_operand(nest, keyword, had_line_break),
        State::ForHead => begin_head(nest, keyword, had_line_break),
        State::Property => Some(State::After),
        _ => None,
    }
}

/// Takes a word into account where that is known without the table, and returns the state behind it.
#[inline(always)]
pub(crate) fn take_word(
    nest: &mut Nest,
    state: State,
    word: WordKind,
    had_line_break: bool,
) -> Option<State>
    ensures takes { IfSome result (λ next. Takes state nest.old.nest (part_of_word word) had_line_break next nest.new.nest) }
    ensures none { result ≡ None → nest.new.nest ≡ nest.old.nest }
{
    match word {
        WordKind::Ident(IdentKind::Other) => name(nest, state, had_line_break),
        WordKind::Ident(IdentKind::Known(it)) => known(nest, state, it, had_line_break),
        WordKind::Null | WordKind::True | WordKind::False => constant(nest, state, had_line_break),
        WordKind::Keyword(it) => take_keyword(nest, state, it, had_line_break),
    }
}
