//! The table: for each state its row.
ghost use Rattle.std.specs.Prelude.{◌≡◌, true, false};
ghost use Rattle.ecma_role_table.specs.Table as table;

use crate::frame::{Around, FrameKind};
use crate::moves::Move;
use crate::part::PartKind;
use crate::state::State;
use crate::{complete, members, modules, operands, statements, types};

/// What a row asks besides the token.
#[derive(Clone, Copy)]
pub struct Seen {
    /// Whether a line terminator stands before the token.
    pub had_line_break: bool,
    /// Whether the text is TypeScript's.
    pub typescript: bool,
    /// What the function around is.
    pub around: Around,
    /// What the method is whose name is read.
    pub method: Around,
    /// The innermost frame.
    pub top: Option<FrameKind>,
    /// The one right around it.
    pub under: Option<FrameKind>,
}

/// In the heads and bodies of functions, classes and objects, and in types.
#[tactic(auto, unfolding(crate::specs::Table::row))]
fn row_of_parts(state: State, kind: PartKind, seen: Seen) -> Move
    requires { table.is_of_parts state ≡ true }
    ensures { result ≡ table.row state kind seen }
{
    match state {
        State::Head => members::function_head(kind),
        State::HeadEnd => members::function_head_end(kind),
        State::ClassHead => members::class_head(kind),
        State::Member => members::member(kind, seen.method),
        State::MemberAsync => members::behind_member_async(kind, seen.had_line_break),
        State::Key => members::key(kind, seen.method),
        State::KeyAsync => members::behind_key_async(kind),
        State::KeyComma => members::behind_key_comma(kind),
        State::KeyCommaName => members::behind_key_comma_name(kind),
        State::KeyCommaParameter => members::behind_key_comma_parameter(kind),
        State::AliasHead => members::alias_head(kind),
        State::InterfaceHead => members::interface_head(kind),
        State::Decorator => members::decorator(kind),
        State::AfterDecorator => members::behind_decorator(kind, seen.had_line_break),
        State::TypeOperand => types::type_operand(kind),
        State::TypeEnd => types::behind_type(kind, seen.had_line_break, seen.top),
        State::TypeName => types::behind_type_name(kind, seen.had_line_break, seen.top),
        State::TypeParameters => types::behind_type_parameters(kind, seen.had_line_break, seen.top),
        State::Asserts => types::behind_asserts(kind, seen.had_line_break),
        State::TypeProperty => types::behind_type_dot(kind),
        State::TypeParen => types::in_type_paren(kind),
        State::TypeParenName => types::behind_type_paren_name(kind),
        _ => types::in_type_brackets(kind),
    }
}

/// Where no operand is expected or complete.
#[tactic(auto, unfolding(crate::specs::Table::row))]
fn row_of_statements(state: State, kind: PartKind, seen: Seen) -> Move
    requires { table.is_of_operands state ≡ false }
    ensures { result ≡ table.row state kind seen }
{
    match state {
        State::Statement => statements::statement(kind, seen.around),
        State::ExportDefault => statements::export_default(kind, seen.around),
        State::Restricted => statements::restricted(kind, seen.had_line_break),
        State::Break => statements::behind_break(kind, seen.had_line_break),
        State::Default => statements::behind_default(kind),
        State::Control => statements::before_control(kind),
        State::ForKeyword => statements::behind_for(kind),
        State::ForHead => statements::for_head(kind),
        State::MaybeLet => statements::behind_let(kind),
        State::MaybeType => statements::behind_type_word(kind, seen.had_line_break),
        State::MaybeInterface => statements::behind_interface_word(kind, seen.had_line_break),
        State::EnumHead => statements::enum_head(kind),
        State::Binding => statements::binding(kind),
        State::AfterBinding => statements::behind_binding(kind, seen.had_line_break),
        State::Label => statements::behind_first_name(kind),
        State::ImportStart => modules::behind_import(kind),
        State::Import => modules::import_names(kind),
        State::ImportAll => modules::behind_import_all(kind),
        State::ImportAs => modules::behind_import_as(kind),
        State::ImportEnd => modules::behind_module_name(kind, seen.had_line_break),
        State::ImportWith => modules::behind_import_with(kind),
        State::ImportEquals => modules::behind_import_equals(kind),
        State::ImportEqualsName => modules::behind_import_equals_name(kind),
        State::Export => modules::behind_export(kind),
        State::ExportType => modules::behind_export_type(kind),
        State::ExportEnd => modules::behind_export_clause(kind),
        State::Clause => modules::clause(kind),
        _ => row_of_parts(state, kind, seen),
    }
}

/// What is to be done with a token in a state.
#[tactic(auto, unfolding(crate::specs::Table::row))]
pub fn row(state: State, kind: PartKind, seen: Seen) -> Move
    ensures { result ≡ table.row state kind seen }
{
    let had_line_break = seen.had_line_break;
    let typescript = seen.typescript;
    match state {
        State::Operand => operands::operand(kind, seen.around, typescript),
        State::Conditional => operands::behind_question(kind, seen.top),
        State::ArrowBody => operands::arrow_body(kind),
        State::Quasi => operands::template_text(kind),
        State::After => {
            complete::after_operand(kind, had_line_break, typescript, seen.top, seen.under)
        }
        State::AfterPostfix => complete::after_postfix(kind),
        State::Group => complete::behind_group(kind),
        State::GroupParameters => complete::behind_parameters(kind),
        State::AsyncGroup => complete::behind_async_group(kind),
        State::AsyncGroupParameters => complete::behind_async_parameters(kind, seen.typescript),
        State::Async => complete::behind_async(kind, had_line_break, typescript),
        State::AsyncStatement => {
            complete::behind_async_statement(kind, had_line_break, typescript)
        }
        State::AsyncAs => complete::behind_async_as(kind),
        State::AsyncParameter => complete::behind_async_name(kind),
        State::TypeParameter => complete::type_parameter(kind, seen.top),
        State::AsyncTypeArguments => complete::behind_async_type_arguments(kind),
        State::TypeArguments => complete::behind_type_arguments(kind, had_line_break, seen.top),
        State::FunctionTypeArguments => complete::behind_function_type_arguments(kind),
        State::ImportExpression => complete::import_expression(kind),
        State::Property => complete::behind_dot(kind),
        State::OptionalProperty => complete::behind_optional_dot(kind),
        State::ArrowEnd => complete::behind_arrow_body(kind),
        _ => row_of_statements(state, kind, seen),
    }
}
