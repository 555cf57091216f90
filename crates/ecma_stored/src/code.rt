//! The flags of the code that is read, as bytes.
ghost use Rattle.std.specs.Prelude.{◌≡◌, ◌<◌};
ghost use Rattle.ecma_stored.specs.Stored as stored;

use crate::parts::flag_at;
use ecma_syntax::{Context, ExpressionContext};

/// The flags in the order of the bytes.
pub(crate) fn code_flags(context: &Context) -> [bool; 29]
    ensures { result ≡ stored.code_flags context.now }
{
    [
        context.ignore_error,
        context.module,
        context.can_be_module,
        context.strict,
        context.expr_ctx.for_loop_init,
        context.expr_ctx.for_await_loop_init,
        context.include_in_expr,
        context.in_async,
        context.in_generator,
        context.in_static_block,
        context.is_continue_allowed,
        context.is_break_allowed,
        context.in_type,
        context.should_not_lex_lt_or_gt_as_type,
        context.in_declare,
        context.in_cond_expr,
        context.will_expect_colon_for_cond,
        context.in_class,
        context.in_class_field,
        context.in_function,
        context.inside_non_arrow_function_scope,
        context.in_parameters,
        context.has_super_class,
        context.in_property_name,
        context.in_forced_jsx_context,
        context.allow_direct_super,
        context.ignore_else_clause,
        context.disallow_conditional_types,
        context.allow_using_decl,
    ]
}

/// The flags that bytes say.
pub(crate) fn context_in(head: &[u8; 90]) -> Context
    ensures { result ≡ stored.context_in head.now }
{
    let expr_ctx = ExpressionContext {
        for_loop_init: flag_at(head, 65),
        for_await_loop_init: flag_at(head, 66),
    };
    Context {
        ignore_error: flag_at(head, 61),
        module: flag_at(head, 62),
        can_be_module: flag_at(head, 63),
        strict: flag_at(head, 64),
        expr_ctx,
        include_in_expr: flag_at(head, 67),
        in_async: flag_at(head, 68),
        in_generator: flag_at(head, 69),
        in_static_block: flag_at(head, 70),
        is_continue_allowed: flag_at(head, 71),
        is_break_allowed: flag_at(head, 72),
        in_type: flag_at(head, 73),
        should_not_lex_lt_or_gt_as_type: flag_at(head, 74),
        in_declare: flag_at(head, 75),
        in_cond_expr: flag_at(head, 76),
        will_expect_colon_for_cond: flag_at(head, 77),
        in_class: flag_at(head, 78),
        in_class_field: flag_at(head, 79),
        in_function: flag_at(head, 80),
        inside_non_arrow_function_scope: flag_at(head, 81),
        in_parameters: flag_at(head, 82),
        has_super_class: flag_at(head, 83),
        in_property_name: flag_at(head, 84),
        in_forced_jsx_context: flag_at(head, 85),
        allow_direct_super: flag_at(head, 86),
        ignore_else_clause: flag_at(head, 87),
        disallow_conditional_types: flag_at(head, 88),
        allow_using_decl: flag_at(head, 89),
    }
}
