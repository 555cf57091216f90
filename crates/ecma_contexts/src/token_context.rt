//! What encloses the place that is read.

/// What encloses the place that is read, as far as the lexer knows by itself.
#[derive(Debug, Clone, Copy, PartialEq, Eq, Default)]
pub enum TokenContext {
    /// A block, and what encloses a whole text.
    #[default]
    BraceStmt,
    /// An object literal.
    BraceExpr,
    /// `${` and `}` in a template.
    TplQuasi,
    /// The parentheses of a statement's head.
    ParenStmt {
        /// Whether the statement is a `for`.
        is_for_loop: bool,
    },
    /// Other parentheses.
    ParenExpr,
    /// A template.
    Tpl,
    /// A function that is an expression.
    FnExpr,
    /// A class that is an expression.
    ClassExpr,
    JSXOpeningTag,
    JSXClosingTag,
    JSXExpr,
}
