//! What the reading of a gap goes by.
use ecma_token::TokenKind;

/// What the reading of a gap goes by, beside the text.
#[derive(Debug, Clone, Copy, PartialEq, Eq)]
pub struct GapMode {
    /// Whether no token but a shebang was read.
    pub first: bool,
    /// Whether `<` and `>` are read as in types.
    pub type_mode: bool,
    /// Whether the innermost context keeps space, so that no white space is passed.
    pub keeps_space: bool,
    /// Whether the text of a template is read, before which there is no gap.
    pub template: bool,
    /// The kind of the token before.
    pub prev: Option<TokenKind>,
    /// Whether comments are collected.
    pub collect: bool,
}
