//! What a read goes by, beside the text.
ghost use Rattle.std.specs.Prelude.{◌≡◌};
ghost use Rattle.ecma_state.specs.Mode.{type_mode, gap_mode, is_template, is_tpl_element, passes_space};
ghost use Rattle.ecma_state.specs.TokenAt.{ts1085};

use crate::settings::Settings;
use ecma_contexts::TokenContext;
use ecma_grammar::GapMode;
use ecma_place::BytePos;
use ecma_syntax::{Context, EsVersion, Syntax};
use ecma_token::TokenKind;

/// What a read goes by, beside the text.
#[derive(Debug, Clone, Copy)]
pub struct Mode {
    pub settings: Settings,
    pub context: Context,
    /// The innermost context.
    pub top: Option<TokenContext>,
    /// Whether no token but a shebang was read.
    pub first: bool,
    /// Whether no token at all was read, so that a shebang is allowed.
    pub shebang_allowed: bool,
    /// The kind of the token before.
    pub previous: Option<TokenKind>,
    /// Where the back quote is that opened a template last; the start place where none did.
    pub opened: BytePos,
}

impl Mode {
    /// Whether `<` and `>` are read as in types.
    pub fn type_mode(&self) -> bool
        ensures { result ≡ type_mode self.now }
    {
        matches!(self.settings.syntax, Syntax::Typescript(_))
            && self.context.in_type
            && !self.context.should_not_lex_lt_or_gt_as_type
    }

    /// Whether legacy octals are reported as TypeScript does: for targets from the fifth edition on.
    pub fn ts1085(&self) -> bool
        ensures { result ≡ ts1085 self.now }
    {
        matches!(self.settings.syntax, Syntax::Typescript(_))
            && !matches!(self.settings.target, EsVersion::Es3)
    }

    /// Whether a template's text is read.
    #[inline(always)]
    pub fn is_in_template(&self) -> bool
        ensures { result ≡ is_template self.now.top }
    {
        matches!(self.top, Some(TokenContext::Tpl))
    }

    /// Whether template text comes before.
    pub fn is_after_template(&self) -> bool
        ensures { result ≡ is_tpl_element self.now.previous }
    {
        matches!(self.previous, Some(TokenKind::Template))
    }

    /// Whether white space is passed before a token.
    #[inline(always)]
    pub fn passes_space(&self) -> bool
        ensures { result ≡ passes_space self.now.top }
    {
        !self.is_in_template() && !matches!(self.top, Some(TokenContext::JSXExpr))
    }

    /// What the gap before the next token is read by.
    pub fn gap_mode(&self) -> GapMode
        ensures { result ≡ gap_mode self.now }
    {
        GapMode {
            first: self.first,
            type_mode: self.type_mode(),
            keeps_space: matches!(self.top, Some(TokenContext::JSXExpr)),
            template: self.is_in_template(),
            prev: self.previous,
            collect: self.settings.comments,
        }
    }
}
